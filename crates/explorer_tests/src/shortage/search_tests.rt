//! Searches of a scenario.

use crate::shortage::rounds::{Attempt, Call, FINE, answered, is_refused_then_answers};
use crate::shortage::world_tests::FIVE_STEPS;
use scenario_search::{Found, Kind, Request, explore, explore_variant, read_scenario};
use std::alloc::Global;
use std::process::Abort;
use step_core::{NoMemory, SeatId, Variant};

/// One acquire of a counter at 0.
const ONE_ACQUIRE: &[u8] = b"counter 0\nseat 0: acquire 0\nsettled\n";

/// What came of a search that finds a sleeper at the end of this schedule.
fn searched(answer: Result<Found<Kind>, NoMemory>, expected: &[SeatId]) -> Attempt {
    match answer {
        Ok(Found::Bad { schedule, kind }) => {
            answered(schedule.as_slice() == expected && kind == Kind::Stuck)
        }
        Ok(_) => Attempt::Wrong,
        Err(NoMemory) => Attempt::Refused,
    }
}

#[derive(Drop)]
struct Exploring<'r>(&'r Request);

impl Call for Exploring<'_> {
    fn attempt(&mut self, alloc: Global) -> Attempt {
        searched(explore(alloc, self.0, 32), FIVE_STEPS.as_slice())
    }
}

/// Without its second look the acquire sleeps one step sooner.
#[derive(Drop)]
struct ExploringVariant<'r>(&'r Request);

impl Call for ExploringVariant<'_> {
    fn attempt(&mut self, alloc: Global) -> Attempt {
        let answer = explore_variant(alloc, self.0, 32, Variant::NoLook);
        searched(answer, &FIVE_STEPS[..4])
    }
}

fn searches(rt: &impl Abort, alloc: Global, request: &Request) {
    is_refused_then_answers(rt, alloc, FINE, &mut Exploring(request));
    is_refused_then_answers(rt, alloc, FINE, &mut ExploringVariant(request));
}

#[test]
fn a_search_is_refused_or_made(rt: HostRuntime) {
    let request = read_scenario(rt.alloc(), ONE_ACQUIRE).expect(&rt, "a request");
    searches(&rt, rt.alloc(), &request);
}
