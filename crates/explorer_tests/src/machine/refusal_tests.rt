//! Schedules that are refused, of which more stand in the gallery's cases, and the numbers of the refusals.

use crate::assertion::holds;
use crate::machine::again::run_again;
use crate::machine::given::{scenario, seats_again};
use std::alloc::Global;
use std::process::Abort;
use step_core::{Misuse, RunRefused, ScenarioRefused, StepRefused};

/// A scenario, a schedule, at which step it is refused, and why.
type Row = (&'static str, &'static [u16], usize, StepRefused);

static REFUSED: [Row; 3] = [
    (
        "counter 0\nseat 0: acquire 0\nsettled\n",
        &[0, 0, 0, 0, 0, 0],
        5,
        StepRefused::Asleep,
    ),
    (
        "roots 1\ncounter 0\nseat 0: acquire 0\nseat 1: release 0\nsettled\n",
        &[0, 0, 0, 1, 1, 1],
        5,
        StepRefused::LockHeld,
    ),
    (
        "roots 1\ngroup\nseat 0: gadd 0 -1\nsettled\n",
        &[0, 0],
        1,
        StepRefused::SeatFailed,
    ),
];

fn is_refused(rt: &impl Abort, alloc: Global, row: &Row) {
    let scenario = scenario(rt, alloc, row.0);
    let schedule = seats_again(rt, alloc, row.1);
    let refused = RunRefused {
        at: row.2,
        cause: row.3,
    };
    holds(
        rt,
        run_again(alloc, &scenario, &schedule).err() == Some(refused),
    );
}

#[test]
fn schedules_are_refused(rt: HostRuntime) {
    for row in &REFUSED {
        is_refused(&rt, rt.alloc(), row);
    }
}

#[test]
fn refusals_and_misuses_have_their_numbers(rt: HostRuntime) {
    let steps = [
        StepRefused::NoSuchSeat as u8,
        StepRefused::SeatEnded as u8,
        StepRefused::LockHeld as u8,
        StepRefused::Asleep as u8,
        StepRefused::SeatFailed as u8,
        StepRefused::NoMemory as u8,
    ];
    let misuses = [
        Misuse::Negative as u8,
        Misuse::AddWithWait as u8,
        Misuse::Reused as u8,
    ];
    let scenarios = [
        ScenarioRefused::OutOfLimits as u8,
        ScenarioRefused::Undeclared as u8,
        ScenarioRefused::Ticket as u8,
    ];
    holds(
        &rt,
        steps == [1, 2, 3, 4, 5, 6] && misuses == [1, 2, 3] && scenarios == [1, 2, 3],
    );
}
