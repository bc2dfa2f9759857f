//! Worlds of changed tables: by one a seat sleeps for good, which by the table itself doesn't. What replays
//! tell of all three stands in the gallery's cases.

use crate::assertion::holds;
use crate::machine::again::{changed_key, changed_world_again};
use crate::machine::given::{scenario, seat};
use std::alloc::Global;
use std::process::Abort;
use step_core::{ChangedWorld, Phase, Row, StepRefused, Variant};
use waiters::CounterId;

/// Without the second look the release comes between the two looks, and finds nobody.
const MET: &str = "roots 1\ncounter 0\nseat 0: acquire 0\nseat 1: release 0\nsettled\n";

/// Whose row runs, and which it is: seat 0 looks once, counts itself and queues its wait at once.
static ROWS: [(u16, Row); 6] = [
    (0, Row::A1),
    (0, Row::A3),
    (1, Row::R1),
    (1, Row::R2),
    (0, Row::A4),
    (0, Row::A7),
];

/// The seat stands at this row, which runs.
fn runs(world: &mut ChangedWorld<'_>, number: u16, row: Row) -> bool {
    (number as usize) < world.scenario().seats()
        && world.phase(seat(number)) == Phase::At(row)
        && world.step(seat(number)).is_ok()
}

/// Seat 0 sleeps beside the unit, seat 1 has ended, and neither can step.
fn has_lost(world: &mut ChangedWorld<'_>) -> bool {
    1 < world.scenario().seats()
        && world.phase(seat(0)) == Phase::At(Row::P)
        && world.phase(seat(1)) == Phase::Ended
        && world.step(seat(0)) == Err(StepRefused::Asleep)
        && world.step(seat(1)) == Err(StepRefused::SeatEnded)
}

fn has_unit(world: &ChangedWorld<'_>) -> bool {
    0 < world.scenario().semaphores() && world.value(CounterId::new(0)) == 1
}

/// The words of its key, by hand: the counter's number, its list's length and the seat in it; the words of
/// its root, whose waiter word is 1; the seat that is parked, and one word for no grant and nothing in hand;
/// the one at rest; that the one is on a counter and the other has ended; how many calls each has begun.
static KEY: [u64; 13] = [1, 1, 0, 0, 1, 20, 0, 0, 0, 1, 0, 1, 1];

fn has_key(rt: &impl Abort, alloc: Global, world: &ChangedWorld<'_>) {
    let key = changed_key(rt, alloc, world);
    holds(rt, key.as_slice() == KEY.as_slice());
}

/// From its start the world goes by those rows to where the wake-up is lost.
fn comes_to_lose(rt: &impl Abort, alloc: Global, world: &mut ChangedWorld<'_>) {
    for row in &ROWS {
        holds(rt, runs(world, row.0, row.1));
    }
    holds(rt, has_lost(world) && has_unit(world));
    has_key(rt, alloc, world);
}

#[test]
fn a_world_of_a_changed_table_answers(rt: HostRuntime) {
    let scenario = scenario(&rt, rt.alloc(), MET);
    let mut world = changed_world_again(&rt, rt.alloc(), &scenario, Variant::NoLook);
    comes_to_lose(&rt, rt.alloc(), &mut world);
}

static OTHERS: [Variant; 2] = [Variant::LateCount, Variant::PlainLess];

/// By this change of the table seat 1 takes a step.
fn has_a_world(rt: &impl Abort, alloc: Global, variant: Variant) {
    let scenario = scenario(rt, alloc, MET);
    let mut world = changed_world_again(rt, alloc, &scenario, variant);
    holds(rt, world.step(seat(1)).is_ok());
}

#[test]
fn each_changed_table_has_a_world(rt: HostRuntime) {
    for variant in &OTHERS {
        has_a_world(&rt, rt.alloc(), *variant);
    }
}
