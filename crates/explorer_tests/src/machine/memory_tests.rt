//! Where there is memory no call answers want of it, and what a world and its copies then show.

use crate::assertion::holds;
use crate::machine::again::{
    copied_moment, copy_again, key_again, moments_key, new_again, run_again, steps_again,
};
use crate::machine::given::{scenario, seat};
use crate::machine::limit_tests::fill;
use crate::machine::story::{Line, Story, shows};
use std::alloc::Global;
use std::process::Abort;
use step_core::{Items, Phase, Row, Scenario, StepRefused, World};

#[test]
fn items_grow(rt: HostRuntime) {
    let mut items = Items::empty(rt.alloc());
    for item in [3, 1, 2] {
        fill(&rt, &mut items, item, 1);
    }
    let count = items.len();
    holds(
        &rt,
        count == 3 && items.into_vec().as_slice() == [3, 1, 2].as_slice(),
    );
}

/// Seat 0 sleeps, and this is told of it.
static SLEEPER: Story = Story {
    text: "roots 1\ncounter 0\nseat 0: acquire 0\nseat 1: release 0\nsettled\n",
    schedule: &[0; 5],
    seats: &[(0, Phase::At(Row::P)), (1, Phase::At(Row::R1))],
    counters: &[(0, 0, &[(0, 0)])],
    told: &[Line::Queue(0, (0, 0))],
};

/// Whether each of these seats can step, and does.
fn all_step(world: &mut World<'_>, schedule: &[u16]) -> bool {
    for number in schedule {
        if !world.enabled(seat(*number)) || !steps_again(world, *number) {
            return false;
        }
    }
    true
}

fn copy_shows(rt: &impl Abort, alloc: Global, world: &World<'_>) {
    let copy = copy_again(rt, alloc, world);
    shows(rt, alloc, &copy, &SLEEPER);
}

/// The words of a key, by hand: the counter's number, its list's length and the seat in it; the words of its
/// root, whose waiter word is 1; the seat that is parked, and one word for no grant and nothing in hand; the
/// one before its row of a release; that both are on a counter; how many calls each has begun.
static KEY: [u64; 15] = [0, 1, 0, 0, 1, 20, 0, 0, 34, 0, 0, 1, 1, 1, 1];

/// The world and a copy of its moment have that key.
fn have_key(rt: &impl Abort, alloc: Global, world: &World<'_>) {
    let moment = copied_moment(rt, alloc, world.moment());
    let (first, second) = (key_again(rt, alloc, world), moments_key(rt, alloc, &moment));
    holds(
        rt,
        first.as_slice() == KEY.as_slice() && second.as_slice() == KEY.as_slice(),
    );
}

/// From its start the world comes to the sleeper: it and a copy show it.
fn comes_to_sleep(rt: &impl Abort, alloc: Global, world: &mut World<'_>) {
    holds(
        rt,
        all_step(world, SLEEPER.schedule) && !world.enabled(seat(0)),
    );
    shows(rt, alloc, world, &SLEEPER);
    copy_shows(rt, alloc, world);
    have_key(rt, alloc, world);
}

/// Each call of a world that takes memory.
#[test]
fn a_world_has_its_memory(rt: HostRuntime) {
    let scenario = scenario(&rt, rt.alloc(), SLEEPER.text);
    let mut world = new_again(&rt, rt.alloc(), &scenario);
    comes_to_sleep(&rt, rt.alloc(), &mut world);
}

fn have_one_key(rt: &impl Abort, alloc: Global, one: &World<'_>, other: &World<'_>) {
    let (one, other) = (key_again(rt, alloc, one), key_again(rt, alloc, other));
    holds(rt, one.as_slice() == other.as_slice());
}

/// The world, which is at its start, refuses a seat that isn't there, and has then the key of a run of no
/// step.
fn is_at_its_start(rt: &impl Abort, alloc: Global, scenario: &Scenario, world: &mut World<'_>) {
    holds(rt, world.step(seat(2)) == Err(StepRefused::NoSuchSeat));
    let start = run_again(alloc, scenario, &[]).expect(rt, "a run");
    have_one_key(rt, alloc, world, &start);
}

#[test]
fn a_run_of_no_step_is_the_start(rt: HostRuntime) {
    let scenario = scenario(&rt, rt.alloc(), SLEEPER.text);
    let mut world = new_again(&rt, rt.alloc(), &scenario);
    is_at_its_start(&rt, rt.alloc(), &scenario, &mut world);
}
