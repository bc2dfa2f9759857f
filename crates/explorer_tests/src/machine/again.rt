//! Calls that are made once more where memory was refused.

use crate::machine::given::seat;
use std::alloc::Global;
use std::process::Abort;
use step_core::{BentWorld, Moment, RunRefused, Scenario, StepRefused, Variant, World, run};
use waiters::{CounterId, NoMemory, SeatId, WaitId};

/// Runs the schedule, once more where memory was refused.
pub(crate) fn run_again<'s>(
    alloc: Global,
    scenario: &'s Scenario,
    schedule: &[SeatId],
) -> Result<World<'s>, RunRefused> {
    match run(alloc, scenario, schedule) {
        Err(
            RunRefused {
                cause: StepRefused::NoMemory,
                ..
            },
        ) => run(alloc, scenario, schedule),
        answer => answer,
    }
}

/// The world at the start, asked for once more where memory was refused.
pub(crate) fn new_again<'s>(rt: &impl Abort, alloc: Global, scenario: &'s Scenario) -> World<'s> {
    match World::new(alloc, scenario) {
        Ok(world) => world,
        Err(NoMemory) => World::new(alloc, scenario).expect(rt, "a world"),
    }
}

/// Whether the seat steps. It is asked once more where memory was refused.
pub(crate) fn steps_again(world: &mut World<'_>, number: u16) -> bool {
    match world.step(seat(number)) {
        Err(StepRefused::NoMemory) => world.step(seat(number)).is_ok(),
        answer => answer.is_ok(),
    }
}

/// A copy of the world, asked for once more where memory was refused.
pub(crate) fn copy_again<'s>(rt: &impl Abort, alloc: Global, world: &World<'s>) -> World<'s> {
    match world.try_clone(alloc) {
        Ok(copy) => copy,
        Err(NoMemory) => world.try_clone(alloc).expect(rt, "a copy"),
    }
}

/// The moment at the start, asked for once more where memory was refused.
pub(crate) fn moment_again<'s>(
    rt: &impl Abort,
    alloc: Global,
    scenario: &'s Scenario,
) -> Moment<'s> {
    match Moment::new(alloc, scenario) {
        Ok(moment) => moment,
        Err(NoMemory) => Moment::new(alloc, scenario).expect(rt, "a moment"),
    }
}

/// The world at the start by the changed table, asked for once more where memory was refused.
pub(crate) fn changed_world_again<'s>(
    rt: &impl Abort,
    alloc: Global,
    scenario: &'s Scenario,
    variant: Variant,
) -> BentWorld<'s> {
    match BentWorld::new(alloc, scenario, variant) {
        Ok(world) => world,
        Err(NoMemory) => BentWorld::new(alloc, scenario, variant).expect(rt, "a world"),
    }
}

/// A copy of the moment, asked for once more where memory was refused.
pub(crate) fn copied_moment<'s>(rt: &impl Abort, alloc: Global, moment: &Moment<'s>) -> Moment<'s> {
    match moment.try_clone(alloc) {
        Ok(copy) => copy,
        Err(NoMemory) => moment.try_clone(alloc).expect(rt, "a copy"),
    }
}

/// The waits of the counter's list, asked for once more where memory was refused.
pub(crate) fn waiting_again(
    rt: &impl Abort,
    alloc: Global,
    world: &World<'_>,
    counter: u32,
) -> Vec<WaitId> {
    assert!(rt; (counter as usize) < world.scenario().semaphores());
    match world.waiting(alloc, CounterId::new(counter)) {
        Ok(waits) => waits,
        Err(NoMemory) => world
            .waiting(alloc, CounterId::new(counter))
            .expect(rt, "waits"),
    }
}

/// The key of the world, asked for once more where memory was refused.
pub(crate) fn key_again(rt: &impl Abort, alloc: Global, world: &World<'_>) -> Vec<u64> {
    match world.key(alloc) {
        Ok(key) => key,
        Err(NoMemory) => world.key(alloc).expect(rt, "a key"),
    }
}

/// The key of the moment, asked for once more where memory was refused.
pub(crate) fn moments_key(rt: &impl Abort, alloc: Global, moment: &Moment<'_>) -> Vec<u64> {
    match moment.key(alloc) {
        Ok(key) => key,
        Err(NoMemory) => moment.key(alloc).expect(rt, "a key"),
    }
}

/// The key of the world of a changed table, asked for once more where memory was refused.
pub(crate) fn changed_key(rt: &impl Abort, alloc: Global, world: &BentWorld<'_>) -> Vec<u64> {
    match world.key(alloc) {
        Ok(key) => key,
        Err(NoMemory) => world.key(alloc).expect(rt, "a key"),
    }
}
