//! How worlds and moments are made and copied, and pictures of them.

use crate::machine::given::scenario;
use crate::shortage::rounds::{Attempt, Call, FINE, answered, is_refused_then_answers};
use crate::shortage::world_tests::{FIVE_STEPS, KEY, SLEEPER, WAIT, is_asleep};
use std::alloc::Global;
use std::process::Abort;
use step_core::{
    CounterId, ListId, Moment, NoMemory, Phase, Picture, Row, Scenario, SeatId, Variant, WaitId,
    World, run,
};

/// No seat of the scenario has made a step.
fn is_at_the_start(moment: &Moment<'_>) -> bool {
    moment.scenario().seats() == 2
        && moment.phase(SeatId(0)) == Phase::At(Row::A1)
        && moment.phase(SeatId(1)) == Phase::At(Row::R1)
}

/// Seat 0 of the scenario is parked, and seat 1 has made no step.
fn is_parked(moment: &Moment<'_>) -> bool {
    moment.scenario().seats() == 2
        && moment.phase(SeatId(0)) == Phase::At(Row::P)
        && moment.phase(SeatId(1)) == Phase::At(Row::R1)
}

#[derive(Drop)]
struct NewWorld<'s>(&'s Scenario);

impl Call for NewWorld<'_> {
    fn attempt(&mut self, alloc: Global) -> Attempt {
        match World::new(alloc, self.0) {
            Ok(world) => answered(is_at_the_start(world.moment()) && world.journal().is_empty()),
            Err(NoMemory) => Attempt::Refused,
        }
    }
}

#[derive(Drop)]
struct NewMoment<'s>(&'s Scenario);

impl Call for NewMoment<'_> {
    fn attempt(&mut self, alloc: Global) -> Attempt {
        match Moment::new(alloc, self.0) {
            Ok(moment) => answered(is_at_the_start(&moment) && moment.table().is_none()),
            Err(NoMemory) => Attempt::Refused,
        }
    }
}

#[derive(Drop)]
struct NewMomentBy<'s>(&'s Scenario);

impl Call for NewMomentBy<'_> {
    fn attempt(&mut self, alloc: Global) -> Attempt {
        match Moment::new_by(alloc, self.0, Some(Variant::NoLook)) {
            Ok(moment) => answered(
                is_at_the_start(&moment) && matches!(moment.table(), Some(Variant::NoLook)),
            ),
            Err(NoMemory) => Attempt::Refused,
        }
    }
}

#[test]
fn a_start_is_refused_or_made(rt: HostRuntime) {
    let scenario = scenario(&rt, rt.alloc(), SLEEPER);
    is_refused_then_answers(&rt, rt.alloc(), FINE, &mut NewWorld(&scenario));
    is_refused_then_answers(&rt, rt.alloc(), FINE, &mut NewMoment(&scenario));
    is_refused_then_answers(&rt, rt.alloc(), FINE, &mut NewMomentBy(&scenario));
}

#[derive(Drop)]
struct CopyingWorld<'w>(&'w World<'w>);

impl Call for CopyingWorld<'_> {
    fn attempt(&mut self, alloc: Global) -> Attempt {
        match self.0.try_clone(alloc) {
            Ok(copy) => answered(is_asleep(&copy)),
            Err(NoMemory) => Attempt::Refused,
        }
    }
}

#[derive(Drop)]
struct CopyingMoment<'m>(&'m Moment<'m>);

impl Call for CopyingMoment<'_> {
    fn attempt(&mut self, alloc: Global) -> Attempt {
        match self.0.try_clone(alloc) {
            Ok(copy) => answered(is_parked(&copy)),
            Err(NoMemory) => Attempt::Refused,
        }
    }
}

/// A moment that is copied into the memory of one of a smaller scenario.
#[derive(Drop)]
struct CopyingOver<'m> {
    smaller: &'m Scenario,
    moment: &'m Moment<'m>,
}

impl Call for CopyingOver<'_> {
    fn attempt(&mut self, alloc: Global) -> Attempt {
        let Ok(over) = Moment::new(alloc, self.smaller) else {
            return Attempt::Unasked;
        };
        match over.try_clone_over(alloc, self.moment) {
            Ok(copy) => answered(is_parked(&copy)),
            Err(NoMemory) => Attempt::Refused,
        }
    }
}

const SMALLER: &str = "roots 1\ngroup\nseat 0: gadd 0 1\nsettled\n";

fn copies_over<'m>(rt: &impl Abort, alloc: Global, smaller: &'m Scenario, moment: &'m Moment<'m>) {
    let mut copying = CopyingOver { smaller, moment };
    is_refused_then_answers(rt, alloc, FINE, &mut copying);
}

fn copies<'m>(rt: &impl Abort, alloc: Global, world: &'m World<'m>) {
    is_refused_then_answers(rt, alloc, FINE, &mut CopyingWorld(world));
    is_refused_then_answers(rt, alloc, FINE, &mut CopyingMoment(world.moment()));
}

#[test]
fn a_copy_is_refused_or_made(rt: HostRuntime) {
    let (scenario, smaller) = (
        scenario(&rt, rt.alloc(), SLEEPER),
        scenario(&rt, rt.alloc(), SMALLER),
    );
    let world = run(rt.alloc(), &scenario, FIVE_STEPS.as_slice()).expect(&rt, "a run");
    copies(&rt, rt.alloc(), &world);
    copies_over(&rt, rt.alloc(), &smaller, world.moment());
}

fn waiting(moment: &Moment<'_>, alloc: Global) -> Attempt {
    if moment.scenario().semaphores() != 1 {
        return Attempt::Wrong;
    }
    match moment.waiting(alloc, CounterId(0)) {
        Ok(waits) => answered(waits.as_slice() == [WAIT].as_slice()),
        Err(NoMemory) => Attempt::Refused,
    }
}

/// The key in new words, of which there are none where it is refused.
fn key_into(moment: &Moment<'_>, alloc: Global) -> Attempt {
    let mut key = Vec::new(alloc);
    match moment.key_into(&mut key) {
        Ok(()) => answered(key.as_slice() == KEY.as_slice()),
        Err(NoMemory) if key.is_empty() => Attempt::Refused,
        Err(NoMemory) => Attempt::Wrong,
    }
}

#[derive(Drop)]
struct WaitingAt<'m>(&'m Moment<'m>);

impl Call for WaitingAt<'_> {
    fn attempt(&mut self, alloc: Global) -> Attempt {
        waiting(self.0, alloc)
    }
}

#[derive(Drop)]
struct KeyedAt<'m>(&'m Moment<'m>);

impl Call for KeyedAt<'_> {
    fn attempt(&mut self, alloc: Global) -> Attempt {
        key_into(self.0, alloc)
    }
}

fn tells<'m>(rt: &impl Abort, alloc: Global, moment: &'m Moment<'m>) {
    is_refused_then_answers(rt, alloc, FINE, &mut WaitingAt(moment));
    is_refused_then_answers(rt, alloc, FINE, &mut KeyedAt(moment));
}

#[test]
fn a_moment_is_refused_or_told(rt: HostRuntime) {
    let scenario = scenario(&rt, rt.alloc(), SLEEPER);
    let world = run(rt.alloc(), &scenario, FIVE_STEPS.as_slice()).expect(&rt, "a run");
    tells(&rt, rt.alloc(), world.moment());
}

/// Seat 0 sleeps on the counter, and seat 1 on the list.
const SLEEPERS: &str =
    "roots 1\ncounter 0\nlist 7\nseat 0: acquire 0\nseat 1: add 0; wait 0\nsettled\n";

const NINE_STEPS: [SeatId; 9] = [
    SeatId(0),
    SeatId(0),
    SeatId(0),
    SeatId(0),
    SeatId(0),
    SeatId(1),
    SeatId(1),
    SeatId(1),
    SeatId(1),
];

fn are_both_parked(picture: &Picture<'_>) -> bool {
    picture.scenario().seats() == 2
        && picture.phase(SeatId(0)) == Phase::At(Row::P)
        && picture.phase(SeatId(1)) == Phase::At(Row::P)
}

#[derive(Drop)]
struct Picturing<'m>(&'m Moment<'m>);

impl Call for Picturing<'_> {
    fn attempt(&mut self, alloc: Global) -> Attempt {
        match self.0.picture(alloc) {
            Ok(picture) => answered(are_both_parked(&picture)),
            Err(NoMemory) => Attempt::Refused,
        }
    }
}

/// Who waits on the counter of a picture.
fn waiting_in(picture: &Picture<'_>, alloc: Global) -> Attempt {
    if picture.scenario().semaphores() != 1 {
        return Attempt::Wrong;
    }
    match picture.waiting(alloc, CounterId(0)) {
        Ok(waits) => answered(waits.as_slice() == [WAIT].as_slice()),
        Err(NoMemory) => Attempt::Refused,
    }
}

/// The wait of seat 1: its turn on a list is 0.
const LISTED: WaitId = WaitId {
    seat: SeatId(1),
    turn: 0,
};

/// Who waits on the list of a picture.
fn queued_in(picture: &Picture<'_>, alloc: Global) -> Attempt {
    if picture.scenario().parts().firsts.len() != 1 {
        return Attempt::Wrong;
    }
    match picture.queued(alloc, ListId(0)) {
        Ok(waits) => answered(waits.as_slice() == [LISTED].as_slice()),
        Err(NoMemory) => Attempt::Refused,
    }
}

#[derive(Drop)]
struct WaitingIn<'p>(&'p Picture<'p>);

impl Call for WaitingIn<'_> {
    fn attempt(&mut self, alloc: Global) -> Attempt {
        waiting_in(self.0, alloc)
    }
}

#[derive(Drop)]
struct QueuedIn<'p>(&'p Picture<'p>);

impl Call for QueuedIn<'_> {
    fn attempt(&mut self, alloc: Global) -> Attempt {
        queued_in(self.0, alloc)
    }
}

fn looks<'p>(rt: &impl Abort, alloc: Global, picture: &'p Picture<'p>) {
    is_refused_then_answers(rt, alloc, FINE, &mut WaitingIn(picture));
    is_refused_then_answers(rt, alloc, FINE, &mut QueuedIn(picture));
}

fn pictures<'m>(rt: &impl Abort, alloc: Global, moment: &'m Moment<'m>) {
    is_refused_then_answers(rt, alloc, FINE, &mut Picturing(moment));
    looks(rt, alloc, &moment.picture(alloc).expect(rt, "a picture"));
}

#[test]
fn a_picture_is_refused_or_made(rt: HostRuntime) {
    let scenario = scenario(&rt, rt.alloc(), SLEEPERS);
    let world = run(rt.alloc(), &scenario, NINE_STEPS.as_slice()).expect(&rt, "a run");
    pictures(&rt, rt.alloc(), world.moment());
}
