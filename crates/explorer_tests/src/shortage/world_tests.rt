//! Worlds of a scenario: how they are reached, and what they are asked.

use crate::machine::given::scenario;
use crate::shortage::rounds::{Attempt, Call, FINE, answered, is_refused_then_answers};
use std::alloc::Global;
use step_core::{
    CounterId, Entry, NoMemory, Phase, Row, RunRefused, Scenario, SeatId, StepRefused, WaitId,
    World, run,
};

/// Seat 0 sleeps.
pub(crate) const SLEEPER: &str =
    "roots 1\ncounter 0\nseat 0: acquire 0\nseat 1: release 0\nsettled\n";

pub(crate) const FIVE_STEPS: [SeatId; 5] = [SeatId(0); 5];

/// Seat 0 sleeps as the first wait of counter 0.
pub(crate) fn is_asleep(world: &World<'_>) -> bool {
    world.scenario().seats() == 2
        && world.phase(SeatId(0)) == Phase::At(Row::P)
        && world.journal() == [Entry::Queue(CounterId(0), WAIT, false)].as_slice()
}

pub(crate) const WAIT: WaitId = WaitId {
    seat: SeatId(0),
    turn: 0,
};

#[derive(Drop)]
struct Running<'s>(&'s Scenario);

impl Call for Running<'_> {
    fn attempt(&mut self, alloc: Global) -> Attempt {
        match run(alloc, self.0, FIVE_STEPS.as_slice()) {
            Ok(world) => answered(is_asleep(&world)),
            Err(
                RunRefused {
                    at,
                    cause: StepRefused::NoMemory,
                },
            ) if at < 5 => Attempt::Refused,
            Err(_) => Attempt::Wrong,
        }
    }
}

#[test]
fn a_schedule_is_refused_or_run(rt: HostRuntime) {
    let scenario = scenario(&rt, rt.alloc(), SLEEPER);
    is_refused_then_answers(&rt, rt.alloc(), FINE, &mut Running(&scenario));
}

/// A world that is asked for the waits of its counter.
#[derive(Drop)]
struct Waiting<'w, 's>(&'w World<'s>);

impl Call for Waiting<'_, '_> {
    fn attempt(&mut self, alloc: Global) -> Attempt {
        if self.0.scenario().semaphores() != 1 {
            return Attempt::Wrong;
        }
        match self.0.waiting(alloc, CounterId(0)) {
            Ok(waits) => answered(waits.as_slice() == [WAIT].as_slice()),
            Err(NoMemory) => Attempt::Refused,
        }
    }
}

/// The words of its key, by hand: the counter's number, its list's length and the seat in it; the words of
/// its root, whose waiter word is 1; the seat that is parked, and one word for no grant and nothing in hand;
/// the one before its row of a release; that both are on a counter; how many calls each has begun.
pub(crate) static KEY: [u64; 15] = [0, 1, 0, 0, 1, 20, 0, 0, 34, 0, 0, 1, 1, 1, 1];

/// A world that is asked for its key.
#[derive(Drop)]
struct Keyed<'w, 's>(&'w World<'s>);

impl Call for Keyed<'_, '_> {
    fn attempt(&mut self, alloc: Global) -> Attempt {
        match self.0.key(alloc) {
            Ok(key) => answered(key.as_slice() == KEY.as_slice()),
            Err(NoMemory) => Attempt::Refused,
        }
    }
}

#[test]
fn waits_and_a_key_are_refused_or_told(rt: HostRuntime) {
    let scenario = scenario(&rt, rt.alloc(), SLEEPER);
    let world = run(rt.alloc(), &scenario, FIVE_STEPS.as_slice()).expect(&rt, "a run");
    is_refused_then_answers(&rt, rt.alloc(), FINE, &mut Waiting(&world));
    is_refused_then_answers(&rt, rt.alloc(), FINE, &mut Keyed(&world));
}

/// Five releases, each told by an entry: of the second step of each nothing is told. The journal grows twice.
const RELEASES: &str =
    "roots 1\ncounter 0\nseat 0: release 0; release 0; release 0; release 0; release 0\nsettled\n";

const STEPS: u8 = 10;

/// A world that goes on where a step was refused.
#[derive(Drop)]
struct Stepping<'s> {
    world: World<'s>,
    made: u8,
}

impl Stepping<'_> {
    /// What is seen of the world.
    fn seen(&self) -> (usize, bool) {
        (self.world.journal().len(), self.world.enabled(SeatId(0)))
    }

    /// The next step, at which nothing changes where it is refused.
    fn step(&mut self) -> Attempt {
        let before = self.seen();
        match self.world.step(SeatId(0)) {
            Ok(()) => Attempt::Answered,
            Err(StepRefused::NoMemory) if self.seen() == before => Attempt::Refused,
            Err(_) => Attempt::Wrong,
        }
    }
}

impl Call for Stepping<'_> {
    fn attempt(&mut self, _alloc: Global) -> Attempt {
        for _ in self.made..STEPS {
            match self.step() {
                Attempt::Answered => self.made = u8::saturating_add(self.made, 1),
                other => return other,
            }
        }
        answered(self.seen() == (5, false))
    }
}

#[test]
fn a_step_is_refused_or_made(rt: HostRuntime) {
    let scenario = scenario(&rt, rt.alloc(), RELEASES);
    let world = World::new(rt.alloc(), &scenario).expect(&rt, "a world");
    let mut stepping = Stepping { world, made: 0 };
    is_refused_then_answers(&rt, rt.alloc(), FINE, &mut stepping);
    let entry = Entry::Add(CounterId(0), SeatId(0));
    assert!(rt; stepping.world.journal() == [entry; 5].as_slice());
}
