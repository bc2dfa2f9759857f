//! What is played around a condition variable, a thread for each part.

use crate::parts::actor::Actor;
use crate::parts::sleepers::{sleeps, sleeps_after, sleeps_first, sleeps_late, sleeps_until_done};
use crate::parts::wakers::{Wakes, broadcasts, ends, signals, signals_in_turn, wakes_the_first};
use std::process::Abort;
use std::sync::Wait;

/// Each has one who wakes, of number 0, and others who wait.
#[derive(Clone, Copy, Drop)]
pub(crate) enum Play {
    /// Two wait, and are woken one by one.
    OneByOne,
    /// Each of 32 begins to wait once the one before it was signalled to.
    InTurn,
    /// Eight wait, and are woken together, five times.
    Together,
    /// One waits, and another begins to while the first is woken.
    BesideALateOne(Wakes),
    /// Three wait until all is done, and come when they like.
    UntilDone,
}

impl Play {
    /// How many parts there are.
    pub(crate) fn parts(self) -> u32 {
        match self {
            Play::OneByOne | Play::BesideALateOne(_) => 3,
            Play::InTurn => 33,
            Play::Together => 9,
            Play::UntilDone => 4,
        }
    }

    /// The part of this number.
    pub(crate) fn plays<R: Abort + Wait>(self, rt: &R, actor: &mut Actor<'_>, part: u16) {
        match (self, part) {
            (Play::OneByOne, 0) => signals(rt, actor, 2),
            (Play::OneByOne, _) => sleeps(rt, actor, 1),
            (Play::InTurn, 0) => signals_in_turn(rt, actor, 32),
            (Play::InTurn, _) => sleeps_after(rt, actor, u64::from(part) - 1),
            (Play::Together, 0) => broadcasts(rt, actor, 8, 5),
            (Play::Together, _) => sleeps(rt, actor, 5),
            (Play::BesideALateOne(wakes), 0) => wakes_the_first(rt, actor, wakes),
            (Play::BesideALateOne(_), 1) => sleeps_first(rt, actor),
            (Play::BesideALateOne(_), _) => sleeps_late(rt, actor),
            (Play::UntilDone, 0) => ends(rt, actor),
            (Play::UntilDone, _) => sleeps_until_done(rt, actor),
        }
    }
}
