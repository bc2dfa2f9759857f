//! A call in rounds.

use crate::shortage::scarce::ScarceMemory;
use std::alloc::{AllocError, Global};
use std::process::Abort;

/// What came of a call.
#[derive(Clone, Copy, PartialEq, Eq, Drop)]
pub(crate) enum Attempt {
    /// There was no memory for what it is asked.
    Unasked,
    /// It said that memory was refused.
    Refused,
    /// It answered as it should.
    Answered,
    /// It told something else.
    Wrong,
}

/// Whether the call answered so.
pub(crate) fn answered(as_it_should: bool) -> Attempt {
    if as_it_should {
        Attempt::Answered
    } else {
        Attempt::Wrong
    }
}

/// A call that takes memory.
pub(crate) trait Call {
    /// Makes it, and compares what it answers.
    fn attempt(&mut self, alloc: Global) -> Attempt;
}

/// What came of the rounds.
#[derive(Clone, Copy, Debug, PartialEq, Eq, Drop)]
enum Outcome {
    /// It was refused, and in the end it answered.
    AsItShould,
    /// It answered at once.
    NeverRefused,
    /// It was refused in the last round too.
    NeverAnswered,
    /// It told something else.
    Wrong,
    /// Some memory of this machine can't be held.
    NotShort,
}

/// How many rounds there are at most, and how many bytes more are left in each.
#[derive(Clone, Copy, Drop)]
pub(crate) struct Rounds {
    pub(crate) most: u16,
    pub(crate) step: u16,
}

/// No block takes less of the heap than a step.
pub(crate) const FINE: Rounds = Rounds {
    most: 400,
    step: 32,
};

fn go(alloc: Global, rounds: Rounds, call: &mut impl Call) -> Result<Outcome, AllocError> {
    let mut scarce = ScarceMemory::new(alloc, rounds.most, rounds.step)?;
    let mut ended = Outcome::NeverRefused;
    for _ in 0..rounds.most {
        if !scarce.leave() {
            return Ok(Outcome::NotShort);
        }
        match call.attempt(alloc) {
            Attempt::Unasked => (),
            Attempt::Refused => ended = Outcome::AsItShould,
            Attempt::Answered => return Ok(ended),
            Attempt::Wrong => return Ok(Outcome::Wrong),
        }
    }
    Ok(Outcome::NeverAnswered)
}

/// In the first of these rounds the call is refused for want of memory, and in one of them it answers.
pub(crate) fn is_refused_then_answers(
    rt: &impl Abort,
    alloc: Global,
    rounds: Rounds,
    call: &mut impl Call,
) {
    assert_eq!(rt; go(alloc, rounds, call), Ok(Outcome::AsItShould));
}
