//! What calls answer.
ghost use Rattle.std.specs.Prelude.{Some};
ghost use Rattle.sema_table.specs.Texts.{tried_text, wake_text};

use crate::seat::{Owing, Seat, Sleeping, Woken};
use std::fmt;
use waiters::WaitId;

/// What a try came to.
#[derive(Clone, Copy, PartialEq, Eq, Drop)]
pub enum Tried {
    /// A unit was taken.
    Taken,
    /// There was none.
    Zero,
    /// Another took or added one between the two steps.
    Lost,
}

/// What adding a unit came to.
pub enum Posted {
    /// The waiter word of the counter's root read 0: there is nobody to wake.
    Done(Seat),
    /// Somebody may wait: the seat has to look.
    Owes(Owing),
}

/// Why a unit wasn't added, by number.
#[derive(Clone, Copy, Debug, Drop)]
pub enum PostRefused {
    /// The seat may add no more: `left` is 0.
    LimitReached = 1,
}

/// What an acquire came to that went to the lock.
pub enum Entered {
    /// A unit was taken under the lock.
    Taken(Seat),
    /// There was none, and the seat's wait is queued.
    Asleep(Sleeping),
}

/// What the try of a seat came to that was woken without a unit.
pub enum Retried {
    /// A unit was taken.
    Taken(Seat),
    /// There was none. The seat may begin a call: to go on it enters, with the same counter and lifo.
    Zero(Seat),
}

/// What a look at a grant came to.
pub enum Polled {
    /// Nothing was granted.
    Still(Sleeping),
    /// The wait was woken, and the seat has to try for a unit.
    Woken(Woken),
    /// The wait was woken with a unit.
    Handed(Seat),
}

/// How a seat was woken that slept.
pub enum Roused {
    /// Without a unit: the seat has to try for one.
    Woken(Woken),
    /// With a unit.
    Handed(Seat),
}

/// What the giving up of a seat came to whose wait is queued.
pub enum GaveUp {
    /// Its wait was taken out, and the seat rests.
    Left(Seat),
    /// A release has its wait, and the grant is on the way: the seat sleeps on.
    Coming(Sleeping),
    /// A grant had come: its wait was woken, and the seat has to try for a unit.
    Woken(Woken),
    /// A grant had come, with a unit.
    Handed(Seat),
    /// The seat has no unit left to spend: it sleeps on.
    LimitReached(Sleeping),
}

/// What an acquire with a time-out came to.
pub enum Acquired {
    /// A unit was taken, or handed over.
    Taken(Seat),
    /// There was none, and the time is over. The seat may begin a call.
    TimedOut(Seat),
    /// The seat has no unit left to spend, which it may need to give up: nothing was done.
    LimitReached(Seat),
}

/// Whom a release woke.
#[derive(Clone, Copy, Drop)]
pub enum Wake {
    /// Nobody waits on the counter.
    Nobody,
    /// The first wait, which has to try for a unit.
    One(WaitId),
    /// The first wait, with a unit.
    Handed(WaitId),
}

impl fmt::Display for Tried {
    ghost output = { λ tried. Some (tried_text tried) };

    fn fmt<W: fmt::Write>(&self, f: &mut fmt::Formatter<W>) -> fmt::Result {
        f.write_str(match self {
            Tried::Taken => "Taken",
            Tried::Zero => "Zero",
            Tried::Lost => "Lost",
        })
    }
}

impl fmt::Display for Wake {
    ghost output = { λ wake. Some (wake_text wake) };

    fn fmt<W: fmt::Write>(&self, f: &mut fmt::Formatter<W>) -> fmt::Result {
        match self {
            Wake::Nobody => f.write_str("Nobody"),
            Wake::One(wait) => write!(f, "One {wait}"),
            Wake::Handed(wait) => write!(f, "Handed {wait}"),
        }
    }
}
