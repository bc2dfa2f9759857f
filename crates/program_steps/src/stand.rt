use crate::failure::Failure;
use waiters::SeatId;

/// Where a seat stands.
#[derive(Clone, Copy, PartialEq, Eq, Drop)]
pub enum Stand {
    /// Before the line of this number.
    Before(usize),
    /// In the call of the layer that this line has begun.
    Within(usize),
    /// Asleep on a word, at this line.
    Asleep(usize),
    /// Behind its last line.
    Ended,
    /// At the line of this number, where it failed.
    FailedAt(usize, Failure),
}

/// Who sleeps, and on which word.
#[derive(Clone, Copy, Drop)]
pub struct Sleeper {
    /// The seat.
    pub seat: SeatId,
    /// The number of the word.
    pub word: usize,
}

/// What comes after a row.
#[derive(Clone, Copy, Drop)]
pub enum Then {
    /// The seat goes on from the next line.
    OnFromNext,
    /// It stands there.
    Stands(Stand),
    /// It fails at its line.
    Fails(Failure),
}
