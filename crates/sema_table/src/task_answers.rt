//! What the calls of a table for tasks answer.

/// Why a call of a task did nothing, by number. The seat is as it was.
#[derive(Clone, Copy, Debug, Drop)]
pub enum TaskRefused {
    /// The seat stands in the middle of another call, or in the middle of none.
    OtherCall = 1,
    /// The table has no such counter.
    NoCounter = 2,
    /// The root's lock stayed held.
    Busy = 3,
    /// The seat may not spend so many units.
    LimitReached = 4,
    /// There are not 1 to 256 units.
    Units = 5,
}

/// What adding units came to.
#[derive(Clone, Copy, Drop)]
pub enum TaskPosted {
    /// The waiter word of the counter's root read 0: there is nobody to wake.
    Done,
    /// Somebody may wait: the seat has to look.
    Owes,
}

/// What an acquire came to that went to the lock.
#[derive(Clone, Copy, Drop)]
pub enum TaskEntered {
    /// A unit was taken under the lock.
    Taken,
    /// There was none, and the seat's wait is queued.
    Asleep,
}

/// What a look at a grant came to.
#[derive(Clone, Copy, Drop)]
pub enum TaskPolled {
    /// Nothing was granted.
    Still,
    /// The wait was woken, and the seat has to try for a unit.
    Woken,
    /// The wait was woken with a unit.
    Handed,
}

/// What the giving up of a seat came to whose wait is queued.
#[derive(Clone, Copy, Drop)]
pub enum TaskGaveUp {
    /// Its wait was taken out, and the seat rests.
    Left,
    /// A release has its wait, and the grant is on the way: the seat sleeps on.
    Coming,
    /// A grant had come: its wait was woken, and the seat has to try for a unit.
    Woken,
    /// A grant had come, with a unit.
    Handed,
}

/// What the try of a seat came to that was woken.
#[derive(Clone, Copy, Drop)]
pub enum TaskRetried {
    /// A unit was taken.
    Taken,
    /// There was none. The seat may begin a call: to go on it enters, with the same counter and lifo.
    Zero,
}
