//! What the calls of a list for tasks answer.

/// Why a call of a task did nothing, by number. The seat is as it was, but for the two looks of a
/// notification that found the lock held.
#[derive(Clone, Copy, Debug, Drop)]
pub enum TaskRefused {
    /// The seat stands in the middle of another call, or in the middle of none.
    OtherCall = 1,
    /// The list's lock stayed held.
    Busy = 3,
}

/// What going to the lock with a ticket came to.
#[derive(Clone, Copy, Drop)]
pub enum TaskEntered {
    /// The ticket was granted before.
    AtOnce,
    /// It wasn't, and the seat's wait is queued.
    Queued,
}

/// What giving up a sleep came to.
#[derive(Clone, Copy, Drop)]
pub enum TaskGaveUp {
    /// The ticket is gone: it is never granted.
    Left,
    /// The ticket is granted, and the task sleeps until the grant is stored.
    Coming,
    /// The ticket is granted.
    Granted,
    /// No ticket goes any more: the task sleeps on.
    LimitReached,
}

/// What a look at a grant came to.
#[derive(Clone, Copy, Drop)]
pub enum TaskPolled {
    /// Nothing was granted.
    Still,
    /// The ticket is granted.
    Granted,
}
