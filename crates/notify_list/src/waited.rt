//! What a wait came to.
use crate::seat::{ListSeat, Parked};

/// How a wait ended.
#[derive(Clone, Copy, PartialEq, Eq, Drop)]
pub enum Waited {
    /// The ticket was granted before the seat came to the lock: it never slept.
    AtOnce,
    /// The wait was queued, and woken.
    Parked,
}

/// How a wait with a time ended.
#[derive(Clone, Copy, PartialEq, Eq, Drop)]
pub enum WaitedUntil {
    /// The ticket was granted before the seat came to the lock: it never slept.
    AtOnce,
    /// The wait was queued, and granted.
    Parked,
    /// The wait was queued, and the time was over first: the ticket is gone, and is never granted.
    TimedOut,
}

/// What going to the lock with a ticket came to.
pub enum Entered {
    /// The ticket was granted before the seat came to the lock.
    AtOnce(ListSeat),
    /// It wasn't, and the seat's wait is queued.
    Queued(Parked),
}

/// What giving up a sleep came to.
pub enum GaveUp {
    /// The seat's wait was queued, and its ticket is gone: it is never granted.
    Left(ListSeat),
    /// The wait wasn't queued: the ticket is granted, and the seat sleeps until the grant is stored.
    Coming(Parked),
    /// The ticket is granted.
    Granted(ListSeat),
    /// Nothing was granted, and no ticket goes any more: 2^60 were handed out. The seat sleeps on.
    LimitReached(Parked),
}

/// What a look at a grant came to.
pub enum Polled {
    /// Nothing was granted.
    Still(Parked),
    /// The ticket is granted.
    Granted(ListSeat),
}
