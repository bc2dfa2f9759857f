use waiters::{CounterId, SeatId};

/// A word that seats share, and change in single events.
#[derive(Clone, Copy, Drop)]
pub enum Word {
    /// The number of a counter.
    Counter(CounterId),
    /// The lock word of a counter's root: 0 is free.
    Lock(CounterId),
    /// The waiter word of a counter's root.
    Waiters(CounterId),
    /// The grant word of a seat: 0 none, 1 woken, 2 handed a unit.
    Grant(SeatId),
}
