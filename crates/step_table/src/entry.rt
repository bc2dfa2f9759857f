use crate::list_id::ListId;
use waiters::{CounterId, SeatId, WaitId};

/// What a step did to the counters and lists, as the journal tells it.
#[derive(Clone, Copy, PartialEq, Eq, Drop)]
pub enum Entry {
    /// A release by the seat added one unit.
    Add(CounterId, SeatId),
    /// A release by the seat added this many units at once.
    AddMany(CounterId, u32, SeatId),
    /// One unit was taken for the seat.
    Take(CounterId, SeatId),
    /// The wait was queued: at the front, if lifo, else at the end.
    Queue(CounterId, WaitId, bool),
    /// The wait, which was the first, left for a release by the seat.
    Leave(CounterId, WaitId, SeatId),
    /// The wait was taken out, wherever it stood: its seat gave up.
    Withdraw(CounterId, WaitId),
    /// The seat took the next ticket of the list.
    Ticket(ListId, SeatId),
    /// The seat granted the first tickets of the list up to this many, but for the gone ones.
    Grant(ListId, u64, SeatId),
    /// The ticket of this number is gone: its seat, which had it, gave up its wait on the list.
    Forgo(ListId, u64, SeatId),
}
