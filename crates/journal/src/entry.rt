//! What a journal tells.

/// One sleep of a seat: its turn counts the waits that the seat queued before.
#[derive(Clone, Copy, PartialEq, Eq, Hash, Drop)]
pub struct JournalWait {
    /// The seat that waits.
    pub seat: u128,
    /// Which of its waits it is.
    pub turn: u128,
}

/// What happened to a counter or a list. Counters and lists go by their place among those that are declared.
#[derive(Clone, Copy, Drop)]
pub enum JournalEntry {
    /// A release by the seat added one unit.
    Add {
        counter: usize,
        seat: u128,
    },
    /// A release by the seat added this many units at once.
    AddMany {
        counter: usize,
        seat: u128,
        units: u128,
    },
    /// One unit was taken for the seat.
    Take {
        counter: usize,
        seat: u128,
    },
    /// The wait was queued: at the front, if lifo, else at the end.
    Queue {
        counter: usize,
        wait: JournalWait,
        lifo: bool,
    },
    /// The wait, which was the first, left for a release by the seat.
    Leave {
        counter: usize,
        wait: JournalWait,
        seat: u128,
    },
    /// The wait, wherever it stood in the list, was taken out: its seat gave up.
    Withdraw {
        counter: usize,
        wait: JournalWait,
    },
    /// The seat took the next ticket of the list.
    Ticket {
        list: usize,
        seat: u128,
    },
    /// The seat granted the first tickets of the list, up to this many, but for those that are gone.
    Grant {
        list: usize,
        upto: u128,
        seat: u128,
    },
    /// The ticket of this number is gone: its seat gave up.
    Forgo {
        list: usize,
        number: u128,
        seat: u128,
    },
}
