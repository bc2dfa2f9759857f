use crate::entry::JournalEntry;

/// A line of a journal: a head line declares a counter or a list, and the others are entries.
#[derive(Clone, Copy, Drop)]
pub enum JournalLine {
    /// A counter, and its number before the first entry.
    Counter { start: u128 },
    /// A list, and its first ticket, which plays no part in judging.
    List { first: u128 },
    /// What happened.
    Entry(JournalEntry),
}
