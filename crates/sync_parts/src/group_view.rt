//! What a seat of a wait group knows of the state word.
use step_table::{GroupNext, GroupRow, GroupWord};

/// A row that a seat ran on the state word, and the word that it found. No value of it is made.
pub struct GroupStep {
    pub row: GroupRow,
    pub found: GroupWord,
}

/// What a seat knows beside the rows that it ran. No value of it is made.
pub struct GroupKnown {
    /// How many seats the group has.
    pub seats: u64,
    /// What the seat's last row led to.
    pub next: GroupNext,
}
