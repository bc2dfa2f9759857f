//! What instructions read and write.

/// What stands for a number while a seat runs.
#[derive(Clone, Copy, Drop)]
pub enum Operand {
    /// The number itself.
    Number(i64),
    /// The seat's own number.
    Me,
    /// What the register of this number holds.
    Register(usize),
}

/// A word or a counter.
#[derive(Clone, Copy, Drop)]
pub enum CodePlace {
    /// The one of this number.
    Single(usize),
    /// A member of an array: its first member's number, how many it has, and which of them, from 0 on.
    Member(usize, usize, Operand),
}

/// How many units a release adds, and whether it hands its unit over.
#[derive(Clone, Copy, Drop)]
pub enum Share {
    /// One unit is released.
    One,
    /// One unit is released and handed to a sleeper.
    Handoff,
    /// So many units are released.
    Many(Operand),
}
