//! How long an input may be.

/// How long the text of a scenario, or of a lock program, may be.
pub const MAX_TEXT: usize = 65_536;

/// One byte more than a text may have tells that it is too long.
pub const MOST_READ: usize = MAX_TEXT + 1;
