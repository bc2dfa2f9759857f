//! A small set of lines, by which one can tell which lines of a program ran. Nothing is promised of it.

/// So many lines have room; those behind them are never in a set.
const LINES: usize = 256;

/// How many lines one word of bits has.
const LINES_A_WORD: usize = 64;

/// A set of the numbers of lines.
#[derive(Clone, Copy, Drop)]
pub struct LineSet {
    bits: [u64; LINES / LINES_A_WORD],
}

impl LineSet {
    /// No lines.
    pub fn empty() -> LineSet {
        LineSet {
            bits: [0; LINES / LINES_A_WORD],
        }
    }

    /// The line is in the set.
    pub fn add(&mut self, line: usize) {
        if line < LINES {
            self.bits[line / LINES_A_WORD] |= 1 << (line % LINES_A_WORD);
        }
    }

    /// Whether the line is in the set.
    pub fn has(&self, line: usize) -> bool {
        line < LINES && self.bits[line / LINES_A_WORD] & (1 << (line % LINES_A_WORD)) != 0
    }

    /// The lines of the other set are in this one too.
    pub fn add_all(&mut self, other: &LineSet) {
        for at in 0..LINES / LINES_A_WORD {
            self.bits[at] |= other.bits[at];
        }
    }
}
