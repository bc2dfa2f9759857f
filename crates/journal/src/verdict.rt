ghost use Rattle.std.specs.Prelude.{Some};
ghost use Rattle.journal.specs.Texts.{verdict_text};

use crate::rule::Rule;
use std::fmt;

/// What is said of a journal.
#[derive(Clone, Copy, Drop)]
pub enum Verdict {
    /// It is lawful.
    Lawful,
    /// The first line, counted from 1, that no lawful journal can have there, and the first rule that it
    /// breaks.
    Unlawful { line: usize, rule: Rule },
}

impl fmt::Display for Verdict {
    ghost output = { λ verdict. Some (verdict_text verdict) };

    fn fmt<W: fmt::Write>(&self, f: &mut fmt::Formatter<W>) -> fmt::Result {
        match self {
            Verdict::Lawful => f.write_str("lawful"),
            Verdict::Unlawful { line, rule } => write!(f, "unlawful: line {line}: {rule}"),
        }
    }
}
