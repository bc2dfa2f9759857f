//! What is said of a journal of which more is asked than the law.

ghost use Rattle.std.specs.Prelude.{Some};
ghost use Rattle.journal.specs.Texts.{judgement_text};

use crate::lock_rule::LockRule;
use crate::rule::Rule;
use std::fmt;

/// What is asked of a journal beyond that it is lawful.
#[derive(Debug, Drop)]
pub struct Demands {
    /// These of its counters are locks.
    pub locks: Vec<usize>,
    /// At its end no wait is left on a counter that has a unit.
    pub settled: bool,
}

/// What is said of a journal, by what is asked of it.
#[derive(Clone, Copy, Drop)]
pub enum Judgement {
    /// It is all that is asked.
    Lawful,
    /// The first line, counted from 1, that no lawful journal can have there, and the first rule that it
    /// breaks.
    Unlawful { line: usize, rule: Rule },
    /// It is lawful, and this is its first line that breaks a rule of a lock.
    Misheld { line: usize, rule: LockRule },
    /// It is lawful and its locks are kept, and at its end a wait is left on this counter, which has a unit.
    LeftAsleep { counter: usize },
}

impl fmt::Display for Judgement {
    ghost output = { λ judgement. Some (judgement_text judgement) };

    fn fmt<W: fmt::Write>(&self, f: &mut fmt::Formatter<W>) -> fmt::Result {
        match self {
            Judgement::Lawful => f.write_str("lawful"),
            Judgement::Unlawful { line, rule } => write!(f, "unlawful: line {line}: {rule}"),
            Judgement::Misheld { line, rule } => write!(f, "unlawful: line {line}: {rule}"),
            Judgement::LeftAsleep { counter } => write!(f, "left asleep: counter {counter}"),
        }
    }
}
