ghost use Rattle.std.specs.Prelude.{Some};
ghost use Rattle.step_table.specs.RowTexts.{phase_text};

use crate::misuse::Misuse;
use crate::row::Row;
use std::fmt;

/// How far a seat has come.
#[derive(Clone, Copy, PartialEq, Eq, Drop)]
pub enum Phase {
    /// It stands before this row.
    At(Row),
    /// It has ended all its calls.
    Ended,
    /// It stopped at a misuse of a wait group.
    Failed(Misuse),
}

impl fmt::Display for Phase {
    ghost output = { λ phase. Some (phase_text phase) };

    fn fmt<W: fmt::Write>(&self, f: &mut fmt::Formatter<W>) -> fmt::Result {
        match self {
            Phase::At(row) => write!(f, "{row}"),
            Phase::Ended => f.write_str("ended"),
            Phase::Failed(_) => f.write_str("failed"),
        }
    }
}
