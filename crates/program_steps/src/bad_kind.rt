ghost use Rattle.std.specs.Prelude.{Some};
ghost use Rattle.program_steps.specs.KindText.{kind_text};

use std::fmt;

/// How a world is bad: the numbers are those of lines of the text, from 1 on.
#[derive(Clone, Copy, Drop)]
pub enum BadKind {
    /// A seat has failed at this line.
    Failed(usize),
    /// More seats than this line allows are in its section.
    Crowded(usize),
    /// Seats are in both sections of this line.
    Together(usize),
    /// No seat can step, and one hasn't ended.
    Stuck,
    /// Each seat has ended, and what this line asks doesn't hold.
    Final(usize),
}

impl fmt::Display for BadKind {
    ghost output = { λ kind. Some (kind_text kind) };

    fn fmt<W: fmt::Write>(&self, f: &mut fmt::Formatter<W>) -> fmt::Result {
        match self {
            BadKind::Failed(line) => write!(f, "failed, line {line}"),
            BadKind::Crowded(line) => write!(f, "crowded, line {line}"),
            BadKind::Together(line) => write!(f, "together, line {line}"),
            BadKind::Stuck => f.write_str("stuck"),
            BadKind::Final(line) => write!(f, "final, line {line}"),
        }
    }
}
