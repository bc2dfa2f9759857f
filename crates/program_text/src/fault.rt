//! What is wrong with the text of a lock program.

ghost use Rattle.std.specs.Prelude.{Some};
ghost use Rattle.program_text.specs.FaultTexts.{fault_text};

use crate::cause::ProgramCause;
use std::error::Error;
use std::fmt;

/// The first faulty line, counted from 1, and what is wrong with it.
#[derive(Clone, Copy, Debug, Drop)]
pub struct ProgramFault {
    /// The line's number. Behind the last line it is the number of lines and 1.
    pub line: usize,
    /// The least cause that holds of the line.
    pub cause: ProgramCause,
}

impl fmt::Display for ProgramFault {
    ghost output = { λ fault. Some (fault_text fault) };

    fn fmt<W: fmt::Write>(&self, f: &mut fmt::Formatter<W>) -> fmt::Result {
        let ProgramFault { line, cause } = *self;
        write!(f, "line {line}: {cause}")
    }
}

impl Error for ProgramFault {}
