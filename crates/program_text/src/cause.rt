//! What is wrong with a line of a lock program.

ghost use Rattle.std.specs.Prelude.{◌≡◌, Some};
ghost use Rattle.program_text.specs.CauseOrder as order;
ghost use Rattle.program_text.specs.FaultTexts.{cause_text};

use std::alloc::AllocError;
use std::fmt;

/// What is wrong with a line, by number: the least that holds of the line is answered.
#[derive(Clone, Copy, Debug, PartialEq, Eq, Drop)]
pub enum ProgramCause {
    /// No line feed ends it.
    Cut = 1,
    /// It has a byte that can't be printed.
    Byte = 2,
    /// It is no line, whatever its names and numbers.
    Form = 3,
    /// It comes too early or too late.
    Place = 4,
    /// A number is outside its range.
    Range = 5,
    /// It is one too many, or makes too many.
    TooMany = 6,
    /// A name isn't declared further up as what it must be here.
    Undeclared = 7,
    /// It declares a name, or a label of its program, again.
    Twice = 8,
    /// It indexes what is no array, or an array without an index.
    Array = 9,
    /// It jumps to no label of its program, and all lines are else right.
    Label = 10,
    /// The text ends before any seats.
    End = 11,
    /// A growth was refused while the line was read.
    NoMemory = 12,
}

impl ProgramCause {
    /// Its place in the order.
    fn number(self) -> u8
        ensures { result ≡ order.number self }
    {
        self as u8
    }

    /// The lesser of both.
    pub fn least(self, other: ProgramCause) -> ProgramCause
        ensures { result ≡ order.least self other }
    {
        if other.number() < self.number() {
            other
        } else {
            self
        }
    }
}

impl From<AllocError> for ProgramCause {
    ghost use Rattle.program_text.specs.declared.cause.ProgramCause.TheVariants.{NoMemory};

    ghost from_gives = { λ _ result. result ≡ NoMemory };

    fn from(_error: AllocError) -> Self {
        ProgramCause::NoMemory
    }
}

impl fmt::Display for ProgramCause {
    ghost output = { λ cause. Some (cause_text cause) };

    fn fmt<W: fmt::Write>(&self, f: &mut fmt::Formatter<W>) -> fmt::Result {
        f.write_str(match self {
            ProgramCause::Cut => "cut",
            ProgramCause::Byte => "byte",
            ProgramCause::Form => "form",
            ProgramCause::Place => "place",
            ProgramCause::Range => "range",
            ProgramCause::TooMany => "too many",
            ProgramCause::Undeclared => "undeclared",
            ProgramCause::Twice => "twice",
            ProgramCause::Array => "array",
            ProgramCause::Label => "label",
            ProgramCause::End => "end",
            ProgramCause::NoMemory => "no memory",
        })
    }
}
