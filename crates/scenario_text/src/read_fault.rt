//! What is wrong with a scenario's text.

ghost use Rattle.std.specs.Prelude.{Some};
ghost use Rattle.scenario_text.specs.FaultTexts.{cause_text, read_fault_text};

use std::error::Error;
use std::fmt;

/// What is wrong with a line, by number: the least that holds of the line is answered.
#[derive(Clone, Copy, Debug, PartialEq, Eq, Drop)]
pub enum Cause {
    /// No line feed ends it.
    Cut = 1,
    /// It has a byte that can't be printed.
    Byte = 2,
    /// It isn't spelled as a line.
    Form = 3,
    /// It may not come here.
    Place = 4,
    /// A number is outside its range.
    Range = 5,
    /// It is one counter, list, group or seat too many, or has too many calls.
    TooMany = 6,
    /// It names what isn't declared.
    Undeclared = 7,
    /// A call takes a ticket while the seat holds one, waits without one, or leaves out calls that change which
    /// tickets the seat holds.
    Ticket = 8,
    /// The text ends before a property.
    End = 9,
    /// A growth was refused while the line was read.
    NoMemory = 10,
}

impl fmt::Display for Cause {
    ghost output = { λ cause. Some (cause_text cause) };

    fn fmt<W: fmt::Write>(&self, f: &mut fmt::Formatter<W>) -> fmt::Result {
        f.write_str(match self {
            Cause::Cut => "cut",
            Cause::Byte => "byte",
            Cause::Form => "form",
            Cause::Place => "place",
            Cause::Range => "range",
            Cause::TooMany => "too many",
            Cause::Undeclared => "undeclared",
            Cause::Ticket => "ticket",
            Cause::End => "end",
            Cause::NoMemory => "no memory",
        })
    }
}

/// The first faulty line, counted from 1, and what is wrong with it.
#[derive(Clone, Copy, Debug, PartialEq, Eq, Drop)]
pub struct ReadFault {
    /// The line's number. Behind the last line it is the number of lines and 1.
    pub line: usize,
    /// The least cause that holds of the line.
    pub cause: Cause,
}

impl fmt::Display for ReadFault {
    ghost output = { λ fault. Some (read_fault_text fault) };

    fn fmt<W: fmt::Write>(&self, f: &mut fmt::Formatter<W>) -> fmt::Result {
        let ReadFault { line, cause } = *self;
        write!(f, "line {line}: {cause}")
    }
}

impl Error for ReadFault {}
