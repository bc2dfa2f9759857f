ghost use Rattle.std.specs.Prelude.{◌≡◌, Some};
ghost use Rattle.journal.specs.FaultTexts.{fault_text};

use std::alloc::AllocError;
use std::error::Error;
use std::fmt;

/// Why a text makes no journal.
#[derive(Clone, Copy, Debug, Drop)]
pub enum JournalFault {
    /// The first line, counted from 1, that is spelled as no line, names what isn't declared, or is a head
    /// line behind an entry.
    Form { line: usize },
    /// A growth was refused while the text was read.
    NoMemory,
}

impl fmt::Display for JournalFault {
    ghost output = { λ fault. Some (fault_text fault) };

    fn fmt<W: fmt::Write>(&self, f: &mut fmt::Formatter<W>) -> fmt::Result {
        match self {
            JournalFault::Form { line } => write!(f, "line {line}: form"),
            JournalFault::NoMemory => f.write_str("no memory"),
        }
    }
}

impl Error for JournalFault {}

impl From<AllocError> for JournalFault {
    ghost use Rattle.journal.specs.declared.journal_fault.JournalFault.TheVariants.{NoMemory};

    ghost from_gives = { λ _ fault. fault ≡ NoMemory };

    fn from(_: AllocError) -> Self {
        JournalFault::NoMemory
    }
}
