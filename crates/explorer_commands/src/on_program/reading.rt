//! A lock program as its commands take it: read, and ready to run.

ghost use Rattle.std.specs.Prelude.{◌≡◌, ◌≤◌, length, IfOk, IfErr};
ghost use Rattle.explorer_commands.specs.ProgramCommands.{IsRead, IsUnread};

use crate::on_program::refusal::ProgramRefusal;
use explorer_answers::MAX_TEXT;
use program::{DeclaredNames, NamedProgram, ProgramCause, ProgramFault, read_program};
use program_machine::Prepared;
use std::alloc::Global;
use waiters::NoMemory;

/// A text, and the program that it says.
#[derive(Drop)]
pub(crate) struct ReadText<'t> {
    /// The text.
    pub(crate) text: &'t [u8],
    /// The names of its parts.
    pub(crate) names: DeclaredNames<'t>,
    /// The program, ready to run.
    pub(crate) program: Prepared,
}

/// Why a text wasn't read.
#[derive(Clone, Copy, Drop)]
pub(crate) enum Unread {
    /// It is refused for this.
    Refused(ProgramRefusal),
    /// Memory was short.
    NoMemory,
}

impl From<ProgramFault> for Unread {
    ghost use Rattle.explorer_commands.specs.ProgramCommands.{unread_of};

    ghost from_gives = { λ fault unread. unread ≡ unread_of fault };

    fn from(fault: ProgramFault) -> Self {
        match fault.cause {
            ProgramCause::NoMemory => Unread::NoMemory,
            _ => Unread::Refused(ProgramRefusal::Faulty(fault)),
        }
    }
}

impl From<NoMemory> for Unread {
    ghost use Rattle.explorer_commands.specs.declared.on_program.reading.Unread.TheVariants as unread;

    ghost from_gives = { λ _ result. result ≡ unread.NoMemory };

    fn from(_error: NoMemory) -> Self {
        Unread::NoMemory
    }
}

/// The program that the input says, if it isn't too long and its text isn't faulty.
pub(crate) fn read_text<'t>(alloc: Global, input: &'t [u8]) -> Result<ReadText<'t>, Unread>
    ensures short { IfOk result (λ _. length input.now ≤ 65536) }
    ensures program { IfOk result (λ read. IsRead input.now read.names read.program) }
    ensures refused { IfErr result (IsUnread input.now) }
{
    if input.len() > MAX_TEXT {
        return Err(Unread::Refused(ProgramRefusal::TooLong));
    }
    let NamedProgram { names, program } = read_program(alloc, input)?;
    Ok(ReadText {
        text: input,
        names,
        program: Prepared::new(alloc, program)?,
    })
}
