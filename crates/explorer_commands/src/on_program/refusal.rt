//! Why a command doesn't do what its input and its words ask for.

ghost use Rattle.std.specs.Prelude.{IfOk, Some, string_bytes};
ghost use Rattle.explorer_answers.specs.InputText.{Refuses};
ghost use Rattle.explorer_commands.specs.ProgramCommands.{program_refusal_text};

use crate::on_program::help::explain;
use explorer_answers::{Answer, Exit, Reply, TOO_LONG};
use program::ProgramFault;
use std::alloc::{AllocError, Global};
use std::fmt;
use waiters::NoMemory;

/// What was expected in place of a text that is no schedule.
const NO_SCHEDULE: &str = "\
a schedule is numbers of seats, 0 to 99, one space apart; behind it a round may stand, as (0 1)
";

/// Why a command doesn't do what its input and its words ask for.
#[derive(Clone, Copy, Drop)]
pub(crate) enum ProgramRefusal {
    /// The input is longer than a text may be.
    TooLong,
    /// A line of the input is faulty.
    Faulty(ProgramFault),
    /// The schedule isn't spelled as one.
    Schedule,
}

impl ProgramRefusal {
    /// What is said of it beside the answer to the input: what was expected.
    ///
    /// It is an `Err` where memory is short.
    fn help(self, alloc: Global, input: &[u8]) -> Result<String, AllocError> {
        match self {
            ProgramRefusal::TooLong => String::from_str(alloc, TOO_LONG),
            ProgramRefusal::Faulty(fault) => explain(alloc, input, fault),
            ProgramRefusal::Schedule => String::from_str(alloc, NO_SCHEDULE),
        }
    }
}

impl fmt::Display for ProgramRefusal {
    ghost output = { λ refusal. Some (program_refusal_text refusal) };

    fn fmt<W: fmt::Write>(&self, f: &mut fmt::Formatter<W>) -> fmt::Result {
        match self {
            ProgramRefusal::TooLong => f.write_str("too long"),
            ProgramRefusal::Faulty(fault) => write!(f, "{fault}"),
            ProgramRefusal::Schedule => f.write_str("schedule"),
        }
    }
}

/// The reply to an input that is refused for this reason.
///
/// It is an `Err` where memory is short.
pub(crate) fn refused(
    alloc: Global,
    input: &[u8],
    refusal: ProgramRefusal,
) -> Result<Reply, NoMemory>
    ensures { IfOk result (λ reply.
        Refuses (program_refusal_text refusal) (string_bytes reply.answer.text) reply.answer.exit) }
{
    let aside = refusal.help(alloc, input)?;
    Ok(Reply {
        answer: Answer {
            text: format!(in alloc; "refused: {refusal}\n")?,
            exit: Exit::Refused,
        },
        aside: Some(aside),
    })
}
