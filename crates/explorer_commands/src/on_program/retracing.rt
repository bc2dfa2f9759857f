//! The command `retrace`: what a schedule does, and a round behind it.

ghost use Rattle.std.specs.Prelude.{◌≡◌, ◌++◌, ℕ, List, IfOk, string_bytes};
ghost use Rattle.explorer_commands.specs.ProgramCommands.{IsExitOfRound, RepliesRetraced, exit_of, exit_of_starved};
ghost use Rattle.program_code.specs.declared.program.Program.{Program};
ghost use Rattle.program_retrace.specs.declared.retold.Ending.{Ending as HowItEnds};
ghost use Rattle.program_retrace.specs.Ends.{EndsBy};
ghost use Rattle.program_search.specs.StarvedBy.{IsStarvedBy};

use crate::on_program::reading::ReadText;
use crate::on_program::refusal::{ProgramRefusal, refused};
use crate::on_program::round_text::{ReadRound, read_round};
use explorer_answers::{Answer, Exit, Reply};
use program_retrace::{Ending, Layout, retrace, retrace_round};
use program_search::starved_by;
use scenario_text::read_seats;
use std::alloc::Global;
use std::fmt;
use waiters::{NoMemory, SeatId};

/// How the command ends.
fn exit_of(ending: Ending) -> Exit
    ensures { result ≡ exit_of ending }
{
    match ending {
        Ending::World(None) => Exit::NothingBad,
        Ending::World(Some(_)) => Exit::BadFound,
        Ending::Refused(_) => Exit::Refused,
    }
}

/// The verdict on a round.
#[derive(Clone, Copy, Drop)]
enum RoundVerdict {
    /// It is fair and leads back, and passes this seat over.
    Starved(SeatId),
    /// It is none that does.
    NoRound,
}

impl fmt::Display for RoundVerdict {
    fn fmt<W: fmt::Write>(&self, f: &mut fmt::Formatter<W>) -> fmt::Result {
        match self {
            RoundVerdict::Starved(seat) => write!(f, "starved, seat {seat}"),
            RoundVerdict::NoRound => f.write_str("not a round"),
        }
    }
}

/// The verdict on a round by which this seat starves.
fn verdict_on(starved: &Option<SeatId>) -> RoundVerdict {
    match starved {
        Some(seat) => RoundVerdict::Starved(*seat),
        None => RoundVerdict::NoRound,
    }
}

/// How the command ends with a round of which this is told.
fn exit_of_starved(starved: &Option<SeatId>) -> Exit
    ensures { result ≡ exit_of_starved starved.now }
{
    match starved {
        Some(_) => Exit::BadFound,
        None => Exit::NothingBad,
    }
}

/// How the command ends where schedule and round end so, and this seat starves by the round.
fn exit_of_round(ending: &Ending, starved: &Option<SeatId>) -> Exit
    ensures { (program : Program) (schedule round : List ℕ) → IsStarvedBy program schedule round starved.now
        → IsExitOfRound program schedule round result ending.now }
{
    match ending {
        Ending::World(_) => exit_of_starved(starved),
        Ending::Refused(_) => Exit::Refused,
    }
}

/// What `retrace` replies to a schedule with a round.
///
/// It is an `Err` where memory is short.
fn round_reply(
    alloc: Global,
    read: &ReadText<'_>,
    both: &ReadRound,
    layout: Layout,
) -> Result<Reply, NoMemory>
    ensures { IfOk result (λ reply. (ending : HowItEnds)
        × EndsBy read.now.program (both.now.schedule.items ++ both.now.round.items) ending
        × IsExitOfRound read.now.program both.now.schedule.items both.now.round.items reply.answer.exit ending) }
{
    let starved = starved_by(alloc, &read.program, &both.schedule, &both.round)?;
    let told = retrace_round(
        alloc,
        read.text,
        &read.names,
        &read.program,
        &both.schedule,
        &both.round,
        layout,
        verdict_on(&starved),
    )?;
    let exit = exit_of_round(&told.ending, &starved);
    Ok(Reply {
        answer: Answer {
            text: told.text,
            exit,
        },
        aside: None,
    })
}

/// What `retrace` replies to a schedule.
///
/// It is an `Err` where memory is short.
fn schedule_reply(
    alloc: Global,
    read: &ReadText<'_>,
    schedule: &[SeatId],
    layout: Layout,
) -> Result<Reply, NoMemory>
    ensures { IfOk result (λ reply. (ending : HowItEnds) × EndsBy read.now.program schedule.now ending
        × (reply.answer.exit ≡ exit_of ending)) }
{
    let told = retrace(
        alloc,
        read.text,
        &read.names,
        &read.program,
        schedule,
        layout,
    )?;
    Ok(Reply {
        answer: Answer {
            text: told.text,
            exit: exit_of(told.ending),
        },
        aside: None,
    })
}

/// What `retrace` replies to a lock program, with the text of a schedule, however long, and maybe of a round behind it.
///
/// It is an `Err` where memory is short.
pub(crate) fn retraced(
    alloc: Global,
    read: &ReadText<'_>,
    schedule: &str,
    layout: Layout,
) -> Result<Reply, NoMemory>
    ensures { IfOk result (λ reply.
        RepliesRetraced schedule.now read.now.program (string_bytes reply.answer.text) reply.answer.exit) }
{
    if let Some(seats) = read_seats(alloc, schedule)? {
        return schedule_reply(alloc, read, &seats, layout);
    }
    match read_round(alloc, schedule)? {
        Some(both) => round_reply(alloc, read, &both, layout),
        None => refused(alloc, &[], ProgramRefusal::Schedule),
    }
}
