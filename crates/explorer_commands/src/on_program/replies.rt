//! What the command `try` replies where nothing is bad: what its schedules lead to, of what is asked.

ghost use Rattle.std.specs.Prelude.{◌≡◌, ◌++◌, IfOk, string_bytes};
ghost use Rattle.explorer_commands.specs.OutlookTexts.{broken_text, told_bad, round_text, sections_text, starved_text};
ghost use Rattle.explorer_commands.specs.ProgramCommands.{RepliesDeadEnd, RepliesStarving, RepliesBroken, RepliesPasses};
ghost use Rattle.explorer_commands.specs.ProgramCommands.{IsSeen, bad_text};
ghost use Rattle.liveness.specs.DeadEndText.{dead_end_text};
ghost use Rattle.program_search.specs.declared.outlooks.Outlook.TheVariants.{DeadEnd, Starving, Broken, Alive};
ghost use Rattle.program_search.specs.Tried.{IsTried};

use crate::on_program::beside::NeverMet;
use crate::on_program::reading::ReadText;
use crate::on_program::searched::{Search, counted_beside};
use crate::on_program::spelled::{BadRound, BrokenAt, OfSections, Starved};
use explorer_answers::{Answer, Exit, FoundAmong, Reply};
use program_retrace::retrace_as;
use program_search::{BrokenLine, FirstDeadEnd, FirstStarving, SectionPasses};
use program_steps::BadKind;
use search::{FoundInAll, Searched};
use std::alloc::Global;
use waiters::NoMemory;

/// The dead end, and what is told behind it.
///
/// It is an `Err` where memory is short.
#[tactic(auto, using(crate::proofs::FoundTexts::dead_texts))]
fn dead_text(alloc: Global, dead: FirstDeadEnd, behind: &str) -> Result<String, NoMemory>
    ensures { IfOk result (λ text. string_bytes text
        ≡ bad_text dead.schedule.items (dead_end_text dead.kind) ++ behind.now) }
{
    let found = FoundInAll::Bad {
        schedule: dead.schedule,
        kind: dead.kind,
    };
    let told = FoundAmong {
        found: &found,
        most: 0,
        worlds: None,
    };
    Ok(format!(in alloc; "{told}{behind}")?)
}

/// What `try` replies to a lock program in which nothing is bad, but which comes to this dead end.
///
/// It is an `Err` where memory is short.
pub(crate) fn dead_reply(
    alloc: Global,
    read: &ReadText<'_>,
    search: Search,
    searched: &Searched<FoundInAll<BadKind>>,
    millis: u64,
    dead: FirstDeadEnd,
) -> Result<Reply, NoMemory>
    requires tried { IsTried read.now.program search.worlds searched.now.found }
    requires dead { IsSeen read.now.program search.aims searched.now.found (DeadEnd dead) }
    ensures { IfOk result (λ reply. RepliesDeadEnd search.worlds search.aims read.now.program
        (string_bytes reply.answer.text) reply.answer.exit) }
{
    let behind = retrace_as(
        alloc,
        read.text,
        &read.names,
        &read.program,
        &dead.schedule,
        &[],
        search.layout,
        dead.kind,
    )?;
    let aside = counted_beside(alloc, search, searched, millis, None)?;
    Ok(Reply {
        answer: Answer {
            text: dead_text(alloc, dead, &behind)?,
            exit: Exit::BadFound,
        },
        aside,
    })
}

/// The line that is broken, and what is told behind it.
///
/// It is an `Err` where memory is short.
#[tactic(auto, using(crate::proofs::FoundTexts::broken_texts))]
fn broken_line_text(alloc: Global, broken: BrokenLine, behind: &str) -> Result<String, NoMemory>
    ensures { IfOk result (λ text. string_bytes text
        ≡ bad_text broken.schedule.items (broken_text broken.line) ++ behind.now) }
{
    let found = FoundInAll::Bad {
        schedule: broken.schedule,
        kind: BrokenAt(broken.line),
    };
    let told = FoundAmong {
        found: &found,
        most: 0,
        worlds: None,
    };
    Ok(format!(in alloc; "{told}{behind}")?)
}

/// What `try` replies to a lock program in which nothing is bad, but whose line `passed` this schedule breaks.
///
/// It is an `Err` where memory is short.
pub(crate) fn broken_reply(
    alloc: Global,
    read: &ReadText<'_>,
    search: Search,
    searched: &Searched<FoundInAll<BadKind>>,
    millis: u64,
    broken: BrokenLine,
) -> Result<Reply, NoMemory>
    requires tried { IsTried read.now.program search.worlds searched.now.found }
    requires broken { IsSeen read.now.program search.aims searched.now.found (Broken broken) }
    ensures { IfOk result (λ reply. RepliesBroken search.worlds search.aims read.now.program
        (string_bytes reply.answer.text) reply.answer.exit) }
{
    let behind = retrace_as(
        alloc,
        read.text,
        &read.names,
        &read.program,
        &broken.schedule,
        &[],
        search.layout,
        BrokenAt(broken.line),
    )?;
    let aside = counted_beside(alloc, search, searched, millis, None)?;
    Ok(Reply {
        answer: Answer {
            text: broken_line_text(alloc, broken, &behind)?,
            exit: Exit::BadFound,
        },
        aside,
    })
}

/// The round that passes a seat over, and what is told behind it.
///
/// It is an `Err` where memory is short.
fn starving_text(alloc: Global, starving: &FirstStarving, behind: &str) -> Result<String, NoMemory>
    ensures { IfOk result (λ text. string_bytes text ≡ told_bad (starved_text starving.now.seat)
        (round_text starving.now.schedule.items starving.now.round.items) ++ behind.now) }
{
    let told = BadRound(starving);
    Ok(format!(in alloc; "{told}{behind}")?)
}

/// What `try` replies to a lock program in which nothing is bad, but in which this seat may be passed over for ever.
///
/// It is an `Err` where memory is short.
pub(crate) fn starving_reply(
    alloc: Global,
    read: &ReadText<'_>,
    search: Search,
    searched: &Searched<FoundInAll<BadKind>>,
    millis: u64,
    starving: FirstStarving,
) -> Result<Reply, NoMemory>
    requires tried { IsTried read.now.program search.worlds searched.now.found }
    requires starving { IsSeen read.now.program search.aims searched.now.found (Starving starving) }
    ensures { IfOk result (λ reply. RepliesStarving search.worlds search.aims read.now.program
        (string_bytes reply.answer.text) reply.answer.exit) }
{
    let behind = retrace_as(
        alloc,
        read.text,
        &read.names,
        &read.program,
        &starving.schedule,
        &starving.round,
        search.layout,
        Starved(starving.seat),
    )?;
    let aside = counted_beside(alloc, search, searched, millis, None)?;
    Ok(Reply {
        answer: Answer {
            text: starving_text(alloc, &starving, &behind)?,
            exit: Exit::BadFound,
        },
        aside,
    })
}

/// How often seats are passed for each of these sections.
///
/// It is an `Err` where memory is short.
fn passes_told(
    alloc: Global,
    read: &ReadText<'_>,
    all: &[SectionPasses],
) -> Result<String, NoMemory>
    ensures { IfOk result (λ text. string_bytes text ≡ sections_text read.now.names.sections all.now) }
{
    let told = OfSections {
        names: read.names.sections.as_slice(),
        all,
    };
    Ok(format!(in alloc; "{told}")?)
}

/// What `try` replies to a lock program in which there is nothing of what is asked for, but in which seats are
/// passed so often.
///
/// It is an `Err` where memory is short.
pub(crate) fn passes_reply(
    alloc: Global,
    read: &ReadText<'_>,
    search: Search,
    searched: &Searched<FoundInAll<BadKind>>,
    millis: u64,
    never_met: &NeverMet<'_>,
    all: Vec<SectionPasses>,
) -> Result<Reply, NoMemory>
    requires tried { IsTried read.now.program search.worlds searched.now.found }
    requires alive { IsSeen read.now.program search.aims searched.now.found (Alive all) }
    ensures { IfOk result (λ reply. RepliesPasses search.worlds search.aims read.now.names read.now.program
        (string_bytes reply.answer.text) reply.answer.exit) }
{
    let aside = counted_beside(alloc, search, searched, millis, Some(never_met))?;
    Ok(Reply {
        answer: Answer {
            text: passes_told(alloc, read, &all)?,
            exit: Exit::NothingBad,
        },
        aside,
    })
}
