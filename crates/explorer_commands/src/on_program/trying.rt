//! The command `try`: what a search of all schedules found, and what the schedule that it found does.

ghost use Rattle.std.specs.Prelude.{◌≡◌, ◌++◌, [], IfOk, None, string_bytes, option_map};
ghost use Rattle.explorer_answers.specs.CheckText.{found_in_all_schedule};
ghost use Rattle.explorer_commands.specs.ProgramCommands.{RepliesToTry, RepliesTried, IsNothing, tried_text, worlds_of};
ghost use Rattle.program_search.specs.Tried.{IsTried};

use crate::on_program::beside::NeverMet;
use crate::on_program::looking::seen;
use crate::on_program::reading::ReadText;
use crate::on_program::replies::{broken_reply, dead_reply, passes_reply, starving_reply};
use crate::on_program::searched::{Search, counted_beside};
use explorer_answers::{Answer, FoundAmong, Reply, StopWatch};
use program_retrace::{Layout, retrace};
use program_search::{Outlook, Ran, try_program};
use program_steps::BadKind;
use search::{FoundInAll, Searched, Team};
use std::alloc::Global;
use std::thread::Threads;
use waiters::{NoMemory, SeatId};

/// What is told behind the answer of a search: what the schedule that it found does, if it found one.
///
/// It is an `Err` where memory is short.
fn behind(
    alloc: Global,
    read: &ReadText<'_>,
    schedule: Option<&[SeatId]>,
    layout: Layout,
) -> Result<String, NoMemory>
    ensures { IfOk result (λ told.
        option_map (λ seats. seats.now) schedule.entry ≡ None → string_bytes told ≡ []) }
{
    match schedule {
        Some(schedule) => {
            let told = retrace(
                alloc,
                read.text,
                &read.names,
                &read.program,
                schedule,
                layout,
            )?;
            Ok(told.text)
        }
        None => Ok(String::new(alloc)),
    }
}

/// How many worlds were reached, where all were.
fn worlds_of(found: &FoundInAll<BadKind>) -> Option<u128>
    ensures { result ≡ worlds_of found.now }
{
    match found {
        FoundInAll::None { worlds, .. } => Some(*worlds as u128),
        FoundInAll::Bad { .. } | FoundInAll::GaveUp { .. } => None,
    }
}

/// What the search has never come to, where that is told: where nothing bad was found.
fn told_of<'a, 'n>(
    found: &FoundInAll<BadKind>,
    never_met: &'a NeverMet<'n>,
) -> Option<&'a NeverMet<'n>> {
    match found {
        FoundInAll::None { .. } => Some(never_met),
        FoundInAll::Bad { .. } | FoundInAll::GaveUp { .. } => None,
    }
}

/// What was found, and what is told behind it.
///
/// It is an `Err` where memory is short.
#[tactic(auto, using(crate::proofs::FoundTexts::found_texts))]
fn found_text(
    alloc: Global,
    told: FoundAmong<'_, BadKind>,
    behind: &str,
) -> Result<String, NoMemory>
    ensures { IfOk result (λ text. string_bytes text
        ≡ tried_text told.entry.most told.entry.worlds told.entry.found.now ++ behind.now) }
{
    Ok(format!(in alloc; "{told}{behind}")?)
}

/// What `try` replies to a lock program of which it found this, in so many milliseconds. Where nothing bad
/// was found it tells beside what it has never come to.
///
/// It is an `Err` where memory is short.
fn found_reply(
    alloc: Global,
    read: &ReadText<'_>,
    search: Search,
    searched: &Searched<FoundInAll<BadKind>>,
    millis: u64,
    never_met: &NeverMet<'_>,
) -> Result<Reply, NoMemory>
    requires tried { IsTried read.now.program search.worlds searched.now.found }
    requires alive { IsNothing read.now.program search.aims searched.now.found }
    ensures { IfOk result (λ reply. RepliesTried search.worlds search.aims read.now.program
        (string_bytes reply.answer.text) reply.answer.exit) }
{
    let told = FoundAmong {
        found: &searched.found,
        most: search.worlds,
        worlds: worlds_of(&searched.found),
    };
    let behind = behind(alloc, read, told.schedule(), search.layout)?;
    let never_met = told_of(&searched.found, never_met);
    let aside = counted_beside(alloc, search, searched, millis, never_met)?;
    let exit = told.exit();
    Ok(Reply {
        answer: Answer {
            text: found_text(alloc, told, &behind)?,
            exit,
        },
        aside,
    })
}

/// What `try` replies to a lock program.
///
/// It is an `Err` where memory is short.
pub(crate) fn tried<T: Threads + Sync, V: StopWatch>(
    team: &Team<T>,
    alloc: Global,
    read: &ReadText<'_>,
    search: Search,
    watch: &mut V,
) -> Result<Reply, NoMemory>
    ensures { IfOk result (λ reply. RepliesToTry search.worlds search.aims read.now.names read.now.program
        (string_bytes reply.answer.text) reply.answer.exit) }
{
    let program = read.program.program();
    let ran = Ran::new(alloc, program)?;
    let searched = try_program(team, alloc, &read.program, search.worlds, &ran, watch)?;
    let millis = watch.stop();
    let never_met = NeverMet::of(alloc, &ran, program, &read.names)?;
    match seen(alloc, &read.program, search.aims, &searched.found)? {
        Some(Outlook::DeadEnd(dead)) => dead_reply(alloc, read, search, &searched, millis, dead),
        Some(Outlook::Starving(starving)) => {
            starving_reply(alloc, read, search, &searched, millis, starving)
        }
        Some(Outlook::Broken(broken)) => {
            broken_reply(alloc, read, search, &searched, millis, broken)
        }
        Some(Outlook::Alive(all)) => {
            passes_reply(alloc, read, search, &searched, millis, &never_met, all)
        }
        None => found_reply(alloc, read, search, &searched, millis, &never_met),
    }
}
