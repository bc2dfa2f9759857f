//! What the arguments of each command ask for.

ghost use Rattle.std.specs.Prelude.{◌≡◌, ◌↔◌, IfOk, IfSome, IsTrue, Some, option_map, codes};
ghost use Rattle.explorer.specs.Asked.{IsFileNamed, IsFromOne, IsWithinLimits, NamesNoInput};
ghost use Rattle.explorer.specs.Asked.{ReadsInputOnce};

use crate::format::{FORMAT, LOCK_FORMAT};
use crate::invocation::{Invocation, MAX_LINES, MAX_THREADS, MAX_WORLDS};
use clap::ArgMatches;
use explorer_answers::Extras;
use explorer_commands::{
    Aims, Command, Layout, MAX_ROUNDS, MAX_WORKERS, ProgramCommand, ScenarioCommand, Wanted,
};
use journal::Demands;
use scenario_search::{Bounds, CHECKED_WORLDS, EXPLORED_WORLDS, MAX_DEPTH, variant_named};
use std::alloc::{AllocError, Global};
use step_core::Variant;

/// What is wrong with a replay that reads both its texts from standard input.
static NO_SCENARIO: &str = "\
error: with --schedule-of - standard input has the answer: name the scenario by --scenario FILE
";

/// And with such a retrace.
static NO_PROGRAM: &str = "\
error: with --schedule-of - standard input has the answer: name the lock program's file
";

/// How many worlds a search may keep that keeps so many where it isn't told.
fn worlds_of(given: &ArgMatches<'_>, untold: u32) -> u32
    ensures { IsFromOne 1000000000 result }
{
    given
        .get_one::<u32>("worlds")
        .unwrap_or(untold)
        .clamp(1, MAX_WORLDS)
}

/// The change of the step table that is asked for.
fn variant_of(given: &ArgMatches<'_>) -> Option<Variant> {
    variant_named(given.get_str("variant")?)
}

/// How many threads share the search.
fn searchers_of(given: &ArgMatches<'_>) -> u16
    ensures { IsFromOne 64 result }
{
    let told = given.get_one::<u32>("threads").unwrap_or(1);
    told.clamp(1, u32::from(MAX_THREADS)) as u16
}

/// What a search is to tell beyond what it found.
fn extras_of(given: &ArgMatches<'_>) -> Extras {
    Extras {
        drawn: given.get_flag("table"),
        counted: given.get_flag("stats"),
        live: given.get_flag("progress"),
    }
}

/// Whether this names standard input.
fn is_standard_input(name: Option<&str>) -> bool
    ensures { IsTrue result ↔ (option_map (λ text. text.now) name.entry ≡ Some (codes "-")) }
{
    match name {
        Some(name) => name == "-",
        None => false,
    }
}

/// The file of this name; `-` is standard input.
fn file_of<'w>(name: Option<&'w str>) -> Option<&'w str>
    ensures { IsFileNamed name.entry result }
{
    if is_standard_input(name) { None } else { name }
}

/// What `explore` is asked for.
fn explore_asked<'w>(given: &ArgMatches<'w>) -> Invocation<'w>
    ensures limits { IsWithinLimits result }
    ensures once { ReadsInputOnce result }
    ensures named { NamesNoInput result }
{
    let depth = given.get_one::<u32>("depth").unwrap_or(MAX_DEPTH);
    let bounds = Bounds {
        depth: depth.min(MAX_DEPTH),
        worlds: worlds_of(given, EXPLORED_WORLDS),
    };
    Invocation::OfText {
        command: Command::OnScenario(ScenarioCommand::Explore {
            bounds,
            table: variant_of(given),
            extras: extras_of(given),
        }),
        file: file_of(given.get_str("file")),
        answer: None,
        threads: searchers_of(given),
    }
}

/// What `check` is asked for.
fn check_asked<'w>(given: &ArgMatches<'w>) -> Invocation<'w>
    ensures limits { IsWithinLimits result }
    ensures once { ReadsInputOnce result }
    ensures named { NamesNoInput result }
{
    Invocation::OfText {
        command: Command::OnScenario(ScenarioCommand::Check {
            worlds: worlds_of(given, CHECKED_WORLDS),
            every: given.get_flag("every"),
            extras: extras_of(given),
        }),
        file: file_of(given.get_str("file")),
        answer: None,
        threads: searchers_of(given),
    }
}

/// What `replay` is asked for. An answer on standard input leaves no room there for the scenario.
///
/// It is an `Err` where memory is short.
fn replay_asked<'w>(alloc: Global, given: &ArgMatches<'w>) -> Result<Invocation<'w>, AllocError>
    ensures limits { IfOk result IsWithinLimits }
    ensures once { IfOk result ReadsInputOnce }
    ensures named { IfOk result NamesNoInput }
{
    let answer = given.get_str("schedule-of");
    let file = file_of(given.get_str("scenario").or(given.get_str("file")));
    if is_standard_input(answer) && file.is_none() {
        return Ok(Invocation::Mistake(String::from_str(alloc, NO_SCENARIO)?));
    }
    Ok(Invocation::OfText {
        command: Command::OnScenario(ScenarioCommand::Replay {
            // that of an answer takes the place of none
            schedule: given.get_str("schedule").unwrap_or(""),
            table: variant_of(given),
            every: given.get_flag("every"),
            drawn: given.get_flag("table"),
        }),
        file,
        answer,
        threads: 1,
    })
}

/// How the steps of a lock program are told; a table has a line for each row anyway.
fn layout_of(given: &ArgMatches<'_>) -> Layout {
    if given.get_flag("table") {
        Layout::Table
    } else if given.get_flag("rows") {
        Layout::Rows
    } else {
        Layout::Lines
    }
}

/// What is asked of a lock program in which nothing is bad.
fn aims_of(given: &ArgMatches<'_>) -> Aims {
    Aims {
        dead_ends: Wanted {
            no_end: given.get_flag("ends"),
            lost: given.get_flag("lost"),
        },
        starved: given.get_flag("starved"),
        passes: given.get_flag("passes"),
    }
}

/// What `try` is asked for.
fn try_asked<'w>(given: &ArgMatches<'w>) -> Invocation<'w>
    ensures limits { IsWithinLimits result }
    ensures once { ReadsInputOnce result }
    ensures named { NamesNoInput result }
{
    Invocation::OfText {
        command: Command::OnProgram(ProgramCommand::Try {
            worlds: worlds_of(given, CHECKED_WORLDS),
            aims: aims_of(given),
            layout: layout_of(given),
            counted: given.get_flag("stats"),
            live: given.get_flag("progress"),
        }),
        file: file_of(given.get_str("file")),
        answer: None,
        threads: searchers_of(given),
    }
}

/// What `retrace` is asked for. An answer on standard input leaves no room there for the lock program.
///
/// It is an `Err` where memory is short.
fn retrace_asked<'w>(alloc: Global, given: &ArgMatches<'w>) -> Result<Invocation<'w>, AllocError>
    ensures limits { IfOk result IsWithinLimits }
    ensures once { IfOk result ReadsInputOnce }
    ensures named { IfOk result NamesNoInput }
{
    let answer = given.get_str("schedule-of");
    let file = file_of(given.get_str("file"));
    if file.is_none() && is_standard_input(answer) {
        return Ok(Invocation::Mistake(String::from_str(alloc, NO_PROGRAM)?));
    }
    Ok(Invocation::OfText {
        command: Command::OnProgram(ProgramCommand::Retrace {
            // that of an answer takes the place of none
            schedule: given.get_str("schedule").unwrap_or(""),
            layout: layout_of(given),
        }),
        file,
        answer,
        threads: 1,
    })
}

/// The counters that are told to be locks.
fn locks_of(alloc: Global, given: &ArgMatches<'_>) -> Result<Vec<usize>, AllocError> {
    let mut locks = Vec::new(alloc);
    let Some(told) = given.get_many::<u32>("lock") else {
        return Ok(locks);
    };
    for lock in told {
        if let Ok(lock) = lock {
            locks.push(lock as usize)?;
        }
    }
    Ok(locks)
}

/// How many lines of a journal are judged, where that is told.
fn most_of(given: &ArgMatches<'_>) -> Option<u32>
    ensures { IfSome result (IsFromOne 1000000) }
{
    let told = given.get_one::<u32>("most")?;
    Some(told.clamp(1, MAX_LINES))
}

/// What `judge` is asked for.
///
/// It is an `Err` where memory is short.
fn judge_asked<'w>(alloc: Global, given: &ArgMatches<'w>) -> Result<Invocation<'w>, AllocError>
    ensures limits { IfOk result IsWithinLimits }
    ensures once { IfOk result ReadsInputOnce }
    ensures named { IfOk result NamesNoInput }
{
    Ok(Invocation::Judge {
        file: file_of(given.get_str("file")),
        demands: Demands {
            locks: locks_of(alloc, given)?,
            settled: given.get_flag("settled"),
        },
        most: most_of(given),
    })
}

/// The form of which kind of text is to be told: a scenario's where that isn't said.
fn format_of(given: &ArgMatches<'_>) -> &'static str {
    match given.get_str("kind") {
        Some("lock") => LOCK_FORMAT,
        _ => FORMAT,
    }
}

/// What `threads` is asked for.
fn threads_asked<'w>(given: &ArgMatches<'w>) -> Invocation<'w>
    ensures limits { IsWithinLimits result }
    ensures once { ReadsInputOnce result }
    ensures named { NamesNoInput result }
{
    let workers = given.get_one::<u32>("workers").unwrap_or(1);
    let rounds = given.get_one::<u32>("rounds").unwrap_or(1);
    Invocation::Threads {
        workers: workers.clamp(1, MAX_WORKERS),
        rounds: rounds.clamp(1, MAX_ROUNDS),
    }
}

/// What the command of this name is asked for.
///
/// It is an `Err` where memory is short.
pub(crate) fn asked_of<'w>(
    alloc: Global,
    name: &str,
    given: &ArgMatches<'w>,
) -> Result<Invocation<'w>, AllocError>
    ensures limits { IfOk result IsWithinLimits }
    ensures once { IfOk result ReadsInputOnce }
    ensures named { IfOk result NamesNoInput }
{
    match name {
        "check" => Ok(check_asked(given)),
        "explore" => Ok(explore_asked(given)),
        "replay" => replay_asked(alloc, given),
        "try" => Ok(try_asked(given)),
        "retrace" => retrace_asked(alloc, given),
        "judge" => judge_asked(alloc, given),
        "threads" => Ok(threads_asked(given)),
        "format" => Ok(Invocation::Help(String::from_str(alloc, format_of(given))?)),
        _ => Ok(Invocation::Once),
    }
}

// The numbers that the help tells of a search that isn't told how many worlds it may keep.
const _: () = prove!(EXPLORED_WORLDS == 200_000 && CHECKED_WORLDS == 2_000_000);
