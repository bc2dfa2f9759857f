//! The program's commands, and the arguments of each, as clap reads them and tells them in its help.

use crate::argument::{Argument, Numbers, Row, Takes, made_argument};
use crate::invocation::MAX_LINES;
use crate::program_commands::{RETRACE, TRY};
use crate::shared_arguments::{
    COLUMNS, DRAWN, EVERY, FLAG, PROGRESS, SCENARIO_FILE, SEARCHERS, STATS, VARIANT, WORLDS,
};
use clap::{Arg, ArgAction, Command};
use explorer_commands::{MAX_DEPTH, MAX_ROUNDS, MAX_WORKERS};
use std::alloc::{AllocError, Global};

/// What the exit statuses mean.
static STATUSES: &str = "\
Status: 0 nothing bad, 1 something bad was found, 3 gave up,
        2 refused: words, text, schedule, memory, a file or a stream
The form of a scenario's text: parklot format; of a lock program's: parklot format lock";

/// The same, below a command that searches.
const SEARCH_STATUSES: &str = "\
Status: 0 nothing bad, 1 something bad was found, 3 gave up,
        2 refused: words, text, memory, a file or a stream
Memory: 110 to 700 bytes for each world that is reached,
        for 1,000,000,000 of them 110 GB and more";

/// The same, below `replay`.
const REPLAY_STATUSES: &str = "\
Status: 0 not bad, 1 the schedule ends in a bad world,
        2 refused: words, text, schedule, one of its steps, memory, a file or a stream";

/// The same, below `judge`.
const JUDGE_STATUSES: &str = "\
Status: 0 lawful, 1 a rule is broken, or a sleeper is left,
        2 refused: words, text, memory, a file or a stream
Without --lock it is units and queues that are judged, and not who holds a lock";

const CHECK_ARGUMENTS: &[Argument] = &[
    EVERY,
    Argument {
        name: "worlds",
        is_named: true,
        takes: WORLDS,
        help: "The most worlds, 1 to 1,000,000,000; without it 2,000,000",
    },
    DRAWN,
    COLUMNS,
    STATS,
    PROGRESS,
    SEARCHERS,
    SCENARIO_FILE,
];

const EXPLORE_ARGUMENTS: &[Argument] = &[
    Argument {
        name: "depth",
        is_named: true,
        takes: Takes::Number(Numbers {
            letter: "N",
            least: 0,
            most: MAX_DEPTH as i64,
            required: true,
            action: ArgAction::Set,
        }),
        help: "The most steps of a schedule, 0 to 64",
    },
    VARIANT,
    Argument {
        name: "worlds",
        is_named: true,
        takes: WORLDS,
        help: "The most worlds, 1 to 1,000,000,000; without it 200,000",
    },
    DRAWN,
    COLUMNS,
    STATS,
    PROGRESS,
    SEARCHERS,
    SCENARIO_FILE,
];

const REPLAY_ARGUMENTS: &[Argument] = &[
    Argument {
        name: "schedule",
        is_named: true,
        takes: Takes::Schedule {
            other: "schedule-of",
        },
        help: "The numbers of the seats that step, one space apart, at most 256",
    },
    Argument {
        name: "schedule-of",
        is_named: true,
        takes: Takes::File {
            other: Some("schedule"),
        },
        help: "The answer of explore or check whose schedule is told; - for standard input",
    },
    VARIANT,
    EVERY,
    Argument {
        name: "table",
        is_named: true,
        takes: FLAG,
        help: "Draw the steps as a table: a column a seat, and one for each word",
    },
    COLUMNS,
    Argument {
        name: "scenario",
        is_named: true,
        takes: Takes::File {
            other: Some("file"),
        },
        help: "The scenario's file, as FILE",
    },
    SCENARIO_FILE,
];

const JUDGE_ARGUMENTS: &[Argument] = &[
    Argument {
        name: "lock",
        is_named: true,
        takes: Takes::Number(Numbers {
            letter: "C",
            least: 0,
            most: u32::MAX as i64,
            required: false,
            action: ArgAction::Append,
        }),
        help: "Counter C is a lock: who takes it brings it back, and nobody else; once for each lock",
    },
    Argument {
        name: "settled",
        is_named: true,
        takes: FLAG,
        help: "Ask too that at the end no wait is left on a counter that has a unit",
    },
    Argument {
        name: "most",
        is_named: true,
        takes: Takes::Number(Numbers {
            letter: "N",
            least: 1,
            most: MAX_LINES as i64,
            required: false,
            action: ArgAction::Set,
        }),
        help: "Read and judge the first N lines alone, 1 to 1,000,000, in 90 bytes of memory a line",
    },
    Argument {
        name: "file",
        is_named: false,
        takes: Takes::File { other: None },
        help: "The journal's file; without it, or with -, the journal stands on standard input",
    },
];

const THREADS_ARGUMENTS: &[Argument] = &[
    Argument {
        name: "workers",
        is_named: true,
        takes: Takes::Number(Numbers {
            letter: "K",
            least: 1,
            most: MAX_WORKERS as i64,
            required: true,
            action: ArgAction::Set,
        }),
        help: "How many threads there are, 1 to 64",
    },
    Argument {
        name: "rounds",
        is_named: true,
        takes: Takes::Number(Numbers {
            letter: "M",
            least: 1,
            most: MAX_ROUNDS as i64,
            required: true,
            action: ArgAction::Set,
        }),
        help: "How many rounds each runs, 1 to 1,000,000",
    },
];

const FORMAT_ARGUMENTS: &[Argument] = &[Argument {
    name: "kind",
    is_named: false,
    takes: Takes::Kind,
    help: "Of which text: scenario or lock; without it scenario",
}];

/// The commands, in the order of the help.
static COMMANDS: [Row; 9] = [
    Row {
        name: "once",
        about: "Tell one sleep and its wake-up, step by step",
        arguments: &[],
        below: None,
    },
    Row {
        name: "check",
        about: "Search all schedules of the scenario, of whatever length, for a bad world",
        arguments: CHECK_ARGUMENTS,
        below: Some(SEARCH_STATUSES),
    },
    Row {
        name: "explore",
        about: "Search the schedules of the scenario, up to a depth, for a bad world",
        arguments: EXPLORE_ARGUMENTS,
        below: Some(SEARCH_STATUSES),
    },
    Row {
        name: "replay",
        about: "Tell what a schedule does in the scenario",
        arguments: REPLAY_ARGUMENTS,
        below: Some(REPLAY_STATUSES),
    },
    TRY,
    RETRACE,
    Row {
        name: "judge",
        about: "Tell whether a journal of semaphores and notify lists is lawful",
        arguments: JUDGE_ARGUMENTS,
        below: Some(JUDGE_STATUSES),
    },
    Row {
        name: "threads",
        about: "Let threads release and acquire one counter, and tell what was counted",
        arguments: THREADS_ARGUMENTS,
        below: None,
    },
    Row {
        name: "format",
        about: "Tell the form of a scenario's text, or of a lock program's",
        arguments: FORMAT_ARGUMENTS,
        below: None,
    },
];

/// A command's arguments, in their order.
fn arguments_of<'a>(alloc: Global, row: &Row) -> Result<Vec<Arg<'a>>, AllocError> {
    let mut arguments = Vec::new(alloc);
    for one in row.arguments {
        arguments.push(made_argument(alloc, one)?)?;
    }
    Ok(arguments)
}

/// A command with its arguments and its help.
fn command_of<'a>(alloc: Global, row: &Row) -> Result<Command<'a>, AllocError> {
    let command = Command::new(alloc, row.name).about(row.about);
    let command = match row.below {
        Some(below) => command.after_help(below),
        None => command,
    };
    command.args(arguments_of(alloc, row)?)
}

/// All commands, in the order of the help.
fn all_commands<'a>(alloc: Global) -> Result<Vec<Command<'a>>, AllocError> {
    let mut commands = Vec::new(alloc);
    for row in &COMMANDS {
        commands.push(command_of(alloc, row)?)?;
    }
    Ok(commands)
}

/// A program that is asked for by one of its commands. The words begin after its own name.
fn bare_command<'a>(alloc: Global) -> Command<'a> {
    Command::new(alloc, "parklot")
        .no_binary_name(true)
        .subcommand_required(true)
}

/// The program without its commands.
fn named_command<'a>(alloc: Global) -> Result<Command<'a>, AllocError> {
    bare_command(alloc)
        .version("0.1.0")
        .about("Explore the interleavings of semaphores, notify lists and wait groups")
        .after_help(STATUSES)
        .bin_name("parklot")
}

/// The commands and their help.
pub fn parklot_command<'a>(alloc: Global) -> Result<Command<'a>, AllocError> {
    named_command(alloc)?.subcommands(all_commands(alloc)?)
}
