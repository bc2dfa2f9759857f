//! The arguments that several commands take.

use crate::argument::{Argument, Numbers, Takes};
use crate::command_line::MAX_COLUMNS;
use crate::invocation::{MAX_THREADS, MAX_WORLDS};
use clap::ArgAction;

/// What is asked for by its name alone.
pub(crate) const FLAG: Takes = Takes::Nothing;

/// The file of a scenario.
pub(crate) const SCENARIO_FILE: Argument = Argument {
    name: "file",
    is_named: false,
    takes: Takes::File { other: None },
    help: "The scenario's file; without it, or with -, the text stands on standard input",
};

/// The file of a lock program.
pub(crate) const PROGRAM_FILE: Argument = Argument {
    name: "file",
    is_named: false,
    takes: Takes::File { other: None },
    help: "The lock program's file; without it, or with -, the text stands on standard input",
};

/// Which change of the step table is made.
pub(crate) const VARIANT: Argument = Argument {
    name: "variant",
    is_named: true,
    takes: Takes::Variant,
    help: "Change the step table: no-look, late-count or plain-less",
};

/// Whether every property is asked.
pub(crate) const EVERY: Argument = Argument {
    name: "every",
    is_named: true,
    takes: FLAG,
    help: "Ask settled, no-misuse and no-lost too, beside the property of the text",
};

/// Whether what is found is drawn.
pub(crate) const DRAWN: Argument = Argument {
    name: "table",
    is_named: true,
    takes: FLAG,
    help: "Behind the answer, draw the schedule that was found as a table",
};

/// Whether it is told how far a search came.
pub(crate) const STATS: Argument = Argument {
    name: "stats",
    is_named: true,
    takes: FLAG,
    help: "Tell on standard error how far the search came, and how fast",
};

/// Whether it is told how far it has come.
pub(crate) const PROGRESS: Argument = Argument {
    name: "progress",
    is_named: true,
    takes: FLAG,
    help: "Tell on standard error, while it runs, how far it has come",
};

/// How many threads share a search.
pub(crate) const SEARCHERS: Argument = Argument {
    name: "threads",
    is_named: true,
    takes: Takes::Number(Numbers {
        letter: "K",
        least: 1,
        most: MAX_THREADS as i64,
        required: false,
        action: ArgAction::Set,
    }),
    help: "How many threads share the search, 1 to 64; without it 1",
};

/// How many columns of characters a table may have.
pub(crate) const COLUMNS: Argument = Argument {
    name: "columns",
    is_named: true,
    takes: Takes::Number(Numbers {
        letter: "N",
        least: 1,
        most: MAX_COLUMNS as i64,
        required: false,
        action: ArgAction::Set,
    }),
    help: "Of a table, tell the first columns alone, as many as fit into N characters, 1 to 9999",
};

/// How many worlds a search keeps.
pub(crate) const WORLDS: Takes = Takes::Number(Numbers {
    letter: "N",
    least: 1,
    most: MAX_WORLDS as i64,
    required: false,
    action: ArgAction::Set,
});
