//! The commands that read the text of a lock program.

use crate::argument::{Argument, Row, Takes};
use crate::shared_arguments::{COLUMNS, FLAG, PROGRAM_FILE, PROGRESS, SEARCHERS, STATS, WORLDS};

/// What the exit statuses of `try` mean, and what a lock program is.
const TRY_STATUSES: &str = "\
Status: 0 nothing bad, 1 a bad world was found, 3 gave up,
        2 refused: words, text, memory, a file or a stream
A lock program has words and branches of its own: parklot format lock";

/// The same of `retrace`.
const RETRACE_STATUSES: &str = "\
Status: 0 not bad, 1 the schedule ends in a bad world, or a seat starves by its round,
        2 refused: words, text, schedule, one of its steps, memory, a file or a stream
A lock program has words and branches of its own: parklot format lock";

/// Whether each row of a call is told.
const ROWS: Argument = Argument {
    name: "rows",
    is_named: true,
    takes: FLAG,
    help: "Tell each row of a call in a line of its own",
};

const TRY_ARGUMENTS: &[Argument] = &[
    Argument {
        name: "worlds",
        is_named: true,
        takes: WORLDS,
        help: "The most worlds, 1 to 1,000,000,000; without it 2,000,000",
    },
    Argument {
        name: "ends",
        is_named: true,
        takes: FLAG,
        help: "Where nothing is bad, look for a world from which it can't be ended",
    },
    Argument {
        name: "lost",
        is_named: true,
        takes: FLAG,
        help: "Where nothing is bad, look for a world in which a seat can never step again",
    },
    Argument {
        name: "starved",
        is_named: true,
        takes: FLAG,
        help: "Where nothing is bad, look for a seat that may be passed over for ever",
    },
    Argument {
        name: "passes",
        is_named: true,
        takes: FLAG,
        help: "Where nothing is bad, tell how often a seat that asks for a section is passed",
    },
    Argument {
        name: "table",
        is_named: true,
        takes: FLAG,
        help: "Draw the schedule that was found as a table, in place of its lines",
    },
    ROWS,
    COLUMNS,
    STATS,
    PROGRESS,
    SEARCHERS,
    PROGRAM_FILE,
];

const RETRACE_ARGUMENTS: &[Argument] = &[
    Argument {
        name: "schedule",
        is_named: true,
        takes: Takes::Schedule {
            other: "schedule-of",
        },
        help: "The numbers of the seats that step, one space apart; a round behind them in parentheses",
    },
    Argument {
        name: "schedule-of",
        is_named: true,
        takes: Takes::File {
            other: Some("schedule"),
        },
        help: "The answer of try whose schedule is told; - for standard input",
    },
    Argument {
        name: "table",
        is_named: true,
        takes: FLAG,
        help: "Draw the steps as a table: a column a seat, and one for each word that changes",
    },
    ROWS,
    COLUMNS,
    PROGRAM_FILE,
];

/// The search of a lock program's schedules.
pub(crate) const TRY: Row = Row {
    name: "try",
    about: "Search all schedules of the lock program, of whatever length, for a bad world",
    arguments: TRY_ARGUMENTS,
    below: Some(TRY_STATUSES),
};

/// What a schedule does to it.
pub(crate) const RETRACE: Row = Row {
    name: "retrace",
    about: "Tell what a schedule does in the lock program",
    arguments: RETRACE_ARGUMENTS,
    below: Some(RETRACE_STATUSES),
};
