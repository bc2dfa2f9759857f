//! The program over readers and writers: it does what its words ask for, and writes its answer and what is
//! told beside. [`parklot_io`] is the whole program on its words. [`read_words`] tells what they ask for: a
//! command with its numbers, each within its limits, and its file, or help, or what is wrong. [`asked_io`]
//! does just that, by the commands of `explorer_commands`.
//!
//! [`parklot_command`] is the command line as clap takes it: the commands, the arguments of each with their
//! limits, and the help. `once` makes the calls of the running table, some of which may wait, and `threads`
//! makes them in threads of its own: so the program asks for a runtime. Output goes out through a [`Sink`],
//! and ends with an [`Exit`].
#![tactic(auto)]

mod answered;
mod argument;
mod asking;
mod columns;
mod command_line;
mod commands;
mod cut;
mod file_fault;
mod format;
mod invocation;
mod program_commands;
mod shared_arguments;
mod streams;
mod surroundings;
mod ticker;
mod whole;
mod words;

pub use command_line::{CommandLine, MAX_COLUMNS};
pub use commands::parklot_command;
pub use explorer_answers::{
    Answered, Exit, Extras, Flagged, IoFault, MAX_TEXT, NO_MEMORY, Sink, Source, StopWatch,
};
pub use explorer_commands::{
    Closed, Command, Demands, Gate, Layout, MAX_ROUNDS, MAX_WORKERS, OnceAnswers, OnceRetried,
    Open, ProgramCommand, Released, ScenarioCommand, ThreadsRefused, command_io, explore_io,
    explore_variant_io, judge_io, once_io, once_text, replay_io, run_threads, threads_io,
};
pub use file_fault::FileFault;
pub use invocation::{Invocation, MAX_LINES, MAX_THREADS, MAX_WORLDS};
pub use scenario_search::{
    Bounds, Cause, Extent, Found, FoundInAll, Kind, MAX_DEPTH, Property, ReadFault, Request,
    Searched, Team, Watch, check, check_asked, explore, explore_by, explore_variant, read_scenario,
    verdict,
};
pub use streams::asked_io;
pub use surroundings::{Surroundings, UNKNOWN, free_memory};
pub use ticker::Ticker;
pub use whole::parklot_io;
pub use words::{no_file, no_words, read_line, read_words};
