//! The program's commands over a reader and a writer: what each answers to an input, and what it tells
//! beside. An answer is whole before its first byte goes out, and where memory is short that alone is told.
//! [`command_io`] runs a [`Command`] on a text: `explore`, `check` and `replay` on that of a scenario
//! ([`ScenarioCommand`]), `try` and `retrace` on that of a lock program ([`ProgramCommand`]). [`explore_io`],
//! [`explore_variant_io`] and [`replay_io`] tell nothing beside.
//!
//! [`judge_io`] judges the text of a journal, or so many lines of it, by what is asked ([`Demands`]).
//! [`once_io`] makes one acquire that sleeps and one release that wakes it, by the running table.
//! [`run_threads`] lets up to 64 workers, each in a thread, release and acquire one counter of a running
//! table; [`threads_io`] writes what was counted.
#![tactic(auto)]

mod command;
mod counted;
mod gate;
mod judged;
mod laws;
mod on_program;
mod on_scenario;
mod once;
mod once_answers;
mod threads;

pub use command::{Command, command_io};
pub use counted::threads_io;
pub use explorer_answers::{
    Answer, Answered, Exit, Extras, Flagged, FoundAmong, IoFault, MAX_TEXT, MOST_READ, NO_MEMORY,
    NO_SCHEDULE, Reply, Sink, Source, Stats, StopWatch, TOO_LONG, refuse_io, tell, tell_reply,
    write_all,
};
pub use gate::{Gate, Open};
pub use journal::Demands;
pub use judged::judge_io;
pub use laws::law_of_the_replays;
pub use on_program::command::ProgramCommand;
pub use on_scenario::alone_io::{explore_io, explore_variant_io, replay_io};
pub use on_scenario::command::ScenarioCommand;
pub use once::{once_io, once_text};
pub use once_answers::{OnceAnswers, OnceRetried, Released};
pub use program_retrace::Layout;
pub use program_search::{Aims, Wanted};
pub use scenario_search::{
    Bounds, CHECKED_WORLDS, EXPLORED_WORLDS, Kind, MAX_DEPTH, Request, check, check_asked, explore,
    explore_by, explore_variant, law_of_every_property, law_of_the_classes, read_scenario,
    variant_named, verdict,
};
pub use scenario_text::{Cause, Property, ReadFault};
pub use search::{Extent, Found, FoundInAll, Searched, Team, Watch};
pub use sema_table::Closed;
pub use threads::{MAX_ROUNDS, MAX_WORKERS, ThreadsRefused, run_threads};
