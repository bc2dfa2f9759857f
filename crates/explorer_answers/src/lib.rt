//! How the commands of the program read their input and answer: streams, texts, statuses, and what is said to
//! a person whose text is refused. An answer is whole before the first byte of it goes out, so that want of
//! memory leaves nothing half told. It goes out through a [`Sink`], and ends with an [`Exit`].
//!
//! A [`Source`] gives bytes and a [`Sink`] takes them, some at a time. Each knows whether a call has failed,
//! so that a command can say of each answer which stream is to blame. [`Flagged`] makes a source or a sink of
//! any reader or writer of std. [`explain`] and [`explain_journal`] make the line that goes to standard error
//! beside a refusal: the faulty line as far as it can be printed, and what was expected there. They add to
//! the cause that the reader tells and decide nothing.
#![tactic(auto)]

mod answer;
mod aside;
mod beginning;
mod exit;
mod extras;
mod fault;
mod flagged;
mod formless;
mod found_text;
mod input;
mod journal;
mod looks;
mod problem;
mod reading;
mod refusal;
mod replay_lines;
mod reply;
mod sink;
mod source;
mod stats;

pub use answer::{Answer, tell};
pub use aside::{beside, counted, counted_in_all};
pub use beginning::shown;
pub use exit::Exit;
pub use extras::Extras;
pub use fault::IoFault;
pub use flagged::Flagged;
pub use found_text::{FoundAmong, FoundUpTo};
pub use input::{MAX_TEXT, MOST_READ};
pub use journal::{explain_journal, show_line};
pub use looks::ends_in_return;
pub use problem::explain;
pub use reading::{read_all, read_at_most};
pub use refusal::{NO_MEMORY, NO_SCHEDULE, Refusal, TOO_LONG, refuse_io};
pub use replay_lines::{
    tell_failed, tell_left, tell_refusal, tell_step, tell_verdict, tell_waits, verdict_exit,
};
pub use reply::{Answered, Reply, refused, tell_reply};
pub use scenario_search::{
    AskedProperty, Bounds, CHECKED_WORLDS, EXPLORED_WORLDS, Kind, MAX_DEPTH,
};
pub use sink::{Sink, write_all};
pub use source::Source;
pub use stats::{Stats, StopWatch};
