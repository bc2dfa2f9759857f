//! A schedule of a lock program as text, and how it ends. [`retrace`] lets the machine make the steps and
//! tells them one behind the other. Then comes the world to which they led, or the first step that can't be
//! run. Steps are told a line each or as a table ([`Layout`]); the end has a line a seat, a line with all
//! words, and the verdict.
//!
//! A step is told by the line of the text that it ran, the row where the sleeping layer has one, what that
//! row found, and what is other after it. That may be words, counters with their waits, lists, who sleeps,
//! and the seat's own registers and sections. Each of these is compared as it is printed. Rows of one call
//! that no other seat's step parts can share a line.
#![tactic(auto)]

mod changes;
mod ending;
mod failure;
mod held;
mod layout;
mod lines;
mod look;
mod members;
mod names;
mod parts;
mod place;
mod retold;
mod spelling;
mod step;
mod steps;
mod table;
mod told_program;
mod words;

pub use ending::tell_world;
pub use layout::Layout;
pub use retold::{Ending, Retold, retrace, retrace_as, retrace_round};
pub use steps::{Steps, tell_step, tell_steps};
pub use told_program::ToldProgram;
