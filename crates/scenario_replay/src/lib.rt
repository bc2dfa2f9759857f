//! A replay of a scenario's schedule as a table, a line a step, and that table as text. A [`StepLine`] tells
//! which seat steps, before which row it stands, what that row finds, which call begins there, and all words
//! after the step. [`step_line`] runs one step and gives its line, or says why it can't be run. [`table_of`]
//! does so for each step of a schedule.
//!
//! [`step_line`] is given how many calls each seat had begun before its last step, and keeps that up to date.
//! So a line knows whether its step is the first of a call. [`table_text`] has a column for each seat and for
//! each word that it shows, two spaces apart; no clause speaks of how they are laid out.
#![tactic(auto)]

mod columns;
mod layout;
mod line;
mod seat_cell;
mod spelling;
mod table;

pub use layout::table_text;
pub use line::{StepLine, step_line};
pub use table::{RefusedStep, ReplayTable, table_of};
