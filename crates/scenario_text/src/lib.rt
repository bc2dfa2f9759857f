//! The text of a scenario: what each line says, the request that a text makes, and what is wrong with a text
//! that makes none. [`read_scenario`] answers the request, or the first faulty line with the least cause that
//! holds of it. [`read_schedule`] and [`read_seats`] read the numbers of a schedule.
//!
//! What lines a text spells is a definition by how lines are printed, of which the reader has nothing but the
//! types. What is wrong with a well spelled line is told by the same tests in definition and reader.
//! [`line_at`], [`printable`] and [`is_call`] are for whoever explains a fault.
#![tactic(auto)]

mod read_fault;
mod reader;
mod request;

pub use read_fault::{Cause, ReadFault};
pub use reader::{is_call, line_at, printable, read_scenario, read_schedule, read_seats};
pub use request::{Property, SpelledRequest};
