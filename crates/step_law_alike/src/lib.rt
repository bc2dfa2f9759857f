//! Runs that are alike, runs whose seats have other names, steps that commute, and runs by a changed table.
//!
//! Two runs are alike where they differ at most in what no row looks at. A search that keeps each world once
//! rests on that, and one that tries two steps in one order rests on steps that commute.
//!
//! Seats have no names: a run whose seats are renamed does, step by step, what the run does. Seats with the
//! very same calls may change names. A renaming that keeps each seat's calls maps each run to a run, of the
//! step table and of each changed one: it keeps refusals, phases, numbers and the start. A search that keeps
//! one run of those that differ in names alone rests on that. The definitions are over those of `step_table`.
//! What runs is `Variant` alone, which names the change of a table.
#![tactic(auto)]

mod laws;
mod name_laws;
mod variant;

pub use laws::{law_of_the_alike, law_of_the_changed, law_of_the_commuting};
pub use name_laws::{law_of_the_names, law_of_the_renamed};
pub use variant::Variant;
