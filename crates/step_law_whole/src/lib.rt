//! The laws of the whole: semaphores, notify lists and wait groups together, and each run of a scenario. The
//! rows are those of `step_table`; those of a wait group are of Go's `WaitGroup`. Nothing here runs.
//!
//! The laws of ends say that no row goes on for ever. A world has a weight, a number that each row lowers and
//! that a call which begins raises by at most its cost. So calls run no more rows than they cost together,
//! whoever is next. Where no seat can step, each sleeper of a scenario sleeps for want of a unit or of a
//! grant.
#![tactic(auto)]

mod ends;
mod laws;

pub use ends::{
    law_of_the_core_ends, law_of_the_endless_tables, law_of_the_ends, law_of_the_lists_ends,
    law_of_the_runs_ends, law_of_the_semaphores_ends,
};
pub use laws::{law_of_the_core, law_of_the_runs};
