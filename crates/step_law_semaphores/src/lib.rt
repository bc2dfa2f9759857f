//! The laws of the semaphores: what every interleaving of their rows keeps, for any number of seats, counters
//! and roots.
//!
//! The rows are those of `step_table`, after Go's `semacquire1` and `semrelease1`. The law of the rows
//! promises the lawful world. The accounts tell what threads ask besides, whose steps are rows of a running
//! table: whose each entry is, and who may change which word. A path tells of one seat's rows, one after the
//! other. Nothing here runs.
#![tactic(auto)]

mod laws;

pub use laws::{law_of_the_accounts, law_of_the_paths, law_of_the_rows};
