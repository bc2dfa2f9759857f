//! The laws of one notify list: what every interleaving of its rows keeps, for any number of seats, with tickets
//! that wrap.
//!
//! The rows are those of `step_table`, after Go's `notifyList`, and those of a sleeper that leaves. The law of
//! the lists promises the lawful list and what its calls may conclude. The accounts tell what threads ask besides,
//! whose steps are rows of a running list. A path tells of one seat's rows, one after the other. Nothing here runs.
#![tactic(auto)]

mod laws;

pub use laws::{law_of_the_list_accounts, law_of_the_list_paths, law_of_the_lists};
