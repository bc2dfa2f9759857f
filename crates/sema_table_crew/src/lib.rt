//! Threads that share a running table, one for each of its seats, for tests and measurements: all do one kind
//! of work, come back by the joins, and the table is closed with them. What begins together, and what a
//! measurement tells, serves other crews too.
#![tactic(auto)]

mod crew;
mod start;
mod told;
mod work;

pub use crew::run;
pub use start::CrewStart;
pub use told::tell;
pub use work::{Way, Work};
