//! The tests of `step_core`.
//!
//! What they start from and what they expect is plain data, in a `static`: a value that is made by calls is
//! slow to prove.

mod again;
mod changed_tests;
mod commute_tests;
mod ends_tests;
pub(crate) mod given;
mod group_tests;
mod limit_tests;
mod list_tests;
mod memory_tests;
mod refusal_tests;
mod scenario_tests;
mod schedule_tests;
mod story;
pub(crate) mod text_tests;
