//! The tests of `sync_guarded`: each call once in one thread; and by threads, that nothing is lost between two
//! who put in and two who take out, who wait for each other by a condition variable.
//!
//! They are short, to be copied: where memory is refused they end.

mod call_tests;
mod store;
mod store_tests;
mod timed_tests;
