//! The tests of `examples`: by threads, that no increment is lost and each item arrives once; in one thread,
//! what two locks tell where they meet.
//!
//! They are short, to be copied: where memory is refused they end with that error.

mod lock_tests;
mod mutex_tests;
mod queue_tests;
