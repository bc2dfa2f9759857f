//! The tests of `waiters` and of `sema_root`.

mod both_tests;
mod calls;
mod drawn_tests;
mod given;
mod list_tests;
