//! The tests of `sema_table`.

mod close_tests;
mod crew_tests;
pub(crate) mod given;
mod leaving_crew_tests;
mod leaving_task_tests;
mod leaving_tests;
mod limit_tests;
mod player;
mod scene_tests;
mod sleeper_tests;
pub(crate) mod text_tests;
mod timed_tests;
