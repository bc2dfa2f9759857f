//! The tests of lock programs: what their lines say (`program_text`), where schedules lead them and with which keys
//! (`program_machine`), and what is written of them (`explorer_commands`).

mod answer_tests;
mod key_tests;
mod line_tests;
mod passed_tests;
pub(crate) mod scene_tests;
