//! The rows of a lock program's own lines: each but `out` looks at one word, as one step, and then its seat
//! goes on. [`ProgramState`] has the words, who sleeps on them, and the seats, each with at most 8 registers
//! and 8 sections. A refused row changes nothing.
//!
//! The rows are proved above any sleeping layer. The words of a key that tell of them are written here too. A
//! [`LineSet`] keeps which lines a seat passed; nothing is promised of it.
#![tactic(auto)]

mod entering;
mod going;
mod key;
mod line_set;
mod looking;
mod rows;
mod seat;
mod state;

pub use going::passed_first;
pub use line_set::LineSet;
pub use seat::{MAX_REGISTERS, MAX_SECTIONS};
pub use state::ProgramState;
