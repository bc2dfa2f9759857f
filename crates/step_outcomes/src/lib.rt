//! What each row of the semaphores and the notify lists does, as a function of what it sees.
//!
//! A row is one event of one word. Where its seat stands tells the word (`word_of`), and that with the number
//! found there, the first wait of a list or of the seat's hand tells what becomes of the word, where the seat
//! goes and what the journal tells (`outcome_of`): the rows of Go's `semacquire1` in [`acquire`], of
//! `semrelease1` in [`release`], of a release of many units in [`release_many`], of `notifyList` in
//! [`list_rows`]. Nothing is read or written here: who keeps the words looks one up, asks, and makes what is
//! answered.
#![tactic(auto)]

pub mod acquire;
mod list_outcome;
pub mod list_rows;
mod outcome;
pub mod release;
pub mod release_many;
mod sight;

pub use list_outcome::{ListOutcome, ListSight};
pub use outcome::Outcome;
pub use sight::RowSight;
