//! The calls of a guarded value as rows.
ghost use Rattle.sync_guarded.specs.Rule.{guard_rows};

use crate::view::{GuardCall, GuardKnown};
use running_rows::Rows;

/// The rows of a guarded value, which was made with how many seats there are: who locks takes the value out
/// of its slot by the step that takes the lock, and who unlocks puts it back by the step that gives the lock
/// back.
pub struct GuardRows;

/// A seat of the words. The slot has the value.
pub type GuardToken<T> = running_rows::Token<T, GuardKnown<T>, GuardCall<T>>;

impl<T> Rows<T, GuardKnown<T>, GuardCall<T>, u32> for GuardRows {
    ghost family = { guard_rows };
}
