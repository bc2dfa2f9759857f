//! The rows on the state word, and where each begins.
ghost use Rattle.sync_parts.specs.GroupRule.{group_rows};
ghost use Rattle.sync_parts.specs.GroupPlays.{at_add, at_load, at_leave};

use crate::group_view::{GroupKnown, GroupStep};
use running_rows::{Rows, Start};

/// The rows of a state word, which was made with how many seats there are. There is one history of them, each
/// of which found the word that those before it left.
pub struct GroupRows;

/// A seat of the state word. There is no record.
pub type StateToken = running_rows::Token<(), GroupKnown, GroupStep>;

impl Rows<(), GroupKnown, GroupStep, u32> for GroupRows {
    ghost family = { group_rows };
}

/// G1, of what is added.
pub struct AtAdd;

impl Start<(), GroupKnown> for AtAdd {
    ghost at = { at_add };
}

/// G2, V1 or V3, by where the seat stands.
pub struct AtLoad;

impl Start<(), GroupKnown> for AtLoad {
    ghost at = { at_load };
}

/// V4.
pub struct AtLeave;

impl Start<(), GroupKnown> for AtLeave {
    ghost at = { at_leave };
}
