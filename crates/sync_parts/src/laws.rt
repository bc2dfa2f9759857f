//! The law of the locks and that of the groups, as functions.

ghost use Rattle.sync_parts.specs.Exclusion.{TheLocks};
ghost use Rattle.sync_parts.specs.GroupLaw.{TheGroup};

use crate::group_rows::GroupRows;
use crate::group_view::{GroupKnown, GroupStep};
use running_rows::{OneWorld, TableRule, View};

/// Of the locks over one counter only one is held: in a lawful journal in which only locks used a counter
/// that started at 1, no two seats hold its unit. Each journal that a seat of a table has seen is lawful.
pub fn law_of_the_locks()
    ensures { TheLocks }
{}

/// The law of the groups: each row on the state word of a group is one that a seat of the group has run, and
/// nobody else's. The rule of the word holds between any two steps, and each seat that there is was handed
/// out as the group was made.
pub fn law_of_the_groups()
    ensures { TheGroup ⟦<OneWorld<GroupRows> as TableRule<(), View<GroupKnown, GroupStep>, u32>>⟧.holds }
{}
