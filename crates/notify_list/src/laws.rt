//! The laws of the list, as functions.

ghost use Rattle.notify_list.specs.List.{TheList, TheSleepers};

use crate::rows::ListRows;
use crate::stride::Stride;
use crate::view::{Known, Record, Setting};
use running_rows::{OneWorld, TableRule, View};

/// Between any two steps of any threads the list is lawful: the rule of its words, which every call keeps,
/// says that they are those of a world to which the step table leads, and each such world is lawful.
pub fn law_of_the_list()
    ensures { TheList ⟦<OneWorld<ListRows> as TableRule<Record, View<Known, Stride>, Setting>>⟧.holds }
{}

/// Between any two steps of any threads no sleeper is lost, at the list's lock or at a seat's grant: where one
/// sleeps though the lock is free or the grant is stored, and nobody is about to look whom to wake, the kernel
/// was called there since each store. Of a grant that a notification of all stored, and left to heirs to wake,
/// nothing is said until it is taken (`IsLeft.taken` in `running_rows`).
pub fn law_of_the_sleepers()
    ensures { TheSleepers ⟦<OneWorld<ListRows> as TableRule<Record, View<Known, Stride>, Setting>>⟧.holds }
{}
