//! The laws of the table, as functions.
ghost use Rattle.std.specs.Prelude.{◌≡◌, true};
ghost use Rattle.running_rows.specs.Futex.{Futex};
ghost use Rattle.running_rows.specs.Rule.{NoSleeperIsLost};
ghost use Rattle.running_rows.specs.Table.{State};
ghost use Rattle.sema_table.specs.Futexes.{IsTableFutex};
ghost use Rattle.sema_table.specs.Rows.{semaphore_rows};
ghost use Rattle.sema_table.specs.Rule.{setting_of};
ghost use Rattle.sema_table.specs.Table.{MakesLawful};

use crate::rows::Semaphores;
use crate::settings::TableKey;
use crate::stride::Stride;
use crate::view::{Known, Record};
use running_rows::{OneWorld, TableRule, View};

/// Between any two steps of any threads the table is lawful: the rule of its words, which every call keeps,
/// says that they are those of a world to which the step table leads, and each such world is lawful.
pub fn law_of_the_table()
    ensures { MakesLawful ⟦<OneWorld<Semaphores> as TableRule<Record, View<Known, Stride>, TableKey>>⟧.holds }
{}

/// Between any two steps of any threads no sleeper is lost, at the lock of any root or the grant of any seat.
pub fn law_of_the_sleepers()
    ensures { (key : TableKey) (s : State Record (View Known Stride)) (x : Futex)
        → ⟦<OneWorld<Semaphores> as TableRule<Record, View<Known, Stride>, TableKey>>⟧.holds key s
        → (setting_of key).has_threads ≡ true → IsTableFutex (setting_of key) x
        → NoSleeperIsLost semaphore_rows (setting_of key) s x }
{}
