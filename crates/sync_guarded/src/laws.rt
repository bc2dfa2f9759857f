//! The laws of the guards, as functions.
ghost use Rattle.std.specs.Prelude.{ℕ};
ghost use Rattle.running_rows.specs.Futex.{lock_at};
ghost use Rattle.running_rows.specs.Rule.{NoSleeperIsLost};
ghost use Rattle.sync_guarded.specs.Rule.{guard_rows};
ghost use Rattle.sync_guarded.specs.Law.{TheGuard, WordState};

use crate::rows::GuardRows;
use crate::view::{GuardCall, GuardKnown};
use running_rows::{OneWorld, TableRule, View};

/// No two seats have a guarded value at once: each call is one of one history, in which who locks finds the
/// value at home, and takes it as it was given back last, and nobody but who has locked unlocks. The rule of
/// the words holds between any two steps.
pub fn law_of_the_guards<T>()
    ensures { TheGuard
        ⟦<OneWorld<GuardRows> as TableRule<T, View<GuardKnown<T>, GuardCall<T>>, u32>>⟧.holds }
{}

/// No sleeper is lost at the lock of a guarded value: between any two steps, where threads sleep though it is free, and
/// nobody is between giving it back and the look whom to wake, the kernel was called since it was given back.
pub fn law_of_the_sleepers<T>()
    ensures { (seats : ℕ) (s : WordState T)
        → ⟦<OneWorld<GuardRows> as TableRule<T, View<GuardKnown<T>, GuardCall<T>>, u32>>⟧.holds seats s
        → NoSleeperIsLost guard_rows seats s (lock_at 0 1) }
{}
