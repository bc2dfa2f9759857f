//! The law of the sleepers.
ghost use Rattle.std.specs.Prelude.{◌≡◌, true};
ghost use Rattle.atomic_table.specs.Table.{State};
ghost use Rattle.running_rows.specs.Futex.{Futex};
ghost use Rattle.running_rows.specs.Rule.{NoSleeperIsLost};

use crate::families::Rows;
use crate::rule::OneWorld;
use crate::view::View;
use atomic_table::TableRule;

/// Between any two steps of any threads no sleeper is lost, at any lock or grant of the family's: the rule of the
/// words, which every step keeps, says so.
pub fn law_of_the_sleepers<S, V, T, K, R: Rows<S, V, T, K>>()
    ensures { (key : K) (s : State S (View V T)) (x : Futex)
        → ⟦<OneWorld<R> as TableRule<S, View<V, T>, K>>⟧.holds key s
        → R.family.has_threads (R.family.key key) ≡ true
        → R.family.IsFutex (R.family.key key) x → NoSleeperIsLost R.family (R.family.key key) s x }
{}
