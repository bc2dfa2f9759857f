//! The rule that the words of a family keep.
ghost use Rattle.running_rows.specs.Rule.{Holds, first_view};

use crate::families::Rows;
use crate::view::View;
use atomic_table::TableRule;
use std::marker::PhantomData;

/// The rule: words and records at home show a world of the family, each view is that of its seats, and no thread
/// that sleeps in the kernel is lost.
pub struct OneWorld<R> {
    rows: PhantomData<R>,
}

impl<S, V, T, K, R: Rows<S, V, T, K>> TableRule<S, View<V, T>, K> for OneWorld<R> {
    ghost holds = { λ key. Holds R.family (R.family.key key) };

    ghost first = { λ key. first_view R.family (R.family.key key) };
}
