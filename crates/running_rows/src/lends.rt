//! `record_mut` has a file of its own: its clause names the rows of a seat and of a view, which other files
//! don't need.
ghost use Rattle.std.specs.Prelude.{◌≡◌, ◌∷◌};
ghost use types.Logic.{sem};
ghost use denote.Follow.{follows};
ghost use Rattle.atomic_table.specs.contracts.shared.Seat.{the_row};
ghost use Rattle.atomic_table.specs.Table.{rest};
ghost use Rattle.atomic_table.specs.Lent.{seat_with};
ghost use Rattle.running_rows.specs.contracts.view.View as views;

use crate::families::Rows;
use crate::rule::OneWorld;
use crate::running::Running;
use crate::view::{Token, View};

impl<S, V, T, K, R: Rows<S, V, T, K>> Running<S, View<V, T>, K, OneWorld<R>> {
    /// The record that the seat took last. When the borrow ends, the seat has what was written through it.
    pub fn record_mut<'a>(
        token: &'a mut Token<S, V, T>,
        words: &'a Running<S, View<V, T>, K, OneWorld<R>>,
        slot: usize,
    ) -> &'a mut S
        requires own { token.old.table_id ≡ words.now.table.shared.table_id }
        requires held { (old : _) × (token.old.me.1 ≡ (slot, old) ∷ rest token.old.me.1) }
        ensures* writes_back { sem 𝓛
            (follows (the_row S.row (views.the_row V.row T.row)) S.row token.entry.ghost_name result.ghost_name
            (seat_with token.old slot)) }
        ensures value { token.old.me.1 ≡ (slot, result.now) ∷ rest token.old.me.1 }
    {
        token.slot_mut(&words.table.shared, slot)
    }
}
