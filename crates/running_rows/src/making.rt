//! How words and their seats are made.
ghost use Rattle.std.specs.Prelude.{◌≡◌, ◌<◌, [], length, map, IfOk, IfErr};
ghost use mathlib.Core.Option.{some};
ghost use Rattle.running_rows.specs.Rule.{IsSomeones, Opens, first_view, making, made_by};

use crate::families::Rows;
use crate::joins::Makes;
use crate::rule::OneWorld;
use crate::running::Running;
use crate::view::{Token, View};
use atomic_table::{Refused, Table};
use std::alloc::Global;

impl<S, V, T, K, R: Rows<S, V, T, K>> Running<S, View<V, T>, K, OneWorld<R>> {
    /// Words and records that were made with this, and the token of the seat 0, which makes the others.
    /// Without memory the records come back.
    pub fn new(
        alloc: Global,
        words: &[u64],
        slots: Vec<S>,
        key: &K,
    ) -> Result<(Running<S, View<V, T>, K, OneWorld<R>>, Token<S, V, T>), Refused<S, Global>>
        requires { Opens R.family (R.family.key key.now) words.now (map some slots.items) }
        ensures words { IfOk result (λ t. t.0.table.shared.table_id.words ≡ length words.now) }
        ensures slots { IfOk result (λ t. t.0.table.shared.table_id.slots ≡ length slots.items) }
        ensures key { IfOk result (λ t. t.0.table.shared.key ≡ key.now) }
        ensures own { IfOk result (λ t. t.1.table_id ≡ t.0.table.shared.table_id) }
        ensures first { IfOk result (λ t. t.1.me ≡ (first_view R.family (R.family.key key.now), [])) }
        ensures err { IfErr result (λ r. r.slots.items ≡ slots.items) }
    {
        let (table, first) = Table::<S, View<V, T>, K, OneWorld<R>, Global>::new(
            alloc, words, slots, key,
        )?;
        Ok((Running { table }, first))
    }

    /// The token of the next seat.
    pub fn make_seat(&self, first: &mut Token<S, V, T>) -> Token<S, V, T>
        requires own { (first.old.table_id ≡ self.now.table.shared.table_id)
            × (0 < self.now.table.shared.table_id.words) }
        requires made { 0 < first.old.me.0.made }
        requires room { first.old.me.0.made < R.family.seats (R.family.of first.old.me.0.own.knows) }
        ensures own { (first.new.table_id ≡ first.old.table_id) × (result.table_id ≡ first.old.table_id) }
        ensures first { first.new.me ≡ (making first.old.me.0, first.old.me.1) }
        ensures made { result.me ≡ (made_by R.family first.old.me.0, []) }
    {
        self.table.shared.split_seat::<Makes<S, R, K>>(first)
    }
}
