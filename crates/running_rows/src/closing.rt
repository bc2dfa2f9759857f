//! Words are closed with their seats in one view.
ghost use Rattle.std.specs.Prelude.{◌≡◌, ◌<◌, []};
ghost use Rattle.std.specs.Mem.Slots.{slots_items, slots_len, IsFull};
ghost use Rattle.atomic_table.specs.Table.{Final, Seen};
ghost use Rattle.running_rows.specs.Rule.{IsSomeones, IsKept};
ghost use Rattle.running_rows.specs.Sitting.{alone, sitting};

use crate::families::Rows;
use crate::joins::{Forgets, Sits};
use crate::rule::OneWorld;
use crate::running::Running;
use crate::view::{Token, View};
use atomic_table::Closed;
use std::alloc::Global;

impl<S, V, T, K, R: Rows<S, V, T, K>> Running<S, View<V, T>, K, OneWorld<R>> {
    /// The token has no guest any more.
    pub fn seat_alone(&self, token: &mut Token<S, V, T>)
        requires own { (token.old.table_id ≡ self.now.table.shared.table_id)
            × IsSomeones R.family token.old.me.0 }
        requires some { 0 < self.now.table.shared.table_id.words }
        ensures own { token.new.table_id ≡ token.old.table_id }
        ensures alone { token.new.me ≡ (alone token.old.me.0, token.old.me.1) }
    {
        self.table.shared.split_seat::<Forgets<S, R, K>>(token);
    }

    /// The other seat, which has no guest, sits with the token's.
    pub fn seat_with(&self, token: &mut Token<S, V, T>, other: Token<S, V, T>)
        requires own { (token.old.table_id ≡ self.now.table.shared.table_id)
            × IsSomeones R.family token.old.me.0 }
        requires other { (other.table_id ≡ self.now.table.shared.table_id) × IsSomeones R.family other.me.0
            × (other.me.1 ≡ []) }
        requires lone { other.me.0.guests ≡ [] }
        requires some { 0 < self.now.table.shared.table_id.words }
        ensures own { token.new.table_id ≡ token.old.table_id }
        ensures both { token.new.me ≡ (sitting token.old.me.0 other.me.0, token.old.me.1) }
    {
        self.table.shared.join_seat::<Sits<S, R, K>>(token, other);
    }

    /// Ends the words. They are as the rule has them, with the token's view.
    pub fn close_with(self, token: Token<S, V, T>) -> Closed<S, Global>
        requires { token.table_id ≡ self.table.shared.table_id }
        ensures counts { (slots_len result.words ≡ self.table.shared.table_id.words)
            × (slots_len result.slots ≡ self.table.shared.table_id.slots) }
        ensures values { IsFull result.words × IsFull result.slots
            × Final (Seen (IsKept R.family (R.family.key self.table.shared.key)) token.id token.me.0) (slots_items result.words)
            (slots_items result.slots) }
    {
        let Running { table } = self;
        table.close_with(token)
    }
}
