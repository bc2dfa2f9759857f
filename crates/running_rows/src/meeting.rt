//! Two seats look at one moment.
ghost use Rattle.std.specs.Prelude.{◌≡◌, ◌<◌, []};
ghost use Rattle.running_rows.specs.Rule.{IsSomeones};
ghost use Rattle.running_rows.specs.Owing.{IsSeen};
ghost use Rattle.running_rows.specs.Sitting.{Met, lone};

use crate::families::Rows;
use crate::joins::{Meets, Parts, Sits, Spares};
use crate::rule::OneWorld;
use crate::running::Running;
use crate::view::{Token, View};
use std::mem;

impl<S, V, T, K, R: Rows<S, V, T, K>> Running<S, View<V, T>, K, OneWorld<R>> {
    /// Both seats look at a word at one moment: the number that they found.
    pub fn meet(&self, one: &mut Token<S, V, T>, other: &mut Token<S, V, T>, word: usize) -> u64
        requires one { (one.old.table_id ≡ self.now.table.shared.table_id)
            × IsSomeones R.family one.old.me.0 }
        requires other { (other.old.table_id ≡ self.now.table.shared.table_id)
            × IsSomeones R.family other.old.me.0 }
        requires bare { other.old.me.1 ≡ [] }
        requires word { word < self.now.table.shared.table_id.words }
        requires seen { IsSeen R.family (R.family.key self.now.table.shared.key) word }
        ensures own { (one.new.table_id ≡ one.old.table_id) × (other.new.table_id ≡ other.old.table_id) }
        ensures met { Met R.family
            (R.family.word_at (R.family.of one.old.me.0.own.knows) word) one.old.me.0.own other.old.me.0.own
            result one.new.me.0.own other.new.me.0.own }
        ensures one { one.new.me
            ≡ (record one.old.me.0 { own = one.new.me.0.own; parking = one.new.me.0.parking }, one.old.me.1) }
        ensures other { other.new.me ≡ (lone other.new.me.0.own, []) }
    {
        let shared = &self.table.shared;
        self.seat_alone(other);
        // Joining takes the other token by value: another stands in its place meanwhile.
        let spare = shared.split_seat::<Spares<S, R, K>>(one);
        let theirs = mem::replace(other, spare);
        shared.join_seat::<Sits<S, R, K>>(one, theirs);
        let found = shared.load::<Meets<R, K>>(one, word);
        *other = shared.split_seat::<Parts<S, R, K>>(one);
        found
    }
}
