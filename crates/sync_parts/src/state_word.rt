//! The word that all seats of a wait group share.
ghost use Rattle.std.specs.Prelude.{◌≡◌, ◌<◌, []};
ghost use Rattle.step_table.specs.declared.standing.GroupNext.TheVariants.{Goes};
ghost use Rattle.step_table.specs.declared.standing.GroupRow.TheVariants.{G1, G3, V2, V4, V5};
ghost use Rattle.step_table.specs.declared.standing.Ending.TheVariants.{NextCall};
ghost use Rattle.step_table.specs.declared.group_word.GroupWord.{GroupWord};
ghost use Rattle.step_table.specs.Group.{plus, same_word};
ghost use Rattle.step_table.specs.GroupBits.{bits_of, word_in, IsGroupWord};
ghost use Rattle.sync_parts.specs.GroupRule.{Follows};
ghost use Rattle.sync_parts.specs.GroupPlays.{load_row, given_up, Steps};

use crate::group_rows::{AtAdd, AtLeave, AtLoad, GroupRows, StateToken};
use crate::group_view::{GroupKnown, GroupStep};
use running_rows::{Here, OneWorld, Running, View};
use std::marker::Model;
use step_table::GroupWord;

/// The state word of a wait group. Each call of it is one atomic step.
#[derive(Drop)]
pub struct StateWord {
    pub(crate) words: Running<(), View<GroupKnown, GroupStep>, u32, OneWorld<GroupRows>>,
}

impl Model for StateWord {
    ghost use Rattle.std.specs.Prelude.{◌<◌};
    ghost use Rattle.sync_parts.specs.GroupSeats.{WordModel};

    ghost Value = { WordModel };

    ghost view = { λ w. record { id = w.words.table.shared.table_id; seats = w.words.table.shared.key } };

    ghost invariant = { λ w. (0 < w.words.table.shared.table_id.words) × (0 < w.words.table.shared.key) };
}

/// The counter and the waits that the bits of a state word show.
fn word_of(bits: u64) -> GroupWord
    ensures { result ≡ word_in bits }
{
    GroupWord {
        counter: ((bits >> 32) as u32).cast_signed(),
        waits: (bits & 0xffff_ffff) as u32,
    }
}

/// The bits of a state word.
fn bits_of(word: GroupWord) -> u64
    ensures { result ≡ bits_of word }
{
    (u64::from(word.counter.cast_unsigned()) << 32) + u64::from(word.waits)
}

impl StateWord {
    /// G1: adds to the counter. The word that this left comes back.
    pub(crate) fn add(&self, token: &mut StateToken, d: i32) -> GroupWord
        requires own { (token.old.table_id ≡ self.now.id) × Follows token.old.me.0.own.knows.next (G1 d) }
        requires some { 0 < token.old.me.0.own.knows.seats }
        ensures { (found : GroupWord) × (result ≡ plus found d) × Steps token.old (G1 d) found token.new }
    {
        let more = u64::from(d.cast_unsigned()) << 32;
        let found = self.words.add::<AtAdd>(token, 0, more);
        word_of(found.wrapping_add(more))
    }

    /// G2, V1 or V3: the word.
    pub(crate) fn load(&self, token: &mut StateToken) -> GroupWord
        requires own { (token.old.table_id ≡ self.now.id)
            × Follows token.old.me.0.own.knows.next (load_row token.old.me.0.own.knows.next) }
        requires some { 0 < token.old.me.0.own.knows.seats }
        ensures { Steps token.old (load_row token.old.me.0.own.knows.next) result token.new }
    {
        word_of(self.words.load::<AtLoad>(token, 0))
    }

    /// V2: counts one more wait if the word is still that which was seen.
    pub(crate) fn count_wait(&self, token: &mut StateToken, seen: GroupWord) -> bool
        requires own { (token.old.table_id ≡ self.now.id) × (token.old.me.0.own.knows.next ≡ Goes (V2 NextCall seen))
            × IsGroupWord seen }
        requires some { 0 < token.old.me.0.own.knows.seats }
        ensures { (found : GroupWord) × (result ≡ same_word seen found)
            × Steps token.old (V2 NextCall seen) found token.new }
    {
        let bits = bits_of(seen);
        self.words
            .exchange::<Here>(token, 0, bits, bits.wrapping_add(1))
            == bits
    }

    /// V4: the word, for a seat that gives up.
    pub(crate) fn load_to_leave(&self, token: &mut StateToken) -> GroupWord
        requires own { (token.old.table_id ≡ self.now.id) × Follows token.old.me.0.own.knows.next (V4 given_up) }
        requires some { 0 < token.old.me.0.own.knows.seats }
        ensures { Steps token.old (V4 given_up) result token.new }
    {
        word_of(self.words.load::<AtLeave>(token, 0))
    }

    /// V5: counts one wait less if the word is still that which was seen.
    pub(crate) fn uncount_wait(&self, token: &mut StateToken, seen: GroupWord) -> bool
        requires own { (token.old.table_id ≡ self.now.id) × (token.old.me.0.own.knows.next ≡ Goes (V5 given_up seen))
            × IsGroupWord seen × (0 < seen.waits) }
        requires some { 0 < token.old.me.0.own.knows.seats }
        ensures { (found : GroupWord) × (result ≡ same_word seen found)
            × Steps token.old (V5 given_up seen) found token.new }
    {
        let bits = bits_of(seen);
        self.words.exchange::<Here>(token, 0, bits, bits - 1) == bits
    }

    /// G3: stores 0. The seat has seen this word twice.
    pub(crate) fn empty(&self, token: &mut StateToken, seen: GroupWord)
        requires own { (token.old.table_id ≡ self.now.id) × (token.old.me.0.own.knows.next ≡ Goes (G3 seen)) }
        requires some { 0 < token.old.me.0.own.knows.seats }
        ensures { (found : GroupWord) × Steps token.old (G3 seen) found token.new }
    {
        self.words.store::<Here>(token, 0, 0);
    }
}
