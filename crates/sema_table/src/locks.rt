//! Taking a root's lock.
ghost use Rattle.std.specs.Prelude.{◌≡◌, MatchBool};
ghost use Rattle.step_table.specs.Counting.{counter_at};
ghost use Rattle.sema_table.specs.Walks.{Starts, SawHeld, Locked};

use crate::rows::{AtSaid, Token};
use crate::sema_table::SemaTable;
use crate::view::Record;
use std::sync::Wait;
use step_table::Place;
use waiters::CounterId;

impl SemaTable {
    /// Takes the lock of a counter's root, by the row at this place (A3, D2, R3 or M3).
    pub(crate) fn lock<R: Wait>(&self, rt: &R, token: &mut Token, counter: CounterId, place: &Place)
        requires { Starts self.now token.old place.now × (counter_at place.now ≡ counter) }
        ensures { Locked token.old place.now token.new }
    {
        let word = self.lock_word(counter);
        let sleepers = self.sleepers_word(counter);
        let begins = Record::Begins(*place);
        self.words
            .take_lock_for::<AtSaid, R>(rt, token, word, sleepers, &begins);
    }

    /// The same where the lock is found free within some tries, and else a look that found it held: whether it
    /// was taken.
    pub(crate) fn try_lock(&self, token: &mut Token, counter: CounterId, place: &Place) -> bool
        requires { Starts self.now token.old place.now × (counter_at place.now ≡ counter) }
        ensures { MatchBool result (Locked token.old place.now token.new) (SawHeld token.old counter token.new) }
    {
        let word = self.lock_word(counter);
        let begins = Record::Begins(*place);
        self.words.try_lock_for::<AtSaid>(token, word, &begins)
    }
}
