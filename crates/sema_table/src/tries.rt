//! The calls of a step or two, which take no lock and wait for nobody.
ghost use Rattle.std.specs.Prelude.{◌≡◌, ◌<◌, length};
ghost use Rattle.sema_table.specs.Seats.{IsSeat, table_of, seat_of};
ghost use Rattle.sema_table.specs.Tries.{IsValue, IsWaiters, IsTried};
ghost use Rattle.sema_table.specs.Outcomes.{IfLost};
ghost use Rattle.sema_table.specs.Changes.{HasChanged};
ghost use Rattle.sema_table.specs.Walks.{Changed};
ghost use Rattle.sema_table.specs.Callers.{ReadsNumber, CountsWaits, TriesToAcquire};

use crate::answers::Tried;
use crate::rows::{AtTry, Token};
use crate::seat::{Numbers, Seat};
use crate::sema_table::{SemaTable, counter_word};
use running_rows::Here;
use waiters::CounterId;

impl SemaTable {
    /// The number of a counter.
    #[inline]
    pub fn value(&self, seat: &mut Seat, counter: CounterId) -> u64
        requires { (seat.old.table ≡ self.now) × (counter < length self.now.setting.starts) }
        ensures rows { IsValue seat.old counter result seat.new }
        ensures caller { ReadsNumber seat.old counter result seat.new }
    {
        self.value_in_place(&mut seat.token, &seat.numbers, counter)
    }

    /// The same of the parts of a seat, which changes where it lies.
    #[inline]
    pub(crate) fn value_in_place(
        &self,
        token: &mut Token,
        numbers: &Numbers,
        counter: CounterId,
    ) -> u64
        requires seat { IsSeat token.old numbers.now × (table_of token.old ≡ self.now) }
        requires counter { counter < length self.now.setting.starts }
        ensures seat { IsSeat token.new numbers.now }
        ensures rows { IsValue (seat_of token.old numbers.now) counter result (seat_of token.new numbers.now) }
        ensures caller { ReadsNumber (seat_of token.old numbers.now) counter result
            (seat_of token.new numbers.now) }
    {
        let word = counter_word(counter.number());
        self.words.look(token, word)
    }

    /// How many waits are queued at the counter's root, or one more while a seat under the root's lock may
    /// yet queue its own.
    pub fn waiters_of_root(&self, seat: &mut Seat, counter: CounterId) -> u64
        requires { (seat.old.table ≡ self.now) × (counter < length self.now.setting.starts) }
        ensures rows { IsWaiters seat.old counter result seat.new }
        ensures caller { CountsWaits seat.old counter result seat.new }
    {
        self.waiters_in_place(&mut seat.token, &seat.numbers, counter)
    }

    /// The same of the parts of a seat.
    pub(crate) fn waiters_in_place(
        &self,
        token: &mut Token,
        numbers: &Numbers,
        counter: CounterId,
    ) -> u64
        requires seat { IsSeat token.old numbers.now × (table_of token.old ≡ self.now) }
        requires counter { counter < length self.now.setting.starts }
        ensures seat { IsSeat token.new numbers.now }
        ensures rows { IsWaiters (seat_of token.old numbers.now) counter result (seat_of token.new numbers.now) }
        ensures caller { CountsWaits (seat_of token.old numbers.now) counter result
            (seat_of token.new numbers.now) }
    {
        let word = self.waiter_word(counter);
        self.words.look(token, word)
    }

    /// Takes a unit if there is one (the fast path of Go's `semacquire1`). `Lost` says that the counter
    /// changed between the look and the exchange: so one that tries until it isn't lost comes to an end.
    #[inline]
    pub fn try_acquire(&self, seat: &mut Seat, counter: CounterId) -> Tried
        requires { (seat.old.table ≡ self.now) × (counter < length self.now.setting.starts) }
        ensures rows { IsTried seat.old counter result seat.new }
        ensures caller { TriesToAcquire seat.old counter result seat.new }
        ensures settles { IfLost result
            (HasChanged counter seat.old.sight.seen seat.new.sight.seen) }
    {
        self.try_in_place(&mut seat.token, &mut seat.numbers, counter)
    }

    /// The same of the parts of a seat.
    #[inline]
    pub(crate) fn try_in_place(
        &self,
        token: &mut Token,
        numbers: &mut Numbers,
        counter: CounterId,
    ) -> Tried
        requires seat { IsSeat token.old numbers.old × (table_of token.old ≡ self.now) }
        requires counter { counter < length self.now.setting.starts }
        ensures seat { IsSeat token.new numbers.new }
        ensures rows { IsTried (seat_of token.old numbers.old) counter result (seat_of token.new numbers.new) }
        ensures caller { TriesToAcquire (seat_of token.old numbers.old) counter result
            (seat_of token.new numbers.new) }
        ensures settles { IfLost result (Changed counter token.old token.new) }
    {
        let word = counter_word(counter.number());
        let found = self.words.load::<AtTry>(token, word);
        if found == 0 {
            return Tried::Zero;
        }
        // An exchange, and no subtraction: another may have taken the unit since, and the counter can't go
        // below 0.
        if self.words.exchange::<Here>(token, word, found, found - 1) != found {
            return Tried::Lost;
        }
        numbers.taken += 1;
        Tried::Taken
    }
}
