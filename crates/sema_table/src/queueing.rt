//! An acquire from its root's lock on.
ghost use Rattle.std.specs.Prelude.{◌≡◌, ◌+◌, ◌<◌, [], ◌∷◌, length, MatchBool};
ghost use Rattle.step_table.specs.declared.entry.Entry.TheVariants.{Take, Queue};
ghost use Rattle.step_table.specs.declared.place.Place.TheVariants.{Rest, Acquiring};
ghost use Rattle.step_table.specs.declared.place.AcquireRow.TheVariants.{A3, A4, A5, A7, A8, A9};
ghost use Rattle.sema_table.specs.Places.{Begins};
ghost use Rattle.sema_table.specs.Seats.{Token, IsToken, table_of, seat_of};
ghost use Rattle.sema_table.specs.AtLock.{HasLocked};
ghost use Rattle.sema_table.specs.Waking.{acquire_of, IsEntered};
ghost use Rattle.sema_table.specs.Walks.{Stands, Holds, Walked, Moves, HasRecord, HasRoom, IsLast, moved_to};
ghost use Rattle.sema_table.specs.Walks.{parked, Changed};
ghost use Rattle.sema_table.specs.Outcomes.{MatchTried};
ghost use Rattle.sema_table.specs.Callers.{JoinsQueue};

use crate::answers::{Entered, Tried};
use crate::rows::Token;
use crate::seat::{Numbers, Seat, Sleeping};
use crate::sema_table::{MOST_TRIES, SemaTable, counter_word};
use running_rows::{Futexes, Here, Kernel};
use std::sync::Wait;
use step_table::{Acquire, AcquireRow, Place};
use waiters::{CounterId, WaitId};

impl SemaTable {
    /// Goes to the lock of the counter's root, takes a unit that is there when the lock is held, or queues a
    /// wait (Go's `semacquire1` from `lockWithRank` to `goparkunlock`). It may wait for that lock, and for
    /// nothing else.
    pub fn enter<R: Wait>(&self, rt: &R, seat: Seat, counter: CounterId, lifo: bool) -> Entered
        requires { (seat.table ≡ self.now) × (counter < length self.now.setting.starts) }
        ensures rows { IsEntered seat (acquire_of counter lifo)
            (Acquiring (acquire_of counter lifo) A3) result }
        ensures caller { JoinsQueue seat counter lifo result }
    {
        let Seat { token, numbers } = seat;
        self.enter_at_lock(rt, token, numbers, Acquire { counter, lifo })
    }

    /// The rows from A3 on.
    #[inline(never)]
    pub(crate) fn enter_at_lock<R: Wait>(
        &self,
        rt: &R,
        token: Token,
        numbers: Numbers,
        call: Acquire,
    ) -> Entered
        requires seat { IsToken token numbers × (table_of token ≡ self.now) }
        requires call { (call.counter < length self.now.setting.starts)
            × Begins (length self.now.setting.starts) token.me.0.own.knows.place (Acquiring call A3) }
        ensures { IsEntered (seat_of token numbers) call (Acquiring call A3) result }
    {
        let mut token = token;
        let place = Place::Acquiring(call, AcquireRow::A3);
        self.lock(rt, &mut token, call.counter, &place);
        self.enter_locked::<Futexes>(token, numbers, &call)
    }

    /// The rows from A4 on, up to the one that gives the lock back.
    #[inline]
    pub(crate) fn enter_locked<N: Kernel>(
        &self,
        token: Token,
        numbers: Numbers,
        call: &Acquire,
    ) -> Entered
        requires kernel { N.serves self.now.setting.has_threads }
        requires seat { (s : Token) × HasLocked self.now s numbers (Acquiring call.now A3) token }
        ensures { (s : Token) → HasLocked self.now s numbers (Acquiring call.now A3) token
            → IsEntered (seat_of s numbers) call.now (Acquiring call.now A3) result }
    {
        let mut token = token;
        self.raise(&mut token, call);
        if self.look_again(&mut token, call) {
            self.lower(&mut token, call);
            self.unlock_taken::<N>(&mut token, call);
            let numbers = Numbers {
                taken: numbers.taken + 1,
                ..numbers
            };
            return Entered::Taken(Seat { token, numbers });
        }
        let turn = numbers.turns;
        let id = WaitId {
            seat: numbers.id(),
            turn,
        };
        self.queue::<N>(&mut token, call, waiters::Wait { id, ticket: 0 });
        let numbers = Numbers {
            turns: turn + 1,
            ..numbers
        };
        Entered::Asleep(Sleeping {
            token,
            numbers,
            call: *call,
            turn,
        })
    }

    /// A4. Raised before the second look: a release that adds its unit after that look finds the word above
    /// 0. Raised later, the release could come in between and find nobody, and this seat would sleep beside a
    /// unit.
    fn raise(&self, token: &mut Token, call: &Acquire)
        requires { Holds self.now token.old (Acquiring call.now A4) }
        ensures { Moves token.old (Acquiring call.now A4) token.new (Acquiring call.now A5)
            × HasRecord token.new call.now.counter }
    {
        let word = self.waiter_word(call.counter);
        self.words.add::<Here>(token, word, 1);
    }

    /// A5, and A6 where A5 read more than 0, until one of them settles it: whether a unit was taken. The
    /// second look: a release that came since the first may have found the waiter word at 0 and gone. It ends
    /// whatever others do.
    fn look_again(&self, token: &mut Token, call: &Acquire) -> bool
        requires { Holds self.now token.old (Acquiring call.now A5) }
        ensures record { HasRecord token.new call.now.counter }
        ensures settled { MatchBool result
            (Walked token.old (Acquiring call.now A5) token.new (moved_to token.old (Acquiring call.now A8))
            (Take call.now.counter token.old.me.0.own.number ∷ []) 1)
            (Moves token.old (Acquiring call.now A5) token.new (Acquiring call.now A7) × HasRoom token.new call.now.counter) }
    {
        for _ in 0..MOST_TRIES {
            match self.try_at_lock(token, call) {
                Tried::Taken => return true,
                Tried::Zero => return false,
                // Only to a try or a release, which take no lock: then the counter is looked at anew.
                Tried::Lost => {}
            }
        }
        unreachable!()
    }

    /// A5, and A6 where A5 read more than 0.
    #[inline]
    fn try_at_lock(&self, token: &mut Token, call: &Acquire) -> Tried
        requires { Holds self.now token.old (Acquiring call.now A5) }
        ensures record { HasRecord token.new call.now.counter }
        ensures tried { MatchTried result
            (Walked token.old (Acquiring call.now A5) token.new (moved_to token.old (Acquiring call.now A8))
            (Take call.now.counter token.old.me.0.own.number ∷ []) 1)
            (Moves token.old (Acquiring call.now A5) token.new (Acquiring call.now A7)
            × HasRoom token.new call.now.counter)
            (Moves token.old (Acquiring call.now A5) token.new (Acquiring call.now A5)
            × Changed call.now.counter token.old token.new) }
    {
        let word = counter_word(call.counter.number());
        let found = self.words.load::<Here>(token, word);
        if found == 0 {
            return Tried::Zero;
        }
        if self.words.exchange::<Here>(token, word, found, found - 1) != found {
            return Tried::Lost;
        }
        Tried::Taken
    }

    /// A8. The seat queues no wait: a word left raised would send every release of the root to the lock.
    fn lower(&self, token: &mut Token, call: &Acquire)
        requires { Holds self.now token.old (Acquiring call.now A8) }
        ensures { Moves token.old (Acquiring call.now A8) token.new (Acquiring call.now A9)
            × HasRecord token.new call.now.counter }
    {
        let word = self.waiter_word(call.counter);
        self.words.subtract::<Here>(token, word, 1);
    }

    /// A9.
    fn unlock_taken<N: Kernel>(&self, token: &mut Token, call: &Acquire)
        requires kernel { N.serves self.now.setting.has_threads }
        requires seat { Holds self.now token.old (Acquiring call.now A9) }
        ensures { Moves token.old (Acquiring call.now A9) token.new Rest × (token.new.me.1 ≡ []) }
    {
        let word = self.lock_word(call.counter);
        let sleepers = self.sleepers_word(call.counter);
        self.words.give_lock::<N>(token, word, sleepers);
    }

    /// A7. Queued in the hold of the lock in which 0 was read: a release that saw the waiter word waits for
    /// this lock, and finds the wait.
    fn queue<N: Kernel>(&self, token: &mut Token, call: &Acquire, wait: waiters::Wait)
        requires kernel { N.serves self.now.setting.has_threads }
        requires seat { Stands self.now token.old (Acquiring call.now A7)
            × HasRecord token.old call.now.counter
            × HasRoom token.old call.now.counter }
        requires wait { wait.id
            ≡ record { seat = token.old.me.0.own.number; turn = token.old.me.0.own.knows.turn } }
        ensures walked { Walked token.old (Acquiring call.now A7) token.new (parked token.old call.now)
            (Queue call.now.counter wait.id call.now.lifo ∷ []) 0 }
        ensures bare { token.new.me.1 ≡ [] }
        ensures last { IsLast token.new (Queue call.now.counter wait.id call.now.lifo) }
    {
        self.insert(token, call, wait);
        let word = self.lock_word(call.counter);
        let sleepers = self.sleepers_word(call.counter);
        self.words.give_lock::<N>(token, word, sleepers);
    }
}
