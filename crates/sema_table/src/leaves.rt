//! A seat whose wait is queued gives up.
ghost use Rattle.std.specs.Prelude.{◌≡◌, ◌<◌, [], ◌∷◌, MatchBool, MatchResult};
ghost use Rattle.step_table.specs.declared.entry.Entry.TheVariants.{Withdraw};
ghost use Rattle.step_table.specs.declared.place.Place.TheVariants.{Rest, Acquiring};
ghost use Rattle.step_table.specs.declared.place.AcquireRow.TheVariants.{D4, Parked};
ghost use Rattle.step_table.specs.declared.place.ParkedRow.TheVariants.{P, D2, D3, D5};
ghost use Rattle.step_table.specs.Counting.{wait};
ghost use Rattle.sema_table.specs.declared.answers.Polled.TheVariants.{Still};
ghost use Rattle.sema_table.specs.Seats.{Token, seat_of};
ghost use Rattle.sema_table.specs.AtLock.{HasLocked};
ghost use Rattle.sema_table.specs.Waking.{IsPolled};
ghost use Rattle.sema_table.specs.Walks.{Stands, Holds, HasRecord, Walked, Moves, CanSpend, moved_to, sought_own};
ghost use Rattle.sema_table.specs.Leaving.{Leaves, LeavesAtLock, HasStayed, BeginsToLeave, GoesToLeave};
ghost use Rattle.sema_table.specs.Leaving.{EndsLeaving, StaysAsleep};
ghost use Rattle.sema_table.specs.CallersLeaving.{GivesUp, BeginsToGiveUp, EndsGivingUp, SleepsAgain};

use crate::answers::{GaveUp, Polled};
use crate::rows::{AtStay, Token};
use crate::seat::{Leaver, Numbers, Seat, Sleeping};
use crate::sema_table::SemaTable;
use running_rows::{Futexes, Here, Kernel};
use std::sync::Wait;
use step_table::{Acquire, AcquireRow, ParkedRow, Place};
use waiters::SeatId;

impl SemaTable {
    /// Looks once more at the seat's grant word, and where nothing is granted goes to the root's lock and takes
    /// the seat's wait out of its queue, wherever it stands there. It may wait for that lock, and for nothing
    /// else.
    pub fn leave<R: Wait>(&self, rt: &R, sleeping: Sleeping) -> GaveUp
        requires { sleeping.table ≡ self.now }
        ensures rows { Leaves sleeping result }
        ensures caller { GivesUp sleeping result }
    {
        match self.look_before(sleeping) {
            Ok(asleep) => self.leave_at_lock(rt, asleep),
            Err(gave_up) => gave_up,
        }
    }

    /// The look before the lock: the seat, if it may give up. Where it finds a grant the wait is over, and
    /// there is nothing to give up.
    pub(crate) fn look_before(&self, sleeping: Sleeping) -> Result<Sleeping, GaveUp>
        requires { sleeping.table ≡ self.now }
        ensures { MatchResult result (λ asleep. IsPolled sleeping (Still asleep) × (0 < asleep.left))
            (λ gave_up. Leaves sleeping gave_up × HasStayed gave_up) }
    {
        match self.poll(sleeping) {
            Polled::Still(asleep) => {
                if asleep.numbers.left == 0 {
                    return Err(GaveUp::LimitReached(asleep));
                }
                Ok(asleep)
            }
            Polled::Woken(woken) => Err(GaveUp::Woken(woken)),
            Polled::Handed(seat) => Err(GaveUp::Handed(seat)),
        }
    }

    /// The rows from D2 on.
    #[inline(never)]
    fn leave_at_lock<R: Wait>(&self, rt: &R, asleep: Sleeping) -> GaveUp
        requires { (asleep.table ≡ self.now) × (0 < asleep.left) }
        ensures { LeavesAtLock asleep result }
    {
        let Sleeping {
            mut token,
            numbers,
            call,
            turn,
        } = asleep;
        let place = Place::Acquiring(call, AcquireRow::Parked(turn, ParkedRow::D2));
        self.lock(rt, &mut token, call.counter, &place);
        self.leave_locked::<Futexes>(token, numbers, &call, turn)
    }

    /// The look and the lock of `leave`, for a caller that has to do more before the wait leaves: the seat has
    /// the lock, if its wait is queued.
    pub fn begin_leave<R: Wait>(&self, rt: &R, sleeping: Sleeping) -> Result<Leaver, GaveUp>
        requires { sleeping.table ≡ self.now }
        ensures rows { MatchResult result (λ leaving. BeginsToLeave sleeping leaving)
            (λ gave_up. Leaves sleeping gave_up × HasStayed gave_up) }
        ensures caller { MatchResult result (λ leaving. BeginsToGiveUp sleeping leaving)
            (λ gave_up. GivesUp sleeping gave_up) }
    {
        match self.look_before(sleeping) {
            Ok(asleep) => self.go_to_leave(rt, asleep),
            Err(gave_up) => Err(gave_up),
        }
    }

    #[inline(never)]
    fn go_to_leave<R: Wait>(&self, rt: &R, asleep: Sleeping) -> Result<Leaver, GaveUp>
        requires { (asleep.table ≡ self.now) × (0 < asleep.left) }
        ensures { MatchResult result (λ leaving. GoesToLeave asleep leaving)
            (λ gave_up. LeavesAtLock asleep gave_up × HasStayed gave_up) }
    {
        let Sleeping {
            mut token,
            numbers,
            call,
            turn,
        } = asleep;
        let place = Place::Acquiring(call, AcquireRow::Parked(turn, ParkedRow::D2));
        self.lock(rt, &mut token, call.counter, &place);
        self.begin_locked(token, numbers, &call, turn)
    }

    /// What follows D2: the seat with the lock, or the row that gives it back.
    fn begin_locked(
        &self,
        token: Token,
        numbers: Numbers,
        call: &Acquire,
        turn: u64,
    ) -> Result<Leaver, GaveUp>
        requires { (s : Token) × HasLocked self.now s numbers (Acquiring call.now (Parked turn D2)) token
            × (s.me.0.own.knows.place ≡ Acquiring call.now (Parked turn P)) × (0 < numbers.left) }
        ensures { (s : Token) → HasLocked self.now s numbers (Acquiring call.now (Parked turn D2)) token
            → s.me.0.own.knows.place ≡ Acquiring call.now (Parked turn P)
            → MatchResult result (λ leaving. GoesToLeave (seat_of s numbers) leaving)
            (λ gave_up. LeavesAtLock (seat_of s numbers) gave_up × HasStayed gave_up) }
    {
        let mut token = token;
        if self.holds_own(&mut token, call.counter, numbers.id()) {
            return Ok(Leaver {
                token,
                numbers,
                call: *call,
                turn,
            });
        }
        self.unlock_coming::<Futexes>(&mut token, call, turn);
        Err(GaveUp::Coming(Sleeping {
            token,
            numbers,
            call: *call,
            turn,
        }))
    }

    /// Takes the wait of a seat that has begun to leave out of its queue, and gives the lock back.
    pub fn end_leave(&self, giving_up: Leaver) -> Seat
        requires { giving_up.table ≡ self.now }
        ensures rows { EndsLeaving giving_up result }
        ensures caller { EndsGivingUp giving_up result }
    {
        let Leaver {
            mut token,
            numbers,
            call,
            turn,
        } = giving_up;
        let withdrew = self.withdraw(&mut token, numbers.id(), &call, turn);
        if !withdrew {
            unreachable!()
        }
        self.unlock_left::<Futexes>(&mut token, &call);
        let numbers = Numbers {
            left: numbers.left - 1,
            withdrawn: numbers.withdrawn + 1,
            ..numbers
        };
        Seat { token, numbers }
    }

    /// Gives the lock back, and the wait of a seat that has begun to leave stays queued: the seat sleeps on.
    pub fn stay_asleep(&self, giving_up: Leaver) -> Sleeping
        requires { giving_up.table ≡ self.now }
        ensures rows { StaysAsleep giving_up result }
        ensures caller { SleepsAgain giving_up result }
    {
        let Leaver {
            mut token,
            numbers,
            call,
            turn,
        } = giving_up;
        self.unlock_staying(&mut token, &call, turn);
        Sleeping {
            token,
            numbers,
            call,
            turn,
        }
    }

    /// The rows after D2, up to the one that gives the lock back.
    pub(crate) fn leave_locked<N: Kernel>(
        &self,
        token: Token,
        numbers: Numbers,
        call: &Acquire,
        turn: u64,
    ) -> GaveUp
        requires kernel { N.serves self.now.setting.has_threads }
        requires seat { (s : Token) × HasLocked self.now s numbers (Acquiring call.now (Parked turn D2)) token
            × (s.me.0.own.knows.place ≡ Acquiring call.now (Parked turn P)) × (0 < numbers.left) }
        ensures { (s : Token) → HasLocked self.now s numbers (Acquiring call.now (Parked turn D2)) token
            → s.me.0.own.knows.place ≡ Acquiring call.now (Parked turn P)
            → LeavesAtLock (seat_of s numbers) result }
    {
        let mut token = token;
        if self.withdraw(&mut token, numbers.id(), call, turn) {
            self.unlock_left::<N>(&mut token, call);
            let numbers = Numbers {
                left: numbers.left - 1,
                withdrawn: numbers.withdrawn + 1,
                ..numbers
            };
            return GaveUp::Left(Seat { token, numbers });
        }
        self.unlock_coming::<N>(&mut token, call, turn);
        GaveUp::Coming(Sleeping {
            token,
            numbers,
            call: *call,
            turn,
        })
    }

    /// D3 where the seat's wait is queued, and else nothing: whether it was. Word and list in one hold: while
    /// the lock is free, the word is the number of waits.
    fn withdraw(&self, token: &mut Token, seat: SeatId, call: &Acquire, turn: u64) -> bool
        requires seat { Stands self.now token.old (sought_own token.old call.now turn)
            × HasRecord token.old call.now.counter
            × CanSpend token.old 1 }
        requires own { seat ≡ token.old.me.0.own.number }
        ensures settled { MatchBool result
            (Walked token.old (Acquiring call.now (Parked turn D3)) token.new
            (moved_to token.old (Acquiring call.now D4))
            (Withdraw call.now.counter (wait token.old.me.0.own.number turn) ∷ []) 0
            × (token.old.me.0.own.knows.place ≡ Acquiring call.now (Parked turn D3)))
            ((token.old.me.0.own.knows.place ≡ Acquiring call.now (Parked turn D5))
            × (token.new.table_id ≡ token.old.table_id) × (token.new.me.0 ≡ token.old.me.0)) }
        ensures record { HasRecord token.new call.now.counter }
    {
        if !self.remove_own(token, call.counter, seat) {
            return false;
        }
        let word = self.waiter_word(call.counter);
        self.words.subtract::<Here>(token, word, 1);
        true
    }

    /// D4.
    fn unlock_left<N: Kernel>(&self, token: &mut Token, call: &Acquire)
        requires kernel { N.serves self.now.setting.has_threads }
        requires seat { Holds self.now token.old (Acquiring call.now D4) }
        ensures { Moves token.old (Acquiring call.now D4) token.new Rest × (token.new.me.1 ≡ []) }
    {
        let word = self.lock_word(call.counter);
        let sleepers = self.sleepers_word(call.counter);
        self.words.give_lock::<N>(token, word, sleepers);
    }

    /// D5 where D3 might be run.
    fn unlock_staying(&self, token: &mut Token, call: &Acquire, turn: u64)
        requires { Holds self.now token.old (Acquiring call.now (Parked turn D3)) }
        ensures { Moves token.old (Acquiring call.now (Parked turn D5)) token.new
            (Acquiring call.now (Parked turn P)) × (token.new.me.1 ≡ []) }
    {
        let word = self.lock_word(call.counter);
        let sleepers = self.sleepers_word(call.counter);
        self.words
            .give_lock_from::<AtStay, Futexes>(token, word, sleepers);
    }

    /// D5. Asleep again, and not at rest: the grant would be stored for the seat's next sleep.
    fn unlock_coming<N: Kernel>(&self, token: &mut Token, call: &Acquire, turn: u64)
        requires kernel { N.serves self.now.setting.has_threads }
        requires seat { Holds self.now token.old (Acquiring call.now (Parked turn D5)) }
        ensures { Moves token.old (Acquiring call.now (Parked turn D5)) token.new
            (Acquiring call.now (Parked turn P)) × (token.new.me.1 ≡ []) }
    {
        let word = self.lock_word(call.counter);
        let sleepers = self.sleepers_word(call.counter);
        self.words.give_lock::<N>(token, word, sleepers);
    }
}
