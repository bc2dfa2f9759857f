//! A release from its root's lock on.
ghost use Rattle.std.specs.Prelude.{◌≡◌, ◌<◌, true, false, [], ◌∷◌, length, MatchBool, IfSome, IfNone};
ghost use Rattle.step_table.specs.declared.entry.Entry.TheVariants.{Leave, Take};
ghost use Rattle.step_table.specs.declared.place.Place.TheVariants.{Rest, Releasing};
ghost use Rattle.step_table.specs.declared.place.ReleaseRow.TheVariants.{R3, R4, R5, R6, R7, R9, R10};
ghost use Rattle.sema_table.specs.Seats.{Token, IsToken, table_of, seat_of};
ghost use Rattle.sema_table.specs.AtLock.{HasLocked};
ghost use Rattle.sema_table.specs.Waking.{IsWakened, WakesFrom};
ghost use Rattle.sema_table.specs.Walks.{Stands, Starts, Holds, SawHeld, Locked, Walked, Moves, Changed, HasRecord, Granted};
ghost use Rattle.sema_table.specs.Walks.{moved_to, taken_out, sought, trying, unlocked, granting, grant_of};
ghost use Rattle.sema_table.specs.Walks.{taken_for};
ghost use Rattle.sema_table.specs.Outcomes.{MatchTried};
ghost use Rattle.sema_table.specs.CallersReleasing.{WakesFirst};

use crate::answers::{Tried, Wake};
use crate::rows::Token;
use crate::seat::{Numbers, Owing, Seat};
use crate::sema_table::{MOST_TRIES, SemaTable, counter_word};
use running_rows::{Futexes, Here, Kernel};
use std::sync::Wait;
use step_table::{Place, Release, ReleaseRow};
use waiters::{CounterId, WaitId};

impl SemaTable {
    /// The rest of a release: takes the counter's first wait out and grants it; with handoff, together with a
    /// unit if there is one (Go's `semrelease1` from `lockWithRank` on). It may wait for the root's lock, and
    /// for nothing else.
    pub fn wake<R: Wait>(&self, rt: &R, owing: Owing, handoff: bool) -> (Seat, Wake)
        requires { owing.table ≡ self.now }
        ensures rows { IsWakened owing handoff result.0 result.1 }
        ensures caller { WakesFirst owing handoff result.0 result.1 }
    {
        let Owing {
            token,
            numbers,
            counter,
        } = owing;
        self.wake_at_lock(rt, token, numbers, counter, handoff)
    }

    /// The rows from R3 on.
    #[inline(never)]
    pub(crate) fn wake_at_lock<R: Wait>(
        &self,
        rt: &R,
        token: Token,
        numbers: Numbers,
        counter: CounterId,
        handoff: bool,
    ) -> (Seat, Wake)
        requires seat { IsToken token numbers × (table_of token ≡ self.now) }
        requires call { (counter < length self.now.setting.starts)
            × (token.me.0.own.knows.place ≡ Releasing (record { counter = counter; handoff = false }) R3) }
        ensures { WakesFrom (seat_of token numbers) (record { counter = counter; handoff = handoff }) result.0
            result.1 }
    {
        let mut token = token;
        let place = Place::Releasing(Release { counter, handoff }, ReleaseRow::R3);
        self.lock(rt, &mut token, counter, &place);
        self.wake_locked::<Futexes>(token, numbers, &Release { counter, handoff })
    }

    /// R3 where the root's lock is found free within some tries, and else a look that found it held.
    pub(crate) fn try_lock_released(&self, token: &mut Token, call: &Release) -> bool
        requires { Starts self.now token.old (Releasing call.now R3) }
        ensures { MatchBool result (Locked token.old (Releasing call.now R3) token.new)
            (SawHeld token.old call.now.counter token.new) }
    {
        let place = Place::Releasing(*call, ReleaseRow::R3);
        self.try_lock(token, call.counter, &place)
    }

    /// The rows from R4 on.
    pub(crate) fn wake_locked<N: Kernel>(
        &self,
        token: Token,
        numbers: Numbers,
        call: &Release,
    ) -> (Seat, Wake)
        requires kernel { N.serves self.now.setting.has_threads }
        requires seat { (s : Token) × HasLocked self.now s numbers (Releasing call.now R3) token }
        ensures { (s : Token) → HasLocked self.now s numbers (Releasing call.now R3) token
            → WakesFrom (seat_of s numbers) call.now result.0 result.1 }
    {
        let mut token = token;
        let first = self.take_first(&mut token, call);
        self.unlock_released::<N>(&mut token, call);
        let Some(id) = first else {
            return (Seat { token, numbers }, Wake::Nobody);
        };
        let handed = self.take_for(&mut token, call, &id);
        self.grant::<N>(&mut token, call, &id, handed);
        if handed {
            return (Seat { token, numbers }, Wake::Handed(id));
        }
        (Seat { token, numbers }, Wake::One(id))
    }

    /// R4, and R5 where the counter has a wait.
    fn take_first(&self, token: &mut Token, call: &Release) -> Option<WaitId>
        requires seat { Stands self.now token.old (Releasing call.now R4)
            × HasRecord token.old call.now.counter
            × (token.old.me.0.own.knows.hand ≡ []) }
        ensures record { HasRecord token.new call.now.counter }
        ensures some { IfSome result (λ w.
            Walked token.old (Releasing call.now R4) token.new (taken_out token.old call.now w)
            (Leave call.now.counter w token.old.me.0.own.number ∷ []) 0
            × (w.seat < self.now.setting.seats)) }
        ensures none { IfNone result
            (Moves token.old (Releasing call.now R4) token.new (Releasing call.now R6)) }
        ensures stands { Stands self.now token.new (Releasing call.now R6) }
    {
        if !self.look_for_waits(token, call) {
            return None;
        }
        self.take_out(token, call)
    }

    /// R4: whether somebody waits at the root. Looked at again under the lock: since R2 the waiter may have
    /// taken the unit itself, or another release may have taken it out.
    fn look_for_waits(&self, token: &mut Token, call: &Release) -> bool
        requires { Holds self.now token.old (Releasing call.now R4) }
        ensures record { HasRecord token.new call.now.counter }
        ensures found { MatchBool result
            (Moves token.old (Releasing call.now R4) token.new (sought token.new call.now))
            (Moves token.old (Releasing call.now R4) token.new (Releasing call.now R6)) }
    {
        let word = self.waiter_word(call.counter);
        self.words.load::<Here>(token, word) != 0
    }

    /// R5 where the counter has a wait, and else nothing. Under the lock and with the word lowered: after the
    /// lock two releases could take one wait, and a word left behind would send every later release to the
    /// lock.
    fn take_out(&self, token: &mut Token, call: &Release) -> Option<WaitId>
        requires seat { Stands self.now token.old (sought token.old call.now)
            × HasRecord token.old call.now.counter
            × (token.old.me.0.own.knows.hand ≡ []) }
        ensures record { HasRecord token.new call.now.counter }
        ensures some { IfSome result (λ w.
            Walked token.old (Releasing call.now R5) token.new (taken_out token.old call.now w)
            (Leave call.now.counter w token.old.me.0.own.number ∷ []) 0
            × (token.old.me.0.own.knows.place ≡ Releasing call.now R5) × (w.seat < self.now.setting.seats)) }
        ensures none { IfNone result ((token.old.me.0.own.knows.place ≡ Releasing call.now R6)
            × (token.new.table_id ≡ token.old.table_id) × (token.new.me.0 ≡ token.old.me.0)) }
    {
        let id = self.remove_first(token, call.counter)?;
        let word = self.waiter_word(call.counter);
        self.words.subtract::<Here>(token, word, 1);
        Some(id)
    }

    /// R6. Given back before the waiter is told: told earlier, it would run into the lock that is still held.
    fn unlock_released<N: Kernel>(&self, token: &mut Token, call: &Release)
        requires kernel { N.serves self.now.setting.has_threads }
        requires seat { Holds self.now token.old (Releasing call.now R6) }
        ensures { Moves token.old (Releasing call.now R6) token.new (unlocked token.old call.now)
            × (token.new.me.1 ≡ []) }
    {
        let word = self.lock_word(call.counter);
        let sleepers = self.sleepers_word(call.counter);
        self.words.give_lock::<N>(token, word, sleepers);
    }

    /// R7 and R8 of a release with handoff, and else nothing: whether a unit was taken for the wait in hand.
    fn take_for(&self, token: &mut Token, call: &Release, id: &WaitId) -> bool
        requires { Stands self.now token.old (trying call.now)
            × (token.old.me.0.own.knows.hand ≡ id.now ∷ []) }
        ensures slots { token.new.me.1 ≡ token.old.me.1 }
        ensures walked { Walked token.old (trying call.now) token.new
            (moved_to token.old (granting call.now result))
            (taken_for call.now id.now result) 0 }
        ensures asked { result ≡ true → call.now.handoff ≡ true }
    {
        if !call.handoff {
            return false;
        }
        self.take_unit(token, call, id)
    }

    /// R7, and R8 where R7 read more than 0, until one of them settles it: whether a unit was taken for the
    /// wait in hand. A unit is looked for, not assumed: a seat that never slept may have taken the one that
    /// was added. It ends whatever others do.
    fn take_unit(&self, token: &mut Token, call: &Release, id: &WaitId) -> bool
        requires { Stands self.now token.old (Releasing call.now R7)
            × (token.old.me.0.own.knows.hand ≡ id.now ∷ []) }
        ensures slots { token.new.me.1 ≡ token.old.me.1 }
        ensures settled { MatchBool result
            (Walked token.old (Releasing call.now R7) token.new (moved_to token.old (Releasing call.now R9))
            (Take call.now.counter id.now.seat ∷ []) 0)
            (Moves token.old (Releasing call.now R7) token.new (Releasing call.now R10)) }
    {
        for _ in 0..MOST_TRIES {
            match self.try_for(token, call, id) {
                Tried::Taken => return true,
                Tried::Zero => return false,
                Tried::Lost => {}
            }
        }
        unreachable!()
    }

    /// R7, and R8 where R7 read more than 0.
    #[inline]
    fn try_for(&self, token: &mut Token, call: &Release, id: &WaitId) -> Tried
        requires { Stands self.now token.old (Releasing call.now R7)
            × (token.old.me.0.own.knows.hand ≡ id.now ∷ []) }
        ensures slots { token.new.me.1 ≡ token.old.me.1 }
        ensures tried { MatchTried result
            (Walked token.old (Releasing call.now R7) token.new (moved_to token.old (Releasing call.now R9))
            (Take call.now.counter id.now.seat ∷ []) 0)
            (Moves token.old (Releasing call.now R7) token.new (Releasing call.now R10))
            (Moves token.old (Releasing call.now R7) token.new (Releasing call.now R7)
            × Changed call.now.counter token.old token.new) }
    {
        let word = counter_word(call.counter.number());
        let found = self.words.load::<Here>(token, word);
        if found == 0 {
            return Tried::Zero;
        }
        if self.words.exchange::<Here>(token, word, found, found - 1) != found {
            return Tried::Lost;
        }
        Tried::Taken
    }

    /// R9 where a unit was taken for the wait in hand, and else R10: its seat is granted, and woken where its
    /// thread sleeps.
    fn grant<N: Kernel>(&self, token: &mut Token, call: &Release, id: &WaitId, handed: bool)
        requires kernel { N.serves self.now.setting.has_threads }
        requires seat { Stands self.now token.old (granting call.now handed)
            × (token.old.me.0.own.knows.hand ≡ id.now ∷ []) }
        requires there { id.now.seat < self.now.setting.seats }
        ensures granted { Granted token.old (granting call.now handed) token.new }
        ensures slots { token.new.me.1 ≡ token.old.me.1 }
    {
        let seat = id.seat.number();
        let word = self.grant_word(seat);
        let asleep = self.asleep_word(seat);
        self.words
            .grant::<N>(token, word, asleep, granted_units(handed));
    }
}

/// What is stored as a grant: 1, or 2 where a unit comes with it.
fn granted_units(handed: bool) -> u64
    ensures { result ≡ grant_of handed }
{
    if handed {
        return 2;
    }
    1
}
