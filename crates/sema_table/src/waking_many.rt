//! A release of many units from its root's lock on.
ghost use Rattle.std.specs.Prelude.{◌≡◌, ◌+◌, ◌^◌, ◌<◌, ◌≤◌, [], ◌∷◌, ◌++◌, length, map, All, MatchBool};
ghost use Rattle.std.specs.Prelude.{IfSome, IfNone};
ghost use Rattle.step_table.specs.declared.entry.Entry.TheVariants.{Leave};
ghost use Rattle.step_table.specs.declared.place.Place.TheVariants.{Rest, ReleasingMany};
ghost use Rattle.step_table.specs.declared.place.ManyRow.TheVariants.{M3, M4, M5, M6, M7};
ghost use Rattle.step_table.specs.Event.{waiter};
ghost use Rattle.sema_table.specs.Seats.{Token, IsToken, table_of, seat_of};
ghost use Rattle.sema_table.specs.AtLock.{HasLocked};
ghost use Rattle.sema_table.specs.ManySeats.{HasUnits};
ghost use Rattle.sema_table.specs.Many.{leaves, IsWokenMany, WakesCount, WakesSeats};
ghost use Rattle.sema_table.specs.Walks.{Stands, Starts, Holds, SawHeld, Locked, Walked, Moves, HasRecord};
ghost use Rattle.sema_table.specs.ManyWalks.{sought_many, picking, to_grant, with_hand, MayGrant};
ghost use Rattle.sema_table.specs.ManyWalks.{GrantedFirst, GrantedSome};
ghost use Rattle.sema_table.specs.CallersReleasing.{WakesSome};

use crate::many_seat::OwingMany;
use crate::rows::Token;
use crate::seat::{Numbers, Seat};
use crate::sema_table::SemaTable;
use arrayvec::ArrayVec;
use running_rows::{Futexes, Here, Kernel};
use std::sync::Wait;
use step_table::{ManyRow, Place, ReleaseMany};
use waiters::WaitId;

/// The seats of the waits that a release of many units has taken out, in the order in which they left. On
/// the stack: after the table is made no memory is taken.
pub type WokenSeats = ArrayVec<u16, 256>;

impl SemaTable {
    /// The rest of a release of many units: takes out the counter's first waits, as many as units were added
    /// or fewer if there are no more, and grants each. It answers how many those are.
    pub fn wake_some<R: Wait>(&self, rt: &R, owing: OwingMany) -> (Seat, u32)
        requires { owing.table ≡ self.now }
        ensures rows { IsWokenMany owing result.0 result.1 }
        ensures caller { WakesSome owing result.0 result.1 }
    {
        let OwingMany {
            token,
            numbers,
            call,
        } = owing;
        self.wake_some_at_lock(rt, token, numbers, &call)
    }

    /// The rows from M3 on.
    #[inline(never)]
    fn wake_some_at_lock<R: Wait>(
        &self,
        rt: &R,
        token: Token,
        numbers: Numbers,
        call: &ReleaseMany,
    ) -> (Seat, u32)
        requires seat { IsToken token numbers × (table_of token ≡ self.now) }
        requires call { (call.now.counter < length self.now.setting.starts)
            × (token.me.0.own.knows.place ≡ ReleasingMany call.now M3) }
        requires units { HasUnits call.now }
        ensures { WakesCount (seat_of token numbers) call.now result.0 result.1 }
    {
        let mut token = token;
        let place = Place::ReleasingMany(*call, ManyRow::M3);
        self.lock(rt, &mut token, call.counter, &place);
        let mut hand = WokenSeats::new();
        let seat = self.wake_some_locked::<Futexes>(token, numbers, call, &mut hand);
        let woken = hand.len() as u32;
        (seat, woken)
    }

    /// M3 where the root's lock is found free within some tries, and else a look that found it held.
    pub(crate) fn try_lock_many(&self, token: &mut Token, call: &ReleaseMany) -> bool
        requires { Starts self.now token.old (ReleasingMany call.now M3) }
        ensures { MatchBool result (Locked token.old (ReleasingMany call.now M3) token.new)
            (SawHeld token.old call.now.counter token.new) }
    {
        let place = Place::ReleasingMany(*call, ManyRow::M3);
        self.try_lock(token, call.counter, &place)
    }

    /// The rows from M4 on.
    pub(crate) fn wake_some_locked<N: Kernel>(
        &self,
        token: Token,
        numbers: Numbers,
        call: &ReleaseMany,
        hand: &mut WokenSeats,
    ) -> Seat
        requires kernel { N.serves self.now.setting.has_threads }
        requires seat { (s : Token) × HasLocked self.now s numbers (ReleasingMany call.now M3) token }
        requires hand { (hand.old.items ≡ []) × HasUnits call.now }
        ensures { (s : Token) → HasLocked self.now s numbers (ReleasingMany call.now M3) token
            → WakesSeats (seat_of s numbers) call.now result hand.new.items }
    {
        let mut token = token;
        self.take_waits(&mut token, call, hand);
        self.unlock_many::<N>(&mut token, call);
        self.grant_all::<N>(&mut token, call, hand.as_slice());
        Seat { token, numbers }
    }

    /// M4, and M5 while fewer waits than units are in hand and the counter has one more.
    fn take_waits(&self, token: &mut Token, call: &ReleaseMany, hand: &mut WokenSeats)
        requires seat { Holds self.now token.old (ReleasingMany call.now M4)
            × (token.old.me.0.own.knows.hand ≡ []) }
        requires hand { (hand.old.items ≡ []) × HasUnits call.now }
        ensures record { HasRecord token.new call.now.counter }
        ensures walked { Walked token.old (ReleasingMany call.now M4) token.new
            (with_hand token.old (ReleasingMany call.now M6) token.new.me.0.own.knows.hand)
            (leaves token.old.me.0.own.number call.now token.new.me.0.own.knows.hand) 0 }
        ensures hand { hand.new.items ≡ map (λ w. w.seat) token.new.me.0.own.knows.hand }
    {
        if !self.look_for_many(token, call) {
            return;
        }
        for _ in 0..call.units {
            let Some(wait) = self.take_one(token, call) else {
                return;
            };
            hand.push(wait.seat.number());
        }
    }

    /// M4: whether somebody waits at the root.
    fn look_for_many(&self, token: &mut Token, call: &ReleaseMany) -> bool
        requires { Holds self.now token.old (ReleasingMany call.now M4) }
        ensures record { HasRecord token.new call.now.counter }
        ensures found { MatchBool result
            (Moves token.old (ReleasingMany call.now M4) token.new (sought_many token.new call.now))
            (Moves token.old (ReleasingMany call.now M4) token.new (ReleasingMany call.now M6)) }
    {
        let word = self.waiter_word(call.counter);
        self.words.load::<Here>(token, word) != 0
    }

    /// M5 where the counter has a wait, and else nothing. All under one hold of the lock, and with the word
    /// lowered for each.
    fn take_one(&self, token: &mut Token, call: &ReleaseMany) -> Option<WaitId>
        requires seat { Stands self.now token.old (picking token.old call.now)
            × HasRecord token.old call.now.counter }
        requires few { length token.old.me.0.own.knows.hand < call.now.units }
        ensures record { HasRecord token.new call.now.counter }
        ensures some { IfSome result (λ w.
            Walked token.old (ReleasingMany call.now M5) token.new
            (with_hand token.old (picking token.new call.now) (token.old.me.0.own.knows.hand ++ w ∷ []))
            (Leave call.now.counter w token.old.me.0.own.number ∷ []) 0
            × (token.old.me.0.own.knows.place ≡ ReleasingMany call.now M5)) }
        ensures none { IfNone result ((token.old.me.0.own.knows.place ≡ ReleasingMany call.now M6)
            × (token.new.table_id ≡ token.old.table_id) × (token.new.me.0 ≡ token.old.me.0)) }
    {
        let id = self.remove_first(token, call.counter)?;
        let word = self.waiter_word(call.counter);
        self.words.subtract::<Here>(token, word, 1);
        Some(id)
    }

    /// M6. Given back before the first waiter is told: told earlier, it would run into the lock that is still
    /// held.
    fn unlock_many<N: Kernel>(&self, token: &mut Token, call: &ReleaseMany)
        requires kernel { N.serves self.now.setting.has_threads }
        requires seat { Holds self.now token.old (ReleasingMany call.now M6) }
        ensures walked { Moves token.old (ReleasingMany call.now M6) token.new
            (to_grant call.now token.old.me.0.own.knows.hand) }
        ensures bare { token.new.me.1 ≡ [] }
        ensures there { All (λ w. w.seat < self.now.setting.seats) token.new.me.0.own.knows.hand }
    {
        let word = self.lock_word(call.counter);
        let sleepers = self.sleepers_word(call.counter);
        self.words.give_lock::<N>(token, word, sleepers);
    }

    /// M7 for each wait in hand, of which these are the seats.
    fn grant_all<N: Kernel>(&self, token: &mut Token, call: &ReleaseMany, seats: &[u16])
        requires kernel { N.serves self.now.setting.has_threads }
        requires seat { MayGrant self.now token.old call.now }
        requires seats { seats.now ≡ map (λ w. w.seat) token.old.me.0.own.knows.hand }
        requires there { All (λ w. w.seat < self.now.setting.seats) token.old.me.0.own.knows.hand }
        ensures { GrantedSome token.old
            (to_grant call.now token.old.me.0.own.knows.hand) call.now token.old.me.0.own.knows.hand token.new
            (with_hand token.old Rest []) }
    {
        for seat in seats {
            self.grant_one::<N>(token, call, *seat);
        }
    }

    /// M7: the seat of the first wait in hand is granted, and woken where its thread sleeps.
    fn grant_one<N: Kernel>(&self, token: &mut Token, call: &ReleaseMany, seat: u16)
        requires kernel { N.serves self.now.setting.has_threads }
        requires seat { Stands self.now token.old (ReleasingMany call.now M7)
            × (waiter token.old.me.0.own.number token.old.me.0.own.knows.hand ≡ seat) }
        requires there { seat < self.now.setting.seats }
        ensures { GrantedFirst token.old call.now token.new }
    {
        let word = self.grant_word(seat);
        let asleep = self.asleep_word(seat);
        self.words.grant::<N>(token, word, asleep, 1);
    }
}
