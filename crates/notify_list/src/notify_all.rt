//! Notifying all.
ghost use Rattle.std.specs.Prelude.{◌≡◌, ℕ, ◌<◌, ◌≤◌, length, take, map, List, [], ◌∷◌, MatchResult, IfOk, OnErr};
ghost use Rattle.waiters.specs.declared.wait.Wait.{Wait as Queued};
ghost use Rattle.step_law_lists.specs.ListPath.{ListStride};
ghost use Rattle.notify_list.specs.Seats.{stands_of, queue_of};
ghost use Rattle.notify_list.specs.Calls.{AllGranted};
ghost use Rattle.notify_list.specs.NotifyingAll.{NotifiesAll, GrantsSome, FindsHeldForAll, EndsAll};
ghost use Rattle.notify_list.specs.NotifyingAll.{NamesSeats, StoresGrants};
ghost use Rattle.notify_list.specs.Callers.{NotifiesAllTickets, EndsNotifyingAll, StandsOn, LeavesAll};
ghost use Rattle.notify_list.specs.Meeting.{FindsHeld};
ghost use Rattle.notify_list.specs.GrantingAll.{MayLook, LookedForAll, MayReach, ReachedAll};
ghost use Rattle.notify_list.specs.GrantingAll.{MayTake, TakenAll, TakenAndWoken, MayWake, WokenFirst, WokenSome};

use crate::notified::NotifiedAll;
use crate::notify_list::{LOCK, NOTIFY, NotifyList, WAIT, grant_word};
use crate::rows::{AtAll, Token};
use crate::seat::{ListSeat, OwingAll};
use running_rows::{Futexes, Here, Kernel};
use std::sync::Wait;

/// The most waits whose seats stand on a small piece of the stack.
const FEW: usize = 256;
/// The most waits of a list.
const MOST: usize = 65_536;

impl NotifyList {
    /// Grants all tickets that aren't granted, and wakes their waits (Go's `notifyListNotifyAll`). It answers
    /// how many it granted. Where more than 256 waits are queued it takes 256 KiB of the stack.
    pub fn all<R: Wait>(&self, rt: &R, seat: &mut ListSeat) -> u32
        requires { seat.old.list ≡ self.now }
        ensures rows { NotifiesAll seat.old result seat.new }
        ensures count { GrantsSome seat.old result seat.new }
        ensures granted { AllGranted seat.old seat.new }
        ensures caller { NotifiesAllTickets seat.old result seat.new }
    {
        if self.look_for_all(&mut seat.token) {
            return 0;
        }
        self.lock(rt, &mut seat.token);
        let granted = self.reach_all(&mut seat.token);
        self.take_and_wake(&mut seat.token);
        granted
    }

    /// The same for a caller that must not wait, and has room for the seats of all waits. Where the list's lock
    /// stays held, the seat has looked at the two words, they differed, and it has to go on.
    pub fn try_all(
        &self,
        seat: ListSeat,
        woken: &mut [u32],
    ) -> Result<(ListSeat, NotifiedAll), OwingAll>
        requires seat { seat.list ≡ self.now }
        requires room { self.now.setting.seats ≤ length woken.old }
        ensures rows { MatchResult result (λ all. NotifiesAll seat all.1.tickets all.0)
            (λ owing. FindsHeldForAll seat owing) }
        ensures count { IfOk result (λ all. GrantsSome seat all.1.tickets all.0) }
        ensures granted { IfOk result (λ all. AllGranted seat all.0) }
        ensures seats { IfOk result (λ all. NamesSeats self.now woken.new all.1.waits all.0) }
        ensures kept { OnErr result (woken.new ≡ woken.old) }
        ensures caller { MatchResult result (λ all. NotifiesAllTickets seat all.1.tickets all.0)
            (λ owing. LeavesAll seat owing) }
    {
        self.try_all_with::<Futexes>(seat, woken)
    }

    /// The same, where threads sleep, or none does.
    pub(crate) fn try_all_with<N: Kernel>(
        &self,
        seat: ListSeat,
        woken: &mut [u32],
    ) -> Result<(ListSeat, NotifiedAll), OwingAll>
        requires kernel { N.serves self.now.setting.has_threads }
        requires seat { seat.list ≡ self.now }
        requires room { self.now.setting.seats ≤ length woken.old }
        ensures rows { MatchResult result (λ all. NotifiesAll seat all.1.tickets all.0)
            (λ owing. FindsHeldForAll seat owing) }
        ensures count { IfOk result (λ all. GrantsSome seat all.1.tickets all.0) }
        ensures granted { IfOk result (λ all. AllGranted seat all.0) }
        ensures seats { IfOk result (λ all. NamesSeats self.now woken.new all.1.waits all.0) }
        ensures kept { OnErr result (woken.new ≡ woken.old) }
        ensures caller { MatchResult result (λ all. NotifiesAllTickets seat all.1.tickets all.0)
            (λ owing. LeavesAll seat owing) }
    {
        let ListSeat { mut token, number } = seat;
        if self.look_for_all(&mut token) {
            let none = NotifiedAll {
                tickets: 0,
                waits: 0,
            };
            return Ok((ListSeat { token, number }, none));
        }
        self.retry_all_with::<N>(OwingAll { token, number }, woken)
    }

    /// Goes on with a notification of all from the lock on.
    pub fn retry_all(
        &self,
        owing: OwingAll,
        woken: &mut [u32],
    ) -> Result<(ListSeat, NotifiedAll), OwingAll>
        requires seat { owing.list ≡ self.now }
        requires room { self.now.setting.seats ≤ length woken.old }
        ensures rows { MatchResult result (λ all. EndsAll owing all.1.tickets all.0)
            (λ still. FindsHeld owing still) }
        ensures seats { IfOk result (λ all. NamesSeats self.now woken.new all.1.waits all.0) }
        ensures kept { OnErr result (woken.new ≡ woken.old) }
        ensures caller { MatchResult result (λ all. EndsNotifyingAll owing all.1.tickets all.0)
            (λ still. StandsOn owing still) }
    {
        self.retry_all_with::<Futexes>(owing, woken)
    }

    /// The same, where threads sleep, or none does.
    pub(crate) fn retry_all_with<N: Kernel>(
        &self,
        owing: OwingAll,
        woken: &mut [u32],
    ) -> Result<(ListSeat, NotifiedAll), OwingAll>
        requires kernel { N.serves self.now.setting.has_threads }
        requires seat { owing.list ≡ self.now }
        requires room { self.now.setting.seats ≤ length woken.old }
        ensures rows { MatchResult result (λ all. EndsAll owing all.1.tickets all.0)
            (λ still. FindsHeld owing still) }
        ensures seats { IfOk result (λ all. NamesSeats self.now woken.new all.1.waits all.0) }
        ensures kept { OnErr result (woken.new ≡ woken.old) }
        ensures caller { MatchResult result (λ all. EndsNotifyingAll owing all.1.tickets all.0)
            (λ still. StandsOn owing still) }
    {
        let OwingAll { mut token, number } = owing;
        if !self.try_lock(&mut token) {
            return Err(OwingAll { token, number });
        }
        let tickets = self.reach_all(&mut token);
        let waits = self.take_all::<N>(&mut token, woken);
        self.grant_seats::<N>(&mut token, &woken[..waits]);
        Ok((ListSeat { token, number }, NotifiedAll { tickets, waits }))
    }

    /// L1 and L2: whether the two words were equal.
    fn look_for_all(&self, token: &mut Token) -> bool
        requires { MayLook self.now token.old }
        ensures { LookedForAll token.old result token.new }
    {
        let waited = self.words.load::<AtAll>(token, WAIT);
        waited == self.words.load::<Here>(token, NOTIFY)
    }

    /// L4, L5 and L6: all tickets that are handed out at L5 are granted. It answers how many weren't before.
    fn reach_all(&self, token: &mut Token) -> u32
        requires { (h : ℕ) × MayReach self.now token.old h }
        ensures { (h : ℕ) → MayReach self.now token.old h → ReachedAll token.old h result token.new }
    {
        self.words.load::<Here>(token, NOTIFY);
        // Read again under the lock: the word of the first look may be behind what is granted by now.
        let waited = self.words.load::<Here>(token, WAIT);
        let granted = self.pass_all(token, waited);
        self.words.store::<Here>(token, NOTIFY, waited);
        granted as u32
    }

    /// L7 and L8: all waits are taken out, the lock is given back, and each is granted and woken.
    fn take_and_wake(&self, token: &mut Token)
        requires { (h : ℕ) × (n : ℕ) × MayTake self.now token.old h n }
        ensures { (h n : ℕ) → MayTake self.now token.old h n → TakenAndWoken token.old h n token.new }
    {
        if self.waits(token) <= FEW {
            let mut room = [0; FEW];
            self.wake_within(token, &mut room);
        } else {
            self.wake_many(token);
        }
    }

    /// The same of any number of waits. Not inlined: the room would be on the stack of each call.
    #[inline(never)]
    fn wake_many(&self, token: &mut Token)
        requires { (h : ℕ) × (n : ℕ) × MayTake self.now token.old h n }
        ensures { (h n : ℕ) → MayTake self.now token.old h n → TakenAndWoken token.old h n token.new }
    {
        let mut room = [0; MOST];
        self.wake_within(token, &mut room);
    }

    /// The same, where there is room for the seats of all waits.
    fn wake_within(&self, token: &mut Token, room: &mut [u32])
        requires seat { (h : ℕ) × (n : ℕ) × MayTake self.now token.old h n }
        requires room { length (queue_of token.old) ≤ length room.old }
        ensures { (h n : ℕ) → MayTake self.now token.old h n → TakenAndWoken token.old h n token.new }
    {
        let waits = self.take_all::<Futexes>(token, room);
        self.wake_all(token, &room[..waits]);
    }

    /// L7: all waits are taken out, and the lock is given back. The room begins with their seats. It answers how
    /// many they are.
    fn take_all<N: Kernel>(&self, token: &mut Token, room: &mut [u32]) -> usize
        requires kernel { N.serves self.now.setting.has_threads }
        requires seat { (h : ℕ) × (n : ℕ) × MayTake self.now token.old h n }
        requires room { length (queue_of token.old) ≤ length room.old }
        ensures taken { (h n : ℕ) → MayTake self.now token.old h n → TakenAll token.old h n token.new }
        ensures seats { take result room.new ≡ map (λ w. w.id.seat) (stands_of token.new).hand }
        ensures count { result ≡ length (queue_of token.old) }
    {
        let waits = self.remove_all(token, room);
        // Given back before the first waiter is told: told earlier, it would run into the lock that is still
        // held.
        self.words.give_lock::<N>(token, LOCK, self.sleepers_word());
        waits
    }

    /// L8 for each wait in hand, of which these are the seats. The first are woken, and wake the others.
    fn wake_all(&self, token: &mut Token, seats: &[u32])
        requires seat { (h : ℕ) × MayWake self.now token.old h }
        requires seats { seats.now ≡ map (λ w. w.id.seat) (stands_of token.old).hand }
        ensures { (h : ℕ) → MayWake self.now token.old h
            → WokenSome token.old h (stands_of token.old).hand [] token.new }
    {
        self.name_heirs(token, seats);
        self.pass_seats(token, seats);
        self.wake_first(token, seats);
    }

    /// L8 for each wait in hand, of which these are the seats. Each is woken as it is granted.
    fn grant_seats<N: Kernel>(&self, token: &mut Token, seats: &[u32])
        requires kernel { N.serves self.now.setting.has_threads }
        requires seat { (h : ℕ) × MayWake self.now token.old h }
        requires seats { seats.now ≡ map (λ w. w.id.seat) (stands_of token.old).hand }
        ensures rows { (h : ℕ) → MayWake self.now token.old h
            → WokenSome token.old h (stands_of token.old).hand [] token.new }
        ensures stored { StoresGrants seats.now token.old.me.0.own.gone token.new.me.0.own.gone }
    {
        for seat in seats {
            self.grant_first::<N>(token, *seat);
        }
    }

    /// L8: the seat of the first wait in hand is granted, and woken.
    fn grant_first<N: Kernel>(&self, token: &mut Token, seat: u32)
        requires kernel { N.serves self.now.setting.has_threads }
        requires seat { (h : ℕ) × (w : Queued) × (rest : List Queued) × MayWake self.now token.old h
            × ((stands_of token.old).hand ≡ w ∷ rest) × (w.id.seat ≡ seat) }
        ensures rows { (h : ℕ) (w : Queued) (rest : List Queued) → MayWake self.now token.old h
            → (stands_of token.old).hand ≡ w ∷ rest → WokenFirst token.old h w rest token.new }
        ensures stored { StoresGrants (seat ∷ []) token.old.me.0.own.gone token.new.me.0.own.gone }
    {
        self.words
            .grant::<N>(token, grant_word(seat), self.asleep_word(seat), 1);
    }

    /// As `grant_seats`, but nobody is woken: the first seats and their heirs do that.
    fn pass_seats(&self, token: &mut Token, seats: &[u32])
        requires seat { (h : ℕ) × MayWake self.now token.old h }
        requires seats { seats.now ≡ map (λ w. w.id.seat) (stands_of token.old).hand }
        ensures rows { (h : ℕ) → MayWake self.now token.old h
            → WokenSome token.old h (stands_of token.old).hand [] token.new }
        ensures stored { StoresGrants seats.now token.old.me.0.own.gone token.new.me.0.own.gone }
    {
        for seat in seats {
            self.pass_first(token, *seat);
        }
    }

    /// As `grant_first`, but nobody is woken.
    fn pass_first(&self, token: &mut Token, seat: u32)
        requires { (h : ℕ) × (w : Queued) × (rest : List Queued) × MayWake self.now token.old h
            × ((stands_of token.old).hand ≡ w ∷ rest) × (w.id.seat ≡ seat) }
        ensures rows { (h : ℕ) (w : Queued) (rest : List Queued) → MayWake self.now token.old h
            → (stands_of token.old).hand ≡ w ∷ rest → WokenFirst token.old h w rest token.new }
        ensures stored { StoresGrants (seat ∷ []) token.old.me.0.own.gone token.new.me.0.own.gone }
    {
        self.words.pass_grant(token, grant_word(seat), 1);
    }
}
