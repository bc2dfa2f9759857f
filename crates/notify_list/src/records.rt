//! The record, edited in its slot by the seat that holds the lock.
ghost use Rattle.std.specs.Prelude.{◌≡◌, ◌⊎◌, ℕ, ◌<◌, ◌≤◌, ◌^◌, ◌++◌, [], ◌∷◌, length, map, take, nat_lt, true, false};
ghost use Rattle.waiters.specs.declared.wait.Wait.{Wait as Queued};
ghost use Rattle.step_table.specs.ListErased.{erased_wait};
ghost use Rattle.step_table.specs.Wrapping.{word_of};
ghost use Rattle.notify_list.specs.Rule.{Guarded};
ghost use Rattle.notify_list.specs.Seats.{list_of, setting_of, queue_of, guarded_of, with_queue};
ghost use Rattle.notify_list.specs.Heirs.{IsSame};
ghost use Rattle.notify_list.specs.Walks.{HasRecord, Edited};
ghost use Rattle.notify_list.specs.Records.{IsOut, HasGuarded, FirstOut, MayPass, PassedOver, MayGo, HasGone};
ghost use Rattle.notify_list.specs.Records.{MayPassAll, PassedAll, OwnOut};

use crate::notify_list::{NotifyList, RECORD};
use crate::rows::Token;
use running_rows::Running;
use step_table::minus;
use waiters::{SeatId, Sought, Wait};

/// How many tickets may go: a seat leaves only with one of the first so many. They would take more than a
/// thousand years.
const EARLY: u64 = 1 << 60;

impl NotifyList {
    /// Puts a wait at the end of the list.
    pub(crate) fn insert(&self, token: &mut Token, wait: Wait)
        requires seat { (list_of token.old ≡ self.now) × HasRecord token.old }
        requires room { length (queue_of token.old) < (setting_of token.old).seats }
        ensures { (w : Queued) → erased_wait w ≡ wait
            → Edited token.old (with_queue (queue_of token.old ++ w ∷ []) (guarded_of token.old)) token.new }
    {
        let record = Running::record_mut(token, &self.words, RECORD);
        record.lists.push_back(record.key, wait);
    }

    /// Takes the first wait with this ticket out of the list, if there is one: its seat's number.
    pub(crate) fn remove(&self, token: &mut Token, ticket: u64) -> Option<u16>
        requires { (list_of token.old ≡ self.now) × HasRecord token.old }
        ensures { IsOut token.old ticket result token.new }
    {
        let record = Running::record_mut(token, &self.words, RECORD);
        let Some(wait) = record.lists.take_ticket(record.key, ticket) else {
            return None;
        };
        Some(wait.id.seat.number())
    }

    /// Takes the first wait out of the list, if there is one: its seat's number.
    fn remove_first(&self, token: &mut Token) -> Option<u16>
        requires { (list_of token.old ≡ self.now) × ((g : Guarded) × HasGuarded token.old g) }
        ensures { (g : Guarded) → HasGuarded token.old g → FirstOut token.old g result token.new }
    {
        let record = Running::record_mut(token, &self.words, RECORD);
        let Some(wait) = record.lists.pop_front(record.key) else {
            return None;
        };
        Some(wait.id.seat.number())
    }

    /// How many waits there are.
    pub(crate) fn waits(&self, token: &mut Token) -> usize
        requires { (list_of token.old ≡ self.now) × HasRecord token.old }
        ensures same { token.new ≡ token.old }
        ensures count { result ≡ length (queue_of token.old) }
    {
        let record = Running::record_mut(token, &self.words, RECORD);
        record.lists.len(record.key)
    }

    /// Takes all waits out of the list: the room begins with their seats' numbers, in order. It answers how many
    /// they are.
    pub(crate) fn remove_all(&self, token: &mut Token, room: &mut [u32]) -> usize
        requires seat { (list_of token.old ≡ self.now) × HasRecord token.old }
        requires room { length (queue_of token.old) ≤ length room.old }
        ensures edited { Edited token.old (with_queue [] (guarded_of token.old)) token.new }
        ensures count { result ≡ length (queue_of token.old) }
        ensures seats { take result room.new ≡ map (λ w. w.id.seat) (queue_of token.old) }
    {
        let mut count = 0;
        while let Some(seat) = self.remove_first(token) {
            room[count] = u32::from(seat);
            count += 1;
        }
        count
    }

    /// Takes the seat's own wait out of the list, if it is there: its ticket.
    pub(crate) fn remove_own(&self, token: &mut Token, seat: SeatId) -> Option<u64>
        requires { (list_of token.old ≡ self.now) × ((g : Guarded) × HasGuarded token.old g) }
        ensures { (g : Guarded) → HasGuarded token.old g → OwnOut token.old g seat result token.new }
    {
        let record = Running::record_mut(token, &self.words, RECORD);
        let Some(wait) = record.lists.take(record.key, Sought::Seat(seat)) else {
            return None;
        };
        Some(wait.ticket)
    }

    /// The first ticket that is neither granted nor gone is passed: the next such one.
    pub(crate) fn pass(&self, token: &mut Token, ticket: u64) -> u64
        requires { (g : Guarded) × MayPass self.now token.old g ticket }
        ensures { (g : Guarded) → MayPass self.now token.old g ticket → PassedOver token.old g result token.new }
    {
        let record = Running::record_mut(token, &self.words, RECORD);
        let next = record.live.pass(ticket);
        record.early = self.still_early(record.early, next);
        next
    }

    /// A ticket that isn't the first is gone.
    pub(crate) fn take_ticket(&self, token: &mut Token, ticket: u64)
        requires { (g : Guarded) × (m : ℕ) × MayGo self.now token.old g m ticket }
        ensures { (g : Guarded) (m : ℕ) → MayGo self.now token.old g m ticket → HasGone token.old g m token.new }
    {
        let record = Running::record_mut(token, &self.words, RECORD);
        record.live.take(ticket);
    }

    /// All tickets up to this one are passed: how many of them weren't gone.
    pub(crate) fn pass_all(&self, token: &mut Token, waited: u64) -> u64
        requires { (g : Guarded) × (upto : ℕ) × MayPassAll self.now token.old g upto waited }
        ensures { (g : Guarded) (upto : ℕ) → MayPassAll self.now token.old g upto waited
            → PassedAll token.old g upto result token.new }
    {
        let record = Running::record_mut(token, &self.words, RECORD);
        record.early = self.still_early(record.early, waited);
        record.live.pass_all(waited)
    }

    /// Whether few were so and are, where this ticket is the first that isn't passed.
    fn still_early(&self, early: bool, ticket: u64) -> bool
        ensures is { (n : ℕ) → (early ≡ true → n < 2 ^ 64) → (early ≡ false → 2 ^ 60 ≤ n)
            → ticket ≡ word_of self.now.setting.first n → result ≡ nat_lt n (2 ^ 60) }
        ensures was { result ≡ true → early ≡ true }
    {
        early && minus(ticket, self.first) < EARLY
    }

    /// Whether a seat with this ticket may leave, if it queues its wait now: the ticket is one of the first 2^60,
    /// and few are passed.
    pub(crate) fn may_leave(&self, token: &mut Token, ticket: u64) -> bool
        requires { (list_of token.old ≡ self.now) × HasRecord token.old }
        ensures same { IsSame token.old token.new }
        ensures few { result ≡ true → (guarded_of token.old).passed < 2 ^ 60 }
        ensures early { (n : ℕ) → result ≡ true → n < 2 ^ 64 → ticket ≡ word_of self.now.setting.first n
            → n < 2 ^ 60 }
        ensures late { (n : ℕ) → result ≡ false → ticket ≡ word_of self.now.setting.first n
            → (2 ^ 60 ≤ n) ⊎ (2 ^ 60 ≤ (guarded_of token.old).passed) }
    {
        let record = Running::record_mut(token, &self.words, RECORD);
        self.still_early(record.early, ticket)
    }
}
