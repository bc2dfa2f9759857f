//! Notifying one.
ghost use Rattle.std.specs.Prelude.{◌≡◌, ℕ, IfSome, IfNone, IfOk, MatchResult};
ghost use Rattle.step_table.specs.declared.list_place.ListPlace.TheVariants.{NotifyingOne};
ghost use Rattle.step_table.specs.declared.list_place.OneRow.TheVariants.{O3};
ghost use Rattle.step_law_lists.specs.ListLawful.{Follows};
ghost use Rattle.notify_list.specs.Seats.{Token as Before, list_of, seat_of, IsSeat};
ghost use Rattle.notify_list.specs.Calls.{AllGranted};
ghost use Rattle.notify_list.specs.Tickets.{FindsHeldAfterLooks};
ghost use Rattle.notify_list.specs.Meeting.{FindsHeld};
ghost use Rattle.notify_list.specs.Notifying.{NotifiesOne, GrantsLeast, EndsOne, ticket_of, GrantsItsWait};
ghost use Rattle.notify_list.specs.Granting.{MayNotify, HasGranted};
ghost use Rattle.notify_list.specs.Callers.{NotifiesOneTicket, LeavesOne};

use crate::notified::{Busy, Notified, ticket_of_answer};
use crate::notify_list::{LOCK, NOTIFY, NotifyList, WAIT};
use crate::rows::Token;
use crate::seat::ListSeat;
use running_rows::{Futexes, Here, Kernel};
use std::sync::Wait;

impl NotifyList {
    /// Grants the least ticket that isn't granted, if there is one, and wakes its wait (Go's
    /// `notifyListNotifyOne`). It answers that ticket.
    pub fn one<R: Wait>(&self, rt: &R, seat: &mut ListSeat) -> Option<u64>
        requires { seat.old.list ≡ self.now }
        ensures rows { NotifiesOne seat.old result seat.new }
        ensures some { IfSome result (λ word. GrantsLeast seat.old word seat.new) }
        ensures none { IfNone result (AllGranted seat.old seat.new) }
        ensures caller { NotifiesOneTicket seat.old result seat.new }
    {
        if self.quiet(seat) {
            return None;
        }
        self.one_at_lock(rt, seat)
    }

    /// The rows from O3 on.
    #[inline(never)]
    fn one_at_lock<R: Wait>(&self, rt: &R, seat: &mut ListSeat) -> Option<u64>
        requires seat { seat.old.list ≡ self.now }
        requires place { (h : ℕ) × (seat.old.sight.stands.place ≡ NotifyingOne h O3) }
        ensures rows { (h : ℕ) → seat.old.sight.stands.place ≡ NotifyingOne h O3
            → EndsOne seat.old h result seat.new }
        ensures lawful { Follows seat.new.sight.seen }
    {
        self.lock(rt, &mut seat.token);
        let notified = self.grant_least::<Futexes>(&mut seat.token);
        ticket_of_answer(&notified)
    }

    /// The same for a caller that must not wait: where the list's lock stays held, the seat has looked at the
    /// two words, and they differed. It tells whose wait was granted.
    pub fn try_one(&self, seat: &mut ListSeat) -> Result<Option<Notified>, Busy>
        requires { seat.old.list ≡ self.now }
        ensures rows { MatchResult result (λ notified. NotifiesOne seat.old (ticket_of notified) seat.new)
            (λ busy. FindsHeldAfterLooks seat.old seat.new) }
        ensures some { IfOk result (λ notified.
            IfSome (ticket_of notified) (λ word. GrantsLeast seat.old word seat.new)) }
        ensures none { IfOk result (λ notified.
            IfNone (ticket_of notified) (AllGranted seat.old seat.new)) }
        ensures wait { IfOk result (λ notified. IfSome notified (λ n. GrantsItsWait n seat.new)) }
        ensures caller { MatchResult result
            (λ notified. NotifiesOneTicket seat.old (ticket_of notified) seat.new)
            (λ busy. LeavesOne seat.old seat.new) }
    {
        self.try_one_with::<Futexes>(seat)
    }

    /// The same, where threads sleep, or none does.
    pub(crate) fn try_one_with<N: Kernel>(
        &self,
        seat: &mut ListSeat,
    ) -> Result<Option<Notified>, Busy>
        requires kernel { N.serves self.now.setting.has_threads }
        requires seat { seat.old.list ≡ self.now }
        ensures rows { MatchResult result (λ notified. NotifiesOne seat.old (ticket_of notified) seat.new)
            (λ busy. FindsHeldAfterLooks seat.old seat.new) }
        ensures some { IfOk result (λ notified.
            IfSome (ticket_of notified) (λ word. GrantsLeast seat.old word seat.new)) }
        ensures none { IfOk result (λ notified.
            IfNone (ticket_of notified) (AllGranted seat.old seat.new)) }
        ensures wait { IfOk result (λ notified. IfSome notified (λ n. GrantsItsWait n seat.new)) }
        ensures caller { MatchResult result
            (λ notified. NotifiesOneTicket seat.old (ticket_of notified) seat.new)
            (λ busy. LeavesOne seat.old seat.new) }
    {
        let quiet = self.quiet(seat);
        if quiet {
            return Ok(None);
        }
        self.try_one_at_lock::<N>(seat)
    }

    /// The rows from O3 on, if the lock is found free.
    #[inline(never)]
    fn try_one_at_lock<N: Kernel>(&self, seat: &mut ListSeat) -> Result<Option<Notified>, Busy>
        requires kernel { N.serves self.now.setting.has_threads }
        requires seat { seat.old.list ≡ self.now }
        requires place { (h : ℕ) × (seat.old.sight.stands.place ≡ NotifyingOne h O3) }
        ensures rows { (h : ℕ) → seat.old.sight.stands.place ≡ NotifyingOne h O3
            → MatchResult result (λ notified. EndsOne seat.old h (ticket_of notified) seat.new)
            (λ busy. FindsHeld seat.old seat.new) }
        ensures wait { IfOk result (λ notified. IfSome notified (λ n. GrantsItsWait n seat.new)) }
        ensures lawful { Follows seat.new.sight.seen }
    {
        if self.try_lock(&mut seat.token) {
            return Ok(self.grant_least::<N>(&mut seat.token));
        }
        Err(Busy)
    }

    /// The rows from O4 on, under the lock, which is given back. The seat that is granted is woken.
    fn grant_least<N: Kernel>(&self, token: &mut Token) -> Option<Notified>
        requires kernel { N.serves self.now.setting.has_threads }
        requires seat { (s : Before) × (n : ℕ) × (h : ℕ) × MayNotify self.now s n h token.old }
        ensures rows { (s : Before) (n h : ℕ) → MayNotify self.now s n h token.old
            → EndsOne (seat_of s n) h (ticket_of result) (seat_of token.new n) × IsSeat token.new n }
        ensures own { list_of token.new ≡ self.now }
        ensures wait { HasGranted self.now result token.new }
    {
        // Read again under the lock: since the first look another may have granted that ticket, and this call
        // would grant it twice and leave the next one out.
        let ticket = self.words.load::<Here>(token, NOTIFY);
        if self.words.load::<Here>(token, WAIT) == ticket {
            self.words.give_lock::<N>(token, LOCK, self.sleepers_word());
            return None;
        }
        let seat = self.grant_one::<N>(token, ticket);
        Some(Notified { ticket, seat })
    }
}
