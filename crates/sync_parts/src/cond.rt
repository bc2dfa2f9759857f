//! A condition variable: a notify list, and a locker that is given up while a caller waits.
ghost use Rattle.std.specs.Prelude.{◌≡◌, ◌<◌, ◌++◌, ◌∷◌, [], true, All, IfOk, IfErr, IfSome, IfNone};
ghost use Rattle.notify_list.specs.Calls.{AllGranted};
ghost use Rattle.notify_list.specs.Callers.{NotifiesOneTicket, NotifiesAllTickets};
ghost use Rattle.notify_list.specs.Making.{IsMade, IsRefused};
ghost use Rattle.notify_list.specs.Notifying.{NotifiesOne, GrantsLeast};
ghost use Rattle.notify_list.specs.NotifyingAll.{NotifiesAll, GrantsSome};
ghost use Rattle.sync_parts.specs.Cond.{HasWaited, WaitsForSignal};
ghost use Rattle.sync_parts.specs.declared.locker_call.LockerCall.TheVariants as call;

use crate::locker::Locker;
use notify_list::{ListSeat, NotifyList, SetupError, Waited};
use std::alloc::Global;
use std::marker::Model;
use std::sync::Wait;

/// A condition variable. Its calls take `&self` and a seat, so threads share it in an `Arc`.
#[derive(Drop)]
pub struct Cond {
    pub(crate) list: NotifyList,
}

impl Model for Cond {
    ghost use Rattle.notify_list.specs.Seats.{ListModel};

    ghost Value = { ListModel };

    ghost view = { λ c. c.list };
}

impl Cond {
    /// A condition variable with 1 to 65,536 seats, in the order of their numbers. An error has made nothing.
    pub fn with_seats(alloc: Global, seats: u32) -> Result<(Cond, Vec<ListSeat>), SetupError>
        ensures ok { IfOk result (λ c. IsMade 0 seats c.0 c.1.items) }
        ensures own { IfOk result (λ c. All (λ s. s.list ≡ c.0) c.1.items) }
        ensures err { IfErr result (λ refused. IsRefused seats refused) }
    {
        let (list, seats) = NotifyList::starting_at(alloc, 0, seats)?;
        Ok((Cond { list }, seats))
    }

    /// Unlocks, waits until it is notified, and locks again (Go's `Cond.Wait`).
    pub fn wait<R: Wait, L: Locker>(
        &self,
        rt: &R,
        seat: ListSeat,
        locker: &mut L,
    ) -> (ListSeat, Waited)
        requires own { seat.list ≡ self.now }
        requires held { L.is_held locker.old ≡ true }
        requires left { 0 < L.may_unlock locker.old }
        ensures rows { HasWaited (λ l holding m. L.unlocks l holding m × L.unlock_rows l m)
            (λ l m. L.locks l m × L.lock_rows l m) seat locker.old result.1 result.0 locker.new }
        ensures caller { WaitsForSignal L.unlocks L.locks seat locker.old result.1 result.0 locker.new }
        ensures held { L.is_held locker.new ≡ true }
        ensures calls { L.calls locker.new ≡ L.calls locker.old ++ call.Unlocked ∷ call.Locked ∷ [] }
    {
        // the ticket before the unlock: who signals behind it looks for this ticket too
        let holding = self.list.add(seat);
        locker.unlock(rt, &holding);
        let (seat, waited) = self.list.wait(rt, holding);
        locker.lock(rt, &seat);
        (seat, waited)
    }

    /// Grants the least ticket that isn't granted, and wakes its wait where that is queued (Go's
    /// `Cond.Signal`). It answers the ticket.
    pub fn signal<R: Wait>(&self, rt: &R, seat: &mut ListSeat) -> Option<u64>
        requires { seat.old.list ≡ self.now }
        ensures rows { NotifiesOne seat.old result seat.new }
        ensures some { IfSome result (λ word. GrantsLeast seat.old word seat.new) }
        ensures none { IfNone result (AllGranted seat.old seat.new) }
        ensures caller { NotifiesOneTicket seat.old result seat.new }
    {
        self.list.one(rt, seat)
    }

    /// Wakes all that wait (Go's `Cond.Broadcast`). It answers how many tickets it granted.
    pub fn broadcast<R: Wait>(&self, rt: &R, seat: &mut ListSeat) -> u32
        requires { seat.old.list ≡ self.now }
        ensures rows { NotifiesAll seat.old result seat.new }
        ensures count { GrantsSome seat.old result seat.new }
        ensures granted { AllGranted seat.old seat.new }
        ensures caller { NotifiesAllTickets seat.old result seat.new }
    {
        self.list.all(rt, seat)
    }
}
