//! Waits on a condition variable with a time-out.
ghost use Rattle.std.specs.Prelude.{◌≡◌, ◌<◌, ◌++◌, ◌∷◌, [], true};
ghost use Rattle.notify_list.specs.CallersTimed.{WaitsInTime};
ghost use Rattle.sync_parts.specs.Cond.{WaitsForSignalInTime};
ghost use Rattle.sync_parts.specs.declared.locker_call.LockerCall.TheVariants as call;

use crate::cond::Cond;
use crate::limit::Limit;
use crate::locker::Locker;
use notify_list::{Holding, ListSeat, NotifyList, WaitedUntil};
use std::sync::Wait;
use std::time::{Clock, Duration, Instant};

/// A wait with the ticket until then.
fn wait_on<R: Wait + Clock>(
    rt: &R,
    list: &NotifyList,
    holding: Holding,
    limit: Limit,
) -> (ListSeat, WaitedUntil)
    requires { holding.list ≡ list.now }
    ensures own { result.0.list ≡ list.now }
    ensures waits { WaitsInTime holding result.1 result.0 }
{
    match limit {
        Limit::At(deadline) => list.wait_until(rt, holding, deadline),
        Limit::After(longest) => list.wait_for(rt, holding, longest),
    }
}

impl Cond {
    /// As `wait`, until the deadline: where the ticket isn't granted then, the seat leaves with it, and no signal
    /// is spent on it. It locks again in either case.
    pub fn wait_until<R: Wait + Clock, L: Locker>(
        &self,
        rt: &R,
        seat: ListSeat,
        locker: &mut L,
        deadline: Instant,
    ) -> (ListSeat, WaitedUntil)
        requires own { seat.list ≡ self.now }
        requires held { L.is_held locker.old ≡ true }
        requires left { 0 < L.may_unlock locker.old }
        ensures own { result.0.list ≡ self.now }
        ensures rows { WaitsForSignalInTime (λ l holding m. L.unlocks l holding m × L.unlock_rows l m)
            (λ l m. L.locks l m × L.lock_rows l m) seat locker.old result.1 result.0 locker.new }
        ensures caller { WaitsForSignalInTime L.unlocks L.locks seat locker.old result.1 result.0 locker.new }
        ensures held { L.is_held locker.new ≡ true }
        ensures calls { L.calls locker.new ≡ L.calls locker.old ++ call.Unlocked ∷ call.Locked ∷ [] }
    {
        self.wait_in_time(rt, seat, locker, Limit::At(deadline))
    }

    /// As `wait_until`, for so long.
    pub fn wait_for<R: Wait + Clock, L: Locker>(
        &self,
        rt: &R,
        seat: ListSeat,
        locker: &mut L,
        longest: Duration,
    ) -> (ListSeat, WaitedUntil)
        requires own { seat.list ≡ self.now }
        requires held { L.is_held locker.old ≡ true }
        requires left { 0 < L.may_unlock locker.old }
        ensures own { result.0.list ≡ self.now }
        ensures rows { WaitsForSignalInTime (λ l holding m. L.unlocks l holding m × L.unlock_rows l m)
            (λ l m. L.locks l m × L.lock_rows l m) seat locker.old result.1 result.0 locker.new }
        ensures caller { WaitsForSignalInTime L.unlocks L.locks seat locker.old result.1 result.0 locker.new }
        ensures held { L.is_held locker.new ≡ true }
        ensures calls { L.calls locker.new ≡ L.calls locker.old ++ call.Unlocked ∷ call.Locked ∷ [] }
    {
        self.wait_in_time(rt, seat, locker, Limit::After(longest))
    }

    fn wait_in_time<R: Wait + Clock, L: Locker>(
        &self,
        rt: &R,
        seat: ListSeat,
        locker: &mut L,
        limit: Limit,
    ) -> (ListSeat, WaitedUntil)
        requires own { seat.list ≡ self.now }
        requires held { L.is_held locker.old ≡ true }
        requires left { 0 < L.may_unlock locker.old }
        ensures own { result.0.list ≡ self.now }
        ensures rows { WaitsForSignalInTime (λ l holding m. L.unlocks l holding m × L.unlock_rows l m)
            (λ l m. L.locks l m × L.lock_rows l m) seat locker.old result.1 result.0 locker.new }
        ensures caller { WaitsForSignalInTime L.unlocks L.locks seat locker.old result.1 result.0 locker.new }
        ensures held { L.is_held locker.new ≡ true }
        ensures calls { L.calls locker.new ≡ L.calls locker.old ++ call.Unlocked ∷ call.Locked ∷ [] }
    {
        // the ticket before the unlock, as in `wait`
        let holding = self.list.add(seat);
        locker.unlock(rt, &holding);
        let (seat, waited) = wait_on(rt, &self.list, holding, limit);
        locker.lock(rt, &seat);
        (seat, waited)
    }
}
