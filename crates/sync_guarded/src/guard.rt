//! A guard: a seat at a guarded value, which locks, is lent the value, and unlocks.
ghost use Rattle.std.specs.Prelude.{◌≡◌, true, false, MatchBool};
ghost use Rattle.std.specs.Fn.{FnOnceReturnsAtMut};
ghost use Rattle.sync_guarded.specs.Seats.{is_held};
ghost use Rattle.sync_guarded.specs.Calls.{new_guard, HasLocked, HasFoundHeld, HasUnlocked, HasLent, HasHeld};

use crate::guarded::{GuardSeat, Guarded};
use crate::rows::GuardToken;
use notify_list::{Holding, ListSeat};
use std::marker::Model;
use std::sync::Wait;
use std::time::{Clock, Duration, Instant};
use sync_parts::Locker;

/// Who locks a guarded value. While it holds the lock, the value is lent to it, and to nobody else.
#[derive(Drop)]
pub struct Guard<'g, T> {
    guarded: &'g Guarded<T>,
    token: GuardToken<T>,
    held: bool,
}

impl<'g, T> Model for Guard<'g, T> {
    ghost use Rattle.sync_guarded.specs.Seats.{GuardModel, guard_of, IsGuard};

    ghost Value = { GuardModel T };

    ghost view = { λ g. guard_of g.token };

    ghost invariant = { λ g. IsGuard g.guarded.now g.token g.held };
}

impl<'g, T> Guard<'g, T> {
    /// A guard by this seat. It holds nothing.
    pub fn over(guarded: &'g Guarded<T>, seat: GuardSeat<T>) -> Guard<'g, T>
        requires { seat.guarded ≡ guarded.now }
        ensures { result ≡ new_guard seat }
    {
        let GuardSeat { token } = seat;
        Guard {
            guarded,
            token,
            held: false,
        }
    }

    /// Whether it holds the lock.
    pub fn held(&self) -> bool
        ensures { result ≡ is_held self.now }
    {
        self.held
    }

    /// Locks, and takes the value, by one step; while another has it, looks for a while, and then sleeps.
    pub fn acquire<R: Wait>(&mut self, rt: &R)
        requires { is_held self.old ≡ false }
        ensures { HasLocked self.old self.new }
    {
        let guarded = self.guarded;
        guarded.lock_patiently(rt, &mut self.token);
        self.held = true;
    }

    /// Locks until a time: whether it did. A time that has passed tries a few times.
    pub fn try_lock_until<R: Wait + Clock>(&mut self, rt: &R, deadline: Instant) -> bool
        requires { is_held self.old ≡ false }
        ensures { MatchBool result (HasLocked self.old self.new) (HasFoundHeld self.old self.new) }
    {
        self.try_lock_in_time(rt, Some(deadline))
    }

    /// The same for so long.
    pub fn try_lock_for<R: Wait + Clock>(&mut self, rt: &R, longest: Duration) -> bool
        requires { is_held self.old ≡ false }
        ensures { MatchBool result (HasLocked self.old self.new) (HasFoundHeld self.old self.new) }
    {
        let Ok(now) = Instant::now(rt) else {
            return self.try_lock();
        };
        let Some(deadline) = now.checked_add(longest) else {
            // No clock reads so late a time.
            self.acquire(rt);
            return true;
        };
        self.try_lock_in_time(rt, Some(deadline))
    }

    fn try_lock_in_time<R: Wait + Clock>(&mut self, rt: &R, deadline: Option<Instant>) -> bool
        requires { is_held self.old ≡ false }
        ensures { MatchBool result (HasLocked self.old self.new) (HasFoundHeld self.old self.new) }
    {
        let guarded = self.guarded;
        let took = guarded.lock_until(rt, &mut self.token, deadline);
        self.held = took;
        took
    }

    /// Locks where it finds the lock free within some tries: whether it did. It never waits.
    pub fn try_lock(&mut self) -> bool
        requires { is_held self.old ≡ false }
        ensures { MatchBool result (HasLocked self.old self.new) (HasFoundHeld self.old self.new) }
    {
        let guarded = self.guarded;
        let took = guarded.try_lock(&mut self.token);
        self.held = took;
        took
    }

    /// The same by one whom a wait brings back beside others: breaks of all of them would keep the processors
    /// from the lock's holder.
    fn acquire_after_wait<R: Wait>(&mut self, rt: &R)
        requires { is_held self.old ≡ false }
        ensures { HasLocked self.old self.new }
    {
        let guarded = self.guarded;
        guarded.lock(rt, &mut self.token);
        self.held = true;
    }

    /// Unlocks, and puts the value back, by one step.
    pub fn release(&mut self)
        requires { is_held self.old ≡ true }
        ensures { HasUnlocked self.old self.new }
    {
        let guarded = self.guarded;
        guarded.unlock(&mut self.token);
        self.held = false;
    }

    /// Lends the value for the length of one call.
    pub fn lend<A, F: FnOnce(&mut T) -> A>(&mut self, body: F) -> A
        requires held { is_held self.old ≡ true }
        requires callable { F.IsAlwaysCallable body }
        ensures { HasLent (FnOnceReturnsAtMut F.FnOnce body) self.old result self.new }
    {
        let guarded = self.guarded;
        guarded.lend(&mut self.token, body)
    }

    /// Locks, lends the value for the length of one call, and unlocks.
    pub fn hold<R: Wait, A, F: FnOnce(&mut T) -> A>(&mut self, rt: &R, body: F) -> A
        requires free { is_held self.old ≡ false }
        requires callable { F.IsAlwaysCallable body }
        ensures { HasHeld (FnOnceReturnsAtMut F.FnOnce body) self.old result self.new }
    {
        self.acquire(rt);
        let answer = self.lend(body);
        self.release();
        answer
    }

    /// Ends the guard, and gives its seat back.
    pub fn into_seat(self) -> GuardSeat<T>
        requires { is_held self ≡ false }
        ensures { result ≡ self.entry.seat }
    {
        let Guard { token, .. } = self;
        GuardSeat { token }
    }
}

impl<'g, T> Locker for Guard<'g, T> {
    ghost use Rattle.std.specs.Prelude.{◌-◌, ◌^◌};
    ghost use Rattle.sync_guarded.specs.Calls.{locker_calls};

    ghost calls = { λ g. locker_calls g.seat.calls };

    ghost is_held = { λ g. is_held g };

    ghost may_unlock = { λ g. 2 ^ 64 - 1 };

    ghost unlocks = { λ g holding h. HasUnlocked g h };

    ghost locks = { λ g h. HasLocked g h };

    ghost unlock_rows = { λ g h. Unit {0} };

    ghost lock_rows = { λ g h. Unit {0} };

    fn held(&self) -> bool {
        Guard::held(self)
    }

    /// As often as is wanted.
    fn left(&self) -> u64 {
        u64::MAX
    }

    fn unlock<R: Wait>(&mut self, _rt: &R, _holding: &Holding) {
        Guard::release(self);
    }

    fn lock<R: Wait>(&mut self, rt: &R, _seat: &ListSeat) {
        Guard::acquire_after_wait(self, rt);
    }
}
