//! The steps of a guarded value.
ghost use Rattle.std.specs.Prelude.{true, false, MatchBool};
ghost use Rattle.std.specs.Fn.{FnOnceReturnsAtMut};
ghost use Rattle.sync_guarded.specs.Seats.{guard_of, IsGuard};
ghost use Rattle.sync_guarded.specs.Calls.{HasLocked, HasFoundHeld, HasUnlocked, HasLent};

use crate::guarded::{Guarded, LOCK, SLEEPERS, VALUE};
use crate::rows::GuardToken;
use running_rows::{Futexes, Here, Running};
use std::sync::Wait;
use std::time::{Clock, Instant};

impl<T> Guarded<T> {
    /// Takes the lock, and the value out of its slot. While another has it, it makes breaks before it sleeps.
    pub(crate) fn lock_patiently<R: Wait>(&self, rt: &R, token: &mut GuardToken<T>)
        requires { IsGuard self.now token.old false }
        ensures own { IsGuard self.now token.new true }
        ensures locked { HasLocked (guard_of token.old) (guard_of token.new) }
    {
        self.words
            .take_lock_patiently::<Here, R>(rt, token, LOCK, SLEEPERS);
    }

    /// The same, with a few looks in place of the breaks.
    pub(crate) fn lock<R: Wait>(&self, rt: &R, token: &mut GuardToken<T>)
        requires { IsGuard self.now token.old false }
        ensures own { IsGuard self.now token.new true }
        ensures locked { HasLocked (guard_of token.old) (guard_of token.new) }
    {
        self.words.take_lock::<Here, R>(rt, token, LOCK, SLEEPERS);
    }

    /// The same until the deadline, or where there is none at once; and else a look that found the lock held.
    pub(crate) fn lock_until<R: Wait + Clock>(
        &self,
        rt: &R,
        token: &mut GuardToken<T>,
        deadline: Option<Instant>,
    ) -> bool
        requires { IsGuard self.now token.old false }
        ensures own { IsGuard self.now token.new result }
        ensures tried { MatchBool result (HasLocked (guard_of token.old) (guard_of token.new))
            (HasFoundHeld (guard_of token.old) (guard_of token.new)) }
    {
        if self
            .words
            .take_lock_until::<Here, R>(rt, token, LOCK, SLEEPERS, deadline)
        {
            return true;
        }
        self.try_lock(token)
    }

    /// The same where the lock is found free within some tries, and else a look that found it held.
    pub(crate) fn try_lock(&self, token: &mut GuardToken<T>) -> bool
        requires { IsGuard self.now token.old false }
        ensures own { IsGuard self.now token.new result }
        ensures tried { MatchBool result (HasLocked (guard_of token.old) (guard_of token.new))
            (HasFoundHeld (guard_of token.old) (guard_of token.new)) }
    {
        self.words.try_lock::<Here>(token, LOCK)
    }

    /// Gives the lock back, and the value with it.
    pub(crate) fn unlock(&self, token: &mut GuardToken<T>)
        requires { IsGuard self.now token.old true }
        ensures own { IsGuard self.now token.new false }
        ensures unlocked { HasUnlocked (guard_of token.old) (guard_of token.new) }
    {
        self.words.give_lock::<Futexes>(token, LOCK, SLEEPERS);
    }

    /// Lends the value, which is out with the token, for one call.
    pub(crate) fn lend<A, F: FnOnce(&mut T) -> A>(&self, token: &mut GuardToken<T>, body: F) -> A
        requires own { IsGuard self.now token.old true }
        requires callable { F.IsAlwaysCallable body }
        ensures own { IsGuard self.now token.new true }
        ensures lent { HasLent (FnOnceReturnsAtMut F.FnOnce body) (guard_of token.old) result
            (guard_of token.new) }
    {
        let value = Running::record_mut(token, &self.words, VALUE);
        body(value)
    }
}
