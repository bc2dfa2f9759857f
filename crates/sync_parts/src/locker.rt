//! What a condition variable unlocks while a caller waits, and locks again.
ghost use Rattle.std.specs.Prelude.{◌≡◌, ℕ, ◌<◌, ◌++◌, ◌∷◌, [], Bool, true, false, List};
ghost use Rattle.notify_list.specs.Seats.{SeatModel};
ghost use Rattle.sync_parts.specs.declared.locker_call.LockerCall.{LockerCall as Call};

use crate::locker_call::LockerCall;
use notify_list::{Holding, ListSeat};
use std::sync::Wait;

/// A lock that a [`Cond`](crate::Cond) gives up while a caller waits. Its meaning is the list of its calls.
pub trait Locker {
    /// The calls that were made of it, from the first on.
    ghost calls: { Self → List Call };

    /// Whether it is held.
    ghost is_held: { Self → Bool };

    /// How often it may be unlocked yet.
    ghost may_unlock: { Self → ℕ };

    /// What it is after an unlock by a caller who showed this holding.
    ghost unlocks: { Self → SeatModel → Self → Type 0 };

    /// What it is after a lock.
    ghost locks: { Self → Self → Type 0 };

    /// Which rows an unlock ran.
    ghost unlock_rows: { Self → Self → Type 0 };

    /// Which rows a lock ran.
    ghost lock_rows: { Self → Self → Type 0 };

    /// Whether it is held.
    fn held(&self) -> bool
        ensures { result ≡ is_held self.now };

    /// How often it may be unlocked yet.
    fn left(&self) -> u64
        ensures { result ≡ may_unlock self.now };

    /// Unlocks it, for a caller who holds a ticket.
    fn unlock<R: Wait>(&mut self, rt: &R, holding: &Holding)
        requires held { is_held self.old ≡ true }
        requires left { 0 < may_unlock self.old }
        ensures held { is_held self.new ≡ false }
        ensures calls { calls self.new ≡ calls self.old ++ LockerCall.Unlocked ∷ [] }
        ensures rows { unlock_rows self.old self.new }
        ensures caller { unlocks self.old holding.now self.new };

    /// Locks it, for a caller who has waited.
    fn lock<R: Wait>(&mut self, rt: &R, seat: &ListSeat)
        requires { is_held self.old ≡ false }
        ensures held { is_held self.new ≡ true }
        ensures calls { calls self.new ≡ calls self.old ++ LockerCall.Locked ∷ [] }
        ensures rows { lock_rows self.old self.new }
        ensures caller { locks self.old self.new };
}
