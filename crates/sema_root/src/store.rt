ghost use Rattle.std.specs.Prelude.{◌≡◌, ◌<◌, ◌≤◌, ◌+◌, ℕ, List, drop, length, map, slice_get, IfOk, OnSome};
ghost use Rattle.std.specs.Prelude.{IfNone, IsTrue, ◌↔◌, is_some, true, false};
ghost use Rattle.waiters.specs.Lists.{is_sought, first_sought, without_sought};
ghost use Rattle.waiters.specs.declared.sought.Sought.TheVariants.{Seat, Id};
ghost use Rattle.waiters.specs.declared.wait.Wait.{Wait};
ghost use Rattle.sema_root.specs.Queues.{waits_on, total, AreQueues, joined_by, Changes};

use std::alloc::Global;
use waiters::{CounterId, NoMemory, SeatId, Wait, WaitId};

/// A root: the counters that have waits, each with its queue. No call takes memory but `ids`, for its answer.
pub trait RootStore {
    /// The counters that have waits, in rising order, each with its waits from first to last.
    ghost queues: { Self → List (ℕ × List Wait) };

    /// How many waits fit.
    ghost seats: { Self → ℕ };

    /// Puts a wait at the end of its counter's queue, with lifo at the front (Go's `semaRoot.queue`).
    fn queue(&mut self, counter: CounterId, wait: Wait, lifo: bool)
        requires fits { total (queues self.old) < seats self.old }
        ensures queued { Changes (queues self.old) (queues self.new) counter
            (joined_by lifo wait (waits_on (queues self.old) counter)) }
        ensures count { total (queues self.new) ≡ total (queues self.old) + 1 }
        ensures map { AreQueues (queues self.new) }
        ensures seats { seats self.new ≡ seats self.old };

    /// Takes the first wait out of its counter's queue, if there is one (Go's `semaRoot.dequeue`).
    fn dequeue(&mut self, counter: CounterId) -> Option<Wait>
        ensures first { result ≡ slice_get (waits_on (queues self.old) counter) 0 }
        ensures rest { Changes (queues self.old) (queues self.new) counter
            (drop 1 (waits_on (queues self.old) counter)) }
        ensures count { OnSome result (total (queues self.new) + 1 ≡ total (queues self.old)) }
        ensures none { IfNone result (self.new ≡ self.old) }
        ensures map { AreQueues (queues self.new) }
        ensures seats { seats self.new ≡ seats self.old };

    /// Takes the wait of a seat out of its counter's queue, if it is in. The others stay in order.
    fn withdraw_seat(&mut self, counter: CounterId, seat: SeatId) -> Option<Wait>
        ensures first { result ≡ first_sought (is_sought (Seat seat)) (waits_on (queues self.old) counter) }
        ensures rest { Changes (queues self.old) (queues self.new) counter
            (without_sought (is_sought (Seat seat)) (waits_on (queues self.old) counter)) }
        ensures count { OnSome result (total (queues self.new) + 1 ≡ total (queues self.old)) }
        ensures none { IfNone result (self.new ≡ self.old) }
        ensures map { AreQueues (queues self.new) }
        ensures seats { seats self.new ≡ seats self.old };

    /// Takes the wait of this name out of its counter's queue, and closes a queue that it leaves empty: whether it
    /// was in. The others stay in order.
    fn withdraw(&mut self, counter: CounterId, id: WaitId) -> bool
        ensures is_in { result ≡ is_some (first_sought (is_sought (Id id)) (waits_on (queues self.old) counter)) }
        ensures rest { Changes (queues self.old) (queues self.new) counter
            (without_sought (is_sought (Id id)) (waits_on (queues self.old) counter)) }
        ensures count { result ≡ true → total (queues self.new) + 1 ≡ total (queues self.old) }
        ensures none { result ≡ false → self.new ≡ self.old }
        ensures map { AreQueues (queues self.new) }
        ensures seats { seats self.new ≡ seats self.old };

    /// Whether a wait of the seat is in the counter's queue.
    fn holds(&self, counter: CounterId, seat: SeatId) -> bool
        ensures { result ≡ is_some
            (first_sought (is_sought (Seat seat)) (waits_on (queues self.now) counter)) };

    /// How many waits are in, on all counters together.
    fn count(&self) -> usize
        ensures count { result ≡ total (queues self.now) }
        ensures fits { total (queues self.now) ≤ seats self.now }
        ensures map { AreQueues (queues self.now) };

    /// How many wait on a counter.
    fn waiting(&self, counter: CounterId) -> usize
        ensures { result ≡ length (waits_on (queues self.now) counter) };

    /// The first wait of a counter's queue.
    fn first(&self, counter: CounterId) -> Option<Wait>
        ensures { result ≡ slice_get (waits_on (queues self.now) counter) 0 };

    /// The names of the waits of a counter's queue, in order. Memory is taken for the answer alone, at once.
    fn ids(&self, alloc: Global, counter: CounterId) -> Result<Vec<WaitId>, NoMemory>
        ensures { IfOk result
            (λ ids. ids.items ≡ map (λ wait. wait.id) (waits_on (queues self.now) counter)) };

    /// Whether no wait fits any more.
    fn is_full(&self) -> bool
        ensures { IsTrue result ↔ (seats self.now ≤ total (queues self.now)) };
}
