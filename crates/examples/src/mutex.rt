//! A number that threads share under a lock.
ghost use Rattle.std.specs.Prelude.{◌≡◌, ◌<◌, ◌&&◌, true, false, length};
ghost use Rattle.sync_parts.specs.Exclusion.{OnlyLocks, HaveMet};
ghost use Rattle.sync_parts.specs.LockRows.{RunsMeet};
ghost use Rattle.examples.specs.Mutex.{HasHeld, HasAdded, RunsTurn, RunsTurns};

use std::sync::Wait;
use std::sync::atomic::AtomicU64;
use std::sync::atomic::Ordering::SeqCst;
use sync_parts::{CounterId, Seat, SemaLock, SemaTable};

/// Adds one to the number, by a load and a store: nobody else who locks comes between the two.
pub fn add_one<R: Wait>(rt: &R, lock: &mut SemaLock<'_>, number: &AtomicU64)
    requires free { lock.old.held ≡ false }
    requires left { 0 < lock.old.seat.left }
    ensures rows { RunsTurn lock.old lock.new }
    ensures caller { HasHeld lock.old lock.new }
{
    lock.acquire(rt);
    let seen = number.load(SeqCst);
    number.store(seen.wrapping_add(1), SeqCst);
    lock.release(rt);
}

/// Adds one so many times, or as often as the seat may release.
#[tactic(auto, using(crate::proofs::Turns::turn_taken, crate::proofs::Turns::turn_left))]
pub fn add_many<R: Wait>(
    rt: &R,
    table: &SemaTable,
    seat: Seat,
    number: &AtomicU64,
    times: u32,
) -> Seat
    requires { (seat.table ≡ table.now) × (0 < length table.now.setting.starts) }
    ensures own { (result.table ≡ table.now) × (result.number ≡ seat.number) }
    ensures rows { RunsTurns times seat result }
    ensures caller { HasAdded times seat result }
{
    let mut lock = SemaLock::over(table, seat, CounterId::new(0));
    let turns = u64::from(times).min(lock.left());
    for _turn in 0..turns {
        add_one(rt, &mut lock, number);
    }
    lock.into_seat()
}

/// Two that lock one counter meet, and see whether both hold it: never, if only such locks have used it.
pub fn are_both_held(one: &mut SemaLock<'_>, other: &mut SemaLock<'_>) -> bool
    requires { (other.old.seat.table ≡ one.old.seat.table) × (other.old.counter ≡ one.old.counter) }
    ensures rows { RunsMeet one.old other.old one.new other.new }
    ensures met { HaveMet one.old other.old one.new other.new }
    ensures both { result ≡ (one.new.held && other.new.held) }
    ensures never { OnlyLocks one.old.seat.table one.old.counter one.new.seat.sight.seen → result ≡ false }
{
    one.meet(other);
    one.held() && other.held()
}
