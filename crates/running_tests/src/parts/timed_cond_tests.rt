//! Waits on a condition variable with a time-out.

ghost use Rattle.std.specs.Prelude.{◌≡◌, ◌<◌, length};

use crate::parts::cond_given;
use crate::tables::given::{holds, last_seat, made, one_counter};
use sema_table::{Seat, SemaTable};
use std::alloc::Global;
use std::process::Abort;
use std::sync::Wait;
use std::time::{Clock, Duration, Instant};
use sync_parts::{Cond, ListSeat, SemaLock, WaitedUntil};
use waiters::CounterId;

/// Nobody signals in time: the lock is unlocked and locked again by each wait.
fn time_out<R: Abort + Clock + Wait>(
    rt: &R,
    table: &SemaTable,
    seat: Seat,
    cond: &Cond,
    own: ListSeat,
)
    requires { (seat.table ≡ table.now) × (own.list ≡ cond.now) }
{
    assert!(rt; 0 < table.counters());
    let mut lock = SemaLock::over(table, seat, CounterId::new(0));
    assert!(rt; !lock.held());
    lock.acquire(rt);
    let past = Instant::now(rt).expect(rt, "a clock");
    assert!(rt; lock.held() && 0 < lock.left());
    let (own, waited) = cond.wait_until(rt, own, &mut lock, past);
    holds(rt, waited == WaitedUntil::TimedOut && lock.left() == 9);
    assert!(rt; lock.held() && 0 < lock.left());
    let (_own, waited) = cond.wait_for(rt, own, &mut lock, Duration::from_millis(2));
    holds(rt, waited == WaitedUntil::TimedOut && lock.left() == 8);
    holds(rt, lock.held());
}

fn time_out_over_a_counter<R: Abort + Clock + Wait>(
    rt: &R,
    alloc: Global,
    cond: &Cond,
    own: ListSeat,
)
    requires { own.list ≡ cond.now }
{
    let (table, mut seats) = made(rt, alloc, &one_counter(1, 1));
    let seat = last_seat(rt, &table, &mut seats);
    time_out(rt, &table, seat, cond, own);
}

#[test]
fn waits_that_time_out_lock_again(rt: HostRuntime) {
    let (cond, mut owns) = cond_given::made(&rt, rt.alloc(), 1);
    let own = cond_given::last_own(&rt, &cond, &mut owns);
    time_out_over_a_counter(&rt, rt.alloc(), &cond, own);
}
