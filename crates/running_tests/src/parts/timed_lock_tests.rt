//! Locks that are tried until a time.

ghost use Rattle.std.specs.Prelude.{◌≡◌, ◌<◌, false, length};

use crate::tables::given::{holds, last_seat, made, one_counter};
use sema_table::{Seat, SemaTable};
use std::alloc::Global;
use std::process::Abort;
use std::sync::Wait;
use std::time::{Clock, Duration, Instant};
use sync_parts::SemaLock;
use waiters::CounterId;

fn lock_over<'t>(rt: &impl Abort, table: &'t SemaTable, seat: Seat) -> SemaLock<'t>
    requires { seat.table ≡ table.now }
    ensures { result.held ≡ false }
{
    assert!(rt; 0 < table.counters());
    SemaLock::over(table, seat, CounterId::new(0))
}

/// Whether it was locked until a time that has passed.
fn locks_now<R: Abort + Clock + Wait>(rt: &R, lock: &mut SemaLock<'_>) -> bool {
    assert!(rt; !lock.held());
    assert!(rt; 1 < lock.left());
    let past = Instant::now(rt).expect(rt, "a clock");
    lock.try_lock_until(rt, past)
}

/// Whether it was locked in so long.
fn locks_within<R: Abort + Clock + Wait>(
    rt: &R,
    lock: &mut SemaLock<'_>,
    longest: Duration,
) -> bool {
    assert!(rt; !lock.held());
    assert!(rt; 1 < lock.left());
    lock.try_lock_for(rt, longest)
}

fn end_as_known<R: Abort + Clock + Wait>(rt: &R, alloc: Global) {
    let (table, mut seats) = made(rt, alloc, &one_counter(1, 2));
    let mut one = lock_over(rt, &table, last_seat(rt, &table, &mut seats));
    let mut other = lock_over(rt, &table, last_seat(rt, &table, &mut seats));
    holds(rt, locks_now(rt, &mut one) && one.held());
    holds(rt, !locks_now(rt, &mut other) && other.left() == 10);
    holds(rt, !locks_within(rt, &mut other, Duration::from_millis(2)));
    holds(rt, !other.held() && other.left() == 9);
    assert!(rt; one.held() && 0 < one.left());
    one.release(rt);
    holds(
        rt,
        locks_within(rt, &mut other, Duration::ZERO) && other.held(),
    );
}

#[test]
fn locks_with_a_time_out_end_as_known(rt: HostRuntime) {
    end_as_known(&rt, rt.alloc());
}
