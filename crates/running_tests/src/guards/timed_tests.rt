//! Guards that try for a value, once or until a time.

use crate::guards::call_tests::last_seat;
use crate::tables::given::holds;
use std::alloc::Global;
use std::process::Abort;
use std::sync::Wait;
use std::time::{Clock, Duration, Instant};
use sync_guarded::{Guard, Guarded};

/// Whether it was locked by tries alone.
fn locks_at_once(rt: &impl Abort, guard: &mut Guard<'_, u32>) -> bool {
    assert!(rt; !guard.held());
    guard.try_lock()
}

/// Whether it was locked until a time that has passed.
fn locks_now<R: Abort + Clock + Wait>(rt: &R, guard: &mut Guard<'_, u32>) -> bool {
    assert!(rt; !guard.held());
    let past = Instant::now(rt).expect(rt, "a clock");
    guard.try_lock_until(rt, past)
}

/// Whether it was locked in so long.
fn locks_within<R: Abort + Clock + Wait>(
    rt: &R,
    guard: &mut Guard<'_, u32>,
    longest: Duration,
) -> bool {
    assert!(rt; !guard.held());
    guard.try_lock_for(rt, longest)
}

fn unlocks(rt: &impl Abort, guard: &mut Guard<'_, u32>) {
    assert!(rt; guard.held());
    guard.release();
}

fn end_as_known<R: Abort + Clock + Wait>(rt: &R, alloc: Global) {
    let Ok((guarded, mut seats)) = Guarded::with_seats(alloc, 2, 7u32) else {
        return;
    };
    let mut one = Guard::over(&guarded, last_seat(rt, &guarded, &mut seats));
    let mut other = Guard::over(&guarded, last_seat(rt, &guarded, &mut seats));
    holds(rt, locks_at_once(rt, &mut one) && one.held());
    holds(rt, !locks_at_once(rt, &mut other) && !other.held());
    holds(rt, !locks_now(rt, &mut other) && !other.held());
    holds(
        rt,
        !locks_within(rt, &mut other, Duration::from_millis(2)) && !other.held(),
    );
    unlocks(rt, &mut one);
    holds(rt, locks_now(rt, &mut other) && other.held());
    unlocks(rt, &mut other);
    holds(rt, locks_within(rt, &mut one, Duration::ZERO));
    unlocks(rt, &mut one);
}

#[test]
fn guards_with_a_time_out_end_as_known(rt: HostRuntime) {
    end_as_known(&rt, rt.alloc());
}
