//! Each export of a table, by the codes that it answers. Where memory is refused a test ends: so each passes
//! whichever single allocation fails.

use crate::script::{Call, Line, UNTOLD, is, is_refused, play};
use crate::*;
use c_calls::SeatHandle;
use c_calls::codes::*;
use std::alloc::Global;
use std::process::Abort;

/// Two seats at a table of one counter, which starts at this number.
fn pair(rt: &impl Abort, alloc: Global, start: u32) -> Option<[SeatHandle; 2]> {
    let mut seats = [SeatHandle::empty(), SeatHandle::empty()];
    let code = parklot_new(alloc, &[start], 1, 7, 300, &mut seats);
    if code == NO_MEMORY {
        is(rt, parklot_poll(&mut seats[0]), NO_SEAT);
        is(rt, parklot_poll(&mut seats[1]), NO_SEAT);
        return None;
    }
    is(rt, code, OK);
    Some(seats)
}

/// The calls of two seats at such a table, which rest behind them, and are freed.
fn at_table(rt: &impl Abort, alloc: Global, start: u32, lines: &[Line]) {
    let Some(mut seats) = pair(rt, alloc, start) else {
        return;
    };
    play(rt, alloc, &mut seats, lines);
    play(rt, alloc, &mut seats, &FREED);
}

/// What a caller's other thread gets. The check of the tests proves that a handle is `Send` only where one asks
/// for it, as here.
fn crosses<T: Send>(handle: T) -> T {
    handle
}

static FREED: [Line; 4] = [
    (0, Call::Free, OK, UNTOLD),
    (0, Call::Free, NO_SEAT, UNTOLD),
    (1, Call::Free, OK, UNTOLD),
    (1, Call::Free, NO_SEAT, UNTOLD),
];

static TAKEN_HERE: [Line; 3] = [
    (0, Call::TryAcquire(0), TAKEN, UNTOLD),
    (1, Call::TryAcquire(0), ZERO, UNTOLD),
    (0, Call::Post(0), DONE, UNTOLD),
];

static BROUGHT_THERE: [Line; 3] = [
    (1, Call::Value(0), OK, 1),
    (1, Call::Number, OK, 1),
    (1, Call::Enter(0, false), TAKEN, UNTOLD),
];

#[test]
fn unit_is_taken_and_brought(rt: HostRuntime) {
    let Some(mut seats) = pair(&rt, rt.alloc(), 1) else {
        return;
    };
    play(&rt, rt.alloc(), &mut seats, &TAKEN_HERE);
    let [one, two] = seats;
    let mut seats = [one, crosses(two)];
    play(&rt, rt.alloc(), &mut seats, &BROUGHT_THERE);
    play(&rt, rt.alloc(), &mut seats, &FREED);
}

static WOKEN_SLEEPER: [Line; 7] = [
    (0, Call::Enter(0, false), ASLEEP, UNTOLD),
    (0, Call::Poll, ASLEEP, UNTOLD),
    (1, Call::WaitersOfRoot(0), OK, 1),
    (1, Call::Post(0), OWES, UNTOLD),
    (1, Call::Wake(false), ONE, 0),
    (0, Call::Poll, WOKEN, UNTOLD),
    (0, Call::Retry, TAKEN, UNTOLD),
];

#[test]
fn sleeper_is_woken(rt: HostRuntime) {
    at_table(&rt, rt.alloc(), 0, &WOKEN_SLEEPER);
}

static HANDED_UNIT: [Line; 4] = [
    (1, Call::Enter(0, true), ASLEEP, UNTOLD),
    (0, Call::Post(0), OWES, UNTOLD),
    (0, Call::Wake(true), HANDED, 1),
    (1, Call::Poll, HANDED, UNTOLD),
];

#[test]
fn sleeper_is_handed_a_unit(rt: HostRuntime) {
    at_table(&rt, rt.alloc(), 0, &HANDED_UNIT);
}

static GONE_UNIT: [Line; 9] = [
    (0, Call::Enter(0, false), ASLEEP, UNTOLD),
    (1, Call::PostMany(0, 2), OWES, UNTOLD),
    (1, Call::Wake(false), OTHER_CALL, UNTOLD),
    (1, Call::WakeSomeWithoutRoom, ROOM, UNTOLD),
    (1, Call::WakeSome, DONE, 0),
    (0, Call::Poll, WOKEN, UNTOLD),
    (1, Call::TryAcquire(0), TAKEN, UNTOLD),
    (1, Call::TryAcquire(0), TAKEN, UNTOLD),
    (0, Call::Retry, ZERO, UNTOLD),
];

#[test]
fn unit_is_gone_when_the_woken_comes(rt: HostRuntime) {
    at_table(&rt, rt.alloc(), 0, &GONE_UNIT);
}

static LEFT_SLEEPER: [Line; 5] = [
    (0, Call::Enter(0, false), ASLEEP, UNTOLD),
    (0, Call::Leave, LEFT, UNTOLD),
    (1, Call::WaitersOfRoot(0), OK, 0),
    (1, Call::Post(0), DONE, UNTOLD),
    (0, Call::TryAcquire(0), TAKEN, UNTOLD),
];

#[test]
fn sleeper_leaves(rt: HostRuntime) {
    at_table(&rt, rt.alloc(), 0, &LEFT_SLEEPER);
}

static GRANTED_BEFORE: [Line; 8] = [
    (0, Call::Enter(0, false), ASLEEP, UNTOLD),
    (1, Call::Post(0), OWES, UNTOLD),
    (1, Call::Wake(false), ONE, 0),
    (0, Call::Leave, WOKEN, UNTOLD),
    (0, Call::Retry, TAKEN, UNTOLD),
    (1, Call::Enter(0, true), ASLEEP, UNTOLD),
    (0, Call::Post(0), OWES, UNTOLD),
    (0, Call::Wake(true), HANDED, 1),
];

static FOUND_HANDED: [Line; 1] = [(1, Call::Leave, HANDED, UNTOLD)];

#[test]
fn grant_is_found_by_who_leaves(rt: HostRuntime) {
    let Some(mut seats) = pair(&rt, rt.alloc(), 0) else {
        return;
    };
    play(&rt, rt.alloc(), &mut seats, &GRANTED_BEFORE);
    play(&rt, rt.alloc(), &mut seats, &FOUND_HANDED);
    play(&rt, rt.alloc(), &mut seats, &FREED);
}

static NOT_NEXT: [Line; 14] = [
    (0, Call::Poll, OTHER_CALL, UNTOLD),
    (0, Call::Leave, OTHER_CALL, UNTOLD),
    (0, Call::Retry, OTHER_CALL, UNTOLD),
    (0, Call::TryAcquire(1), NO_COUNTER, UNTOLD),
    (0, Call::PostMany(0, 257), UNITS, UNTOLD),
    (0, Call::PostMany(0, 256), DONE, UNTOLD),
    (0, Call::PostMany(0, 45), LIMIT, UNTOLD),
    (1, Call::PostMany(0, 1), DONE, UNTOLD),
    (1, Call::Enter(1, false), NO_COUNTER, UNTOLD),
    (0, Call::Free, OK, UNTOLD),
    (0, Call::Free, NO_SEAT, UNTOLD),
    (0, Call::TryAcquire(0), NO_SEAT, UNTOLD),
    (1, Call::Free, OK, UNTOLD),
    (1, Call::Free, NO_SEAT, UNTOLD),
];

#[test]
fn call_that_is_not_next_is_refused(rt: HostRuntime) {
    let Some(mut seats) = pair(&rt, rt.alloc(), 0) else {
        return;
    };
    play(&rt, rt.alloc(), &mut seats, &NOT_NEXT);
}

static KEPT_SLEEPER: [Line; 7] = [
    (0, Call::Enter(0, false), ASLEEP, UNTOLD),
    (0, Call::Free, OTHER_CALL, UNTOLD),
    (0, Call::Post(0), OTHER_CALL, UNTOLD),
    (1, Call::Post(0), OWES, UNTOLD),
    (1, Call::Free, OTHER_CALL, UNTOLD),
    (1, Call::Wake(true), HANDED, 0),
    (0, Call::Poll, HANDED, UNTOLD),
];

#[test]
fn sleeper_is_not_freed(rt: HostRuntime) {
    at_table(&rt, rt.alloc(), 0, &KEPT_SLEEPER);
}

static FREED_ALONE: [Line; 2] = [
    (0, Call::Free, OK, UNTOLD),
    (0, Call::Free, NO_SEAT, UNTOLD),
];

/// Settings that make no table, each limit by itself.
fn refuses(rt: &impl Abort, alloc: Global, seats: &mut [SeatHandle]) {
    is_refused(rt, parklot_new(alloc, &[], 1, 7, 9, seats), COUNTERS);
    is_refused(rt, parklot_new(alloc, &[0], 1, 7, 9, &mut []), SEATS);
    is_refused(rt, parklot_new(alloc, &[0], 0, 7, 9, seats), ROOTS);
    is_refused(rt, parklot_new(alloc, &[0], 1, 7, 0, seats), RELEASE_LIMIT);
}

#[test]
fn settings_are_judged(rt: HostRuntime) {
    let alloc = rt.alloc();
    let mut seats = [SeatHandle::empty()];
    refuses(&rt, alloc, &mut seats);
    if parklot_new(alloc, &[0], 1, 7, 9, &mut seats) == OK {
        is(&rt, parklot_new(alloc, &[0], 1, 7, 9, &mut seats), FULL);
        play(&rt, alloc, &mut seats, &FREED_ALONE);
    }
}
