//! Each export of a list, by the codes that it answers, as in `tests.rt`.

use crate::list::*;
use crate::script::{Call, Line, UNTOLD, is, is_refused, play};
use c_calls::SeatHandle;
use c_calls::codes::*;
use std::alloc::Global;
use std::process::Abort;

/// Two seats at a list.
fn pair(rt: &impl Abort, alloc: Global) -> Option<[SeatHandle; 2]> {
    let mut seats = [SeatHandle::empty(), SeatHandle::empty()];
    let code = parklot_list_new(alloc, 5, &mut seats);
    if code == NO_MEMORY {
        is(rt, parklot_list_poll(&mut seats[0]), NO_SEAT);
        is(rt, parklot_list_poll(&mut seats[1]), NO_SEAT);
        return None;
    }
    is(rt, code, OK);
    Some(seats)
}

/// The calls of two seats at a list, which rest behind them, and are freed.
fn at_list(rt: &impl Abort, alloc: Global, lines: &[Line]) {
    let Some(mut seats) = pair(rt, alloc) else {
        return;
    };
    play(rt, alloc, &mut seats, lines);
    play(rt, alloc, &mut seats, &FREED);
}

static FREED: [Line; 4] = [
    (0, Call::ListFree, OK, UNTOLD),
    (0, Call::ListFree, NO_SEAT, UNTOLD),
    (1, Call::ListFree, OK, UNTOLD),
    (1, Call::ListFree, NO_SEAT, UNTOLD),
];

static WOKEN_BY_ONE: [Line; 9] = [
    (1, Call::ListQuiet(false), OK, 1),
    (1, Call::ListNumber, OK, 1),
    (0, Call::ListAdd, OK, 5),
    (0, Call::ListTryWait, PARKED, UNTOLD),
    (0, Call::ListPoll, ASLEEP, UNTOLD),
    (1, Call::ListQuiet(true), OK, 0),
    (1, Call::ListOne, ONE, 0),
    (0, Call::ListPoll, WOKEN, UNTOLD),
    (1, Call::ListOne, NOBODY, UNTOLD),
];

#[test]
fn one_wakes_a_parked_seat(rt: HostRuntime) {
    at_list(&rt, rt.alloc(), &WOKEN_BY_ONE);
}

static GRANTED_BEFORE: [Line; 3] = [
    (0, Call::ListAdd, OK, 5),
    (1, Call::ListOne, GRANTED, UNTOLD),
    (0, Call::ListTryWait, AT_ONCE, UNTOLD),
];

#[test]
fn ticket_is_granted_before_its_wait(rt: HostRuntime) {
    at_list(&rt, rt.alloc(), &GRANTED_BEFORE);
}

static WOKEN_BY_ALL: [Line; 5] = [
    (0, Call::ListAdd, OK, 5),
    (0, Call::ListTryWait, PARKED, UNTOLD),
    (1, Call::ListAllWithoutRoom, ROOM, UNTOLD),
    (1, Call::ListAll, DONE, 0),
    (0, Call::ListPoll, WOKEN, UNTOLD),
];

#[test]
fn all_names_those_that_are_parked(rt: HostRuntime) {
    at_list(&rt, rt.alloc(), &WOKEN_BY_ALL);
}

static LEFT_THEN_GRANTED: [Line; 11] = [
    (0, Call::ListAdd, OK, 5),
    (0, Call::ListTryWait, PARKED, UNTOLD),
    (0, Call::ListLeave, LEFT, UNTOLD),
    (1, Call::ListQuiet(false), OK, 1),
    (1, Call::ListOne, NOBODY, UNTOLD),
    (0, Call::ListAdd, OK, 6),
    (0, Call::ListTryWait, PARKED, UNTOLD),
    (1, Call::ListOne, ONE, 0),
    (0, Call::ListLeave, WOKEN, UNTOLD),
    (0, Call::ListLeave, OTHER_CALL, UNTOLD),
    (1, Call::ListQuiet(false), OK, 1),
];

#[test]
fn parked_seat_leaves(rt: HostRuntime) {
    at_list(&rt, rt.alloc(), &LEFT_THEN_GRANTED);
}

static NOT_NEXT: [Line; 8] = [
    (0, Call::ListPoll, OTHER_CALL, UNTOLD),
    (0, Call::ListLeave, OTHER_CALL, UNTOLD),
    (0, Call::ListTryWait, OTHER_CALL, UNTOLD),
    (0, Call::ListAdd, OK, 5),
    (0, Call::ListOne, OTHER_CALL, UNTOLD),
    (0, Call::ListFree, OTHER_CALL, UNTOLD),
    (1, Call::ListOne, GRANTED, UNTOLD),
    (0, Call::ListTryWait, AT_ONCE, UNTOLD),
];

#[test]
fn call_that_is_not_next_is_refused(rt: HostRuntime) {
    at_list(&rt, rt.alloc(), &NOT_NEXT);
}

static FREED_ALONE: [Line; 2] = [
    (0, Call::ListFree, OK, UNTOLD),
    (0, Call::ListFree, NO_SEAT, UNTOLD),
];

#[test]
fn numbers_of_seats_are_judged(rt: HostRuntime) {
    let alloc = rt.alloc();
    is_refused(&rt, parklot_list_new(alloc, 0, &mut []), SEATS);
    let mut seats = [SeatHandle::empty()];
    if parklot_list_new(alloc, 0, &mut seats) == OK {
        is(&rt, parklot_list_new(alloc, 0, &mut seats), FULL);
        play(&rt, alloc, &mut seats, &FREED_ALONE);
    }
}

/// The two kinds of handles look alike in C. One of the other kind has no seat.
static OF_THE_OTHER_KIND: [Line; 2] = [
    (0, Call::Number, NO_SEAT, UNTOLD),
    (0, Call::Free, NO_SEAT, UNTOLD),
];

#[test]
fn handle_of_a_list_has_no_seat_at_a_table(rt: HostRuntime) {
    at_list(&rt, rt.alloc(), &OF_THE_OTHER_KIND);
}
