//! `LOST` and `BUSY`. No call can be stopped in its middle: so threads make calls until one of them is answered
//! so, and each makes so many at most.

use c_calls::codes::*;
use c_calls::deal::deal_table;
use c_calls::{KeptSeat, SeatHandle};
use std::alloc::Global;
use std::process::Abort;
use std::sync::atomic::AtomicBool;
use std::sync::atomic::Ordering::SeqCst;
use std::thread;
use std::thread::Threads;

/// The most rounds of a thread: those of all take a second or so, in which threads lose their processors to
/// others some hundred times, many of them inside a call. So one has seen the code long before.
const MOST_ROUNDS: u32 = 1_000_000;

/// How many threads there are: more than most machines have processors. On a machine with more of them the
/// threads hinder one another, which shows both codes at once. One seat more sleeps, where the lock is to be
/// taken.
const CREW: usize = 16;

/// A call, at one of two counters.
enum Call {
    TryAcquire,
    Post(u32),
    Wake,
    Enter(u32),
    Poll,
    Retry,
}

fn asked(seat: &mut SeatHandle, call: &Call) -> u32 {
    if !seat.is_full {
        return NO_SEAT;
    }
    let KeptSeat::OfTable(place) = seat.cell.place() else {
        return NO_SEAT;
    };
    match call {
        Call::TryAcquire => place.try_acquire(0),
        Call::Post(counter) => place.post(*counter),
        Call::Wake => place.wake(false, &mut 0),
        Call::Enter(counter) => place.enter(*counter, false),
        Call::Poll => place.poll(),
        Call::Retry => place.retry(),
    }
}

/// Ends the test where the code is another one.
fn is(rt: &impl Abort, code: u32, wanted: u32) {
    assert!(rt; code == wanted);
}

/// The call is answered so.
fn answers(rt: &impl Abort, seat: &mut SeatHandle, call: &Call, wanted: u32) {
    is(rt, asked(seat, call), wanted);
}

/// Handles without seats, one for each of the crew and one more. Memory is asked for once more.
fn handles(rt: &impl Abort, alloc: Global) -> Vec<SeatHandle> {
    let mut seats = match Vec::with_capacity(alloc, CREW + 1) {
        Ok(seats) => seats,
        Err(_) => Vec::with_capacity(alloc, CREW + 1).expect(rt, "memory"),
    };
    for _ in 0..=CREW {
        seats.push(SeatHandle::empty()).expect(rt, "memory");
    }
    seats
}

/// Seats at a table of two counters, which start at 0, and one root. Memory is asked for once more.
fn dealt(rt: &impl Abort, alloc: Global) -> Vec<SeatHandle> {
    let mut seats = handles(rt, alloc);
    let mut code = deal_table(alloc, &[0, 0], 1, 7, 1 << 40, &mut seats);
    if code == NO_MEMORY {
        code = deal_table(alloc, &[0, 0], 1, 7, 1 << 40, &mut seats);
    }
    is(rt, code, OK);
    seats
}

/// Makes a call as often as it is answered so: whether it was. In the end it is answered the other.
fn sees(rt: &impl Abort, seat: &mut SeatHandle, call: &Call, wanted: u32, other: u32) -> bool {
    let mut was_seen = false;
    for _ in 0..u64::MAX {
        let code = asked(seat, call);
        if code != wanted {
            is(rt, code, other);
            break;
        }
        was_seen = true;
    }
    was_seen
}

/// Brings a unit and takes it, again and again, until one has seen the code: `BUSY` where each unit owes a look
/// under the lock, and else `LOST`.
fn goes_round(rt: &impl Abort, seat: &mut SeatHandle, owes: bool, has_seen: &AtomicBool) {
    for _ in 0..MOST_ROUNDS {
        if has_seen.load(SeqCst) {
            return;
        }
        answers(rt, seat, &Call::Post(0), if owes { OWES } else { DONE });
        let was_busy = owes && sees(rt, seat, &Call::Wake, BUSY, NOBODY);
        let was_lost = sees(rt, seat, &Call::TryAcquire, LOST, TAKEN);
        if was_busy || !owes && was_lost {
            has_seen.store(true, SeqCst);
        }
    }
}

/// Whether one of the crew has seen the code.
fn see<R: Abort + Threads + Sync>(rt: &R, crew: &mut [SeatHandle], owes: bool) -> bool {
    let has_seen = AtomicBool::new(false);
    let seen = &has_seen;
    thread::for_each_mut(rt, crew, CREW, &|_, seat| goes_round(rt, seat, owes, seen));
    has_seen.load(SeqCst)
}

/// All seats rest, and are freed.
fn frees(rt: &impl Abort, alloc: Global, seats: &mut [SeatHandle]) {
    for seat in seats {
        is(rt, seat.free_table_seat(alloc), OK);
    }
}

/// One seat brings the unit for which the other sleeps, and wakes it.
fn wakes(rt: &impl Abort, waker: &mut SeatHandle, sleeper: &mut SeatHandle) {
    answers(rt, waker, &Call::Post(1), OWES);
    answers(rt, waker, &Call::Wake, ONE);
    answers(rt, sleeper, &Call::Poll, WOKEN);
    answers(rt, sleeper, &Call::Retry, TAKEN);
}

/// Whether one of the crew finds the lock busy, while the last seat sleeps at its root: so each unit that is
/// brought to the other counter owes a look. Threads are asked for once more.
fn find_busy<R: Abort + Threads + Sync>(rt: &R, seats: &mut [SeatHandle]) -> bool {
    let Some((sleeper, crew)) = seats.split_last_mut() else {
        return false;
    };
    answers(rt, sleeper, &Call::Enter(1), ASLEEP);
    let was_seen = see(rt, crew, true) || see(rt, crew, true);
    match crew.first_mut() {
        Some(waker) => wakes(rt, waker, sleeper),
        None => return false,
    }
    was_seen
}

#[test]
fn one_loses_its_try_to_another(rt: HostRuntime) {
    let mut seats = dealt(&rt, rt.alloc());
    let was_seen = see(&rt, &mut seats, false) || see(&rt, &mut seats, false);
    assert!(&rt; was_seen);
    frees(&rt, rt.alloc(), &mut seats);
}

#[test]
fn one_finds_the_lock_busy(rt: HostRuntime) {
    let mut seats = dealt(&rt, rt.alloc());
    let was_seen = find_busy(&rt, &mut seats);
    assert!(&rt; was_seen);
    frees(&rt, rt.alloc(), &mut seats);
}
