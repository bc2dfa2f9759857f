//! Threads that sleep on one counter, until units are added to it, one by one and many at once, by calls that
//! wait for the root's lock and by such that don't.
//!
//! There are more of them than processors, and the units come once all have slept for a while: who is granted
//! a unit and isn't roused then sleeps for good, and the test with it.

ghost use Rattle.std.specs.Prelude.{◌≡◌, ◌<◌, length, All, IfOk};

use crate::tables::given::{adds, holds, last_seat, made, one_counter, value, waiters};
use sema_table::{Owing, OwingMany, Posted, PostedMany, Seat, SemaTable};
use sema_table_crew::CrewStart;
use std::alloc::Global;
use std::process::Abort;
use std::sync::Wait;
use std::thread;
use std::thread::{Scope, Threads};
use std::time::{Clock, Duration};
use waiters::{CounterId, NoMemory};

const SLEEPERS: u32 = 10;

/// How many milliseconds: long enough for each of them to look for its grant as often as it does before it
/// sleeps.
const WHILE: u64 = 20;

/// Takes a unit, once all threads are there.
fn takes_one<R: Wait>(rt: &R, table: &SemaTable, seat: Seat, start: &CrewStart)
    requires { (seat.table ≡ table.now) × (0 < length table.now.setting.starts) }
{
    if start.wait(rt) {
        table.acquire(rt, seat, CounterId::new(0), false);
    }
}

/// Makes a thread for each seat, as long as there can be one: whether all were made.
fn hire_all<'s, E, R: Threads + Wait + Sync>(
    scope: &'s Scope<'s, E>,
    rt: &'s R,
    table: &'s SemaTable,
    seats: Vec<Seat>,
    start: &'s CrewStart,
) -> bool
    requires table { 0 < length table.now.setting.starts }
    requires seats { All (λ s. s.table ≡ table.now) seats.items }
{
    let mut seats = seats;
    while let Some(seat) = seats.pop() {
        let made = scope.spawn(
            move ||
                requires { (seat.table ≡ table.now) × (0 < length table.now.setting.starts) }
            { takes_one(rt, table, seat, start) },
        );
        if made.is_err() {
            return false;
        }
    }
    true
}

/// Waits until all sleepers have queued, and for a while more.
fn lets_all_sleep<R: Abort + Clock + Wait>(rt: &R, table: &SemaTable, seat: &mut Seat)
    requires { (seat.old.table ≡ table.now) × (0 < length table.now.setting.starts) }
    ensures { seat.new.table ≡ table.now }
{
    for _ in rt.forever() {
        if table.waiters_of_root(seat, CounterId::new(0)) == u64::from(SLEEPERS) {
            break;
        }
        thread::yield_now();
    }
    thread::sleep(rt, Duration::from_millis(WHILE));
}

/// The rest of a release, tried until the lock is free.
fn wakes_one<R: Wait>(rt: &R, table: &SemaTable, owing: Owing, handoff: bool) -> Seat
    requires { owing.table ≡ table.now }
    ensures { result.table ≡ table.now }
{
    let mut owing = owing;
    for _ in rt.forever() {
        match table.try_wake(owing, handoff) {
            Ok((seat, _wake)) => return seat,
            Err(kept) => owing = kept,
        }
        thread::yield_now();
    }
    unreachable!()
}

/// The rest of a release of many units, tried until the lock is free.
fn wakes_some<R: Wait>(rt: &R, table: &SemaTable, owing: OwingMany) -> Seat
    requires { owing.table ≡ table.now }
    ensures { result.table ≡ table.now }
{
    let mut owing = owing;
    for _ in rt.forever() {
        match table.try_wake_some(owing) {
            Ok((seat, _woken)) => return seat,
            Err(kept) => owing = kept,
        }
        thread::yield_now();
    }
    unreachable!()
}

/// One unit for a sleeper.
fn adds_one<R: Abort + Wait>(rt: &R, table: &SemaTable, seat: Seat, handoff: bool) -> Seat
    requires { (seat.table ≡ table.now) × (0 < length table.now.setting.starts) }
    ensures { result.table ≡ table.now }
{
    match table.post(seat, CounterId::new(0)) {
        Ok(Posted::Owes(owing)) => wakes_one(rt, table, owing, handoff),
        Ok(Posted::Done(_seat)) => panic!(rt; "nobody sleeps"),
        Err(_refused) => panic!(rt; "no unit was added"),
    }
}

/// Three units at once.
fn adds_three<R: Abort + Wait>(rt: &R, table: &SemaTable, seat: Seat) -> Seat
    requires { (seat.table ≡ table.now) × (0 < length table.now.setting.starts) }
    ensures { result.table ≡ table.now }
{
    match table.post_many(seat, CounterId::new(0), 3) {
        Ok(PostedMany::Owes(owing)) => wakes_some(rt, table, owing),
        Ok(PostedMany::Done(_seat)) => panic!(rt; "nobody sleeps"),
        Err(_refused) => panic!(rt; "no units were added"),
    }
}

/// A unit for each of the sleepers, once all sleep: for five of them by calls that don't wait, and for the others
/// at once.
fn wakes_all<R: Abort + Clock + Wait>(rt: &R, table: &SemaTable, seat: Seat) -> Seat
    requires { (seat.table ≡ table.now) × (0 < length table.now.setting.starts) }
    ensures { result.table ≡ table.now }
{
    let mut seat = seat;
    lets_all_sleep(rt, table, &mut seat);
    let seat = adds_one(rt, table, seat, false);
    let seat = adds_one(rt, table, seat, true);
    let seat = adds_three(rt, table, seat);
    adds(rt, table, seat, 0, SLEEPERS - 5)
}

/// Sleepers at these seats, who are woken by another, and have ended.
///
/// It is an `Err` where a thread can't be made: then nobody has slept.
fn sleep_and_wake<R: Abort + Clock + Threads + Wait + Sync>(
    rt: &R,
    table: &SemaTable,
    seats: Vec<Seat>,
    waker: Seat,
) -> Result<Seat, NoMemory>
    requires table { (waker.table ≡ table.now) × (0 < length table.now.setting.starts) }
    requires seats { All (λ s. s.table ≡ table.now) seats.items }
    ensures { IfOk result (λ seat. seat.table ≡ table.now) }
{
    let start = CrewStart::new();
    let start = &start;
    thread::scope(
        thread::scope_env(),
        rt,
        move |scope| -> Result<Seat, NoMemory>
            requires table { (waker.table ≡ table.now) × (0 < length table.now.setting.starts) }
            requires seats { All (λ s. s.table ≡ table.now) seats.items }
            ensures { IfOk result (λ seat. seat.table ≡ table.entry.now) }
        {
            let all = hire_all(scope, rt, table, seats, start);
            start.tell(all);
            if all {
                Ok(wakes_all(rt, table, waker))
            } else {
                Err(NoMemory)
            }
        },
    )
}

/// All sleepers have come by their units: none is left, and nobody waits.
fn all_come_back<R: Abort + Clock + Threads + Wait + Sync>(
    rt: &R,
    table: &SemaTable,
    seats: Vec<Seat>,
    waker: Seat,
) -> bool
    requires table { (waker.table ≡ table.now) × (0 < length table.now.setting.starts) }
    requires seats { All (λ s. s.table ≡ table.now) seats.items }
{
    let Ok(mut waker) = sleep_and_wake(rt, table, seats, waker) else {
        return false;
    };
    holds(rt, value(rt, table, &mut waker, 0) == 0);
    holds(rt, waiters(rt, table, &mut waker, 0) == 0);
    true
}

/// The same, of a new table.
fn all_come_back_to_a_table<R: Abort + Clock + Threads + Wait + Sync>(
    rt: &R,
    alloc: Global,
) -> bool {
    let (table, mut seats) = made(rt, alloc, &one_counter(0, SLEEPERS + 1));
    let waker = last_seat(rt, &table, &mut seats);
    assert!(rt; 0 < table.counters());
    all_come_back(rt, &table, seats, waker)
}

#[test]
fn many_units_wake_threads_that_sleep(rt: HostRuntime) {
    let told = all_come_back_to_a_table(&rt, rt.alloc())
        || all_come_back_to_a_table(&rt, rt.alloc());
    holds(&rt, told);
}
