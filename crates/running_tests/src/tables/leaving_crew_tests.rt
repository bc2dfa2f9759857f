//! Threads that take one unit in turns, each of which gives up where it isn't granted soon, after some looks or
//! some time: no unit is lost, no
//! two hold it at once, and at the end nobody waits.

ghost use Rattle.std.specs.Prelude.{◌≡◌, ◌<◌, length, All, IfOk, MatchResult};

use crate::tables::given::{Sizes, holds, last_seat, made, value, waiters};
use sema_table::{
    Acquired, Entered, GaveUp, Polled, Retried, Roused, Seat, SemaTable, Sleeping, Woken,
};
use sema_table_crew::CrewStart;
use std::alloc::Global;
use std::process::Abort;
use std::sync::Wait;
use std::sync::atomic::{AtomicU64, Ordering};
use std::thread;
use std::thread::{Scope, Threads};
use std::time::{Clock, Duration};
use waiters::{CounterId, NoMemory};

const THREADS: u32 = 6;

/// How often each thread tries.
const TURNS: u32 = 2_000;

/// The table of the unit.
const SIZES: Sizes = Sizes {
    counters: 1,
    start: 1,
    seats: THREADS + 1,
    roots: 1,
    release_limit: 4_000,
};

/// What all threads count: how many hold the unit, and how often one was held, and one was given up.
#[derive(Drop)]
struct Counts {
    inside: AtomicU64,
    held: AtomicU64,
    left: AtomicU64,
}

/// A seat that came by the unit, or one that gave up.
type Got = Result<Seat, Seat>;

/// The try of a seat that was woken.
fn tries(table: &SemaTable, woken: Woken) -> Got
    requires { woken.table ≡ table.now }
    ensures { MatchResult result (λ seat. seat.table ≡ table.now) (λ seat. seat.table ≡ table.now) }
{
    match table.retry_at_once(woken) {
        Retried::Taken(seat) => Ok(seat),
        Retried::Zero(seat) => Err(seat),
    }
}

/// A seat whose grant is on the way waits for that.
fn waits_for_its_grant<R: Wait>(rt: &R, table: &SemaTable, coming: Sleeping) -> Got
    requires { coming.table ≡ table.now }
    ensures { MatchResult result (λ seat. seat.table ≡ table.now) (λ seat. seat.table ≡ table.now) }
{
    match table.sleep(rt, coming) {
        Roused::Woken(woken) => tries(table, woken),
        Roused::Handed(seat) => Ok(seat),
    }
}

/// The time is over.
fn gives_up<R: Abort + Wait>(rt: &R, table: &SemaTable, asleep: Sleeping) -> Got
    requires { asleep.table ≡ table.now }
    ensures { MatchResult result (λ seat. seat.table ≡ table.now) (λ seat. seat.table ≡ table.now) }
{
    match table.leave(rt, asleep) {
        GaveUp::Left(seat) => Err(seat),
        GaveUp::Coming(coming) => waits_for_its_grant(rt, table, coming),
        GaveUp::Woken(woken) => tries(table, woken),
        GaveUp::Handed(seat) => Ok(seat),
        GaveUp::LimitReached(_asleep) => panic!(rt; "it may spend more"),
    }
}

/// Looks so often for its grant, and gives up then.
fn sleeps_for_a_while<R: Abort + Wait>(
    rt: &R,
    table: &SemaTable,
    asleep: Sleeping,
    looks: u32,
) -> Got
    requires { asleep.table ≡ table.now }
    ensures { MatchResult result (λ seat. seat.table ≡ table.now) (λ seat. seat.table ≡ table.now) }
{
    let mut asleep = asleep;
    for _ in 0..looks {
        match table.poll(asleep) {
            Polled::Still(still) => asleep = still,
            Polled::Woken(woken) => return tries(table, woken),
            Polled::Handed(seat) => return Ok(seat),
        }
        thread::yield_now();
    }
    gives_up(rt, table, asleep)
}

/// The table's own acquire of that kind.
fn acquires_in_time<R: Abort + Clock + Wait>(
    rt: &R,
    table: &SemaTable,
    seat: Seat,
    longest: Duration,
) -> Got
    requires { (seat.table ≡ table.now) × (0 < length table.now.setting.starts) }
    ensures { MatchResult result (λ seat. seat.table ≡ table.now) (λ seat. seat.table ≡ table.now) }
{
    match table.acquire_for(rt, seat, CounterId::new(0), false, longest) {
        Acquired::Taken(seat) => Ok(seat),
        Acquired::TimedOut(seat) => Err(seat),
        Acquired::LimitReached(_seat) => panic!(rt; "it may spend more"),
    }
}

fn acquires<R: Abort + Clock + Wait>(rt: &R, table: &SemaTable, seat: Seat, turn: u32) -> Got
    requires { (seat.table ≡ table.now) × (0 < length table.now.setting.starts) }
    ensures { MatchResult result (λ seat. seat.table ≡ table.now) (λ seat. seat.table ≡ table.now) }
{
    if turn % 3 == 0 {
        let longest = Duration::from_micros(u64::from(turn % 64));
        return acquires_in_time(rt, table, seat, longest);
    }
    match table.enter(rt, seat, CounterId::new(0), false) {
        Entered::Taken(seat) => Ok(seat),
        Entered::Asleep(asleep) => sleeps_for_a_while(rt, table, asleep, turn % 8),
    }
}

/// It holds the unit alone, and gives it back.
fn holds_and_releases<R: Abort + Wait>(
    rt: &R,
    table: &SemaTable,
    seat: Seat,
    handoff: bool,
    counts: &Counts,
) -> Seat
    requires { (seat.table ≡ table.now) × (0 < length table.now.setting.starts) }
    ensures { result.table ≡ table.now }
{
    holds(rt, counts.inside.fetch_add(1, Ordering::SeqCst) == 0);
    thread::yield_now();
    counts.inside.fetch_sub(1, Ordering::SeqCst);
    counts.held.fetch_add(1, Ordering::SeqCst);
    match table.release(rt, seat, CounterId::new(0), handoff) {
        Ok((seat, _wake)) => seat,
        Err(_refused) => panic!(rt; "it may release"),
    }
}

fn takes_turns<R: Abort + Clock + Wait>(
    rt: &R,
    table: &SemaTable,
    seat: Seat,
    start: &CrewStart,
    counts: &Counts,
)
    requires { (seat.table ≡ table.now) × (0 < length table.now.setting.starts) }
{
    if !start.wait(rt) {
        return;
    }
    let mut seat = seat;
    for turn in 0..TURNS {
        seat = match acquires(rt, table, seat, turn) {
            Ok(seat) => holds_and_releases(rt, table, seat, turn % 2 == 0, counts),
            Err(seat) => {
                counts.left.fetch_add(1, Ordering::SeqCst);
                seat
            }
        };
    }
}

/// Makes a thread for each seat, as long as there can be one: whether all were made.
fn hire_all<'s, E, R: Abort + Clock + Threads + Wait + Sync>(
    scope: &'s Scope<'s, E>,
    rt: &'s R,
    table: &'s SemaTable,
    seats: Vec<Seat>,
    start: &'s CrewStart,
    counts: &'s Counts,
) -> bool
    requires table { 0 < length table.now.setting.starts }
    requires seats { All (λ s. s.table ≡ table.now) seats.items }
{
    let mut seats = seats;
    while let Some(seat) = seats.pop() {
        let made = scope.spawn(
            move ||
                requires { (seat.table ≡ table.now) × (0 < length table.now.setting.starts) }
            { takes_turns(rt, table, seat, start, counts) },
        );
        if made.is_err() {
            return false;
        }
    }
    true
}

/// All threads have had their turns.
fn all_take_turns<R: Abort + Clock + Threads + Wait + Sync>(
    rt: &R,
    table: &SemaTable,
    seats: Vec<Seat>,
    counts: &Counts,
) -> Result<(), NoMemory>
    requires table { 0 < length table.now.setting.starts }
    requires seats { All (λ s. s.table ≡ table.now) seats.items }
{
    let start = CrewStart::new();
    let start = &start;
    thread::scope(
        thread::scope_env(),
        rt,
        move |scope| -> Result<(), NoMemory>
            requires table { 0 < length table.now.setting.starts }
            requires seats { All (λ s. s.table ≡ table.now) seats.items }
        {
            let all = hire_all(scope, rt, table, seats, start, counts);
            start.tell(all);
            if all { Ok(()) } else { Err(NoMemory) }
        },
    )
}

/// At the end the unit is there, and nobody waits. Each turn held it or gave up.
fn come_out_even<R: Abort + Clock + Threads + Wait + Sync>(rt: &R, alloc: Global) -> bool {
    let (table, mut seats) = made(rt, alloc, &SIZES);
    let mut last = last_seat(rt, &table, &mut seats);
    assert!(rt; 0 < table.counters());
    let counts = Counts {
        inside: AtomicU64::new(0),
        held: AtomicU64::new(0),
        left: AtomicU64::new(0),
    };
    if all_take_turns(rt, &table, seats, &counts).is_err() {
        return false;
    }
    holds(rt, value(rt, &table, &mut last, 0) == 1);
    holds(rt, waiters(rt, &table, &mut last, 0) == 0);
    let held = counts.held.load(Ordering::SeqCst);
    let left = counts.left.load(Ordering::SeqCst);
    holds(rt, held.wrapping_add(left) == u64::from(THREADS * TURNS));
    true
}

#[test]
fn threads_that_give_up_lose_no_unit(rt: HostRuntime) {
    let told = come_out_even(&rt, rt.alloc()) || come_out_even(&rt, rt.alloc());
    holds(&rt, told);
}
