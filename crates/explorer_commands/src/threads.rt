//! Threads that share a table, each of which releases and acquires its counter so many times.

ghost use Rattle.std.specs.Prelude.{◌≡◌, ◌*◌, ◌<◌, ◌≤◌, ◌∷◌, [], ◌↔◌, length, Err, Some, IfOk, IfErr};
ghost use Rattle.sema_table.specs.Making.{new_seat, new_seats};
ghost use Rattle.explorer_commands.specs.Threads.{AreOutside, AreWithin, AreThreadsSettings, IsThreadsTable};
ghost use Rattle.explorer_commands.specs.Threads.{IsThreadsRun, IsRound, HasWorked, IsWorker, HaveWorked};
ghost use Rattle.explorer_commands.specs.Threads.{HaveBegun, AreHome, IsThreadsEnd};
ghost use Rattle.explorer_commands.specs.ThreadsText.{threads_refused_text};

use crate::gate::Gate;
use sema_table::{Closed, Seat, SemaTable, Settings, SetupError};
use std::alloc::{AllocError, Global};
use std::error::Error;
use std::sync::Wait;
use std::thread::{Promise, PromisedHandle, Scope, Threads};
use std::{fmt, thread};
use waiters::{CounterId, NoMemory};

/// The most workers of `run_threads`.
pub const MAX_WORKERS: u32 = 64;
/// The most rounds of each.
pub const MAX_ROUNDS: u32 = 1_000_000;

/// Why `run_threads` has closed no table, by number.
#[derive(Clone, Copy, Debug, Drop)]
pub enum ThreadsRefused {
    /// There are not 1 to 64 workers and 1 to 1,000,000 rounds. Nothing was begun.
    OutOfLimits = 1,
    /// Memory was refused, or a thread. Workers that had started have run to their end.
    NoMemory = 2,
}

impl fmt::Display for ThreadsRefused {
    ghost output = { λ refused. Some (threads_refused_text refused) };

    fn fmt<W: fmt::Write>(&self, f: &mut fmt::Formatter<W>) -> fmt::Result {
        f.write_str(match self {
            ThreadsRefused::OutOfLimits => "out of limits",
            ThreadsRefused::NoMemory => "no memory",
        })
    }
}

impl Error for ThreadsRefused {}

/// What a worker hands back: its seat, which has run all rounds.
#[derive(Clone, Copy, Drop)]
struct Worked<'t> {
    table: &'t SemaTable,
    number: u16,
    rounds: u32,
}

impl<'t> Promise<Seat> for Worked<'t> {
    ghost kept_by = { λ promise seat. HasWorked promise.table.now promise.number promise.rounds seat };
}

/// A worker that has started.
type Worker<'t> = PromisedHandle<Seat, Worked<'t>>;

/// One counter at 0, alone at its root, and a seat for each worker, which may release once a round.
///
/// It is an `Err` where memory is short.
fn threads_settings(alloc: Global, workers: u32, rounds: u32) -> Result<Settings, AllocError>
    ensures { IfOk result (AreThreadsSettings workers rounds) }
{
    Ok(Settings {
        starts: vec![in alloc; 0]?,
        seats: workers,
        roots: 1,
        seed: 1,
        release_limit: u64::from(rounds),
    })
}

/// A table with these settings, which refuses them for want of memory alone, and its seats in the order of
/// their numbers.
///
/// It is an `Err` where memory is short.
fn threads_table(
    alloc: Global,
    workers: u32,
    rounds: u32,
) -> Result<(SemaTable, Vec<Seat>), NoMemory>
    requires { AreWithin workers rounds }
    ensures table { IfOk result (λ made. IsThreadsTable workers rounds made.0) }
    ensures seats { IfOk result (λ made. made.1.items ≡ new_seats made.0 0 workers) }
{
    match SemaTable::new(alloc, threads_settings(alloc, workers, rounds)?) {
        Ok(made) => Ok(made),
        Err(SetupError::NoMemory) => Err(NoMemory),
        Err(_) => unreachable!(),
    }
}

/// One round: a release, and then an acquire.
fn run_round<R: Wait>(rt: &R, table: &SemaTable, seat: Seat, round: u32) -> Seat
    requires table { (seat.table ≡ table.now) × (0 < length table.now.setting.starts) }
    requires left { 0 < seat.left }
    ensures { IsRound round seat result }
{
    let counter = CounterId::new(0);
    let is_odd = round % 2 == 1;
    let Ok((seat, _)) = table.release(rt, seat, counter, is_odd) else {
        unreachable!()
    };
    table.acquire(rt, seat, counter, is_odd)
}

/// All rounds of one worker. It asks the gate before each.
fn work<R: Wait, G: Gate>(rt: &R, table: &SemaTable, seat: Seat, rounds: u32, gate: &G) -> Seat
    requires seat { seat ≡ new_seat table.now seat.number }
    requires table { (0 < length table.now.setting.starts) × (table.now.setting.limit ≡ rounds) }
    ensures { HasWorked table.now seat.number rounds result }
{
    let mut seat = seat;
    for round in 0..rounds {
        gate.pass(seat.id(), round);
        seat = run_round(rt, table, seat, round);
    }
    // what it has left tells how much it has added at most
    let _left = seat.left();
    seat
}

/// Starts a worker, in a thread of its own.
///
/// Where no thread can be made its rounds run here, and its seat comes back: only the worker has it.
fn start<'s, E, R: Wait + Sync, G: Gate + Sync>(
    scope: &'s Scope<'s, E>,
    rt: &'s R,
    table: &'s SemaTable,
    seat: Seat,
    rounds: u32,
    gate: &'s G,
) -> Result<Worker<'s>, Seat>
    requires seat { seat ≡ new_seat table.now seat.number }
    requires table { (0 < length table.now.setting.starts) × (table.now.setting.limit ≡ rounds) }
    ensures started { IfOk result (IsWorker table.now seat.number rounds) }
    ensures worked { IfErr result (HasWorked table.now seat.number rounds) }
{
    let promise = Worked {
        table,
        number: seat.id().number(),
        rounds,
    };
    match scope.spawn_with(promise, move || work(rt, table, seat, rounds, gate)) {
        Ok(worker) => Ok(worker),
        Err(refused) => Err((refused.value)()),
    }
}

/// Starts a worker for each seat, until a thread can't be made: that seat and those behind it come back.
fn start_all<'s, E, R: Wait + Sync, G: Gate + Sync>(
    scope: &'s Scope<'s, E>,
    rt: &'s R,
    table: &'s SemaTable,
    seats: Vec<Seat>,
    rounds: u32,
    gate: &'s G,
    started: &mut Vec<Worker<'s>>,
    back: &mut Vec<Seat>,
)
    requires seats { seats.items ≡ new_seats table.now 0 (length seats.items) }
    requires table { (0 < length table.now.setting.starts) × (table.now.setting.limit ≡ rounds) }
    requires none { (started.old.items ≡ []) × (back.old.items ≡ []) }
    requires room { (length seats.items ≤ started.old.cap) × (length seats.items ≤ back.old.cap) }
    ensures begun { HaveBegun table.now (length seats.items) rounds started.new.items back.new.items }
    ensures room { length seats.items ≤ back.new.cap }
{
    for seat in seats {
        if !back.is_empty() {
            back.push_reserved(seat);
            continue;
        }
        match start(scope, rt, table, seat, rounds, gate) {
            Ok(worker) => started.push_reserved(worker),
            Err(seat) => back.push_reserved(seat),
        }
    }
}

/// Starts a worker for each seat, and waits for the ends of all that have started: the seats, in the order of
/// their numbers.
///
/// It is an `Err` where memory is short or a thread can't be made. All seats are back then too: so no worker
/// runs that could use the table.
fn work_in<'s, E, R: Threads + Wait + Sync, G: Gate + Sync>(
    scope: &'s Scope<'s, E>,
    rt: &'s R,
    alloc: Global,
    table: &'s SemaTable,
    seats: Vec<Seat>,
    rounds: u32,
    gate: &'s G,
) -> Result<Vec<Seat>, Vec<Seat>>
    requires seats { seats.items ≡ new_seats table.now 0 (length seats.items) }
    requires table { (0 < length table.now.setting.starts) × (table.now.setting.limit ≡ rounds) }
    ensures worked { IfOk result (λ back. HaveWorked table.now (length seats.items) rounds back.items) }
    ensures home { IfErr result (λ back. AreHome table.now (length seats.items) rounds back.items) }
{
    // All memory is taken before the first thread is started: behind it nothing fails but a thread.
    let Ok(mut started) = Vec::with_capacity(alloc, seats.len()) else {
        return Err(seats);
    };
    let Ok(mut back) = Vec::with_capacity(alloc, seats.len()) else {
        return Err(seats);
    };
    start_all(
        scope,
        rt,
        table,
        seats,
        rounds,
        gate,
        &mut started,
        &mut back,
    );
    let has_all = back.is_empty();
    for worker in started {
        back.push_reserved(worker.join(rt));
    }
    if has_all { Ok(back) } else { Err(back) }
}

/// As `work_in`, in a scope of its own.
fn work_all<R: Threads + Wait + Sync, G: Gate + Sync>(
    rt: &R,
    alloc: Global,
    table: &SemaTable,
    seats: Vec<Seat>,
    rounds: u32,
    gate: &G,
) -> Result<Vec<Seat>, Vec<Seat>>
    requires seats { seats.items ≡ new_seats table.now 0 (length seats.items) }
    requires table { (0 < length table.now.setting.starts) × (table.now.setting.limit ≡ rounds) }
    ensures worked { IfOk result (λ back. HaveWorked table.now (length seats.items) rounds back.items) }
    ensures home { IfErr result (λ back. AreHome table.now (length seats.items) rounds back.items) }
{
    thread::scope(
        thread::scope_env(),
        rt,
        move |scope| -> Result<Vec<Seat>, Vec<Seat>>
            requires seats { seats.items ≡ new_seats table.now 0 (length seats.items) }
            requires table { (0 < length table.now.setting.starts) × (table.now.setting.limit ≡ rounds) }
            ensures worked { IfOk result
                (λ back. HaveWorked table.entry.now (length seats.items) rounds back.items) }
            ensures home { IfErr result
                (λ back. AreHome table.entry.now (length seats.items) rounds back.items) }
        { work_in(scope, rt, alloc, table, seats, rounds, gate) },
    )
}

/// Lets the workers of all seats of this table run, and closes it.
///
/// It is an `Err` where memory is short or a thread can't be made. The table is closed then too, with all its
/// seats: none of them is with a thread.
fn run_at<R: Threads + Wait + Sync, G: Gate + Sync>(
    rt: &R,
    alloc: Global,
    table: SemaTable,
    seats: Vec<Seat>,
    workers: u32,
    rounds: u32,
    gate: &G,
) -> Result<Closed, Closed>
    requires table { IsThreadsTable workers rounds table }
    requires seats { seats.items ≡ new_seats table 0 workers }
    ensures run { IfOk result (IsThreadsRun workers rounds) }
    ensures ended { IfErr result (IsThreadsEnd workers rounds) }
{
    match work_all(rt, alloc, &table, seats, rounds, gate) {
        Ok(seats) => Ok(table.close(seats)),
        Err(seats) => Err(table.close(seats)),
    }
}

/// As `run_threads`, within the limits.
///
/// It is an `Err` where memory is short or a thread can't be made: the workers that had started have ended
/// then.
fn run_within<R: Threads + Wait + Sync, G: Gate + Sync>(
    rt: &R,
    alloc: Global,
    workers: u32,
    rounds: u32,
    gate: &G,
) -> Result<Closed, NoMemory>
    requires { AreWithin workers rounds }
    ensures { IfOk result (IsThreadsRun workers rounds) }
{
    let (table, seats) = threads_table(alloc, workers, rounds)?;
    match run_at(rt, alloc, table, seats, workers, rounds, gate) {
        Ok(closed) => Ok(closed),
        Err(_ended) => Err(NoMemory),
    }
}

/// Lets so many workers share a table, each in a thread of its own. Each runs so many rounds, in which it
/// asks the gate, and then releases and acquires the one counter: in odd rounds with handoff, and with lifo.
/// Then the table is closed with all seats.
///
/// It is an `Err` as [`ThreadsRefused`] says.
#[tactic(auto, using(crate::proofs::Working::releases_are, crate::proofs::Working::acquires_are, crate::proofs::Working::values_are))]
pub fn run_threads<R: Threads + Wait + Sync, G: Gate + Sync>(
    rt: &R,
    alloc: Global,
    workers: u32,
    rounds: u32,
    gate: &G,
) -> Result<Closed, ThreadsRefused>
    ensures run { IfOk result (IsThreadsRun workers rounds) }
    ensures releases { IfOk result (λ closed. closed.releases ≡ workers * rounds) }
    ensures acquires { IfOk result (λ closed. closed.acquires ≡ workers * rounds) }
    ensures values { IfOk result (λ closed. closed.values ≡ 0 ∷ []) }
    ensures limits { (result ≡ Err ThreadsRefused.OutOfLimits) ↔ AreOutside workers rounds }
{
    if !(1..=MAX_WORKERS).contains(&workers) || !(1..=MAX_ROUNDS).contains(&rounds) {
        return Err(ThreadsRefused::OutOfLimits);
    }
    match run_within(rt, alloc, workers, rounds, gate) {
        Ok(closed) => Ok(closed),
        Err(NoMemory) => Err(ThreadsRefused::NoMemory),
    }
}
