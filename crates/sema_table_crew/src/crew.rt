//! One thread for each seat, and the end of the table.

ghost use Rattle.std.specs.Prelude.{◌≡◌, ◌<◌, All, length, IfOk, IfSome};
ghost use Rattle.sema_table_crew.specs.Turns.{HasWorked, IsCrewRun};
ghost use Rattle.sema_table_crew.specs.Crew.{IsWorker};

use crate::start::CrewStart;
use crate::work::Work;
use sema_table::{Closed, Seat, SemaTable};
use std::alloc::Global;
use std::sync::Wait;
use std::thread;
use std::thread::{Promise, PromisedHandle, Scope, Threads};
use waiters::NoMemory;

/// What each thread does.
#[derive(Clone, Copy, Drop)]
struct Plan {
    work: Work,
    turns: u32,
}

/// What a thread hands back: a seat of this table that has worked by the plan, or none where it didn't begin.
#[derive(Clone, Copy, Drop)]
struct Back<'t> {
    table: &'t SemaTable,
    plan: Plan,
}

impl<'t> Promise<Option<Seat>> for Back<'t> {
    ghost kept_by = { λ promise back. IfSome back (HasWorked promise.table.now promise.plan.work promise.plan.turns) };
}

/// A thread that works for a seat.
type Worker<'t> = PromisedHandle<Option<Seat>, Back<'t>>;

/// A seat's part of the plan, from the start on.
fn work<R: Wait>(
    rt: &R,
    table: &SemaTable,
    seat: Seat,
    plan: Plan,
    start: &CrewStart,
) -> Option<Seat>
    requires { (seat.table ≡ table.now) × (0 < length table.now.setting.starts) }
    ensures { IfSome result (HasWorked table.now plan.work plan.turns) }
{
    if start.wait(rt) {
        Some(plan.work.turns(rt, table, seat, plan.turns))
    } else {
        None
    }
}

/// Makes a thread for each seat, as long as there can be one: the threads, and whether all were made.
fn hire_all<'s, E, R: Threads + Wait + Sync>(
    scope: &'s Scope<'s, E>,
    rt: &'s R,
    alloc: Global,
    table: &'s SemaTable,
    seats: Vec<Seat>,
    plan: Plan,
    start: &'s CrewStart,
) -> (Vec<Worker<'s>>, bool)
    requires table { 0 < length table.now.setting.starts }
    requires seats { All (λ s. s.table ≡ table.now) seats.items }
    ensures { All (IsWorker table.now plan) result.0.items }
{
    let mut seats = seats;
    let mut workers = Vec::new(alloc);
    while let Some(seat) = seats.pop() {
        let promise = Back { table, plan };
        let made = scope.spawn_with(promise, move || work(rt, table, seat, plan, start));
        let Ok(worker) = made else {
            return (workers, false);
        };
        if workers.push(worker).is_err() {
            return (workers, false);
        }
    }
    (workers, true)
}

/// The seats of all threads, once they have ended.
///
/// It is an `Err` where memory is short or a thread didn't begin.
fn join_all<'s, R: Threads>(
    rt: &R,
    alloc: Global,
    table: &'s SemaTable,
    plan: Plan,
    workers: Vec<Worker<'s>>,
) -> Result<Vec<Seat>, NoMemory>
    requires { All (IsWorker table.now plan) workers.items }
    ensures { IfOk result (λ seats. All (HasWorked table.now plan.work plan.turns) seats.items) }
{
    let mut workers = workers;
    let mut seats = Vec::with_capacity(alloc, workers.len())?;
    while let Some(worker) = workers.pop() {
        let Some(seat) = worker.join(rt) else {
            return Err(NoMemory);
        };
        if seats.push(seat).is_err() {
            return Err(NoMemory);
        }
    }
    Ok(seats)
}

/// The seats, back from their work.
///
/// It is an `Err` where memory is short or a thread couldn't be made.
fn work_all<R: Threads + Wait + Sync>(
    rt: &R,
    alloc: Global,
    table: &SemaTable,
    seats: Vec<Seat>,
    plan: Plan,
    start: &CrewStart,
) -> Result<Vec<Seat>, NoMemory>
    requires table { 0 < length table.now.setting.starts }
    requires seats { All (λ s. s.table ≡ table.now) seats.items }
    ensures { IfOk result (λ back. All (HasWorked table.now plan.work plan.turns) back.items) }
{
    thread::scope(
        thread::scope_env(),
        rt,
        move |scope| -> Result<Vec<Seat>, NoMemory>
            requires table { 0 < length table.now.setting.starts }
            requires seats { All (λ s. s.table ≡ table.now) seats.items }
            ensures { IfOk result (λ back. All (HasWorked table.entry.now plan.work plan.turns) back.items) }
        {
            let (workers, all) = hire_all(scope, rt, alloc, table, seats, plan, start);
            start.tell(all);
            join_all(rt, alloc, table, plan, workers)
        },
    )
}

/// Each seat of the table does so many turns of this work, in a thread of its own; the table is closed with
/// all of them.
///
/// It is an `Err` where memory is short or a thread can't be made, and then no seat has worked; and where
/// these aren't all seats of the table.
pub fn run<R: Threads + Wait + Sync>(
    rt: &R,
    alloc: Global,
    table: SemaTable,
    seats: Vec<Seat>,
    work: Work,
    turns: u32,
) -> Result<Closed, NoMemory>
    requires table { 0 < length table.setting.starts }
    requires seats { All (λ s. s.table ≡ table) seats.items }
    ensures { IfOk result (IsCrewRun table work turns) }
{
    let plan = Plan { work, turns };
    let seats = work_all(rt, alloc, &table, seats, plan, &CrewStart::new())?;
    if seats.len() != table.seats() as usize {
        return Err(NoMemory);
    }
    Ok(table.close(seats))
}
