//! Ten thousand tasks on a few threads. Each takes a unit that some hundred and fifty share, and gives it back in its next
//! turn. One that has slept for some turns gives up.
ghost use Rattle.std.specs.Prelude.{◌≡◌, All, IfOk};

use crate::crew;
use crate::crew::{Job, Seats};
use crate::plan::Plan;
use anyhow::{Result, bail};
use sema_table::{
    CounterId, Settings, TaskEntered, TaskGaveUp, TaskPolled, TaskPosted, TaskRetried, TaskSeat,
    TaskTable, Tried, Wake,
};
use std::alloc::Global;
use std::sync::Wait;
use std::sync::atomic::{AtomicU64, Ordering};
use std::thread::Threads;
use std::time::Clock;

const TASKS: u32 = 10_000;

/// Each has one unit.
const COUNTERS: u32 = 64;

/// After so many turns a task that sleeps gives up.
const PATIENCE: u32 = 30;

/// What a task does in its next turn.
#[derive(Clone, Copy, Drop)]
enum Next {
    Begins,
    /// It has looked so often for its grant.
    Sleeps(u32),
    /// It has given up, and its grant is on the way.
    AwaitsGrant,
    Tries,
    Holds,
    Owes,
}

/// How many units were taken, and how often a task gave up.
#[derive(Clone, Copy, Drop)]
struct Tally {
    taken: u64,
    left: u64,
}

/// A task at its table.
#[derive(Drop)]
struct Task<'t> {
    table: &'t TaskTable,
    seat: TaskSeat,
    counter: CounterId,
    next: Next,
    ghost own: { seat.seat.table ≡ table.now },
}

fn begin(table: &TaskTable, seat: TaskSeat, counter: CounterId) -> (TaskSeat, Next)
    requires { seat.seat.table ≡ table.now }
    ensures { result.0.seat.table ≡ table.now }
{
    let mut seat = seat;
    match table.try_acquire(&mut seat, counter) {
        Ok(Tried::Taken) => return (seat, Next::Holds),
        Ok(Tried::Zero) => {}
        _other => return (seat, Next::Begins),
    }
    let (seat, told) = table.enter(seat, counter, false);
    match told {
        Ok(TaskEntered::Taken) => (seat, Next::Holds),
        Ok(TaskEntered::Asleep) => (seat, Next::Sleeps(0)),
        Err(_busy) => (seat, Next::Begins),
    }
}

/// A look for the grant, in which a task is as it was where there is none.
fn look(table: &TaskTable, seat: TaskSeat, still: Next) -> (TaskSeat, Next)
    requires { seat.seat.table ≡ table.now }
    ensures { result.0.seat.table ≡ table.now }
{
    let (seat, told) = table.poll(seat);
    match told {
        Ok(TaskPolled::Woken) => (seat, Next::Tries),
        Ok(TaskPolled::Handed) => (seat, Next::Holds),
        _still => (seat, still),
    }
}

fn give_up(table: &TaskTable, seat: TaskSeat) -> (TaskSeat, Next)
    requires { seat.seat.table ≡ table.now }
    ensures { result.0.seat.table ≡ table.now }
{
    let (seat, told) = table.leave(seat);
    match told {
        Ok(TaskGaveUp::Left) => (seat, Next::Begins),
        Ok(TaskGaveUp::Coming) => (seat, Next::AwaitsGrant),
        Ok(TaskGaveUp::Woken) => (seat, Next::Tries),
        Ok(TaskGaveUp::Handed) => (seat, Next::Holds),
        Err(_busy) => (seat, Next::Sleeps(PATIENCE)),
    }
}

fn try_again(table: &TaskTable, seat: TaskSeat) -> (TaskSeat, Next)
    requires { seat.seat.table ≡ table.now }
    ensures { result.0.seat.table ≡ table.now }
{
    let (seat, told) = table.retry(seat);
    match told {
        Ok(TaskRetried::Taken) => (seat, Next::Holds),
        _zero => (seat, Next::Begins),
    }
}

fn give_back(table: &TaskTable, seat: TaskSeat, counter: CounterId) -> (TaskSeat, Next)
    requires { seat.seat.table ≡ table.now }
    ensures { result.0.seat.table ≡ table.now }
{
    let mut seat = seat;
    match table.post(&mut seat, counter) {
        Ok(TaskPosted::Owes) => (seat, Next::Owes),
        _done => (seat, Next::Begins),
    }
}

fn wake(table: &TaskTable, seat: TaskSeat) -> (TaskSeat, Next)
    requires { seat.seat.table ≡ table.now }
    ensures { result.0.seat.table ≡ table.now }
{
    let (seat, told) = table.wake(seat, false);
    match told {
        Ok(Wake::Nobody) => (seat, Next::Begins),
        Ok(_woken) => (seat, Next::Begins),
        Err(_busy) => (seat, Next::Owes),
    }
}

impl<'t> Task<'t> {
    /// Its turn. In the last turns it begins no more, and doesn't wait.
    fn runs(self, is_last: bool) -> Task<'t> {
        let Task {
            table,
            seat,
            counter,
            next,
            ..
        } = self;
        let (seat, next) = match next {
            Next::Begins if is_last => (seat, next),
            Next::Begins => begin(table, seat, counter),
            Next::Sleeps(looks) if is_last || looks >= PATIENCE => give_up(table, seat),
            Next::Sleeps(looks) => look(table, seat, Next::Sleeps(looks + 1)),
            Next::AwaitsGrant => look(table, seat, next),
            Next::Tries => try_again(table, seat),
            Next::Holds => give_back(table, seat, counter),
            Next::Owes => wake(table, seat),
        };
        Task {
            table,
            seat,
            counter,
            next,
        }
    }
}

impl Tally {
    /// With what a task came to in its turn.
    fn counts(self, before: Next, now: Next) -> Tally {
        let Tally { taken, left } = self;
        match (before, now) {
            (Next::Holds, _) => self,
            (_, Next::Holds) => Tally {
                taken: taken.wrapping_add(1),
                left,
            },
            (Next::Sleeps(_), Next::Begins) => Tally {
                taken,
                left: left.wrapping_add(1),
            },
            _ => self,
        }
    }
}

/// What all threads count.
#[derive(Drop)]
struct Totals {
    taken: AtomicU64,
    left: AtomicU64,
}

/// Some of the tasks, which one thread runs in turn.
#[derive(Drop)]
struct Worker<'t> {
    tasks: Vec<Option<Task<'t>>>,
    totals: &'t Totals,
}

/// A turn of each task; whether all rest behind it.
fn round(tasks: &mut Vec<Option<Task<'_>>>, tally: &mut Tally, is_last: bool) -> bool {
    let mut all_rest = true;
    for place in tasks.iter_mut() {
        if let Some(task) = place.take() {
            let before = task.next;
            let task = task.runs(is_last);
            *tally = tally.counts(before, task.next);
            all_rest = all_rest && matches!(task.next, Next::Begins);
            *place = Some(task);
        }
    }
    all_rest
}

impl<'t> Job for Worker<'t> {
    /// So many turns of each task, and then as many as it takes until all rest.
    fn turns<R: Wait>(self, rt: &R, turns: u32) {
        let Worker { mut tasks, totals } = self;
        let mut tally = Tally { taken: 0, left: 0 };
        for _ in 0..turns {
            round(&mut tasks, &mut tally, false);
        }
        for _ in rt.forever() {
            if round(&mut tasks, &mut tally, true) {
                totals.taken.fetch_add(tally.taken, Ordering::SeqCst);
                totals.left.fetch_add(tally.left, Ordering::SeqCst);
                return;
            }
        }
    }
}

/// The seats of a table, so many of which each thread gets.
#[derive(Drop)]
struct TaskSeats<'t> {
    alloc: Global,
    table: &'t TaskTable,
    totals: &'t Totals,
    seats: Vec<TaskSeat>,
    each: u32,
    ghost own: { All (λ s. s.seat.table ≡ table.now) seats.items },
}

impl<'t> TaskSeats<'t> {
    /// A task with the last seat.
    fn task(&mut self, number: u32) -> Option<Task<'t>> {
        let seat = self.seats.pop()?;
        Some(Task {
            table: self.table,
            seat,
            counter: CounterId::new(number % COUNTERS),
            next: Next::Begins,
        })
    }
}

impl<'t> Seats<Worker<'t>> for TaskSeats<'t> {
    fn job(&mut self, _number: u32) -> Option<Worker<'t>> {
        let mut tasks = Vec::with_capacity(self.alloc, self.each as usize).ok()?;
        for number in 0..self.each {
            let task = self.task(number)?;
            tasks.push(Some(task)).ok()?;
        }
        Some(Worker {
            tasks,
            totals: self.totals,
        })
    }
}

/// A table whose counters have one unit each, with a seat for each task and one more.
fn new_table(alloc: Global) -> Result<(TaskTable, Vec<TaskSeat>)>
    ensures { IfOk result (λ t. All (λ s. s.seat.table ≡ t.0) t.1.items) }
{
    let settings = Settings {
        starts: vec![in alloc; 1; COUNTERS as usize]?,
        seats: TASKS + 1,
        roots: 16,
        seed: 1,
        release_limit: 1 << 40,
    };
    Ok(TaskTable::new(alloc, settings)?)
}

/// Whether each counter has its unit again, and nobody waits.
fn is_whole(table: &TaskTable, seat: TaskSeat) -> bool
    requires { seat.seat.table ≡ table.now }
{
    let mut seat = seat;
    for number in 0..COUNTERS {
        let counter = CounterId::new(number);
        let (value, waits) = (
            table.value(&mut seat, counter),
            table.waiters_of_root(&mut seat, counter),
        );
        if !matches!((value, waits), (Ok(1), Ok(0))) {
            return false;
        }
    }
    true
}

/// Times so many turns of ten thousand tasks, run by so many threads.
pub fn time<R: Clock + Print + Threads + Wait + Sync>(rt: &R, plan: &Plan<'_>) -> Result<()> {
    let (table, mut seats) = new_table(plan.alloc)?;
    let Some(last) = seats.pop() else {
        bail!("no seats")
    };
    let workers = u32::from(plan.workers);
    let totals = Totals {
        taken: AtomicU64::new(0),
        left: AtomicU64::new(0),
    };
    let seats = TaskSeats {
        alloc: plan.alloc,
        table: &table,
        totals: &totals,
        seats,
        each: TASKS.checked_div(workers).unwrap_or(0),
    };
    let operations = u64::from(TASKS) * u64::from(plan.turns);
    crew::time(rt, plan, seats, workers, operations)?;
    if !is_whole(&table, last) {
        bail!("units were lost")
    }
    let (taken, left) = (
        totals.taken.load(Ordering::SeqCst),
        totals.left.load(Ordering::SeqCst),
    );
    println!(rt; "taken {taken}, given up {left}")?;
    Ok(())
}
