//! The running table: by one thread, and by a thread for each of its seats.
ghost use Rattle.std.specs.Prelude.{◌≡◌, ◌<◌, All, IfOk, length};

use crate::plan::Plan;
use crate::{steps, tasks, words};
use anyhow::{Result, bail};
use sema_table::{Closed, Seat, SemaTable, Settings};
use sema_table_crew::{Way, Work, run, tell};
use std::alloc::Global;
use std::sync::Wait;
use std::thread::Threads;
use std::time::{Clock, Instant};

/// A table of so many counters, of which the first begins with these units and the others with none, and its
/// seats, each of which may add so many units.
pub fn new_table(
    alloc: Global,
    counters: usize,
    units: u32,
    seats: u32,
    release_limit: u64,
) -> Result<(SemaTable, Vec<Seat>)>
    ensures own { IfOk result (λ t. All (λ s. s.table ≡ t.0) t.1.items) }
    ensures counters { IfOk result (λ t. 0 < length t.0.setting.starts) }
{
    let mut starts = vec![in alloc; 0; counters]?;
    if let Some(first) = starts.first_mut() {
        *first = units;
    }
    let settings = Settings {
        starts,
        seats,
        roots: 251,
        seed: 1,
        release_limit,
    };
    Ok(SemaTable::new(alloc, settings)?)
}

/// Times pairs of the first seat up to its limit, or cycles of both.
fn time_steps(
    rt: &(impl Clock + Print + Wait),
    plan: &Plan<'_>,
    table: &SemaTable,
    first: Seat,
    second: Seat,
) -> Result<()>
    requires { (first.table ≡ table.now) × (second.table ≡ table.now)
        × (0 < length table.now.setting.starts) }
{
    let start = Instant::now(rt)?;
    if plan.case == "pair" {
        let _ = steps::pairs(rt, table, first);
    } else {
        let _ = steps::cycles(rt, table, first, second, plan.turns);
    }
    tell(rt, plan.case, &start, u64::from(plan.turns))
}

/// Times what one thread does with these two seats.
fn time_seats(
    rt: &(impl Clock + Print + Wait),
    plan: &Plan<'_>,
    table: &SemaTable,
    seats: Vec<Seat>,
) -> Result<()>
    requires { All (λ s. s.table ≡ table.now) seats.items × (0 < length table.now.setting.starts) }
{
    let mut seats = seats;
    match (seats.pop(), seats.pop()) {
        (Some(second), Some(first)) => time_steps(rt, plan, table, first, second),
        _ => bail!("no seats"),
    }
}

/// Times what one thread does with two seats of a table.
fn time_alone(rt: &(impl Clock + Print + Wait), plan: &Plan<'_>) -> Result<()> {
    let (table, seats) = new_table(plan.alloc, 1, 0, 2, u64::from(plan.turns))?;
    time_seats(rt, plan, &table, seats)
}

/// How many counters a work has, and how many units the first of them at the start.
fn start_of(work: Work) -> (usize, u32) {
    match work {
        Work::Hands(_) => (2, 1),
        Work::HandsTwo => (2, 2),
        Work::Spread => (1_000, 0),
        _ => (1, 0),
    }
}

/// Tells what was added and taken, if it is what so many turns add and take.
fn tell_sums(rt: &impl Print, work: Work, turns: u64, closed: &Closed) -> Result<()> {
    let (added, taken) = (closed.releases(), closed.acquires());
    if added != turns.wrapping_mul(work.adds()) || taken != turns.wrapping_mul(work.takes()) {
        bail!("units were lost")
    }
    println!(rt; "added {added} taken {taken}")?;
    Ok(())
}

/// Times a work by a thread for each worker. Threads that lose nobody come back, and their table adds up.
fn time_crew<R: Clock + Print + Threads + Wait + Sync>(
    rt: &R,
    plan: &Plan<'_>,
    work: Work,
) -> Result<()> {
    let (counters, units) = start_of(work);
    // Only two hand over: one alone would wait for good.
    if counters == 2 && plan.workers != 2 {
        bail!("two hand over")
    }
    let limit = work.adds().wrapping_mul(u64::from(plan.turns));
    let (table, seats) = new_table(plan.alloc, counters, units, u32::from(plan.workers), limit)?;
    let start = Instant::now(rt)?;
    let closed = run(rt, plan.alloc, table, seats, work, plan.turns)?;
    let turns = plan.turns_of_all();
    // Two that hand a unit over do one operation together: the way there and back.
    let operations = if counters == 2 { turns / 2 } else { turns };
    tell(rt, plan.case, &start, operations)?;
    tell_sums(rt, work, turns, &closed)
}

/// What the workers of a case do.
fn work_of(case: &str) -> Result<Work> {
    match case {
        "threads" => Ok(Work::Rounds),
        "spread" => Ok(Work::Spread),
        "hands" => Ok(hands(false, false)),
        "lifo" => Ok(hands(true, false)),
        "handoff" => Ok(hands(false, true)),
        "two" => Ok(Work::HandsTwo),
        _ => bail!("no such case"),
    }
}

/// A unit that goes to and fro.
const fn hands(lifo: bool, handoff: bool) -> Work {
    Work::Hands(Way { lifo, handoff })
}

/// Times a case.
///
/// `pair` adds a unit and takes it again, by one seat, with nobody waiting; `cycle` lets one seat queue its
/// wait, another release and wake it, and the first take the unit, all in one thread. `pair-words` and
/// `cycle-words` touch plain atomic words in the same way and the same order: the least that such a table can
/// cost. In `cycle-root` the wait goes into a root and out again.
///
/// The other cases have a thread for each worker, and close the table at the end: whether nobody was lost,
/// and no unit. In `threads` each releases one counter and takes its unit, in every other turn with handoff
/// and lifo; in `spread` one of 1,000 counters over 251 roots, drawn anew in each turn. Both try before they
/// acquire, and end by their release limit. In `hands`, `lifo` and `handoff` two hand a unit back and forth
/// over two counters, each waiting for the other, in order, with lifo and with handoff, and in `two` two
/// units by one add: an operation is the way there and back. In `tasks` ten thousand tasks share 64 units, each worker
/// runs its part of them in turn, and a task that has slept for thirty turns gives up; an operation is a task's turn.
pub fn time<R: Clock + Print + Threads + Wait + Sync>(rt: &R, plan: &Plan<'_>) -> Result<()> {
    match plan.case {
        "pair" | "cycle" => time_alone(rt, plan),
        "pair-words" | "cycle-words" | "cycle-root" => words::time(rt, plan),
        "tasks" => tasks::time(rt, plan),
        case => time_crew(rt, plan, work_of(case)?),
    }
}
