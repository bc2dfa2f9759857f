//! Threads that begin together, one for each job, and what they cost.

use crate::plan::Plan;
use anyhow::{Result, bail};
use sema_table_crew::{CrewStart, tell};
use std::sync::Wait;
use std::thread;
use std::thread::{Scope, Threads};
use std::time::{Clock, Instant};

/// What a thread does.
pub trait Job {
    /// So many turns.
    fn turns<R: Wait>(self, rt: &R, turns: u32);
}

/// Seats of which jobs are made.
pub trait Seats<J> {
    /// The job of this number, as long as there are seats.
    fn job(&mut self, number: u32) -> Option<J>;
}

/// A thread's job, from the start on.
fn work<R: Wait, J: Job + Drop>(rt: &R, job: J, turns: u32, start: &CrewStart) {
    if start.wait(rt) {
        job.turns(rt, turns);
    }
}

/// Makes a thread for each job, as long as there can be one: whether all were made.
fn hire_all<'s, E, R: Threads + Wait + Sync, J: Job + Send + Drop + 's, S: Seats<J>>(
    scope: &'s Scope<'s, E>,
    rt: &'s R,
    seats: &mut S,
    count: u32,
    turns: u32,
    start: &'s CrewStart,
) -> bool {
    for number in 0..count {
        let Some(job) = seats.job(number) else {
            return false;
        };
        if scope.spawn(move || work(rt, job, turns, start)).is_err() {
            return false;
        }
    }
    true
}

/// Each of so many jobs does so many turns, in a thread of its own. Where a thread can't be made, none
/// begins, and the answer is false.
fn run<'j, R: Threads + Wait + Sync, J: Job + Send + Drop + 'j, S: Seats<J>>(
    rt: &'j R,
    seats: &mut S,
    count: u32,
    turns: u32,
) -> bool {
    let start = CrewStart::new();
    let begin = &start;
    thread::scope(thread::scope_env(), rt, move |scope| {
        let all = hire_all(scope, rt, seats, count, turns, begin);
        begin.tell(all);
        all
    })
}

/// Times so many jobs of these seats, which do so many operations all together.
pub fn time<R: Clock + Print + Threads + Wait + Sync, J: Job + Send + Drop, S: Seats<J> + Drop>(
    rt: &R,
    plan: &Plan<'_>,
    seats: S,
    count: u32,
    operations: u64,
) -> Result<()> {
    let mut seats = seats;
    let start = Instant::now(rt)?;
    if !run(rt, &mut seats, count, plan.turns) {
        bail!("no threads")
    }
    tell(rt, plan.case, &start, operations)
}
