//! Lists, condition variables, locks and wait groups.

use crate::locks::Game;
use crate::plan::Plan;
use crate::{forks, guards, locks, signals};
use anyhow::{Result, bail};
use std::sync::Wait;
use std::thread::Threads;
use std::time::Clock;

/// Times a case.
///
/// `ticket` takes a ticket, grants it and waits with it, and `group` adds 1 to a wait group, takes it off and
/// waits, each in one thread. In `signals` two threads wait for each other on a notify list, and in `hands`
/// on a condition variable, for a word that says whose turn it is: an operation is the way there and back. In
/// `broadcast` one wakes the workers by a condition variable, each time that all of them wait; in `mutex` the
/// workers take one lock, and in `guarded` they add to one guarded number; in `fork` one lets the workers
/// begin, each by a counter of its own, and waits by a wait group until all are done.
pub fn time<R: Clock + Print + Threads + Wait + Sync>(rt: &R, plan: &Plan<'_>) -> Result<()> {
    match (plan.case, plan.workers) {
        ("ticket", 1) => signals::time_alone(rt, plan),
        ("signals", 2) => signals::time(rt, plan),
        ("hands", 2) => locks::time(rt, plan, Game::Hands),
        ("broadcast", _) => locks::time(rt, plan, Game::Broadcast),
        ("mutex", _) => locks::time(rt, plan, Game::Mutex),
        ("guarded", _) => guards::time(rt, plan),
        ("group", 1) => forks::time_alone(rt, plan),
        ("fork", _) => forks::time(rt, plan),
        _ => bail!("no such case of so many workers"),
    }
}
