//! What the parts cost, in nanoseconds an operation: `bench treap|sorted COUNTERS..`, `bench explore NAMES..`
//! and `bench table|sync CASE WORKERS TURNS` print a line for each measurement.
//!
//! `treap` and `sorted` take a wait out of a root at a counter drawn at random, and queue it there again; the
//! numbers are how many counters have a wait, from 1 to 65535. `explore` searches scenarios of the folder
//! `data`, where it is to be run, and tells what a world costs.
//!
//! The other cases are those of [`tables::time`] and [`sync::time`]. Where a case has threads, each worker is
//! one.
#![tactic(auto)]

mod crew;
mod forks;
mod guards;
mod locks;
mod plan;
mod roots;
mod searches;
mod signals;
mod steps;
mod sync;
mod tables;
mod tasks;
mod words;

use crate::plan::Plan;
use anyhow::{Result, bail};
use std::alloc::Global;
use std::env;
use std::rt::Files;
use std::sync::Wait;
use std::thread::Threads;
use std::time::Clock;

/// Measures a case of the running table, or of what stands above it.
fn time<R: Clock + Print + Threads + Wait + Sync>(
    rt: &R,
    kind: &str,
    plan: &Plan<'_>,
) -> Result<()> {
    match kind {
        "table" => tables::time(rt, plan),
        "sync" => sync::time(rt, plan),
        _ => bail!("nothing is measured as {kind}"),
    }
}

/// Measures what these words ask for.
fn measure<R: AllocGlobal + Clock + Files + Print + Threads + Wait + Sync>(
    rt: &R,
    alloc: Global,
    kind: &str,
    words: &[String],
) -> Result<()> {
    match kind {
        "treap" | "sorted" => roots::time_all(rt, alloc, kind, words),
        "explore" => searches::time_all(rt, alloc, words),
        _ => time(rt, kind, &Plan::read(alloc, words)?),
    }
}

fn main(rt: HostRuntime) -> Result<()> {
    let words: Vec<String> = env::args(&rt)?.skip(1).collect(rt.alloc())?;
    if let [kind, words @ ..] = words.as_slice() {
        return measure(&rt, rt.alloc(), kind, words);
    }
    println!(rt;
        "usage: bench treap|sorted COUNTERS.., bench explore NAMES.. or bench table|sync CASE WORKERS TURNS"
    )?;
    Ok(())
}
