//! Searches of all schedules: what a world costs.

use anyhow::{Result, bail};
use scenario_search::{Found, explore, read_scenario};
use std::alloc::Global;
use std::fs;
use std::rt::Files;
use std::time::{Clock, Instant};

/// How many steps a schedule has at most: enough for each of the scenarios here.
const DEPTH: u32 = 64;

/// How many worlds there are in this file of the folder `data`, by an independent search. Of alike worlds a
/// search keeps one.
fn worlds(name: &str) -> Result<u128> {
    match name {
        "three_acquires_three_releases" => Ok(203_157),
        "two_counters_of_one_root" => Ok(61_246),
        "group" => Ok(58_676),
        "four_locks" => Ok(2_993),
        _ => bail!("no scenario {name}"),
    }
}

/// How long a search of this text takes, in nanoseconds.
fn took(clock: &impl Clock, alloc: Global, name: &str, text: &str) -> Result<u128> {
    let request = read_scenario(alloc, text.as_bytes())?;
    let began = Instant::now(clock)?;
    let found = explore(alloc, &request, DEPTH)?;
    let took = began.elapsed(clock)?.as_nanos();
    if let Found::Bad { .. } = found {
        bail!("{name} ends early");
    }
    Ok(took)
}

/// Tells what a world costs in a search of this scenario.
fn time(rt: &(impl AllocGlobal + Clock + Files + Print), alloc: Global, name: &str) -> Result<()> {
    let worlds = worlds(name)?;
    let text = fs::read_to_string(rt, format!(in alloc; "{name}.txt")?)?;
    let cost = took(rt, alloc, name, &text)? / worlds.max(1);
    println!(rt; "explore {name} worlds={worlds} ns/world={cost}")?;
    Ok(())
}

/// Tells what a world costs in each of these scenarios.
pub fn time_all(
    rt: &(impl AllocGlobal + Clock + Files + Print),
    alloc: Global,
    names: &[String],
) -> Result<()> {
    for name in names {
        time(rt, alloc, name)?;
    }
    Ok(())
}
