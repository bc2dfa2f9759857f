//! What a measurement tells.

use anyhow::Result;
use std::time::{Clock, Instant};

/// Tells what each of so many operations cost since the start.
pub fn tell(rt: &(impl Clock + Print), case: &str, start: &Instant, operations: u64) -> Result<()> {
    let tenths = start.elapsed(rt)?.as_nanos() / u128::from(operations / 10 + 1);
    println!(rt; "{case} ns/op={}.{}", tenths / 10, tenths % 10)?;
    Ok(())
}
