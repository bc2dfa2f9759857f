//! What is asked for.

use anyhow::{Result, bail};
use std::alloc::Global;
use std::num::{NonZeroU16, NonZeroU32};

/// So many turns of a case by each of so many workers.
#[derive(Clone, Copy, Drop)]
pub struct Plan<'a> {
    pub alloc: Global,
    pub case: &'a str,
    pub workers: u16,
    pub turns: u32,
}

impl<'a> Plan<'a> {
    /// The plan that these words spell.
    pub fn read(alloc: Global, words: &'a [String]) -> Result<Plan<'a>> {
        let [case, workers, turns] = words else {
            bail!("a case, its workers and their turns are asked for")
        };
        Ok(Plan {
            alloc,
            case: case.as_str(),
            workers: workers.parse::<NonZeroU16>()?.get(),
            turns: turns.parse::<NonZeroU32>()?.get(),
        })
    }

    /// How many turns the workers do, all together.
    pub fn turns_of_all(&self) -> u64 {
        u64::from(self.workers) * u64::from(self.turns)
    }
}
