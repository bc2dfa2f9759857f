//! Memory that is really short, for tests of what is answered then.
//!
//! The calls of this repository take the heap itself, and no allocator that could refuse a test something. So
//! the test takes all memory that its process can have: [`ScarceMemory`] holds blocks until none of the least
//! size is left, and then leaves a little, in each round a little more. The blocks are never written: they
//! fill addresses, and little of what the machine has. Only where it grants no more than it has are others
//! short too, for the moment that a test takes.
//!
//! `rt try` runs tests over a heap that keeps room of its own for small blocks, which can't be filled. There,
//! and wherever else some memory is left, a round says so.

use crate::shortage::blocks::Blocks;
use crate::shortage::stack;
use std::alloc::{AllocError, Global};

/// What a round holds again of the block that it gives back. So that block is none of those that the C
/// library keeps as they are, and what is left of it is in one piece.
const HELD_AGAIN: usize = 4096;

/// All memory of the process, but for what a round leaves. It is given back as this is dropped.
#[derive(Drop)]
pub struct ScarceMemory {
    blocks: Blocks,
    /// What each round gives back, the last for the next one.
    returns: Vec<Vec<u8>>,
}

impl ScarceMemory {
    /// Memory for so many rounds, of which nothing is held yet: the first will leave nothing, and each that
    /// follows `step` bytes more.
    pub fn new(alloc: Global, rounds: u16, step: u16) -> Result<ScarceMemory, AllocError> {
        let blocks = Blocks::new(alloc)?;
        let mut returns = Vec::with_capacity(alloc, usize::from(rounds))?;
        for before in 0..rounds {
            let left = usize::from(rounds - 1 - before) * usize::from(step);
            returns.push(Vec::with_capacity(alloc, HELD_AGAIN + left)?)?;
        }
        if !stack::goes_deep() {
            return Err(AllocError);
        }
        Ok(ScarceMemory { blocks, returns })
    }

    /// The next round: all memory is held again, and then a little is left. It is false where some memory
    /// can't be held, or where there was no such round.
    pub fn leave(&mut self) -> bool {
        let is_all = self.blocks.hold_all();
        self.returns.pop().is_some() && self.blocks.hold(HELD_AGAIN) && is_all
    }
}
