//! Blocks that are held and never written.

use std::alloc::{AllocError, Global};

/// How many are held at most. The 2^47 bytes of addresses that a process has are full with far fewer, of the
/// largest size that the machine grants.
const MANY: usize = 1 << 16;

/// The size of the largest block that is asked for.
const LARGEST: usize = 1 << 46;

/// How often it is halved before the size is one of those that are kept.
const HALVED: u32 = 36;

/// Up to this size the C library keeps a block that was given back for the next call of just that size.
const LARGEST_KEPT: usize = 1040;

/// Kept blocks have sizes so far apart, and none is smaller.
const CLASS: usize = 16;

/// Blocks that are held.
#[derive(Drop)]
pub(crate) struct Blocks {
    alloc: Global,
    held: Vec<Vec<u8>>,
}

impl Blocks {
    /// None yet, and memory to tell of many.
    pub(crate) fn new(alloc: Global) -> Result<Blocks, AllocError> {
        let held = Vec::with_capacity(alloc, MANY)?;
        Ok(Blocks { alloc, held })
    }

    /// Holds a block of this size, if there is one.
    pub(crate) fn hold(&mut self, size: usize) -> bool {
        match Vec::with_capacity(self.alloc, size) {
            Ok(block) => self.held.push(block).is_ok(),
            Err(_) => false,
        }
    }

    fn hold_each(&mut self, size: usize) {
        for _ in 0..MANY {
            if !self.hold(size) {
                return;
            }
        }
    }

    /// Holds all that there is, and tells whether that is all.
    pub(crate) fn hold_all(&mut self) -> bool {
        for halved in 0..HALVED {
            self.hold_each(LARGEST >> halved);
        }
        for classes in 0..LARGEST_KEPT / CLASS {
            self.hold_each(LARGEST_KEPT - classes * CLASS);
        }
        !self.hold(CLASS)
    }
}
