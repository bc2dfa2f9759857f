//! What all tests here call.

pub(crate) use crate::tables::given::holds;
pub(crate) use crate::tables::text_tests::has_text;
use sema_root::{SortedRoot, TreapRoot};
use std::alloc::Global;
use std::process::Abort;
use waiters::NoMemory;

/// A root of so many seats, asked for once more where memory was refused.
pub(crate) fn sorted(rt: &impl Abort, alloc: Global, seats: u16) -> SortedRoot {
    match SortedRoot::with_room(alloc, seats) {
        Ok(made) => made,
        Err(NoMemory) => SortedRoot::with_room(alloc, seats).expect(rt, "memory"),
    }
}

/// The same, with tickets drawn from this seed.
pub(crate) fn treap(rt: &impl Abort, alloc: Global, seats: u16, seed: u64) -> TreapRoot {
    match TreapRoot::with_room(alloc, seats, seed) {
        Ok(made) => made,
        Err(NoMemory) => TreapRoot::with_room(alloc, seats, seed).expect(rt, "memory"),
    }
}
