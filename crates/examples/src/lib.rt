//! Two uses of the table, short enough to be copied: a number that threads share under a lock, and a queue of
//! at most so many items, whose free places and items are two counters.
//!
//! Of those who share the number, no two that meet hold the lock, and only its holder releases it. Of the
//! items that were put into the queue, each was taken or is left, as often as it was put; no more places are
//! claimed than there are, and no more items are in it.
//!
//! No clause says that a call returns or that one who waits is woken, what the shared number is, or that the
//! item goes into the ring after its place was claimed and before it is told of: the ring and the counters
//! have a rule each, and nothing orders their steps.
//!
//! Beside them stand calls of the running parts, made as they have to be ([`calls`]); in `mutants` each of
//! these is made wrongly once, and refused.
#![tactic(auto)]

mod bounded_queue;
pub mod calls;
mod moves;
mod mutex;
pub mod spent;

pub use bounded_queue::{BoundedQueue, Tally, Worker};
pub use moves::{Balances, Moves, OnePart, Puts, Ring, Takes, Total};
pub use mutex::{add_many, add_one, are_both_held};
