//! The moment at which all threads begin.

use std::sync::Wait;
use std::sync::atomic::{AtomicU64, Ordering};
use std::thread;

/// Nothing is known yet.
const NOT_YET: u64 = 0;
/// All threads are there.
const BEGIN: u64 = 1;
/// One couldn't be made, so none begins.
const GIVE_UP: u64 = 2;

/// Threads begin together, once all are made: one that waits for another that isn't there would wait for
/// good.
#[derive(Drop)]
pub struct CrewStart {
    told: AtomicU64,
}

impl CrewStart {
    /// Nobody begins yet.
    pub fn new() -> CrewStart {
        CrewStart {
            told: AtomicU64::new(NOT_YET),
        }
    }

    /// Lets the threads begin, or go home.
    pub fn tell(&self, begin: bool) {
        let told = if begin { BEGIN } else { GIVE_UP };
        self.told.store(told, Ordering::SeqCst);
    }

    /// Whether to begin.
    pub fn wait<R: Wait>(&self, rt: &R) -> bool {
        for _ in rt.forever() {
            match self.told.load(Ordering::SeqCst) {
                NOT_YET => thread::yield_now(),
                told => return told == BEGIN,
            }
        }
        unreachable!()
    }
}
