//! A queue of four places.

use std::sync::atomic::Ordering::SeqCst;
use std::sync::atomic::{AtomicBool, AtomicU64};

/// A queue of four places. Threads share its words; who touches several of them holds the lock, so nobody
/// comes in between.
#[derive(Drop)]
pub(crate) struct Queue {
    places: [AtomicU64; 4],
    put: AtomicU64,
    taken: AtomicU64,
    pub(crate) closed: AtomicBool,
}

/// What a thread waits for.
#[derive(Clone, Copy, Drop)]
pub(crate) enum Want {
    Place,
    Number,
}

impl Queue {
    pub(crate) fn new() -> Queue {
        Queue {
            places: [
                AtomicU64::new(0),
                AtomicU64::new(0),
                AtomicU64::new(0),
                AtomicU64::new(0),
            ],
            put: AtomicU64::new(0),
            taken: AtomicU64::new(0),
            closed: AtomicBool::new(false),
        }
    }

    /// How many numbers are in it.
    fn count(&self) -> u64 {
        self.put.load(SeqCst).wrapping_sub(self.taken.load(SeqCst))
    }

    /// Whether nobody has to wait for this.
    pub(crate) fn has(&self, want: Want) -> bool {
        let there = match want {
            Want::Place => self.count() < 4,
            Want::Number => self.count() > 0,
        };
        there || self.closed.load(SeqCst)
    }

    /// Puts the number, unless the queue is full or closed: whether it did.
    pub(crate) fn put(&self, number: u64) -> bool {
        if self.count() >= 4 || self.closed.load(SeqCst) {
            return false;
        }
        let at = self.put.load(SeqCst);
        self.places[(at % 4) as usize].store(number, SeqCst);
        self.put.store(at.wrapping_add(1), SeqCst);
        true
    }

    /// Takes the number that was put first, if there is one.
    pub(crate) fn take(&self) -> Option<u64> {
        if self.count() == 0 {
            return None;
        }
        let at = self.taken.load(SeqCst);
        let number = self.places[(at % 4) as usize].load(SeqCst);
        self.taken.store(at.wrapping_add(1), SeqCst);
        Some(number)
    }
}
