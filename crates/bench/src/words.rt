//! The words that the table touches, in the same order, and nothing else.

use crate::plan::Plan;
use crate::roots::{put, wait_of};
use anyhow::Result;
use sema_root::{RootStore, SortedRoot};
use sema_table_crew::tell;
use std::sync::atomic::AtomicU64;
use std::sync::atomic::Ordering::SeqCst;
use std::time::{Clock, Instant};
use waiters::CounterId;

/// The words of one counter at one root, and one grant.
#[derive(Drop)]
struct Words {
    counter: AtomicU64,
    lock: AtomicU64,
    waiters: AtomicU64,
    grant: AtomicU64,
}

impl Words {
    /// A word each at 0.
    fn new() -> Words {
        Words {
            counter: AtomicU64::new(0),
            lock: AtomicU64::new(0),
            waiters: AtomicU64::new(0),
            grant: AtomicU64::new(0),
        }
    }

    /// An exchange of what was loaded for one less.
    #[inline]
    fn take(&self) {
        let found = self.counter.load(SeqCst);
        let _ = self
            .counter
            .compare_exchange(found, found.wrapping_sub(1), SeqCst, SeqCst);
    }

    /// An add, a load, a load and an exchange.
    #[inline]
    fn pair(&self) -> u64 {
        self.counter.fetch_add(1, SeqCst);
        let waiters = self.waiters.load(SeqCst);
        self.take();
        waiters
    }

    #[inline]
    fn take_lock(&self) {
        let _ = self.lock.compare_exchange(0, 1, SeqCst, SeqCst);
    }

    /// An acquire from its lock to its second look.
    #[inline]
    fn enter(&self) -> u64 {
        self.take_lock();
        self.waiters.fetch_add(1, SeqCst);
        self.counter.load(SeqCst)
    }

    /// It gives the lock back, and a release goes as far as its look under the lock.
    #[inline]
    fn release(&self) -> u64 {
        self.lock.store(0, SeqCst);
        self.counter.fetch_add(1, SeqCst);
        let seen = self.waiters.load(SeqCst);
        self.take_lock();
        seen.wrapping_add(self.waiters.load(SeqCst))
    }

    /// The rest of the release, and the woken seat's try.
    #[inline]
    fn wake(&self) -> u64 {
        self.waiters.fetch_sub(1, SeqCst);
        self.lock.store(0, SeqCst);
        self.grant.store(1, SeqCst);
        let granted = self.grant.swap(0, SeqCst);
        self.take();
        granted
    }

    /// So many pairs.
    #[inline(never)]
    fn pairs(&self, turns: u32) -> u64 {
        let mut seen: u64 = 0;
        for _ in 0..turns {
            seen = seen.wrapping_add(self.pair());
        }
        seen
    }

    /// The words of so many waits that are queued, woken and served.
    #[inline(never)]
    fn cycles(&self, turns: u32) -> u64 {
        let mut seen: u64 = 0;
        for _ in 0..turns {
            seen = seen
                .wrapping_add(self.enter())
                .wrapping_add(self.release())
                .wrapping_add(self.wake());
        }
        seen
    }

    /// The same with a root, where the wait goes in and out.
    #[inline(never)]
    fn cycles_at(&self, root: &mut SortedRoot, turns: u32) -> u64 {
        let counter = CounterId::new(0);
        let mut seen: u64 = 0;
        for turn in 0..turns {
            seen = seen.wrapping_add(self.enter());
            put(root, counter, wait_of(0, u64::from(turn)));
            seen = seen.wrapping_add(self.release());
            let _ = root.dequeue(counter);
            seen = seen.wrapping_add(self.wake());
        }
        seen
    }
}

/// Touches the words of a case, and answers what was seen there.
fn touch(root: &mut SortedRoot, case: &str, turns: u32) -> u64 {
    let words = Words::new();
    match case {
        "pair-words" => words.pairs(turns),
        "cycle-words" => words.cycles(turns),
        _ => words.cycles_at(root, turns),
    }
}

/// Times how a case touches its words, and tells what was seen.
fn time_at(rt: &(impl Clock + Print), plan: &Plan<'_>, root: &mut SortedRoot) -> Result<()> {
    let start = Instant::now(rt)?;
    let seen = touch(root, plan.case, plan.turns);
    tell(rt, plan.case, &start, u64::from(plan.turns))?;
    println!(rt; "seen {seen}")?;
    Ok(())
}

/// Times a case of plain words.
pub fn time(rt: &(impl Clock + Print), plan: &Plan<'_>) -> Result<()> {
    time_at(rt, plan, &mut SortedRoot::with_room(plan.alloc, 2)?)
}
