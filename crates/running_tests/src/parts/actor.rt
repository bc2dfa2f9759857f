//! One who waits on a condition variable, or wakes those who wait.

ghost use Rattle.std.specs.Prelude.{◌≡◌, ◌<◌, length};
ghost use Rattle.std.specs.Option.{ForSome};

use crate::parts::play::Play;
use sema_table::{Seat, SemaTable};
use std::process::Abort;
use std::sync::Wait;
use std::sync::atomic::AtomicU64;
use std::sync::atomic::Ordering::SeqCst;
use std::thread;
use sync_parts::{Cond, ListSeat, SemaLock};
use waiters::CounterId;

/// How often each may unlock.
pub(crate) const RELEASE_LIMIT: u64 = 1_000;

/// How far all have come.
#[derive(Drop)]
pub(crate) struct Marks {
    /// Whether all threads are there, or one couldn't be made.
    pub(crate) curtain: AtomicU64,
    /// How often somebody has begun to wait.
    pub(crate) came: AtomicU64,
    /// How often somebody has come back.
    pub(crate) woke: AtomicU64,
    /// Whether the one has come back who is to be woken in any case.
    pub(crate) first: AtomicU64,
    /// What the one who wakes has told the others.
    pub(crate) told: AtomicU64,
    /// How often those who have left had locked.
    pub(crate) locked: AtomicU64,
    /// How often they had unlocked.
    pub(crate) unlocked: AtomicU64,
}

impl Marks {
    pub(crate) fn new() -> Marks {
        Marks {
            curtain: AtomicU64::new(0),
            came: AtomicU64::new(0),
            woke: AtomicU64::new(0),
            first: AtomicU64::new(0),
            told: AtomicU64::new(0),
            locked: AtomicU64::new(0),
            unlocked: AtomicU64::new(0),
        }
    }
}

/// What all parts share.
#[derive(Drop)]
pub(crate) struct Stage<'t> {
    pub(crate) table: &'t SemaTable,
    pub(crate) cond: &'t Cond,
    pub(crate) marks: &'t Marks,
    pub(crate) play: Play,
    pub(crate) ghost locks: { 0 < length table.now.setting.starts },
}

/// A lock, and a seat of the condition variable.
#[derive(Drop)]
pub(crate) struct Actor<'t> {
    cond: &'t Cond,
    pub(crate) marks: &'t Marks,
    lock: SemaLock<'t>,
    /// Always there between two calls: a wait takes a seat by value.
    own: Option<ListSeat>,
    ghost ties: { ForSome own (λ s. s.list ≡ cond.now) },
}

/// Until the mark is at least this.
pub(crate) fn reaches<R: Wait>(rt: &R, mark: &AtomicU64, least: u64) {
    for _ in rt.forever() {
        if mark.load(SeqCst) >= least {
            return;
        }
        thread::yield_now();
    }
    unreachable!()
}

impl<'t> Actor<'t> {
    /// One who hasn't locked.
    pub(crate) fn new(stage: &Stage<'t>, seat: Seat, own: ListSeat) -> Actor<'t>
        requires table { seat.table ≡ stage.now.table.now }
        requires cond { own.list ≡ stage.now.cond.now }
    {
        Actor {
            cond: stage.cond,
            marks: stage.marks,
            lock: SemaLock::over(stage.table, seat, CounterId::new(0)),
            own: Some(own),
        }
    }

    pub(crate) fn locks<R: Abort + Wait>(&mut self, rt: &R) {
        assert!(rt; !self.lock.held());
        self.lock.acquire(rt);
    }

    pub(crate) fn unlocks<R: Abort + Wait>(&mut self, rt: &R) {
        assert!(rt; self.lock.held() && self.lock.left() > 0);
        self.lock.release(rt);
    }

    /// Waits once under the lock, and counts itself before and after it.
    pub(crate) fn waits<R: Abort + Wait>(&mut self, rt: &R) {
        assert!(rt; self.lock.held() && self.lock.left() > 0);
        let own = self.own.take().expect(rt, "a seat");
        self.marks.came.fetch_add(1, SeqCst);
        let (own, _) = self.cond.wait(rt, own, &mut self.lock);
        self.marks.woke.fetch_add(1, SeqCst);
        self.own = Some(own);
    }

    /// Signals: the ticket that was granted.
    pub(crate) fn signals<R: Abort + Wait>(&mut self, rt: &R) -> Option<u64> {
        let mut own = self.own.take().expect(rt, "a seat");
        let granted = self.cond.signal(rt, &mut own);
        self.own = Some(own);
        granted
    }

    /// Broadcasts: how many tickets were granted.
    pub(crate) fn broadcasts<R: Abort + Wait>(&mut self, rt: &R) -> u32 {
        let mut own = self.own.take().expect(rt, "a seat");
        let granted = self.cond.broadcast(rt, &mut own);
        self.own = Some(own);
        granted
    }

    /// Adds up how often it has locked and unlocked, and isn't there any more.
    pub(crate) fn leaves(self, rt: &impl Abort) {
        let Actor { marks, lock, .. } = self;
        assert!(rt; !lock.held());
        let seat = lock.into_seat();
        marks.locked.fetch_add(seat.taken(), SeqCst);
        let unlocked = RELEASE_LIMIT.wrapping_sub(seat.left());
        marks.unlocked.fetch_add(unlocked, SeqCst);
    }
}
