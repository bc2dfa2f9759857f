//! What threads do under one lock: hold it, hand a turn back and forth, and wait for broadcasts.
ghost use Rattle.std.specs.Prelude.{◌≡◌, ◌<◌, true, false, All, IfOk, length};

use crate::crew;
use crate::crew::{Job, Seats};
use crate::plan::Plan;
use crate::tables::new_table;
use anyhow::{Result, bail};
use sema_table::{Seat, SemaTable};
use std::alloc::Global;
use std::sync::Wait;
use std::sync::atomic::AtomicU64;
use std::sync::atomic::Ordering::{Relaxed, SeqCst};
use std::thread::Threads;
use std::time::Clock;
use sync_parts::{Cond, ListSeat, SemaLock};
use waiters::CounterId;

/// One hold in so many is counted in a word that all share: each store to such a word is a locked instruction
/// here, and would be a third of what a hold takes.
const COUNTED: u32 = 64;

/// What the threads do.
#[derive(Clone, Copy, Drop)]
pub enum Game {
    /// Each takes the lock and gives it back.
    Mutex,
    /// Two hand a turn back and forth.
    Hands,
    /// The first calls the others, once all of them wait.
    Broadcast,
}

/// What the threads share beside the lock.
#[derive(Drop)]
struct Hall {
    /// For a turn or a call one waits by this.
    called: Cond,
    /// Who calls waits by this, for the others.
    full: Cond,
    /// How often a hold was counted, whose turn it is, or how many calls there were: written under the lock.
    word: AtomicU64,
    /// How many wait for a call.
    arrived: AtomicU64,
    /// How many are called.
    many: u64,
}

impl Hall {
    /// A hall, and so many seats of each condition variable.
    fn with_seats(
        alloc: Global,
        many: u16,
        seats: u32,
    ) -> Result<(Hall, Vec<ListSeat>, Vec<ListSeat>)>
        ensures called { IfOk result (λ t. All (λ s. s.list ≡ t.0.called) t.1.items) }
        ensures full { IfOk result (λ t. All (λ s. s.list ≡ t.0.full) t.2.items) }
    {
        let (called, called_seats) = Cond::with_seats(alloc, seats)?;
        let (full, full_seats) = Cond::with_seats(alloc, seats)?;
        let hall = Hall {
            called,
            full,
            word: AtomicU64::new(0),
            arrived: AtomicU64::new(0),
            many: u64::from(many),
        };
        Ok((hall, called_seats, full_seats))
    }
}

/// Waits under the lock until the word is this one, or the lock may be released no more.
fn await_word<R: Wait>(
    rt: &R,
    cond: &Cond,
    seat: ListSeat,
    lock: &mut SemaLock<'_>,
    word: &AtomicU64,
    wanted: u64,
) -> ListSeat
    requires own { seat.list ≡ cond.now }
    requires held { lock.old.held ≡ true }
    ensures own { result.list ≡ cond.now }
    ensures held { lock.new.held ≡ true }
{
    let mut seat = seat;
    for _ in rt.forever() {
        if word.load(SeqCst) == wanted || lock.left() == 0 {
            break;
        }
        (seat, _) = cond.wait(rt, seat, lock);
    }
    seat
}

/// Releases the lock, if it may be released.
fn unlock<R: Wait>(rt: &R, lock: &mut SemaLock<'_>) -> bool
    requires { lock.old.held ≡ true }
    ensures { result ≡ true → lock.new.held ≡ false }
{
    if lock.left() == 0 {
        return false;
    }
    lock.release(rt);
    true
}

/// One of the threads, with a seat of each condition variable.
#[derive(Drop)]
struct Member<'b> {
    hall: &'b Hall,
    lock: SemaLock<'b>,
    called: ListSeat,
    full: ListSeat,
    game: Game,
    number: u32,
    ghost free: { lock.held ≡ false },
    ghost seated: { (called.list ≡ hall.now.called) × (full.list ≡ hall.now.full) },
}

impl<'b> Member<'b> {
    /// So often takes the lock, and gives it back.
    fn hold<R: Wait>(self, rt: &R, turns: u32) {
        let Member { hall, mut lock, .. } = self;
        for turn in 0..turns {
            lock.acquire(rt);
            if turn % COUNTED == 0 {
                let held = hall.word.load(Relaxed);
                hall.word.store(held.wrapping_add(1), Relaxed);
            }
            if !unlock(rt, &mut lock) {
                break;
            }
        }
    }

    /// So many times there and back.
    fn hand<R: Wait>(self, rt: &R, turns: u32) {
        let Member {
            hall,
            mut lock,
            called: mut seat,
            number,
            ..
        } = self;
        let own = u64::from(number);
        lock.acquire(rt);
        for _ in 0..turns {
            seat = await_word(rt, &hall.called, seat, &mut lock, &hall.word, own);
            hall.word.store(own ^ 1, SeqCst);
            hall.called.signal(rt, &mut seat);
        }
        unlock(rt, &mut lock);
    }

    /// Waits for so many calls.
    fn wait<R: Wait>(self, rt: &R, turns: u32) {
        let Member {
            hall,
            mut lock,
            called: mut waits,
            full: mut tells,
            ..
        } = self;
        for turn in 0..turns {
            lock.acquire(rt);
            if hall.arrived.fetch_add(1, SeqCst).wrapping_add(1) == hall.many {
                hall.full.signal(rt, &mut tells);
            }
            let wanted = u64::from(turn) + 1;
            waits = await_word(rt, &hall.called, waits, &mut lock, &hall.word, wanted);
            if !unlock(rt, &mut lock) {
                break;
            }
        }
    }

    /// So many calls.
    fn call<R: Wait>(self, rt: &R, turns: u32) {
        let Member {
            hall,
            mut lock,
            called: mut tells,
            full: mut waits,
            ..
        } = self;
        for turn in 0..turns {
            lock.acquire(rt);
            waits = await_word(rt, &hall.full, waits, &mut lock, &hall.arrived, hall.many);
            hall.arrived.store(0, SeqCst);
            hall.word.store(u64::from(turn) + 1, SeqCst);
            hall.called.broadcast(rt, &mut tells);
            if !unlock(rt, &mut lock) {
                break;
            }
        }
    }
}

impl<'b> Job for Member<'b> {
    fn turns<R: Wait>(self, rt: &R, turns: u32) {
        match (self.game, self.number) {
            (Game::Mutex, _) => self.hold(rt, turns),
            (Game::Hands, _) => self.hand(rt, turns),
            (Game::Broadcast, 0) => self.call(rt, turns),
            (Game::Broadcast, _) => self.wait(rt, turns),
        }
    }
}

/// The seats of a hall, and of a lock over counter 0.
#[derive(Drop)]
struct HallSeats<'b> {
    hall: &'b Hall,
    table: &'b SemaTable,
    locks: Vec<Seat>,
    called: Vec<ListSeat>,
    full: Vec<ListSeat>,
    game: Game,
    ghost locked: { All (λ s. s.table ≡ table.now) locks.items × (0 < length table.now.setting.starts) },
    ghost call: { All (λ s. s.list ≡ hall.now.called) called.items },
    ghost fill: { All (λ s. s.list ≡ hall.now.full) full.items },
}

impl<'b> Seats<Member<'b>> for HallSeats<'b> {
    /// One of the threads: of a broadcast first the one that calls.
    fn job(&mut self, number: u32) -> Option<Member<'b>> {
        let lock = self.locks.pop()?;
        let called = self.called.pop()?;
        let full = self.full.pop()?;
        Some(Member {
            hall: self.hall,
            lock: SemaLock::over(self.table, lock, CounterId::new(0)),
            called,
            full,
            game: self.game,
            number,
        })
    }
}

/// What the shared word is at the end, and how many operations there were.
fn end_of(game: Game, plan: &Plan<'_>) -> (u64, u64) {
    let turns = u64::from(plan.turns);
    match game {
        Game::Mutex => (
            u64::from(plan.workers) * u64::from(plan.turns.div_ceil(COUNTED)),
            plan.turns_of_all(),
        ),
        Game::Hands => (0, turns),
        Game::Broadcast => (turns, turns),
    }
}

/// Times a game of so many threads under a lock of this table, and looks what it led to: whether a holder was
/// alone, and no turn was lost.
fn time_seats<R: Clock + Print + Threads + Wait + Sync>(
    rt: &R,
    plan: &Plan<'_>,
    game: Game,
    count: u32,
    table: &SemaTable,
    locks: Vec<Seat>,
) -> Result<()>
    requires { All (λ s. s.table ≡ table.now) locks.items × (0 < length table.now.setting.starts) }
{
    let (hall, called, full) = Hall::with_seats(plan.alloc, plan.workers, count)?;
    let seats = HallSeats {
        hall: &hall,
        table,
        locks,
        called,
        full,
        game,
    };
    let (word, operations) = end_of(game, plan);
    crew::time(rt, plan, seats, count, operations)?;
    if hall.word.load(SeqCst) != word {
        bail!("the lock was held by two")
    }
    Ok(())
}

/// Times a game of so many threads.
pub fn time<R: Clock + Print + Threads + Wait + Sync>(
    rt: &R,
    plan: &Plan<'_>,
    game: Game,
) -> Result<()> {
    let count = match game {
        Game::Broadcast => u32::from(plan.workers) + 1,
        _ => u32::from(plan.workers),
    };
    let (table, locks) = new_table(plan.alloc, 1, 1, count, 1 << 40)?;
    time_seats(rt, plan, game, count, &table, locks)
}
