//! One thread for each part of a play.

ghost use Rattle.std.specs.Prelude.{◌≡◌, All};

use crate::parts::actor::{Actor, Marks, RELEASE_LIMIT, Stage, reaches};
use crate::parts::cond_given;
use crate::parts::play::Play;
use crate::tables::given::{Sizes, made, one_counter};
use sema_table::{Seat, SemaTable};
use std::alloc::Global;
use std::process::Abort;
use std::sync::Wait;
use std::sync::atomic::Ordering::SeqCst;
use std::thread;
use std::thread::{Scope, Threads};
use sync_parts::{Cond, ListSeat};
use waiters::NoMemory;

/// All threads are there.
const BEGIN: u64 = 1;
/// One couldn't be made, so nobody plays: one who waits for another that isn't there would wait for good.
const GIVE_UP: u64 = 2;

/// How often all have locked, and how often unlocked.
pub(crate) type Sums = (u64, u64);

/// Those who have no thread yet.
#[derive(Drop)]
struct Cast<'t> {
    stage: &'t Stage<'t>,
    seats: Vec<Seat>,
    owns: Vec<ListSeat>,
    ghost table: { All (λ s. s.table ≡ stage.now.table.now) seats.items },
    ghost cond: { All (λ s. s.list ≡ stage.now.cond.now) owns.items },
}

impl<'t> Cast<'t> {
    /// The next one, and the number of its part.
    fn next(&mut self, rt: &impl Abort) -> (Actor<'t>, u16) {
        let seat = self.seats.pop().expect(rt, "a seat");
        let own = self
            .owns
            .pop()
            .expect(rt, "a seat of the condition variable");
        let part = seat.id().number();
        (Actor::new(self.stage, seat, own), part)
    }
}

/// A part of the play, once all threads are there.
fn acts<R: Abort + Wait>(rt: &R, play: Play, actor: Actor<'_>, part: u16) {
    let mut actor = actor;
    let marks = actor.marks;
    reaches(rt, &marks.curtain, BEGIN);
    if marks.curtain.load(SeqCst) == BEGIN {
        play.plays(rt, &mut actor, part);
        actor.leaves(rt);
    }
}

/// Makes a thread for each part, as long as there can be one: whether all were made.
fn hire_all<'s, E, R: Abort + Threads + Wait + Sync>(
    rt: &'s R,
    scope: &'s Scope<'s, E>,
    play: Play,
    cast: Cast<'s>,
) -> bool {
    let mut cast = cast;
    for _ in 0..play.parts() {
        let (actor, part) = cast.next(rt);
        if scope.spawn(move || acts(rt, play, actor, part)).is_err() {
            return false;
        }
    }
    true
}

/// All parts, each in a thread of its own: whether they were played.
fn act_all<R: Abort + Threads + Wait + Sync>(rt: &R, cast: Cast<'_>) -> bool {
    let stage = cast.stage;
    thread::scope(thread::scope_env(), rt, move |scope| {
        let all = hire_all(rt, scope, stage.play, cast);
        let told = if all { BEGIN } else { GIVE_UP };
        stage.marks.curtain.store(told, SeqCst);
        all
    })
}

/// The play, over a table for its lock, and a condition variable.
fn perform_on<R: Abort + Threads + Wait + Sync>(
    rt: &R,
    play: Play,
    table: &SemaTable,
    cond: &Cond,
    seats: Vec<Seat>,
    owns: Vec<ListSeat>,
) -> Result<Sums, NoMemory>
    requires table { All (λ s. s.table ≡ table.now) seats.items }
    requires cond { All (λ s. s.list ≡ cond.now) owns.items }
{
    assert!(rt; 0 < table.counters());
    let marks = &Marks::new();
    let stage = &Stage {
        table,
        cond,
        marks,
        play,
    };
    if act_all(rt, Cast { stage, seats, owns }) {
        Ok((marks.locked.load(SeqCst), marks.unlocked.load(SeqCst)))
    } else {
        Err(NoMemory)
    }
}

/// The whole play: what all have come to. It is an `Err` where a thread can't be made: then nobody has played.
fn perform<R: Abort + Threads + Wait + Sync>(
    rt: &R,
    alloc: Global,
    play: Play,
) -> Result<Sums, NoMemory> {
    let sizes = Sizes {
        roots: 1,
        release_limit: RELEASE_LIMIT,
        ..one_counter(1, play.parts())
    };
    let (table, seats) = made(rt, alloc, &sizes);
    let (cond, owns) = cond_given::made(rt, alloc, play.parts());
    perform_on(rt, play, &table, &cond, seats, owns)
}

/// The same, once more where a thread was refused.
pub(crate) fn perform_again<R: Abort + Threads + Wait + Sync>(
    rt: &R,
    alloc: Global,
    play: Play,
) -> Result<Sums, NoMemory> {
    match perform(rt, alloc, play) {
        Ok(sums) => Ok(sums),
        Err(NoMemory) => perform(rt, alloc, play),
    }
}
