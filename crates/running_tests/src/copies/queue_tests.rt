//! Two threads put items into a queue of two places and two take them out: each item arrives, and once.
//!
//! The threads begin once all of them are made: a queue that nobody empties would keep those that put for
//! ever.

ghost use Rattle.std.specs.Prelude.{◌≡◌, ◌+◌, ◌<◌, All};
ghost use Rattle.examples.specs.Moves.{all_parts};
ghost use Rattle.examples.specs.Queue.{IsOf};

use examples::{BoundedQueue, Tally, Worker};
use sema_table::{Seat, SetupError};
use std::alloc::{AllocError, Global};
use std::process::Abort;
use std::sync::Wait;
use std::sync::atomic::AtomicU64;
use std::sync::atomic::Ordering::SeqCst;
use std::test::Fail;
use std::thread;
use std::thread::{Scope, Threads};
use waiters::NoMemory;

const ITEMS: u32 = 500;

/// Not all threads are made yet.
const NOT_YET: u64 = 0;
/// All threads are made.
const BEGIN: u64 = 1;
/// A thread couldn't be made, so none begins.
const GIVE_UP: u64 = 2;

/// Waits until it is told whether the threads begin.
fn begins<R: Wait>(rt: &R, told: &AtomicU64) -> bool {
    for _ in rt.forever() {
        match told.load(SeqCst) {
            NOT_YET => thread::yield_now(),
            now => return now == BEGIN,
        }
    }
    false
}

/// A worker puts so many items, from this one on.
fn put_all<R: Wait>(rt: &R, queue: &BoundedQueue, told: &AtomicU64, worker: Worker, first: u32)
    requires { IsOf queue.now worker }
{
    if !begins(rt, told) {
        return;
    }
    let mut worker = worker;
    for count in 0..ITEMS {
        if worker.left() == 0 {
            break;
        }
        worker = queue.put(rt, worker, first.wrapping_add(count));
    }
}

/// A worker takes so many.
fn take_all<R: Wait>(
    rt: &R,
    queue: &BoundedQueue,
    told: &AtomicU64,
    worker: Worker,
    into: Vec<u32>,
) -> Vec<u32>
    requires { IsOf queue.now worker }
{
    let mut into = into;
    if !begins(rt, told) {
        return into;
    }
    let mut worker = worker;
    for _ in 0..ITEMS {
        if worker.left() == 0 {
            break;
        }
        let (after, item) = queue.take(rt, worker);
        worker = after;
        let _ = into.push(item);
    }
    into
}

/// A worker at the last seat.
fn enters(rt: &impl Abort, queue: &BoundedQueue, tally: &mut Tally, seats: &mut Vec<Seat>) -> Worker
    requires own { All (λ s. s.table ≡ queue.now.table) seats.old.items }
    requires tally { (tally.old.ring ≡ queue.now.ring) × (1 < tally.old.moves.parts) }
    ensures worker { IsOf queue.now result × (result.moves.parts ≡ 1) }
    ensures rest { All (λ s. s.table ≡ queue.now.table) seats.new.items }
    ensures tally { (tally.new.ring ≡ queue.now.ring) × (tally.new.moves.parts + 1 ≡ tally.old.moves.parts) }
{
    let seat = seats.pop().expect(rt, "a seat");
    queue.enter(tally, seat)
}

/// Whether there could be a thread that puts all items from this one on.
fn hire<'s, E, R: Threads + Wait + Sync>(
    scope: &'s Scope<'s, E>,
    rt: &'s R,
    queue: &'s BoundedQueue,
    told: &'s AtomicU64,
    worker: Worker,
    first: u32,
) -> bool
    requires { IsOf queue.now worker }
{
    scope
        .spawn(move || put_all(rt, queue, told, worker, first))
        .is_ok()
}

/// Two workers put all items, and what two others took comes back.
fn move_all<R: Abort + Threads + Wait + Sync>(
    rt: &R,
    queue: &BoundedQueue,
    tally: &mut Tally,
    seats: Vec<Seat>,
    into: (Vec<u32>, Vec<u32>),
) -> Result<(Vec<u32>, Vec<u32>), NoMemory>
    requires own { All (λ s. s.table ≡ queue.now.table) seats.items }
    requires tally { (tally.old.ring ≡ queue.now.ring) × (tally.old.moves.parts ≡ all_parts) }
{
    let mut seats = seats;
    let first = enters(rt, queue, tally, &mut seats);
    let second = enters(rt, queue, tally, &mut seats);
    let third = enters(rt, queue, tally, &mut seats);
    let fourth = enters(rt, queue, tally, &mut seats);
    let told = AtomicU64::new(NOT_YET);
    let told = &told;
    let (one, other) = into;
    thread::scope(
        thread::scope_env(),
        rt,
        move |scope| -> Result<(Vec<u32>, Vec<u32>), NoMemory>
            requires puts { IsOf queue.now first × IsOf queue.now second }
            requires takes { IsOf queue.now third × IsOf queue.now fourth }
        {
            let one_puts = hire(scope, rt, queue, told, first, 0);
            let other_puts = hire(scope, rt, queue, told, second, ITEMS);
            let putting = one_puts && other_puts;
            let taking = scope.spawn(move || take_all(rt, queue, told, third, one));
            let Ok(taking) = taking else {
                told.store(GIVE_UP, SeqCst);
                return Err(NoMemory);
            };
            told.store(if putting { BEGIN } else { GIVE_UP }, SeqCst);
            let other = take_all(rt, queue, told, fourth, other);
            let one = taking.join(rt);
            if putting {
                Ok((one, other))
            } else {
                Err(NoMemory)
            }
        },
    )
}

/// Each item was seen for the first time.
fn marks(rt: &impl Abort, seen: &mut [bool], items: &[u32]) {
    for item in items {
        let at = *item as usize;
        assert!(rt; at < seen.len() && !seen[at]);
        seen[at] = true;
    }
}

#[test]
fn each_item_arrives_once(rt: HostRuntime) -> Result<(), Fail> {
    let into = (
        Vec::with_capacity(rt.alloc(), ITEMS as usize)?,
        Vec::with_capacity(rt.alloc(), ITEMS as usize)?,
    );
    let (queue, seats, mut tally) = BoundedQueue::new(rt.alloc(), 2, 4)?;
    let (one, other) = move_all(&rt, &queue, &mut tally, seats, into)?;
    let mut seen = [false; 1_000];
    marks(&rt, &mut seen, one.as_slice());
    marks(&rt, &mut seen, other.as_slice());
    assert!(rt; one.len() + other.len() == 1_000);
    Ok(())
}

/// One worker puts two items and takes one, and leaves: one is left.
fn leaves_one<R: Abort + Wait>(rt: &R, queue: &BoundedQueue, tally: &mut Tally, seats: Vec<Seat>)
    requires own { All (λ s. s.table ≡ queue.now.table) seats.items }
    requires tally { (tally.old.ring ≡ queue.now.ring) × (tally.old.moves.parts ≡ all_parts) }
{
    let mut seats = seats;
    let worker = enters(rt, queue, tally, &mut seats);
    assert!(rt; worker.left() > 2);
    let worker = queue.put(rt, worker, 7);
    assert!(rt; worker.left() > 1);
    let worker = queue.put(rt, worker, 8);
    assert!(rt; worker.left() > 0);
    let (worker, item) = queue.take(rt, worker);
    assert!(rt; item == 7);
    let _ = queue.leave(tally, worker);
    assert!(rt; queue.audit(rt, tally) == 1);
}

#[test]
fn what_is_put_is_taken_or_left(rt: HostRuntime) -> Result<(), Fail> {
    let (queue, seats, mut tally) = BoundedQueue::new(rt.alloc(), 2, 1)?;
    leaves_one(&rt, &queue, &mut tally, seats);
    Ok(())
}

#[test]
fn no_workers_or_too_many_are_refused(rt: HostRuntime) -> Result<(), Fail> {
    for workers in [0, 257] {
        match BoundedQueue::new(rt.alloc(), 2, workers) {
            Ok(_) => panic!(rt; "a queue was made"),
            Err(refused) => assert!(rt; refused == SetupError::Seats),
        }
    }
    let (_, seats, _) = BoundedQueue::new(rt.alloc(), 2, 256)?;
    assert!(rt; seats.len() == 256);
    Ok(())
}
