//! Roots: a wait goes out and in again.
ghost use Rattle.std.specs.Prelude.{◌<◌};

use anyhow::Result;
use rand_core::{Rng, SeedableRng};
use rand_xoshiro::Xoshiro256PlusPlus;
use sema_root::{RootStore, SortedRoot, TreapRoot};
use std::alloc::Global;
use std::num::NonZeroU16;
use std::time::{Clock, Instant};
use waiters::{CounterId, SeatId, Wait, WaitId};

const TURNS: u32 = 2_000_000;

/// Queues a wait, where there is room.
#[inline]
pub fn put<R: RootStore>(root: &mut R, counter: CounterId, wait: Wait) {
    if !root.is_full() {
        root.queue(counter, wait, false);
    }
}

/// The wait of a seat's turn.
#[inline]
pub fn wait_of(seat: u16, turn: u64) -> Wait {
    let seat = SeatId::new(seat);
    let id = WaitId { seat, turn };
    Wait { id, ticket: 0 }
}

/// Queues a wait at each of the counters.
fn fill<R: RootStore>(root: &mut R, counters: u16) {
    for number in 0..counters {
        let counter = CounterId::new(u32::from(number));
        put(root, counter, wait_of(number, 0));
    }
}

/// A counter drawn at random.
#[inline]
fn draw(draws: &mut Xoshiro256PlusPlus, counters: u16) -> CounterId
    requires { 0 < counters }
{
    CounterId::new((draws.next_u64() % u64::from(counters)) as u32)
}

/// Takes a wait out at a counter, and queues it there again.
#[inline]
fn queue_again<R: RootStore>(root: &mut R, counter: CounterId) {
    if let Some(wait) = root.dequeue(counter) {
        put(root, counter, wait);
    }
}

/// What a turn costs, in nanoseconds: a wait is taken out at a counter drawn at random, and queued there
/// again. Each of the counters has one wait.
fn turn<R: RootStore>(clock: &impl Clock, root: &mut R, counters: u16) -> Result<u128>
    requires { 0 < counters }
{
    fill(root, counters);
    let mut draws = Xoshiro256PlusPlus::seed_from_u64(7);
    let start = Instant::now(clock)?;
    for _ in 0..TURNS {
        queue_again(root, draw(&mut draws, counters));
    }
    Ok(start.elapsed(clock)?.as_nanos() / u128::from(TURNS))
}

/// What a turn costs in this case.
fn cost(clock: &impl Clock, alloc: Global, case: &str, counters: u16) -> Result<u128>
    requires { 0 < counters }
{
    if case == "treap" {
        return turn(
            clock,
            &mut TreapRoot::with_room(alloc, counters, 1)?,
            counters,
        );
    }
    turn(
        clock,
        &mut SortedRoot::with_room(alloc, counters)?,
        counters,
    )
}

/// Tells what a turn costs in this case, with so many counters each time.
pub fn time_all(
    rt: &(impl Clock + Print),
    alloc: Global,
    case: &str,
    counters: &[String],
) -> Result<()> {
    for word in counters {
        let counters = word.parse::<NonZeroU16>()?.get();
        let cost = cost(rt, alloc, case, counters)?;
        println!(rt; "{case} {counters} ns/op={cost}")?;
    }
    Ok(())
}
