//! Seats go out and come back, to one at a time. Where memory is refused a test ends.
ghost use Rattle.std.specs.Prelude.{◌≡◌, ◌<◌, length, Some, IfOk};

use crate::{Borrower, SeatPool, pooled_list, pooled_table, pooled_task_list, pooled_task_table};
use sema_table::{CounterId, Seat, SemaTable, Settings, TaskPosted};
use std::alloc::{AllocError, Global};
use std::process::Abort;
use std::sync::Wait;
use std::sync::atomic::AtomicU64;
use std::sync::atomic::Ordering::SeqCst;
use std::thread;
use std::thread::{Threads, join};

/// How often each thread borrows a seat.
const TIMES: u32 = 10_000;

/// Asks this of a test, and ends it where it isn't so.
fn holds(rt: &impl Abort, so: bool) {
    assert!(rt; so);
}

/// One counter at 0, and so many seats.
fn settings(alloc: Global, seats: u32) -> Result<Settings, AllocError>
    ensures { IfOk result (λ s. length s.starts.items ≡ 1) }
{
    let mut starts = Vec::with_capacity(alloc, 1)?;
    starts.push_reserved(0);
    Ok(Settings {
        starts,
        seats,
        roots: 1,
        seed: 1,
        release_limit: 1 << 40,
    })
}

#[test]
fn each_seat_is_lent_once(rt: HostRuntime) {
    let Ok(settings) = settings(rt.alloc(), 3) else {
        return;
    };
    let Ok((_, pool, mut borrower)) = pooled_table(&rt, rt.alloc(), settings) else {
        return;
    };
    let Some((one, loan)) = pool.take_seat(&rt, &mut borrower) else {
        return holds(&rt, false);
    };
    let Some((two, _)) = pool.take_seat(&rt, &mut borrower) else {
        return holds(&rt, false);
    };
    let Some((three, _)) = pool.take_seat(&rt, &mut borrower) else {
        return holds(&rt, false);
    };
    let numbers = [one.id().number(), two.id().number(), three.id().number()];
    holds(&rt, numbers == [2, 1, 0]);
    holds(&rt, pool.take_seat(&rt, &mut borrower).is_none());
    pool.give_seat(&rt, one, loan);
    let Some((again, _)) = pool.take_seat(&rt, &mut borrower) else {
        return holds(&rt, false);
    };
    holds(&rt, again.id().number() == 2);
    holds(&rt, pool.take_seat(&rt, &mut borrower).is_none());
}

/// Adds a unit with a seat that is lent, and takes it.
fn adds_and_takes<R: Wait>(
    rt: &R,
    table: &SemaTable,
    pool: &SeatPool<Seat, SemaTable>,
    borrower: &mut Borrower<Seat, SemaTable>,
) -> bool
    requires pool { (borrower.old.pool ≡ pool.now) × (borrower.old.home ≡ Some table.now) }
    requires there { 0 < length table.now.setting.starts }
    ensures { borrower.new ≡ borrower.old }
{
    let Some((seat, loan)) = pool.take_seat(rt, borrower) else {
        return false;
    };
    let c = CounterId::new(0);
    let Ok((seat, _)) = table.release(rt, seat, c, false) else {
        return false;
    };
    let seat = table.acquire(rt, seat, c, false);
    pool.give_seat(rt, seat, loan);
    true
}

#[test]
fn lent_seat_calls_its_table(rt: HostRuntime) {
    let Ok(settings) = settings(rt.alloc(), 1) else {
        return;
    };
    let Ok((table, pool, mut borrower)) = pooled_table(&rt, rt.alloc(), settings) else {
        return;
    };
    holds(&rt, adds_and_takes(&rt, &table, &pool, &mut borrower));
    holds(&rt, adds_and_takes(&rt, &table, &pool, &mut borrower));
}

#[test]
fn task_gives_its_seat_back_when_it_rests(rt: HostRuntime) {
    let Ok(settings) = settings(rt.alloc(), 1) else {
        return;
    };
    let Ok((table, pool, mut borrower)) = pooled_task_table(&rt, rt.alloc(), settings) else {
        return;
    };
    let Some((mut seat, loan)) = pool.take_seat(&rt, &mut borrower) else {
        return holds(&rt, false);
    };
    let Ok(TaskPosted::Done) = table.post(&mut seat, CounterId::new(0)) else {
        return holds(&rt, false);
    };
    pool.give_seat(&rt, seat, loan);
    holds(&rt, pool.take_seat(&rt, &mut borrower).is_some());
    holds(&rt, pool.take_seat(&rt, &mut borrower).is_none());
}

#[test]
fn seats_of_lists_are_lent(rt: HostRuntime) {
    let Ok((_, pool, mut borrower)) = pooled_list(&rt, rt.alloc(), 0, 1) else {
        return;
    };
    let Some((seat, loan)) = pool.take_seat(&rt, &mut borrower) else {
        return holds(&rt, false);
    };
    holds(&rt, pool.take_seat(&rt, &mut borrower).is_none());
    pool.give_seat(&rt, seat, loan);
    holds(&rt, pool.take_seat(&rt, &mut borrower).is_some());
    let Ok((_, pool, mut borrower)) = pooled_task_list(&rt, rt.alloc(), 0, 1) else {
        return;
    };
    holds(&rt, pool.take_seat(&rt, &mut borrower).is_some());
    holds(&rt, pool.take_seat(&rt, &mut borrower).is_none());
}

/// Borrows a seat so many times, and asks each time that nobody else has it.
fn borrows<R: Abort + Wait>(
    rt: &R,
    pool: &SeatPool<Seat, SemaTable>,
    borrower: Borrower<Seat, SemaTable>,
    has_it: &[AtomicU64; 2],
)
    requires { borrower.pool ≡ pool.now }
{
    let mut borrower = borrower;
    for _ in 0..TIMES {
        let Some((seat, loan)) = pool.take_seat(rt, &mut borrower) else {
            thread::yield_now();
            continue;
        };
        if let Some(has) = has_it.get(seat.id().number() as usize) {
            holds(rt, has.swap(1, SeqCst) == 0);
            has.store(0, SeqCst);
        }
        pool.give_seat(rt, seat, loan);
    }
}

/// Three threads, and two seats.
fn three_borrow<R: Abort + Threads + Wait + Sync>(
    rt: &R,
    pool: &SeatPool<Seat, SemaTable>,
    first: Borrower<Seat, SemaTable>,
    second: Borrower<Seat, SemaTable>,
    third: Borrower<Seat, SemaTable>,
    has_it: &[AtomicU64; 2],
)
    requires { (first.pool ≡ pool.now) × (second.pool ≡ pool.now) × (third.pool ≡ pool.now) }
{
    join(
        rt,
        move ||
            requires { first.pool ≡ pool.now }
        { borrows(rt, pool, first, has_it) },
        move ||
            requires { (second.pool ≡ pool.now) × (third.pool ≡ pool.now) }
        {
            join(
                rt,
                move ||
                    requires { second.pool ≡ pool.now }
                { borrows(rt, pool, second, has_it) },
                move ||
                    requires { third.pool ≡ pool.now }
                { borrows(rt, pool, third, has_it) },
            );
        },
    );
}

#[test]
fn no_two_threads_have_one_seat(rt: HostRuntime) {
    let Ok(settings) = settings(rt.alloc(), 2) else {
        return;
    };
    let Ok((_, pool, mut first)) = pooled_table(&rt, rt.alloc(), settings) else {
        return;
    };
    let second = pool.another(&mut first);
    let third = pool.another(&mut first);
    let mut last = pool.another(&mut first);
    let has_it = [AtomicU64::new(0), AtomicU64::new(0)];
    three_borrow(&rt, &pool, first, second, third, &has_it);
    holds(&rt, pool.take_seat(&rt, &mut last).is_some());
    holds(&rt, pool.take_seat(&rt, &mut last).is_some());
    holds(&rt, pool.take_seat(&rt, &mut last).is_none());
}
