//! Four threads add to one number by loads and stores, under a lock: no increment is lost.

ghost use Rattle.std.specs.Prelude.{◌≡◌, ◌<◌, length, All};

use crate::tables::given::holds;
use examples::add_many;
use sema_table::{Seat, SemaTable, Settings};
use std::alloc::{AllocError, Global};
use std::process::Abort;
use std::sync::Wait;
use std::sync::atomic::AtomicU64;
use std::sync::atomic::Ordering::SeqCst;
use std::test::Fail;
use std::thread::{Threads, join};

const TIMES: u32 = 10_000;

pub(crate) fn last_seat(rt: &impl Abort, table: &SemaTable, seats: &mut Vec<Seat>) -> Seat
    requires { All (λ s. s.table ≡ table.now) seats.old.items }
    ensures own { result.table ≡ table.now }
    ensures rest { All (λ s. s.table ≡ table.now) seats.new.items }
{
    seats.pop().expect(rt, "a seat")
}

fn two_add<R: Threads + Wait + Sync>(
    rt: &R,
    table: &SemaTable,
    number: &AtomicU64,
    first: Seat,
    second: Seat,
)
    requires own { (first.table ≡ table.now) × (second.table ≡ table.now) }
    requires there { 0 < length table.now.setting.starts }
{
    join(
        rt,
        move ||
            requires { (first.table ≡ table.now) × (0 < length table.now.setting.starts) }
        { add_many(rt, table, first, number, TIMES) },
        move ||
            requires { (second.table ≡ table.now) × (0 < length table.now.setting.starts) }
        { add_many(rt, table, second, number, TIMES) },
    );
}

fn four_add<R: Abort + Threads + Wait + Sync>(
    rt: &R,
    table: &SemaTable,
    number: &AtomicU64,
    seats: Vec<Seat>,
)
    requires own { All (λ s. s.table ≡ table.now) seats.items }
    requires there { 0 < length table.now.setting.starts }
{
    let mut seats = seats;
    let first = last_seat(rt, table, &mut seats);
    let second = last_seat(rt, table, &mut seats);
    let third = last_seat(rt, table, &mut seats);
    let fourth = last_seat(rt, table, &mut seats);
    join(
        rt,
        move ||
            requires { (first.table ≡ table.now) × (second.table ≡ table.now)
                × (0 < length table.now.setting.starts) }
        { two_add(rt, table, number, first, second) },
        move ||
            requires { (third.table ≡ table.now) × (fourth.table ≡ table.now)
                × (0 < length table.now.setting.starts) }
        { two_add(rt, table, number, third, fourth) },
    );
}

fn settings(alloc: Global, seats: u32, release_limit: u64) -> Result<Settings, AllocError> {
    Ok(Settings {
        starts: vec![in alloc; 1]?,
        seats,
        roots: 1,
        seed: 0,
        release_limit,
    })
}

#[test]
fn no_increment_of_four_threads_is_lost(rt: HostRuntime) -> Result<(), Fail> {
    let (table, seats) = SemaTable::new(rt.alloc(), settings(rt.alloc(), 4, 1 << 40)?)?;
    assert!(rt; table.counters() == 1);
    let number = AtomicU64::new(0);
    four_add(&rt, &table, &number, seats);
    assert!(rt; number.load(SeqCst) == 40_000);
    Ok(())
}

/// One adds three times, and then more often than it may.
fn adds_up_to_the_limit<R: Abort + Wait>(rt: &R, table: &SemaTable, seat: Seat)
    requires { (seat.table ≡ table.now) × (0 < length table.now.setting.starts) }
{
    let number = AtomicU64::new(0);
    let seat = add_many(rt, table, seat, &number, 3);
    holds(rt, seat.left() == 7 && seat.taken() == 3);
    holds(rt, number.load(SeqCst) == 3);
    let seat = add_many(rt, table, seat, &number, 20);
    holds(rt, seat.left() == 0 && seat.taken() == 10);
    holds(rt, number.load(SeqCst) == 10);
}

#[test]
fn a_seat_adds_no_more_often_than_it_may(rt: HostRuntime) -> Result<(), Fail> {
    let (table, mut seats) = SemaTable::new(rt.alloc(), settings(rt.alloc(), 1, 10)?)?;
    assert!(rt; table.counters() == 1);
    let seat = last_seat(&rt, &table, &mut seats);
    adds_up_to_the_limit(&rt, &table, seat);
    Ok(())
}
