//! The table at work, step by step.
ghost use Rattle.std.specs.Prelude.{◌≡◌, ◌<◌, length};

use sema_table::{Entered, Polled, Posted, Seat, SemaTable, Sleeping, Tried};
use std::sync::Wait;
use waiters::CounterId;

/// A release of counter 0.
#[inline]
fn release<R: Wait>(rt: &R, table: &SemaTable, seat: Seat) -> Seat
    requires { (seat.table ≡ table.now) × (0 < length table.now.setting.starts) }
    ensures own { result.table ≡ table.now }
    ensures less { 0 < seat.left → result.left < seat.left }
{
    match table.post(seat, CounterId::new(0)) {
        Ok(Posted::Done(seat)) => seat,
        Ok(Posted::Owes(owing)) => table.wake(rt, owing, false).0,
        // its limit is reached: nothing was added
        Err((seat, _)) => seat,
    }
}

/// Adds a unit and takes it again, until the seat may add no more.
#[inline(never)]
pub fn pairs<R: Wait>(rt: &R, table: &SemaTable, seat: Seat) -> Seat
    requires { (seat.table ≡ table.now) × (0 < length table.now.setting.starts) }
    ensures { result.table ≡ table.now }
{
    let mut seat = seat;
    while seat.left() > 0 {
        seat = release(rt, table, seat);
        match table.try_acquire(&mut seat, CounterId::new(0)) {
            Tried::Taken => {}
            Tried::Zero | Tried::Lost => return seat,
        }
    }
    seat
}

/// Polls and tries until the seat has its unit.
fn rouse<R: Wait>(rt: &R, table: &SemaTable, sleeping: Sleeping) -> Seat
    requires { (sleeping.table ≡ table.now) × (0 < length table.now.setting.starts) }
    ensures { result.table ≡ table.now }
{
    let mut sleeping = sleeping;
    for _ in rt.forever() {
        sleeping = match table.poll(sleeping) {
            Polled::Still(sleeping) => sleeping,
            Polled::Handed(seat) => return seat,
            Polled::Woken(woken) => match table.retry(rt, woken) {
                Entered::Taken(seat) => return seat,
                Entered::Asleep(sleeping) => sleeping,
            },
        };
    }
    unreachable!()
}

/// The first seat queues its wait, the second wakes it, and the first takes the unit.
#[inline]
fn cycle<R: Wait>(rt: &R, table: &SemaTable, first: Seat, second: Seat) -> (Seat, Seat)
    requires { (first.table ≡ table.now) × (second.table ≡ table.now)
        × (0 < length table.now.setting.starts) }
    ensures { (result.0.table ≡ table.now) × (result.1.table ≡ table.now) }
{
    match table.enter(rt, first, CounterId::new(0), false) {
        Entered::Taken(first) => (first, second),
        Entered::Asleep(sleeping) => {
            let second = release(rt, table, second);
            (rouse(rt, table, sleeping), second)
        }
    }
}

/// So many cycles.
#[inline(never)]
pub fn cycles<R: Wait>(
    rt: &R,
    table: &SemaTable,
    first: Seat,
    second: Seat,
    turns: u32,
) -> (Seat, Seat)
    requires { (first.table ≡ table.now) × (second.table ≡ table.now)
        × (0 < length table.now.setting.starts) }
    ensures { (result.0.table ≡ table.now) × (result.1.table ≡ table.now) }
{
    let mut first = first;
    let mut second = second;
    for _ in 0..turns {
        (first, second) = cycle(rt, table, first, second);
    }
    (first, second)
}
