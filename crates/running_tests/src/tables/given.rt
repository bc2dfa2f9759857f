//! What the tests start from: tables, and their seats.
//!
//! What answers want of memory is made once more.

ghost use Rattle.std.specs.Prelude.{◌≡◌, ◌<◌, length, All, IfOk};

use sema_table::{Seat, SemaTable, Settings, SetupError, Tried};
use std::alloc::Global;
use std::process::Abort;
use std::sync::Wait;
use std::sync::atomic::{AtomicU64, Ordering};
use std::thread;
use waiters::CounterId;

/// An assertion. One that stands in a function of its own is proved once: `assert!` makes each body larger.
pub(crate) fn holds(rt: &impl Abort, told: bool) {
    assert!(rt; told);
}

/// The settings of a table whose counters start at one number.
#[derive(Drop)]
pub(crate) struct Sizes {
    pub(crate) counters: usize,
    pub(crate) start: u32,
    pub(crate) seats: u32,
    pub(crate) roots: u32,
    pub(crate) release_limit: u64,
}

/// One counter at this number, so many seats, and else what tests don't ask for.
pub(crate) fn one_counter(start: u32, seats: u32) -> Sizes {
    Sizes {
        counters: 1,
        start,
        seats,
        roots: 251,
        release_limit: 10,
    }
}

fn new_table(alloc: Global, sizes: &Sizes) -> Result<(SemaTable, Vec<Seat>), SetupError>
    ensures { IfOk result (λ t. All (λ s. s.table ≡ t.0) t.1.items) }
{
    let Ok(starts) = vec![in alloc; sizes.start; sizes.counters] else {
        return Err(SetupError::NoMemory);
    };
    let settings = Settings {
        starts,
        seats: sizes.seats,
        roots: sizes.roots,
        seed: 1,
        release_limit: sizes.release_limit,
    };
    SemaTable::new(alloc, settings)
}

/// The table and its seats, asked for once more where memory was refused.
pub(crate) fn new_again(alloc: Global, sizes: &Sizes) -> Result<(SemaTable, Vec<Seat>), SetupError>
    ensures { IfOk result (λ t. All (λ s. s.table ≡ t.0) t.1.items) }
{
    match new_table(alloc, sizes) {
        Err(SetupError::NoMemory) => new_table(alloc, sizes),
        answer => answer,
    }
}

/// The same, of settings that make a table.
pub(crate) fn made(rt: &impl Abort, alloc: Global, sizes: &Sizes) -> (SemaTable, Vec<Seat>)
    ensures { All (λ s. s.table ≡ result.0) result.1.items }
{
    new_again(alloc, sizes).expect(rt, "a table")
}

/// Takes the last seat. A new table's seats are in the order of their numbers.
pub(crate) fn last_seat(rt: &impl Abort, table: &SemaTable, seats: &mut Vec<Seat>) -> Seat
    requires { All (λ s. s.table ≡ table.now) seats.old.items }
    ensures own { result.table ≡ table.now }
    ensures rest { All (λ s. s.table ≡ table.now) seats.new.items }
{
    seats.pop().expect(rt, "a seat")
}

/// Gives a seat back to those that it was taken from.
pub(crate) fn gives_back(rt: &impl Abort, table: &SemaTable, seats: &mut Vec<Seat>, seat: Seat)
    requires { (seat.table ≡ table.now) × All (λ s. s.table ≡ table.now) seats.old.items }
    ensures { All (λ s. s.table ≡ table.now) seats.new.items }
{
    seats
        .push(seat)
        .expect(rt, "the room of a seat that was there");
}

/// The counter of this number, which the table has.
pub(crate) fn counter(rt: &impl Abort, table: &SemaTable, number: u32) -> CounterId
    ensures { result < length table.now.setting.starts }
{
    assert!(rt; number < table.counters());
    CounterId::new(number)
}

pub(crate) fn value(rt: &impl Abort, table: &SemaTable, seat: &mut Seat, number: u32) -> u64
    requires { seat.old.table ≡ table.now }
    ensures { seat.new.table ≡ table.now }
{
    let at = counter(rt, table, number);
    table.value(seat, at)
}

/// How many wait at the counter's root.
pub(crate) fn waiters(rt: &impl Abort, table: &SemaTable, seat: &mut Seat, number: u32) -> u64
    requires { seat.old.table ≡ table.now }
    ensures { seat.new.table ≡ table.now }
{
    let at = counter(rt, table, number);
    table.waiters_of_root(seat, at)
}

pub(crate) fn tried(rt: &impl Abort, table: &SemaTable, seat: &mut Seat, number: u32) -> Tried
    requires { seat.old.table ≡ table.now }
    ensures { seat.new.table ≡ table.now }
{
    let at = counter(rt, table, number);
    table.try_acquire(seat, at)
}

/// The seat adds units by one add, which it may, and wakes whom it can.
pub(crate) fn adds<R: Abort + Wait>(
    rt: &R,
    table: &SemaTable,
    seat: Seat,
    number: u32,
    units: u32,
) -> Seat
    requires { seat.table ≡ table.now }
    ensures { result.table ≡ table.now }
{
    assert!(rt; 1 <= units && units <= 256);
    let at = counter(rt, table, number);
    match table.release_many(rt, seat, at, units) {
        Ok((seat, _woken)) => seat,
        Err(_refused) => panic!(rt; "no units were added"),
    }
}

/// How many units the seat may add, and how many it was given.
pub(crate) fn counts(rt: &impl Abort, seat: &Seat, left: u64, taken: u64) {
    holds(rt, seat.left() == left && seat.taken() == taken);
}

/// Whether the mark is at least this before many looks.
pub(crate) fn is_reached(mark: &AtomicU64, least: u64) -> bool {
    for _ in 0..10_000_000 {
        if mark.load(Ordering::SeqCst) >= least {
            return true;
        }
        thread::yield_now();
    }
    false
}
