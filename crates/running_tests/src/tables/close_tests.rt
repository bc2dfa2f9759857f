//! Tables that are closed: their counters' numbers, and what their seats added and were given.

ghost use Rattle.std.specs.Prelude.{◌≡◌, All};

use crate::tables::given::{
    Sizes, adds, counter, counts, gives_back, holds, last_seat, made, value,
};
use sema_table::{Closed, Entered, GaveUp, Seat, SemaTable, Sleeping};
use std::alloc::Global;
use std::process::Abort;
use std::sync::Wait;
use waiters::CounterId;

/// The last number of a counter.
fn ends_at(rt: &impl Abort, closed: &Closed, number: u32, value: u64) {
    assert!(rt; number < closed.counters());
    holds(rt, closed.value(CounterId::new(number)) == value);
}

/// How many units were added in all and how many given, and the last numbers of these counters.
pub(crate) fn adds_up(rt: &impl Abort, closed: &Closed, counts: (u64, u64), ends: &[(u32, u64)]) {
    holds(rt, (closed.releases(), closed.acquires()) == counts);
    for end in ends {
        ends_at(rt, closed, end.0, end.1);
    }
}

/// What the last seat does, where nobody waits.
#[derive(Clone, Copy, Drop)]
pub(crate) enum Act {
    /// Takes a unit from a counter.
    Takes(u32),
    /// Adds units to a counter.
    Adds(u32, u32),
    /// Waits on a counter, where there is no unit, and gives up.
    Leaves(u32),
    /// Has so many left to spend, and was given so many.
    Counts(u64, u64),
    /// Meets the one before it, which is the last one then. Both see the same number of counter 0.
    Meets,
}

fn meets(rt: &impl Abort, table: &SemaTable, seats: &mut Vec<Seat>, seat: Seat) -> Seat
    requires { (seat.table ≡ table.now) × All (λ s. s.table ≡ table.now) seats.old.items }
    ensures own { result.table ≡ table.now }
    ensures rest { All (λ s. s.table ≡ table.now) seats.new.items }
{
    let (mut one, mut other) = (seat, last_seat(rt, table, seats));
    table.meet(&mut one, &mut other);
    let told = value(rt, table, &mut one, 0);
    holds(rt, value(rt, table, &mut other, 0) == told);
    gives_back(rt, table, seats, one);
    other
}

fn gives_up<R: Abort + Wait>(rt: &R, table: &SemaTable, asleep: Sleeping) -> Seat
    requires { asleep.table ≡ table.now }
    ensures { result.table ≡ table.now }
{
    match table.leave(rt, asleep) {
        GaveUp::Left(seat) => seat,
        _other => panic!(rt; "its wait has left"),
    }
}

fn leaves<R: Abort + Wait>(rt: &R, table: &SemaTable, seat: Seat, number: u32) -> Seat
    requires { seat.table ≡ table.now }
    ensures { result.table ≡ table.now }
{
    match table.enter(rt, seat, counter(rt, table, number), false) {
        Entered::Asleep(asleep) => gives_up(rt, table, asleep),
        Entered::Taken(_seat) => panic!(rt; "there is a unit"),
    }
}

/// The act in a table that has the counters.
pub(crate) fn acts<R: Abort + Wait>(rt: &R, table: &SemaTable, seats: &mut Vec<Seat>, act: Act)
    requires { All (λ s. s.table ≡ table.now) seats.old.items }
    ensures { All (λ s. s.table ≡ table.now) seats.new.items }
{
    let seat = last_seat(rt, table, seats);
    let seat = match act {
        Act::Takes(number) => table.acquire(rt, seat, counter(rt, table, number), false),
        Act::Adds(number, units) => adds(rt, table, seat, number, units),
        Act::Leaves(number) => leaves(rt, table, seat, number),
        Act::Counts(left, taken) => {
            counts(rt, &seat, left, taken);
            seat
        }
        Act::Meets => meets(rt, table, seats, seat),
    };
    gives_back(rt, table, seats, seat);
}

pub(crate) fn act_all<R: Abort + Wait>(
    rt: &R,
    table: &SemaTable,
    seats: &mut Vec<Seat>,
    all: &[Act],
)
    requires { All (λ s. s.table ≡ table.now) seats.old.items }
    ensures { All (λ s. s.table ≡ table.now) seats.new.items }
{
    for act in all {
        acts(rt, table, seats, *act);
    }
}

/// Two seats that met go on.
const MEET: &[Act] = &[
    Act::Adds(0, 1),
    Act::Counts(9, 0),
    Act::Meets,
    Act::Takes(0),
    Act::Counts(10, 1),
    Act::Meets,
    Act::Counts(9, 0),
];

/// How many counters start at which number, and how many seats there are; what these do; then how many units
/// are added and how many given, and the last numbers of the counters.
type Row = (
    (usize, u32, u32),
    &'static [Act],
    (u64, u64),
    &'static [(u32, u64)],
);

/// A wait that is withdrawn is spent, and adds no unit.
const LEAVE: &[Act] = &[
    Act::Leaves(0),
    Act::Counts(9, 0),
    Act::Adds(0, 2),
    Act::Counts(7, 0),
    Act::Takes(0),
];

static ROWS: [Row; 5] = [
    ((2, 7, 3), &[], (0, 0), &[(0, 7), (1, 7)]),
    (
        (2, 3, 2),
        &[Act::Takes(0), Act::Adds(1, 2)],
        (2, 1),
        &[(0, 2), (1, 5)],
    ),
    (
        (1, 0, 2),
        &[Act::Adds(0, 2), Act::Adds(0, 3), Act::Takes(0)],
        (5, 1),
        &[(0, 4)],
    ),
    ((1, 0, 2), MEET, (1, 1), &[(0, 0)]),
    ((1, 0, 2), LEAVE, (2, 1), &[(0, 1)]),
];

/// The table of a row, closed after all.
fn closes<R: Abort + Wait>(rt: &R, alloc: Global, row: &Row) -> Closed {
    let (counters, start, count) = row.0;
    let sizes = Sizes {
        counters,
        start,
        seats: count,
        roots: 251,
        release_limit: 10,
    };
    let (table, mut seats) = made(rt, alloc, &sizes);
    act_all(rt, &table, &mut seats, row.1);
    assert!(rt; seats.len() == table.seats() as usize);
    table.close(seats)
}

#[test]
fn closed_tables_add_up(rt: HostRuntime) {
    for row in &ROWS {
        let closed = closes(&rt, rt.alloc(), row);
        holds(&rt, closed.counters() as usize == row.0.0);
        adds_up(&rt, &closed, row.2, row.3);
    }
}
