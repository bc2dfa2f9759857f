//! Threads that share a table, one for each seat. The table is closed with them: nobody is lost, and no unit
//! is.

use crate::tables::close_tests::{Act, act_all, adds_up};
use crate::tables::given::{Sizes, made};
use sema_table::Closed;
use sema_table_crew::{Way, Work, run};
use std::alloc::Global;
use std::process::Abort;
use std::sync::Wait;
use std::thread::Threads;
use waiters::NoMemory;

/// What the last seat begins with; then what the seats do, each in a thread of its own, and how often.
#[derive(Drop)]
struct Plan(Sizes, &'static [Act], Work, u32);

/// All seats work, and the table is closed with them.
fn works<R: Abort + Threads + Wait + Sync>(
    rt: &R,
    alloc: Global,
    plan: &Plan,
) -> Result<Closed, NoMemory> {
    let (table, mut seats) = made(rt, alloc, &plan.0);
    act_all(rt, &table, &mut seats, plan.1);
    assert!(rt; 0 < table.counters());
    run(rt, alloc, table, seats, plan.2, plan.3)
}

/// The same, once more where memory was refused.
fn works_again<R: Abort + Threads + Wait + Sync>(rt: &R, alloc: Global, plan: &Plan) -> Closed {
    match works(rt, alloc, plan) {
        Ok(closed) => closed,
        Err(NoMemory) => works(rt, alloc, plan).expect(rt, "memory and threads"),
    }
}

/// Two threads that hand over, for 10,000 times.
const TWO_HANDS: Sizes = Sizes {
    counters: 2,
    start: 0,
    seats: 2,
    roots: 1,
    release_limit: 20_002,
};

/// Four threads that lock three counters.
const FOUR_LOCKERS: Sizes = Sizes {
    counters: 3,
    start: 1,
    seats: 4,
    roots: 1,
    release_limit: 5_000,
};

/// Two threads that add to one counter.
const TWO_ADD: Sizes = Sizes {
    counters: 1,
    start: 0,
    seats: 2,
    roots: 251,
    release_limit: 1_000,
};

/// Ten threads that lock one.
const TEN_LOCKERS: Sizes = Sizes {
    counters: 1,
    start: 1,
    seats: 10,
    roots: 251,
    release_limit: 1_000,
};

const ONE_UNIT: &[Act] = &[Act::Adds(0, 1)];

const TWO_UNITS: &[Act] = &[Act::Adds(0, 2)];

const IN_ORDER: Work = Work::Hands(Way {
    lifo: false,
    handoff: false,
});

const IN_FRONT: Work = Work::Hands(Way {
    lifo: true,
    handoff: false,
});

const HANDED: Work = Work::Hands(Way {
    lifo: false,
    handoff: true,
});

/// What is done, how many units are added and how many given, and the last numbers of these counters.
type Row = (Plan, (u64, u64), &'static [(u32, u64)]);

static PLANS: [Row; 7] = [
    // a unit goes back and forth over two counters of one root
    (
        Plan(TWO_HANDS, ONE_UNIT, IN_ORDER, 10_000),
        (20_001, 20_000),
        &[(0, 1), (1, 0)],
    ),
    (
        Plan(TWO_HANDS, ONE_UNIT, IN_FRONT, 10_000),
        (20_001, 20_000),
        &[(0, 1), (1, 0)],
    ),
    (
        Plan(TWO_HANDS, ONE_UNIT, HANDED, 10_000),
        (20_001, 20_000),
        &[(0, 1), (1, 0)],
    ),
    // two units by one add
    (
        Plan(TWO_HANDS, TWO_UNITS, Work::HandsTwo, 10_000),
        (40_002, 40_000),
        &[(0, 2), (1, 0)],
    ),
    // nobody is lost
    (
        Plan(FOUR_LOCKERS, &[], Work::Locks, 5_000),
        (20_000, 20_000),
        &[(0, 1), (1, 1), (2, 1)],
    ),
    // no unit is lost
    (
        Plan(TWO_ADD, &[], Work::Adds, 1_000),
        (2_000, 0),
        &[(0, 2_000)],
    ),
    (
        Plan(TEN_LOCKERS, &[], Work::Locks, 1_000),
        (10_000, 10_000),
        &[(0, 1)],
    ),
];

#[test]
fn no_unit_and_nobody_is_lost(rt: HostRuntime) {
    for (plan, counts, ends) in &PLANS {
        let closed = works_again(&rt, rt.alloc(), plan);
        adds_up(&rt, &closed, *counts, ends);
    }
}
