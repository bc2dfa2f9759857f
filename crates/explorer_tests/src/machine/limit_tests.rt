//! Parts at the limits of a scenario, and past them.

use crate::assertion::holds;
use std::alloc::{AllocError, Global};
use std::process::Abort;
use step_core::{Call, GroupId, Items, ListId, Parts, Scenario, ScenarioRefused};
use waiters::CounterId;

/// The call of a seat, by the numbers of its counter, list or group and its units.
enum Asked {
    Acquire(u32),
    Release(u32),
    ReleaseMany(u32, u32),
    Add(u32),
    Wait(u32),
    One(u32),
    All(u32),
    GroupAdd(u32, i32),
    GroupWait(u32),
}

/// So many roots, counters, lists, groups, seats, calls a seat, and the call that each makes; and why such
/// parts are refused, if they are.
type Row = (
    u32,
    usize,
    usize,
    u32,
    usize,
    usize,
    Asked,
    Option<ScenarioRefused>,
);

const OUTSIDE: Option<ScenarioRefused> = Some(ScenarioRefused::OutOfLimits);

const UNDECLARED: Option<ScenarioRefused> = Some(ScenarioRefused::Undeclared);

const TICKET: Option<ScenarioRefused> = Some(ScenarioRefused::Ticket);

static SIZES: [Row; 11] = [
    (1, 1, 0, 0, 1, 1, Asked::Release(0), None),
    (251, 16, 16, 16, 16, 32, Asked::Release(15), None),
    (0, 1, 0, 0, 1, 1, Asked::Release(0), OUTSIDE),
    (252, 1, 0, 0, 1, 1, Asked::Release(0), OUTSIDE),
    (1, 17, 0, 0, 1, 1, Asked::Release(0), OUTSIDE),
    (1, 1, 17, 0, 1, 1, Asked::Release(0), OUTSIDE),
    (1, 1, 0, 17, 1, 1, Asked::Release(0), OUTSIDE),
    (1, 1, 0, 0, 0, 1, Asked::Release(0), OUTSIDE),
    (1, 1, 0, 0, 17, 1, Asked::Release(0), OUTSIDE),
    (1, 1, 0, 0, 1, 0, Asked::Release(0), OUTSIDE),
    (1, 1, 0, 0, 1, 33, Asked::Release(0), OUTSIDE),
];

static ON_LISTS: [Row; 10] = [
    (1, 0, 16, 0, 16, 1, Asked::Add(15), None),
    (1, 0, 15, 0, 1, 1, Asked::Add(15), UNDECLARED),
    (1, 0, 15, 0, 1, 2, Asked::Add(15), UNDECLARED),
    (1, 0, 16, 0, 1, 2, Asked::Add(15), TICKET),
    (1, 0, 16, 0, 1, 1, Asked::Wait(15), TICKET),
    (1, 0, 1, 0, 1, 32, Asked::One(0), None),
    (1, 0, 1, 0, 1, 1, Asked::All(1), UNDECLARED),
    (1, 0, 1, 0, 1, 1, Asked::Wait(0), TICKET),
    (1, 0, 1, 0, 1, 2, Asked::Add(0), TICKET),
    (1, 0, 1, 0, 1, 1, Asked::Add(1), UNDECLARED),
];

static IN_GROUPS: [Row; 5] = [
    (1, 0, 0, 16, 1, 32, Asked::GroupWait(15), None),
    (1, 0, 0, 16, 1, 1, Asked::GroupWait(16), UNDECLARED),
    (1, 0, 0, 1, 1, 1, Asked::GroupAdd(0, i32::MIN), None),
    (1, 0, 0, 0, 1, 1, Asked::GroupAdd(0, 1), UNDECLARED),
    // the semaphore of a group is no counter that a call may name
    (1, 1, 0, 1, 1, 1, Asked::Release(1), UNDECLARED),
];

static ON_COUNTERS: [Row; 10] = [
    (1, 1, 0, 0, 1, 1, Asked::Acquire(0), None),
    (1, 1, 0, 0, 1, 1, Asked::ReleaseMany(0, 0), OUTSIDE),
    (1, 1, 0, 0, 1, 1, Asked::ReleaseMany(0, 1), None),
    (1, 1, 0, 0, 1, 1, Asked::ReleaseMany(0, 256), None),
    (1, 1, 0, 0, 1, 1, Asked::ReleaseMany(0, 257), OUTSIDE),
    (1, 1, 0, 0, 1, 1, Asked::ReleaseMany(1, 257), OUTSIDE),
    (1, 1, 0, 0, 1, 1, Asked::ReleaseMany(1, 1), UNDECLARED),
    (0, 16, 0, 0, 1, 1, Asked::Release(16), OUTSIDE),
    (1, 16, 0, 0, 1, 1, Asked::Release(16), UNDECLARED),
    (1, 0, 0, 0, 1, 1, Asked::Release(0), UNDECLARED),
];

fn call(asked: &Asked) -> Call {
    match *asked {
        Asked::Acquire(counter) => Call::Acquire(CounterId::new(counter), true),
        Asked::Release(counter) => Call::Release(CounterId::new(counter), true),
        Asked::ReleaseMany(counter, units) => Call::ReleaseMany(CounterId::new(counter), units),
        Asked::Add(list) => Call::Add(ListId::new(list)),
        Asked::Wait(list) => Call::Wait(ListId::new(list)),
        Asked::One(list) => Call::One(ListId::new(list)),
        Asked::All(list) => Call::All(ListId::new(list)),
        Asked::GroupAdd(group, units) => Call::GroupAdd(GroupId::new(group), units),
        Asked::GroupWait(group) => Call::GroupWait(GroupId::new(group)),
    }
}

/// Puts the item so many times at the end. What is refused for want of memory is put once more.
pub(crate) fn fill<T: Copy + Drop>(rt: &impl Abort, items: &mut Items<T>, item: T, times: usize) {
    for _ in 0..times {
        holds(
            rt,
            items.push_back(item).is_ok() || items.push_back(item).is_ok(),
        );
    }
}

fn script(rt: &impl Abort, alloc: Global, row: &Row) -> Items<Call> {
    let mut calls = Items::empty(alloc);
    fill(rt, &mut calls, call(&row.6), row.5);
    calls
}

/// The calls of all seats.
fn scripts(rt: &impl Abort, alloc: Global, row: &Row) -> Result<Vec<Items<Call>>, AllocError> {
    let mut scripts = Vec::new(alloc);
    for _ in 0..row.4 {
        scripts.push(script(rt, alloc, row))?;
    }
    Ok(scripts)
}

fn scripts_again(rt: &impl Abort, alloc: Global, row: &Row) -> Vec<Items<Call>> {
    match scripts(rt, alloc, row) {
        Ok(scripts) => scripts,
        Err(_) => scripts(rt, alloc, row).expect(rt, "scripts"),
    }
}

fn sized(rt: &impl Abort, alloc: Global, row: &Row) -> Parts {
    let mut starts = Items::empty(alloc);
    fill(rt, &mut starts, 0, row.1);
    let mut firsts = Items::empty(alloc);
    fill(rt, &mut firsts, 0, row.2);
    Parts {
        roots: row.0,
        starts,
        firsts,
        groups: row.3,
        calls: Items::new(scripts_again(rt, alloc, row)),
    }
}

fn are_judged(rt: &impl Abort, alloc: Global, rows: &[Row]) {
    for row in rows {
        holds(rt, Scenario::of(sized(rt, alloc, row)).err() == row.7);
    }
}

#[test]
fn parts_are_held_to_the_limits(rt: HostRuntime) {
    are_judged(&rt, rt.alloc(), &SIZES);
    are_judged(&rt, rt.alloc(), &ON_LISTS);
    are_judged(&rt, rt.alloc(), &IN_GROUPS);
    are_judged(&rt, rt.alloc(), &ON_COUNTERS);
}
