//! Wait groups in one thread.

use crate::parts::group_given::{Answer, Call, Member, Team, made};
use crate::tables::given::holds;
use std::alloc::Global;
use std::process::Abort;
use std::sync::Wait;
use sync_parts::Misuse;

const MOST_LEFT: u64 = 1 << 40;

/// Whose call it is.
#[derive(Clone, Copy, Drop)]
enum Who {
    First,
    Second,
}

/// A call, and what it is answered.
type Row = (Who, Call, Answer);

/// The two make the calls in their order.
fn make_calls<R: Abort + Wait>(
    rt: &R,
    first: &mut Member<'_>,
    second: &mut Member<'_>,
    rows: &[Row],
) {
    for row in rows {
        match row.0 {
            Who::First => first.answers(rt, row.1, row.2),
            Who::Second => second.answers(rt, row.1, row.2),
        }
    }
}

/// The calls in their order, by the two seats of a new group. None of them releases a wait.
fn answers<R: Abort + Wait>(rt: &R, alloc: Global, rows: &[Row]) {
    let (group, seats) = made(rt, alloc, 2);
    let mut team = Team::new(&group, seats);
    let mut second = team.member(rt);
    let mut first = team.member(rt);
    make_calls(rt, &mut first, &mut second, rows);
    holds(rt, first.left(rt) == MOST_LEFT);
    holds(rt, second.left(rt) == MOST_LEFT);
}

const COUNTS_DOWN: [Row; 4] = [
    (Who::First, Call::Add(2), Ok(0)),
    (Who::First, Call::Done, Ok(0)),
    (Who::First, Call::Done, Ok(0)),
    (Who::Second, Call::Wait, Ok(0)),
];

// The word keeps what the misused add made of it, and the seat goes on.
const GOES_BELOW_ZERO: [Row; 4] = [
    (Who::First, Call::Add(-1), Err(Misuse::Negative)),
    (Who::First, Call::Done, Err(Misuse::Negative)),
    (Who::First, Call::Add(2), Ok(0)),
    (Who::First, Call::Wait, Ok(0)),
];

const WRAPS: [Row; 4] = [
    (Who::First, Call::Add(i32::MAX), Ok(0)),
    (Who::First, Call::Add(1), Err(Misuse::Negative)),
    (Who::First, Call::Add(i32::MIN), Ok(0)),
    (Who::First, Call::Wait, Ok(0)),
];

const ADDS_NOTHING: [Row; 6] = [
    (Who::Second, Call::Wait, Ok(0)),
    (Who::First, Call::Add(0), Ok(0)),
    (Who::Second, Call::Wait, Ok(0)),
    (Who::First, Call::Add(1), Ok(0)),
    (Who::First, Call::Add(0), Ok(0)),
    (Who::First, Call::Done, Ok(0)),
];

static TABLES: [&[Row]; 4] = [&COUNTS_DOWN, &GOES_BELOW_ZERO, &WRAPS, &ADDS_NOTHING];

#[test]
fn calls_are_answered(rt: HostRuntime) {
    for rows in &TABLES {
        answers(&rt, rt.alloc(), rows);
    }
}
