//! Which seats' steps are known to commute.

use crate::assertion::holds;
use crate::machine::again::{copied_moment, moment_again, moments_key};
use crate::machine::given::{all_step, scenario, seat};
use std::alloc::Global;
use std::process::Abort;
use step_core::{Moment, Scenario};
use waiters::SeatId;

/// Two counters at 0 of one root.
const ON_ONE_ROOT: &str = "\
roots 1
counter 0
counter 0
list 0
seat 0: acquire 0
seat 1: acquire 0
seat 2: acquire 1
seat 3: release 0
seat 4: release 0
seat 5: one 0
settled
";

/// The same, each with a root of its own.
const ON_TWO_ROOTS: &str = "\
roots 2
counter 0
counter 0
list 0
seat 0: acquire 0
seat 1: acquire 0
seat 2: acquire 1
seat 3: release 0
seat 4: release 0
seat 5: one 0
settled
";

/// Two lists and two groups, and a counter at 1. Each seat has calls on parts of its own and on those of
/// others.
const ON_PARTS: &str = "\
roots 1
counter 1
list 18446744073709551615
list 0
group
group
seat 0: add 0; wait 0
seat 1: one 0
seat 2: all 0
seat 3: one 1
seat 4: acquire 0
seat 5: gadd 0 1
seat 6: gwait 0
seat 7: gwait 0
seat 8: gadd 1 1
settled
";

/// The seats that step, and then of pairs of seats whether their steps are known to commute.
type Asked = (&'static [u16], &'static [(u16, u16, bool)]);

/// Seats 0 and 1 acquire the first counter and seat 2 the other; seats 3 and 4 release the first; seat 5 is
/// on a list.
static ONE_ROOT: [Asked; 3] = [
    (
        &[],
        &[
            // reads of one number, and rows on two
            (0, 1, true),
            (0, 2, true),
            (2, 3, true),
            // a number that one of them changes, and both
            (0, 3, false),
            (3, 4, false),
            // a counter and a list
            (0, 5, true),
            // a seat with itself, and one past the last
            (0, 0, false),
            (0, 6, false),
        ],
    ),
    // both acquires at the lock, and a release at the waiter word
    (&[0, 2, 3], &[(0, 2, false), (0, 3, true), (2, 3, true)]),
    // one acquire raises the waiter word, the other is at the lock; two releases look at the waiter word
    (&[0, 4], &[(0, 2, true), (0, 3, false), (3, 4, true)]),
];

static TWO_ROOTS: [Asked; 4] = [
    // at two locks, and then at two waiter words
    (&[0, 2], &[(0, 2, true)]),
    (&[0, 2], &[(0, 2, true)]),
    // one is at a row that changes its list, the other before its second look; then both are at such rows
    (&[0, 0, 2], &[(0, 2, true)]),
    (&[2], &[(0, 2, false)]),
];

/// On the first list seat 0 takes a ticket and waits, seat 1 notifies one and seat 2 all; seat 3 notifies one
/// on the other list. Seat 4 is on a counter. Seat 5 adds to the first group, seats 6 and 7 wait for it, and
/// seat 8 adds to the other.
static LISTS_AND_GROUPS: [Asked; 4] = [
    (
        &[],
        &[
            // one takes a ticket where the others look, which both do
            (0, 1, false),
            (0, 2, false),
            (1, 2, true),
            // two lists, two groups, and parts of two kinds
            (0, 3, true),
            (5, 8, true),
            (3, 4, true),
            (0, 5, true),
            (4, 6, true),
            // one adds to a group at which the others look
            (5, 6, false),
            (6, 7, true),
            (0, 0, false),
            (5, 5, false),
        ],
    ),
    // a look at the notify word beside the taking of a ticket; and a seat that has ended
    (&[1, 6], &[(0, 1, true), (4, 6, false)]),
    // two at the lock of one list, and one at its notify word
    (&[0, 2, 2], &[(0, 2, false), (0, 1, true), (1, 2, true)]),
    // one of them has the lock and looks at the notify word
    (&[0], &[(0, 1, true), (0, 2, true)]),
];

/// Whether the moment answers so of the pair, in both orders.
fn is_answered(moment: &Moment<'_>, pair: &(u16, u16, bool)) -> bool {
    let (early, late) = (seat(pair.0), seat(pair.1));
    moment.commute(early, late) == pair.2 && moment.commute(late, early) == pair.2
}

/// Each of the seats makes a step, and then the moment answers so of each pair.
fn answers(rt: &impl Abort, moment: &mut Moment<'_>, asked: &Asked) {
    holds(rt, all_step(moment, asked.0));
    for pair in asked.1 {
        holds(rt, is_answered(moment, pair));
    }
}

fn answers_all(rt: &impl Abort, alloc: Global, text: &str, all: &[Asked]) {
    let scenario = scenario(rt, alloc, text);
    let mut moment = moment_again(rt, alloc, &scenario);
    for asked in all {
        answers(rt, &mut moment, asked);
    }
}

/// Rows on different words commute; on two roots where one of them has no lists; and on lists and groups
/// where they share no word.
#[test]
fn rows_commute_where_they_share_no_word(rt: HostRuntime) {
    answers_all(&rt, rt.alloc(), ON_ONE_ROOT, &ONE_ROOT);
    answers_all(&rt, rt.alloc(), ON_TWO_ROOTS, &TWO_ROOTS);
    answers_all(&rt, rt.alloc(), ON_PARTS, &LISTS_AND_GROUPS);
}

/// The key once both seats have stepped from the moment, if they can.
fn key_after(
    rt: &impl Abort,
    alloc: Global,
    moment: &Moment<'_>,
    first: SeatId,
    second: SeatId,
) -> Option<Vec<u64>> {
    let mut moment = copied_moment(rt, alloc, moment);
    if moment.step(first).is_err() || moment.step(second).is_err() {
        return None;
    }
    Some(moments_key(rt, alloc, &moment))
}

/// Where the steps of the two seats are said to commute, and the late one can come first, both orders lead to
/// one key.
fn meet(rt: &impl Abort, alloc: Global, moment: &Moment<'_>, early: SeatId, late: SeatId) -> bool {
    if !moment.commute(early, late) {
        return false;
    }
    let turned = key_after(rt, alloc, moment, late, early);
    if turned.is_none() {
        return false;
    }
    holds(rt, key_after(rt, alloc, moment, early, late) == turned);
    true
}

/// How many pairs of these seats meet so in the moment.
fn meetings(rt: &impl Abort, alloc: Global, moment: &Moment<'_>, seats: u16) -> u64 {
    let mut met = 0_u64;
    for early in 0..seats {
        for late in 0..seats {
            met = met.wrapping_add(u64::from(meet(rt, alloc, moment, seat(early), seat(late))));
        }
    }
    met
}

/// How many pairs meet so on a schedule that these bits choose.
fn walk(rt: &impl Abort, alloc: Global, scenario: &Scenario, bits: u64) -> u64 {
    let mut moment = moment_again(rt, alloc, scenario);
    let (mut met, mut bits) = (0_u64, bits);
    for _ in 0..48 {
        met = met.wrapping_add(meetings(rt, alloc, &moment, 6));
        bits = bits.wrapping_mul(6_364_136_223_846_793_005).wrapping_add(1);
        let _ = moment.step(seat(((bits >> 33) % 6) as u16));
    }
    met
}

/// The same parts. Each of six seats has calls on parts of its own and on those of others.
const OF_SIX_SEATS: &str = "\
roots 1
counter 1
list 18446744073709551615
list 0
group
group
seat 0: add 0; wait 0; acquire 0
seat 1: add 0; wait 0; gadd 0 -1
seat 2: one 0; all 0
seat 3: one 1; gwait 0; one 0
seat 4: gadd 0 2; all 0; gadd 0 -1; release 0
seat 5: acquire 0; gadd 1 1; gwait 0
settled
";

#[test]
fn steps_that_commute_lead_to_one_key_in_both_orders(rt: HostRuntime) {
    let scenario = scenario(&rt, rt.alloc(), OF_SIX_SEATS);
    let mut met = 0_u64;
    for bits in 0..24 {
        met = met.wrapping_add(walk(&rt, rt.alloc(), &scenario, bits));
    }
    holds(&rt, met > 1_000);
}
