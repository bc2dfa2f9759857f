//! Notify lists: schedules that are known by hand, and how tickets are ordered.

use crate::assertion::holds;
use crate::machine::story::{Line, Story, plays};
use step_core::{Phase, Row, less};

static NOTIFIED: [Story; 3] = [
    // seat 1 sleeps with ticket 1; seat 2 grants ticket 0, finds nobody, and seat 0 need not sleep
    Story {
        text: "roots 1\nlist 0\nseat 0: add 0; wait 0\nseat 1: add 0; wait 0\nseat 2: one 0\nsettled\n",
        schedule: &[0, 1, 1, 1, 1, 2, 2, 2, 2, 2, 2, 2, 0, 0, 0],
        seats: &[(0, Phase::Ended), (1, Phase::At(Row::P)), (2, Phase::Ended)],
        counters: &[],
        told: &[Line::Ticket(0, 0), Line::Ticket(0, 1), Line::Grant(0, 1, 2)],
    },
    // seats 0 to 2 take tickets, 0 and 1 sleep, and seat 3 notifies all; seat 2 need not sleep
    Story {
        text: "roots 1\nlist 0\nseat 0: add 0; wait 0\nseat 1: add 0; wait 0\nseat 2: add 0; wait 0\nseat 3: all 0\n\
               settled\n",
        schedule: &[
            0, 0, 0, 0, 1, 1, 1, 1, 2, 3, 3, 3, 3, 3, 3, 3, 3, 3, 2, 2, 2, 0, 1,
        ],
        seats: &[
            (0, Phase::Ended),
            (1, Phase::Ended),
            (2, Phase::Ended),
            (3, Phase::Ended),
        ],
        counters: &[],
        told: &[
            Line::Ticket(0, 0),
            Line::Ticket(0, 1),
            Line::Ticket(0, 2),
            Line::Grant(0, 3, 3),
        ],
    },
    // the granted ticket is the last word, and the notify word wraps: its wait need not sleep
    Story {
        text: "roots 1\nlist 18446744073709551615\nseat 0: add 0; one 0; wait 0\nsettled\n",
        schedule: &[0; 11],
        seats: &[(0, Phase::Ended)],
        counters: &[],
        told: &[Line::Ticket(0, 0), Line::Grant(0, 1, 0)],
    },
];

#[test]
fn notifications_reach_tickets(rt: HostRuntime) {
    for story in &NOTIFIED {
        plays(&rt, rt.alloc(), story);
    }
}

/// Two tickets, and whether the first is before the other.
static ORDERED: [(u64, u64, bool); 5] = [
    (18_446_744_073_709_551_615, 0, true),
    (4_294_967_295, 0, false),
    (0, 9_223_372_036_854_775_808, true),
    (9_223_372_036_854_775_807, 0, false),
    (0, 0, false),
];

/// Two tickets are ordered by their difference as a signed number: half of all words come after each.
#[test]
fn tickets_are_ordered_by_their_difference(rt: HostRuntime) {
    for row in &ORDERED {
        holds(&rt, less(row.0, row.1) == row.2);
    }
}
