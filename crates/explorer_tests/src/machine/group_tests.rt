//! Wait groups: who is released, and what is a misuse. With no counter declared the group's semaphore is the
//! first.

use crate::machine::story::{Line, Story, plays};
use step_core::{Misuse, Phase, Row};

/// Seat 0 adds, seat 1 goes to sleep, seat 0 makes two more adds, one of which releases it, and it wakes.
const RELEASED: &[u16] = &[
    0, 1, 1, 1, 1, 1, 1, 1, 0, 0, 0, 0, 0, 0, 0, 0, 0, 0, 0, 1, 1, 1, 1,
];

/// What such a sleep and such a release tell.
const TOLD: &[Line] = &[
    Line::Queue(0, (1, 0)),
    Line::Add(0, 0),
    Line::Leave(0, (1, 0), 0),
    Line::Take(0, 1),
];

static GROUPS: [Story; 5] = [
    // the last add releases the wait
    Story {
        text: "roots 1\ngroup\nseat 0: gadd 0 2; gadd 0 -1; gadd 0 -1\nseat 1: gwait 0\nsettled\n",
        schedule: RELEASED,
        seats: &[(0, Phase::Ended), (1, Phase::Ended)],
        counters: &[(0, 0, &[])],
        told: TOLD,
    },
    // it is used again before the wait has returned
    Story {
        text: "roots 1\ngroup\nseat 0: gadd 0 1; gadd 0 -1; gadd 0 1\nseat 1: gwait 0\nsettled\n",
        schedule: RELEASED,
        seats: &[(1, Phase::Failed(Misuse::Reused))],
        counters: &[(0, 0, &[])],
        told: TOLD,
    },
    // seat 0 counts down to 0 while seat 1 is counted; before it has looked at the word again, seat 2 counts
    // up
    Story {
        text: "roots 1\ngroup\nseat 0: gadd 0 1; gadd 0 -1\nseat 1: gwait 0\nseat 2: gadd 0 1\nsettled\n",
        schedule: &[0, 1, 1, 0, 2],
        seats: &[
            (0, Phase::At(Row::G2)),
            (1, Phase::At(Row::A1)),
            (2, Phase::Failed(Misuse::AddWithWait)),
        ],
        counters: &[(0, 0, &[])],
        told: &[],
    },
    // and then seat 0 finds another word than it left
    Story {
        text: "roots 1\ngroup\nseat 0: gadd 0 1; gadd 0 -1\nseat 1: gwait 0\nseat 2: gadd 0 1\nsettled\n",
        schedule: &[0, 1, 1, 0, 2, 0],
        seats: &[
            (0, Phase::Failed(Misuse::AddWithWait)),
            (2, Phase::Failed(Misuse::AddWithWait)),
        ],
        counters: &[(0, 0, &[])],
        told: &[],
    },
    // its number goes below 0
    Story {
        text: "roots 1\ngroup\nseat 0: gadd 0 -1\nsettled\n",
        schedule: &[0],
        seats: &[(0, Phase::Failed(Misuse::Negative))],
        counters: &[],
        told: &[],
    },
];

#[test]
fn groups_release_and_are_misused(rt: HostRuntime) {
    for story in &GROUPS {
        plays(&rt, rt.alloc(), story);
    }
}
