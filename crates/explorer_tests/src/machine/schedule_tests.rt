//! Schedules on one counter that are known by hand, with the worlds that they lead to and their journals.

use crate::machine::story::{Line, Story, plays};
use step_core::{Phase, Row};

static SCHEDULES: [Story; 3] = [
    // The release comes between the two looks of the acquire.
    Story {
        text: "roots 1\ncounter 0\nseat 0: acquire 0\nseat 1: release 0\nsettled\n",
        schedule: &[0, 1, 1, 0, 0, 0, 0, 0, 0],
        seats: &[(0, Phase::Ended), (1, Phase::Ended)],
        counters: &[(0, 0, &[])],
        told: &[Line::Add(0, 1), Line::Take(0, 0)],
    },
    // Seats 0 and 1 sleep, seat 2 hands its unit to the first of them.
    Story {
        text: "roots 1\ncounter 0\nseat 0: acquire 0\nseat 1: acquire 0\nseat 2: release 0 handoff\nsettled\n",
        schedule: &[0, 0, 0, 0, 0, 1, 1, 1, 1, 1, 2, 2, 2, 2, 2, 2, 2, 2, 2, 0],
        seats: &[(0, Phase::Ended), (1, Phase::At(Row::P))],
        counters: &[(0, 0, &[(1, 0)])],
        told: &[
            Line::Queue(0, (0, 0)),
            Line::Queue(0, (1, 0)),
            Line::Add(0, 2),
            Line::Leave(0, (0, 0), 2),
            Line::Take(0, 0),
        ],
    },
    // Seats 0 to 2 sleep, and seat 3 releases two units: it wakes the first two of them.
    Story {
        text: "roots 1\ncounter 0\nseat 0: acquire 0\nseat 1: acquire 0\nseat 2: acquire 0\nseat 3: release 0 many 2\n\
               settled\n",
        schedule: &[
            0, 0, 0, 0, 0, 1, 1, 1, 1, 1, 2, 2, 2, 2, 2, 3, 3, 3, 3, 3, 3, 3, 3, 3,
        ],
        seats: &[(0, Phase::At(Row::P)), (3, Phase::Ended)],
        counters: &[(0, 2, &[(2, 0)])],
        told: &[
            Line::Queue(0, (0, 0)),
            Line::Queue(0, (1, 0)),
            Line::Queue(0, (2, 0)),
            Line::AddMany(0, 2, 3),
            Line::Leave(0, (0, 0), 3),
            Line::Leave(0, (1, 0), 3),
        ],
    },
];

#[test]
fn schedules_lead_to_their_ends(rt: HostRuntime) {
    for story in &SCHEDULES {
        plays(&rt, rt.alloc(), story);
    }
}
