//! What is printed. A call that answers want of memory is made once more.

use crate::assertion::holds;
use std::alloc::Global;
use std::fmt::Display;
use std::process::Abort;
use step_core::{CounterId, GroupId, ListId, RunRefused, ScenarioRefused, SeatId, StepRefused};

fn text_of(alloc: Global, told: &impl Display) -> Option<String> {
    format!(in alloc; "{told}").ok()
}

/// This is printed so.
pub(crate) fn is_printed(rt: &impl Abort, alloc: Global, told: &impl Display, text: &str) {
    let printed = match text_of(alloc, told) {
        Some(printed) => printed,
        None => text_of(alloc, told).expect(rt, "memory"),
    };
    holds(rt, printed.as_str() == text);
}

static OF_PARTS: [(ScenarioRefused, &str); 3] = [
    (ScenarioRefused::OutOfLimits, "out of limits"),
    (ScenarioRefused::Undeclared, "undeclared"),
    (ScenarioRefused::Ticket, "ticket"),
];

static OF_RUNS: [(usize, StepRefused, &str); 6] = [
    (0, StepRefused::NoSuchSeat, "step 0: no such seat"),
    (1, StepRefused::SeatEnded, "step 1: the seat has ended"),
    (2, StepRefused::LockHeld, "step 2: the lock is held"),
    (15, StepRefused::Asleep, "step 15: the seat is asleep"),
    (4, StepRefused::SeatFailed, "step 4: the seat has failed"),
    (5, StepRefused::NoMemory, "step 5: no memory"),
];

#[test]
fn refusals_are_printed(rt: HostRuntime) {
    for row in &OF_PARTS {
        is_printed(&rt, rt.alloc(), &row.0, row.1);
    }
    for (at, cause, text) in &OF_RUNS {
        let refused = RunRefused {
            at: *at,
            cause: *cause,
        };
        is_printed(&rt, rt.alloc(), &refused, text);
    }
}

#[test]
fn names_are_printed(rt: HostRuntime) {
    is_printed(&rt, rt.alloc(), &ListId::new(4), "4");
    is_printed(&rt, rt.alloc(), &GroupId::new(15), "15");
}

#[test]
fn numbers_are_tuples(rt: HostRuntime) {
    let (counter, seat) = (CounterId(4_294_967_295), SeatId(65_535));
    let (list, group) = (ListId(1), GroupId(2));
    holds(
        &rt,
        (counter.0, seat.0, list.0, group.0) == (4_294_967_295, 65_535, 1, 2),
    );
}
