//! The text of a scenario, and what is asked of it.

use crate::shortage::rounds::{Attempt, Call as Asked, FINE, answered, is_refused_then_answers};
use scenario_text::{Cause, Property, ReadFault, SpelledRequest, read_scenario};
use std::alloc::Global;
use step_table::{Call, GroupId, ListId, Parts};
use waiters::CounterId;

/// Of three lines, so that nothing that was read grows.
const SHORT: &str = "counter 0\nseat 0: acquire 0\nsettled\n";

fn is_the_short(request: &SpelledRequest) -> bool {
    let parts = &request.parts;
    let calls = parts.calls.as_slice();
    parts.roots == 251
        && parts.starts.as_slice() == [0].as_slice()
        && parts.firsts.len() == 0
        && parts.groups == 0
        && calls.len() == 1
        && calls[0].as_slice() == [Call::Acquire(CounterId(0), false)].as_slice()
        && request.property == Property::Settled
}

/// Of seven lines, and of more calls than are first reserved.
const LONG: &str = "roots 3\ncounter 4\nlist 9\ngroup\n\
                    seat 0: acquire 0 lifo; add 0; wait 0; gadd 0 -2; gwait 0\nseat 1: release 0\nvalue 0 4\n";

const CALLS: [Call; 5] = [
    Call::Acquire(CounterId(0), true),
    Call::Add(ListId(0)),
    Call::Wait(ListId(0)),
    Call::GroupAdd(GroupId(0), -2),
    Call::GroupWait(GroupId(0)),
];

fn has_calls(parts: &Parts) -> bool {
    let calls = parts.calls.as_slice();
    calls.len() == 2
        && calls[0].as_slice() == CALLS.as_slice()
        && calls[1].as_slice() == [Call::Release(CounterId(0), false)].as_slice()
}

fn is_the_long(request: &SpelledRequest) -> bool {
    let parts = &request.parts;
    parts.roots == 3
        && parts.starts.as_slice() == [4].as_slice()
        && parts.firsts.as_slice() == [9].as_slice()
        && parts.groups == 1
        && has_calls(parts)
        && request.property == Property::Value(CounterId(0), 4)
}

/// What a read of so many lines came to, but for a request.
fn refused(fault: ReadFault, lines: usize) -> Attempt {
    let is_short = fault.cause == Cause::NoMemory && 1 <= fault.line && fault.line <= lines;
    if is_short {
        Attempt::Refused
    } else {
        Attempt::Wrong
    }
}

#[derive(Drop)]
struct ReadingShort;

impl Asked for ReadingShort {
    fn attempt(&mut self, alloc: Global) -> Attempt {
        match read_scenario(alloc, SHORT.as_bytes()) {
            Ok(request) => answered(is_the_short(&request)),
            Err(fault) => refused(fault, 3),
        }
    }
}

#[derive(Drop)]
struct ReadingLong;

impl Asked for ReadingLong {
    fn attempt(&mut self, alloc: Global) -> Attempt {
        match read_scenario(alloc, LONG.as_bytes()) {
            Ok(request) => answered(is_the_long(&request)),
            Err(fault) => refused(fault, 7),
        }
    }
}

#[test]
fn a_text_is_refused_or_read(rt: HostRuntime) {
    is_refused_then_answers(&rt, rt.alloc(), FINE, &mut ReadingShort);
    is_refused_then_answers(&rt, rt.alloc(), FINE, &mut ReadingLong);
}
