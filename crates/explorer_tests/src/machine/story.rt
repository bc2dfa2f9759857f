//! A schedule, and what is seen at its end. Which row each step runs is told by replays, and tested with
//! them.

use crate::assertion::holds;
use crate::machine::again::{run_again, waiting_again};
use crate::machine::given::{scenario, seat, seats_again};
use std::alloc::Global;
use std::process::Abort;
use step_core::{Entry, ListId, Phase, World};
use waiters::{CounterId, SeatId, WaitId};

/// An entry of a journal, by the numbers of its counter or list, its units and its seats. A wait is a seat
/// and its turn.
pub(crate) enum Line {
    Add(u32, u16),
    AddMany(u32, u32, u16),
    Take(u32, u16),
    Queue(u32, (u16, u64)),
    Leave(u32, (u16, u64), u16),
    Ticket(u32, u16),
    Grant(u32, u64, u16),
}

/// A scenario's text, the seats that step, and what is seen at the end.
pub(crate) struct Story {
    pub(crate) text: &'static str,
    pub(crate) schedule: &'static [u16],
    /// How far a seat has come.
    pub(crate) seats: &'static [(u16, Phase)],
    /// The number of a counter, and the waits of its list.
    pub(crate) counters: &'static [(u32, u64, &'static [(u16, u64)])],
    /// The whole journal.
    pub(crate) told: &'static [Line],
}

fn wait(wait: (u16, u64)) -> WaitId {
    WaitId {
        seat: seat(wait.0),
        turn: wait.1,
    }
}

fn entry(line: &Line) -> Entry {
    match *line {
        Line::Add(counter, seat) => Entry::Add(CounterId::new(counter), SeatId::new(seat)),
        Line::AddMany(counter, units, seat) => Entry::AddMany(
            CounterId::new(counter),
            units,
            SeatId::new(seat),
        ),
        Line::Take(counter, seat) => Entry::Take(CounterId::new(counter), SeatId::new(seat)),
        Line::Queue(counter, late) => Entry::Queue(CounterId::new(counter), wait(late), false),
        Line::Leave(counter, first, seat) => Entry::Leave(
            CounterId::new(counter),
            wait(first),
            SeatId::new(seat),
        ),
        Line::Ticket(list, seat) => Entry::Ticket(ListId::new(list), SeatId::new(seat)),
        Line::Grant(list, granted, seat) => Entry::Grant(
            ListId::new(list),
            granted,
            SeatId::new(seat),
        ),
    }
}

fn are_told(journal: &[Entry], told: &[Line]) -> bool {
    for (found, line) in journal.iter().zip(told) {
        if *found != entry(line) {
            return false;
        }
    }
    journal.len() == told.len()
}

fn are_waits(waits: &[WaitId], expected: &[(u16, u64)]) -> bool {
    for (found, expected) in waits.iter().zip(expected) {
        if *found != wait(*expected) {
            return false;
        }
    }
    waits.len() == expected.len()
}

fn has_come(world: &World<'_>, number: u16, far: Phase) -> bool {
    (number as usize) < world.scenario().seats() && world.phase(seat(number)) == far
}

fn has_number(world: &World<'_>, counter: u32, number: u64) -> bool {
    (counter as usize) < world.scenario().semaphores()
        && world.value(CounterId::new(counter)) == number
}

/// The counter has this number, and its list these waits.
fn counts(rt: &impl Abort, alloc: Global, world: &World<'_>, counter: &(u32, u64, &[(u16, u64)])) {
    let waits = waiting_again(rt, alloc, world, counter.0);
    holds(
        rt,
        has_number(world, counter.0, counter.1) && are_waits(&waits, counter.2),
    );
}

/// The world shows what is seen at the end of the story.
pub(crate) fn shows(rt: &impl Abort, alloc: Global, world: &World<'_>, story: &Story) {
    for row in story.seats {
        holds(rt, has_come(world, row.0, row.1));
    }
    for counter in story.counters {
        counts(rt, alloc, world, counter);
    }
    holds(rt, are_told(world.journal(), story.told));
}

/// The schedule runs, and its end is seen.
pub(crate) fn plays(rt: &impl Abort, alloc: Global, story: &Story) {
    let scenario = scenario(rt, alloc, story.text);
    let schedule = seats_again(rt, alloc, story.schedule);
    let world = run_again(alloc, &scenario, &schedule).expect(rt, "a run");
    shows(rt, alloc, &world, story);
}
