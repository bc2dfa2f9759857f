//! Calls of a root, and what is asked of it after them.

use crate::roots::given::holds;
use sema_root::RootStore;
use std::alloc::Global;
use std::process::Abort;
use waiters::{CounterId, NoMemory, SeatId, Wait, WaitId};

/// The wait of a seat, its first.
pub fn wait(seat: u16) -> Wait {
    Wait {
        id: WaitId {
            seat: SeatId::new(seat),
            turn: 0,
        },
        ticket: 0,
    }
}

/// The counter of this number.
pub fn counter(number: u32) -> CounterId {
    CounterId::new(number)
}

// Each test is in parts, since a body with many steps is slow to prove, above all where it owns a root.

/// A wait of this seat comes in at a counter, where there is room.
pub fn queue<R: RootStore>(root: &mut R, number: u32, seat: u16, lifo: bool) {
    if !root.is_full() {
        root.queue(counter(number), wait(seat), lifo);
    }
}

/// How many wait on the counter, and who is the first of them.
pub fn has<R: RootStore>(
    rt: &impl Abort,
    root: &R,
    number: u32,
    waiting: usize,
    first: Option<Wait>,
) {
    holds(rt, root.waiting(counter(number)) == waiting);
    holds(rt, root.first(counter(number)) == first);
}

/// Whether these wait on the counter.
fn has_ids<R: RootStore>(
    alloc: Global,
    root: &R,
    number: u32,
    expected: &[WaitId],
) -> Result<bool, NoMemory> {
    let ids = root.ids(alloc, counter(number))?;
    Ok(ids.as_slice() == expected)
}

/// Whether these wait on the counter, asked for once more where memory was refused.
pub fn has_ids_again<R: RootStore>(
    alloc: Global,
    root: &R,
    number: u32,
    expected: &[WaitId],
) -> bool {
    match has_ids(alloc, root, number, expected) {
        Ok(told) => told,
        Err(NoMemory) => has_ids(alloc, root, number, expected) == Ok(true),
    }
}

/// A call of a root.
pub enum Call {
    /// The wait of a seat comes in at a counter, as the first or as the last.
    Queue(u32, u16, bool),
    /// The wait of this seat comes out at a counter, or none.
    Dequeue(u32, Option<u16>),
    /// So many wait on a counter, the first of them of this seat.
    Has(u32, usize, Option<u16>),
    /// So many wait in all.
    Count(usize),
    Full(bool),
}

/// The wait of the seat, if there is one.
fn wait_of(seat: Option<u16>) -> Option<Wait> {
    match seat {
        Some(seat) => Some(wait(seat)),
        None => None,
    }
}

/// The call is answered as it says.
pub fn make_call<R: RootStore>(rt: &impl Abort, root: &mut R, call: &Call) {
    match *call {
        Call::Queue(number, seat, lifo) => queue(root, number, seat, lifo),
        Call::Dequeue(number, seat) => {
            holds(rt, root.dequeue(counter(number)) == wait_of(seat));
        }
        Call::Has(number, waiting, first) => has(rt, root, number, waiting, wait_of(first)),
        Call::Count(count) => holds(rt, root.count() == count),
        Call::Full(full) => holds(rt, root.is_full() == full),
    }
}

/// Each of the calls is.
pub fn make_calls<R: RootStore>(rt: &impl Abort, root: &mut R, calls: &[Call]) {
    for made in calls {
        make_call(rt, root, made);
    }
}

/// Four waits come in, after which the root is full.
pub static COMES_IN: [Call; 8] = [
    Call::Queue(5, 0, false),
    Call::Queue(3, 1, false),
    Call::Queue(9, 2, false),
    Call::Full(false),
    Call::Queue(3, 3, true),
    Call::Full(true),
    Call::Count(4),
    Call::Has(3, 2, Some(3)),
];

/// Those of one counter come out.
pub static COMES_OUT: [Call; 7] = [
    Call::Dequeue(3, Some(3)),
    Call::Dequeue(3, Some(1)),
    Call::Dequeue(3, None),
    Call::Dequeue(7, None),
    Call::Count(2),
    Call::Has(5, 1, Some(0)),
    Call::Has(3, 0, None),
];
