//! A test's calls as lines of a table, and who makes them, one after the other. A body that makes the calls
//! itself is as much to prove for each as this one is for all.

use crate::list::*;
use crate::*;
use c_calls::SeatHandle;
use c_calls::codes::*;
use std::alloc::Global;
use std::process::Abort;

/// A call of an export, with what it is passed beside the handle and a place for what it tells.
pub enum Call {
    Free,
    Number,
    TryAcquire(u32),
    Enter(u32, bool),
    Poll,
    Leave,
    Retry,
    Post(u32),
    PostMany(u32, u32),
    Wake(bool),
    WakeSome,
    WakeSomeWithoutRoom,
    Value(u32),
    WaitersOfRoot(u32),
    ListFree,
    ListNumber,
    ListAdd,
    ListTryWait,
    ListPoll,
    ListLeave,
    ListOne,
    ListAll,
    ListAllWithoutRoom,
    /// With what stands in the place before the call.
    ListQuiet(bool),
}

/// Which of the handles makes a call, its code, and what is told: `UNTOLD` where nothing is.
pub type Line = (usize, Call, u32, u64);

/// What stands where a number is told to, before a call. No seat, ticket or count in the tests is this one.
pub const UNTOLD: u64 = 9;

/// Makes the calls, and ends the test where one answers something else than its line.
pub fn play(rt: &impl Abort, alloc: Global, seats: &mut [SeatHandle], lines: &[Line]) {
    for (seat, call, code, told) in lines {
        assert!(rt; *seat < seats.len());
        let mut found = UNTOLD;
        is(rt, ask(alloc, &mut seats[*seat], call, &mut found), *code);
        assert!(rt; found == *told);
    }
}

/// Ends the test where the code is another one.
pub fn is(rt: &impl Abort, code: u32, wanted: u32) {
    assert!(rt; code == wanted);
}

/// Settings that make no table or list, unless memory lacks before they are looked at.
pub fn is_refused(rt: &impl Abort, code: u32, wanted: u32) {
    assert!(rt; code == wanted || code == NO_MEMORY);
}

fn ask(alloc: Global, seat: &mut SeatHandle, call: &Call, told: &mut u64) -> u32 {
    match call {
        Call::Free => parklot_free(alloc, seat),
        Call::Number => number(seat, told),
        Call::TryAcquire(counter) => parklot_try_acquire(seat, *counter),
        Call::Enter(counter, lifo) => parklot_enter(seat, *counter, *lifo),
        Call::Poll => parklot_poll(seat),
        Call::Leave => parklot_leave(seat),
        Call::Retry => parklot_retry(seat),
        Call::Post(counter) => parklot_post(seat, *counter),
        Call::PostMany(counter, units) => parklot_post_many(seat, *counter, *units),
        Call::Wake(handoff) => wake(seat, *handoff, told),
        Call::WakeSome => wake_some(seat, told),
        Call::WakeSomeWithoutRoom => wake_without_room(seat, told),
        Call::Value(counter) => parklot_value(seat, *counter, told),
        Call::WaitersOfRoot(counter) => parklot_waiters_of_root(seat, *counter, told),
        Call::ListFree => parklot_list_free(alloc, seat),
        Call::ListNumber => list_number(seat, told),
        Call::ListAdd => parklot_list_add(seat, told),
        Call::ListTryWait => parklot_list_try_wait(seat),
        Call::ListPoll => parklot_list_poll(seat),
        Call::ListLeave => parklot_list_leave(seat),
        Call::ListOne => list_one(seat, told),
        Call::ListAll => list_all(seat, told),
        Call::ListAllWithoutRoom => list_all_without_room(seat, told),
        Call::ListQuiet(before) => list_quiet(seat, *before, told),
    }
}

fn number(seat: &mut SeatHandle, told: &mut u64) -> u32 {
    let mut number = UNTOLD as u32;
    let code = parklot_number(seat, &mut number);
    *told = u64::from(number);
    code
}

fn list_number(seat: &mut SeatHandle, told: &mut u64) -> u32 {
    let mut number = UNTOLD as u32;
    let code = parklot_list_number(seat, &mut number);
    *told = u64::from(number);
    code
}

fn wake(seat: &mut SeatHandle, handoff: bool, told: &mut u64) -> u32 {
    let mut woken = UNTOLD as u32;
    let code = parklot_wake(seat, handoff, &mut woken);
    *told = u64::from(woken);
    code
}

fn list_one(seat: &mut SeatHandle, told: &mut u64) -> u32 {
    let mut woken = UNTOLD as u32;
    let code = parklot_list_one(seat, &mut woken);
    *told = u64::from(woken);
    code
}

/// The only seat that a call of many names, with nothing written behind it; or how many it names.
fn named(room: &[u32; 256], count: u32) -> u64 {
    if count == 1 && u64::from(room[1]) == UNTOLD {
        return u64::from(room[0]);
    }
    1000 + u64::from(count)
}

fn wake_some(seat: &mut SeatHandle, told: &mut u64) -> u32 {
    let (mut room, mut count) = ([UNTOLD as u32; 256], 0);
    let code = parklot_wake_some(seat, &mut room, &mut count);
    *told = named(&room, count);
    code
}

fn list_all(seat: &mut SeatHandle, told: &mut u64) -> u32 {
    let (mut room, mut count) = ([UNTOLD as u32; 256], 0);
    let code = parklot_list_all(seat, &mut room, &mut count);
    *told = named(&room, count);
    code
}

fn wake_without_room(seat: &mut SeatHandle, told: &mut u64) -> u32 {
    let mut count = UNTOLD as u32;
    let code = parklot_wake_some(seat, &mut [], &mut count);
    *told = u64::from(count);
    code
}

fn list_all_without_room(seat: &mut SeatHandle, told: &mut u64) -> u32 {
    let mut count = UNTOLD as u32;
    let code = parklot_list_all(seat, &mut [], &mut count);
    *told = u64::from(count);
    code
}

/// Tells 1 where all tickets are granted, and 0 where not.
fn list_quiet(seat: &mut SeatHandle, before: bool, told: &mut u64) -> u32 {
    let mut quiet = before;
    let code = parklot_list_quiet(seat, &mut quiet);
    *told = u64::from(quiet);
    code
}
