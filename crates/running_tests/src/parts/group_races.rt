//! An add that may run beside a wait, or begin a new round before a wait has come back: misuses, which each
//! call that meets one answers.

use crate::parts::group_given::{Answer, Call, Member, Team};
use crate::parts::group_parts::{Back, Part, begin};
use crate::tables::given::holds;
use std::process::Abort;
use std::sync::Wait;
use std::thread::{JoinHandle, Scope, Threads};
use sync_parts::Misuse;

/// Whether an add that began at 0 or more may be answered so.
fn is_beside(answer: Answer) -> bool {
    answer.is_ok() || answer == Err(Misuse::AddWithWait)
}

/// Whether an add that was no misuse has spoiled no other call.
fn agree(added: Answer, done: Answer, last: Answer) -> bool {
    let none_spoiled = added == Ok(0) && done.is_ok() && last.is_ok();
    is_beside(last) && (added == Err(Misuse::AddWithWait) || none_spoiled)
}

/// Whether the wait came back in time, or was told that it didn't.
fn may_be_reused(answer: Answer) -> bool {
    answer == Ok(0) || answer == Err(Misuse::Reused)
}

/// The end of a round for which one waits, beside one who may begin another: what all three are answered.
fn ends_beside<'g, R: Abort + Threads + Wait>(
    rt: &R,
    first: &mut Member<'g>,
    waiter: JoinHandle<Back<'g>>,
    adder: JoinHandle<Back<'g>>,
) {
    let last = first.calls(rt, Call::Done);
    let adder = adder.join(rt);
    holds(rt, agree(adder.first, adder.last, last));
    let waiter = waiter.join(rt);
    holds(rt, may_be_reused(waiter.last));
}

/// A member ends a round for which another waits, while a third may begin one more. Whatever comes first, all
/// come back.
pub(crate) fn races<'s, E, R: Abort + Threads + Wait + Sync>(
    rt: &'s R,
    scope: &'s Scope<'s, E>,
    first: &mut Member<'s>,
    team: &mut Team<'s>,
) {
    first.answers(rt, Call::Add(1), Ok(0));
    let waiter = begin(rt, scope, team.member(rt), Part::Waits);
    let adder = begin(rt, scope, team.member(rt), Part::Adds);
    ends_beside(rt, first, waiter, adder);
}

/// Ends a round for which another waits, begins one more at once, and ends it. The wait that was released may
/// find that one; it changes nothing, so the new round ends without it.
fn goes_on<'g, R: Abort + Threads + Wait>(
    rt: &R,
    first: &mut Member<'g>,
    waiter: JoinHandle<Back<'g>>,
) -> Member<'g> {
    let released = first.finishes(rt);
    first.answers(rt, Call::Add(1), Ok(0));
    if released == 0 {
        first.finishes(rt);
    }
    let Back { member, last, .. } = waiter.join(rt);
    if released == 0 {
        holds(rt, last == Ok(0));
    } else {
        holds(rt, may_be_reused(last));
        holds(rt, first.finishes(rt) == 0);
    }
    member
}

/// A round that is begun before a wait of the last one is back, and then nothing to wait for.
pub(crate) fn begins_anew<'s, E, R: Abort + Threads + Wait + Sync>(
    rt: &'s R,
    scope: &'s Scope<'s, E>,
    first: &mut Member<'s>,
    team: &mut Team<'s>,
) {
    first.answers(rt, Call::Add(1), Ok(0));
    let waiter = begin(rt, scope, team.member(rt), Part::Waits);
    let mut second = goes_on(rt, first, waiter);
    first.answers(rt, Call::Wait, Ok(0));
    second.answers(rt, Call::Wait, Ok(0));
}
