//! What threads do with the members of a wait group.

use crate::parts::group_given::{Answer, Call, Member};
use crate::tables::given::{holds, is_reached};
use std::process::Abort;
use std::sync::Wait;
use std::sync::atomic::{AtomicU64, Ordering};
use std::thread::{JoinHandle, Scope};

/// What a thread does.
#[derive(Clone, Copy, Drop)]
pub(crate) enum Part<'s> {
    Waits,
    /// Adds 1, and takes it off again.
    Adds,
    /// Adds its share to a sum, and is done.
    Works(u64, &'s AtomicU64),
    /// Sets the first flag, sees the second one, and is done.
    Signals(&'s AtomicU64, &'s AtomicU64),
}

/// What a thread comes back with.
#[derive(Drop)]
pub(crate) struct Back<'g> {
    pub(crate) member: Member<'g>,
    /// What its first call was answered.
    pub(crate) first: Answer,
    /// What its last call was answered.
    pub(crate) last: Answer,
}

/// What comes before the last call of a part, and the answer to its first call.
fn begins<R: Abort + Wait>(rt: &R, member: &mut Member<'_>, part: Part<'_>) -> Answer {
    match part {
        Part::Waits => member.calls(rt, Call::Wait),
        Part::Adds => member.calls(rt, Call::Add(1)),
        Part::Works(share, sum) => {
            sum.fetch_add(share, Ordering::SeqCst);
            Ok(0)
        }
        Part::Signals(mine, other) => {
            mine.store(1, Ordering::SeqCst);
            holds(rt, is_reached(other, 1));
            Ok(0)
        }
    }
}

/// The last call of a part, which began with a call that was answered so.
fn ends<R: Abort + Wait>(rt: &R, member: &mut Member<'_>, part: Part<'_>, first: Answer) -> Answer {
    match part {
        Part::Waits => first,
        Part::Adds => member.calls(rt, Call::Done),
        Part::Works(..) | Part::Signals(..) => Ok(member.finishes(rt)),
    }
}

fn acts<'g, R: Abort + Wait>(rt: &R, member: Member<'g>, part: Part<'_>) -> Back<'g> {
    let mut member = member;
    let first = begins(rt, &mut member, part);
    let last = ends(rt, &mut member, part, first);
    Back {
        member,
        first,
        last,
    }
}

/// Starts a thread, asked for once more where none was made.
pub(crate) fn begin<'s, E, R: Abort + Wait + Sync>(
    rt: &'s R,
    scope: &'s Scope<'s, E>,
    member: Member<'s>,
    part: Part<'s>,
) -> JoinHandle<Back<'s>> {
    match scope.spawn(move || acts(rt, member, part)) {
        Ok(handle) => handle,
        Err(refused) => match scope.spawn(refused.value) {
            Ok(handle) => handle,
            Err(_refused) => panic!(rt; "no thread was made"),
        },
    }
}
