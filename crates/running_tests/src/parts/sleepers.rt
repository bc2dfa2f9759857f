//! Those who wait on a condition variable.

use crate::parts::actor::{Actor, reaches};
use crate::tables::given::holds;
use std::process::Abort;
use std::sync::Wait;
use std::sync::atomic::Ordering::SeqCst;

/// A late one may begin to wait.
pub(crate) const MAY_COME: u64 = 1;
/// Nobody is to wait any more.
pub(crate) const ALL_DONE: u64 = 2;

/// Waits so many times.
pub(crate) fn sleeps<R: Abort + Wait>(rt: &R, actor: &mut Actor<'_>, times: u64) {
    actor.locks(rt);
    for _ in 0..times {
        actor.waits(rt);
    }
    actor.unlocks(rt);
}

/// Waits once, after so many were signalled to, and comes back after these and before all others.
pub(crate) fn sleeps_after<R: Abort + Wait>(rt: &R, actor: &mut Actor<'_>, before: u64) {
    reaches(rt, &actor.marks.told, before);
    actor.locks(rt);
    actor.waits(rt);
    holds(rt, actor.marks.woke.load(SeqCst) == before.wrapping_add(1));
    actor.unlocks(rt);
}

/// Waits once, and tells when it is back.
pub(crate) fn sleeps_first<R: Abort + Wait>(rt: &R, actor: &mut Actor<'_>) {
    sleeps(rt, actor, 1);
    actor.marks.first.store(1, SeqCst);
}

/// Begins to wait once it may, and waits until all is done.
pub(crate) fn sleeps_late<R: Abort + Wait>(rt: &R, actor: &mut Actor<'_>) {
    reaches(rt, &actor.marks.told, MAY_COME);
    sleeps_until_done(rt, actor);
}

/// Waits until all is done.
pub(crate) fn sleeps_until_done<R: Abort + Wait>(rt: &R, actor: &mut Actor<'_>) {
    actor.locks(rt);
    for _ in rt.forever() {
        if actor.marks.told.load(SeqCst) == ALL_DONE {
            break;
        }
        actor.waits(rt);
    }
    actor.unlocks(rt);
}
