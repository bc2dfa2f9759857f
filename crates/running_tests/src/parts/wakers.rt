//! Those who wake who waits on a condition variable.

use crate::parts::actor::{Actor, reaches};
use crate::parts::sleepers::{ALL_DONE, MAY_COME};
use crate::tables::given::holds;
use std::process::Abort;
use std::sync::Wait;
use std::sync::atomic::Ordering::SeqCst;

/// Signals so many times, once as many wait: each wakes one, and one more nobody.
pub(crate) fn signals<R: Abort + Wait>(rt: &R, actor: &mut Actor<'_>, sleepers: u64) {
    reaches(rt, &actor.marks.came, sleepers);
    for awake in 0..sleepers {
        actor.locks(rt);
        holds(rt, actor.marks.woke.load(SeqCst) == awake);
        holds(rt, actor.signals(rt) == Some(awake));
        actor.unlocks(rt);
        reaches(rt, &actor.marks.woke, awake + 1);
    }
    holds(rt, actor.marks.woke.load(SeqCst) == sleepers);
    holds(rt, actor.signals(rt) == None);
    holds(rt, actor.broadcasts(rt) == 0);
}

/// Signals to each of so many once it waits; then the next may come.
pub(crate) fn signals_in_turn<R: Abort + Wait>(rt: &R, actor: &mut Actor<'_>, sleepers: u64) {
    for before in 0..sleepers {
        reaches(rt, &actor.marks.woke, before);
        reaches(rt, &actor.marks.came, before + 1);
        actor.locks(rt);
        holds(rt, actor.signals(rt) == Some(before));
        actor.marks.told.store(before + 1, SeqCst);
        actor.unlocks(rt);
    }
}

/// Broadcasts so many times, each time once so many wait, and wakes them all.
pub(crate) fn broadcasts<R: Abort + Wait>(
    rt: &R,
    actor: &mut Actor<'_>,
    sleepers: u32,
    times: u32,
) {
    let mut before = 0_u64;
    for _ in 0..times {
        let all = before.wrapping_add(u64::from(sleepers));
        reaches(rt, &actor.marks.came, all);
        actor.locks(rt);
        holds(rt, actor.marks.woke.load(SeqCst) == before);
        holds(rt, actor.broadcasts(rt) == sleepers);
        actor.unlocks(rt);
        before = all;
    }
}

/// How somebody is woken while another begins to wait.
#[derive(Clone, Copy, Drop)]
pub(crate) enum Wakes {
    One,
    All,
}

/// Whether who came first is woken, and at most one more.
fn is_woken<R: Abort + Wait>(rt: &R, actor: &mut Actor<'_>, wakes: Wakes) -> bool {
    match wakes {
        Wakes::One => actor.signals(rt) == Some(0),
        Wakes::All => matches!(actor.broadcasts(rt), 1 | 2),
    }
}

/// Wakes who waits first while another begins to wait: that one is woken in any case. Then nobody is to wait
/// any more.
pub(crate) fn wakes_the_first<R: Abort + Wait>(rt: &R, actor: &mut Actor<'_>, way: Wakes) {
    reaches(rt, &actor.marks.came, 1);
    // Locked once: who came first sleeps then, or is about to, with the first ticket.
    actor.locks(rt);
    actor.unlocks(rt);
    actor.marks.told.store(MAY_COME, SeqCst);
    holds(rt, is_woken(rt, actor, way));
    reaches(rt, &actor.marks.first, 1);
    ends(rt, actor);
}

/// Tells that nobody is to wait any more, and wakes all.
pub(crate) fn ends<R: Abort + Wait>(rt: &R, actor: &mut Actor<'_>) {
    actor.locks(rt);
    actor.marks.told.store(ALL_DONE, SeqCst);
    actor.unlocks(rt);
    actor.broadcasts(rt);
}
