//! Threads that wait on a condition variable and are woken. Afterwards their sums are compared: who locked
//! has unlocked.

use crate::parts::cast::perform_again;
use crate::parts::play::Play;
use crate::parts::wakers::Wakes;
use crate::tables::given::holds;
use std::alloc::Global;
use std::process::Abort;
use std::sync::Wait;
use std::thread::Threads;

/// A play, how often it is played, and how often the lock is locked at least and at most.
type Row = (Play, u32, u64, u64);

static PLAYS: [Row; 6] = [
    // each of two that wait locks twice, and the one who signals twice
    (Play::OneByOne, 1, 6, 6),
    // a signal is not for who comes after it
    (Play::InTurn, 1, 96, 96),
    // each of eight locks once and after each of five waits, and the one who broadcasts five times
    (Play::Together, 1, 53, 53),
    // a late one takes no signal, and no broadcast
    (Play::BesideALateOne(Wakes::One), 100, 5, 7),
    (Play::BesideALateOne(Wakes::All), 100, 5, 7),
    // all come back once all is done
    (Play::UntilDone, 100, 4, 7),
];

/// Each play that is played in this round. The lock is unlocked as often as it was locked.
fn plays<R: Abort + Threads + Wait + Sync>(rt: &R, alloc: Global, round: u32) {
    for row in &PLAYS {
        let (play, rounds, least, most) = *row;
        if round < rounds {
            let played = perform_again(rt, alloc, play);
            let (locked, unlocked) = played.expect(rt, "memory and threads");
            holds(rt, unlocked == locked);
            holds(rt, least <= locked && locked <= most);
        }
    }
}

#[test]
fn who_waits_is_woken(rt: HostRuntime) {
    // round after round, so that the first allocations are those of each play
    for round in 0..100 {
        plays(&rt, rt.alloc(), round);
    }
}
