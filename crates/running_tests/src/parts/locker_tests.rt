//! A locker that signals as it is unlocked: whoever it wakes has its ticket by then.

ghost use Rattle.std.specs.Prelude.{◌≡◌, ◌<◌, length, true, false};
ghost use Rattle.notify_list.specs.Tickets.{HasTicket};

use crate::parts::cond_given;
use crate::tables::given::{holds, last_seat, made, one_counter};
use sema_table::{Seat, SemaTable};
use std::alloc::Global;
use std::process::Abort;
use std::sync::Wait;
use std::time::{Clock, Duration, Instant};
use sync_parts::{Cond, Holding, ListSeat, Locker, LockerCall, SemaLock, Waited, WaitedUntil};
use waiters::CounterId;

/// It has a seat of the condition variable that waits on it.
#[derive(Drop)]
struct Signaller<'c, Q> {
    host: &'c Q,
    cond: &'c Cond,
    own: ListSeat,
    held: bool,
    calls: Vec<LockerCall>,
    /// What was granted by its signal.
    granted: Option<u64>,
    ghost ties: { own.list ≡ cond.now },
}

impl<'c, Q: Abort> Locker for Signaller<'c, Q> {
    ghost calls = { λ l. l.calls.items };

    ghost is_held = { λ l. l.held };

    ghost may_unlock = { λ l. 1 };

    ghost unlocks = { λ l holding m. (ticket : _) × HasTicket holding ticket };

    ghost locks = { λ l m. m.granted ≡ l.granted };

    ghost unlock_rows = { λ l m. Unit {0} };

    ghost lock_rows = { λ l m. Unit {0} };

    fn held(&self) -> bool {
        self.held
    }

    fn left(&self) -> u64 {
        1
    }

    fn unlock<R: Wait>(&mut self, rt: &R, holding: &Holding) {
        let _ = holding.ticket();
        self.held = false;
        self.granted = self.cond.signal(rt, &mut self.own);
        self.calls
            .push(LockerCall::Unlocked)
            .expect(self.host, "room for a call");
    }

    fn lock<R: Wait>(&mut self, _rt: &R, _seat: &ListSeat) {
        self.held = true;
        self.calls
            .push(LockerCall::Locked)
            .expect(self.host, "room for a call");
    }
}

fn waits<R: Abort + Clock + Wait>(
    rt: &R,
    cond: &Cond,
    first: ListSeat,
    second: ListSeat,
    calls: Vec<LockerCall>,
)
    requires { (first.list ≡ cond.now) × (second.list ≡ cond.now) }
{
    let mut locker = Signaller {
        host: rt,
        cond,
        own: second,
        held: true,
        calls,
        granted: None,
    };
    let past = Instant::now(rt).expect(rt, "a clock");
    let (first, waited) = cond.wait_until(rt, first, &mut locker, past);
    holds(rt, waited == WaitedUntil::AtOnce);
    holds(rt, locker.granted == Some(0));
    let (first, waited) = cond.wait_for(rt, first, &mut locker, Duration::ZERO);
    holds(rt, waited == WaitedUntil::AtOnce);
    holds(rt, locker.granted == Some(1));
    let (_first, waited) = cond.wait(rt, first, &mut locker);
    holds(rt, waited == Waited::AtOnce);
    holds(rt, locker.granted == Some(2));
    let (unlocked, locked) = (LockerCall::Unlocked, LockerCall::Locked);
    let expected = [unlocked, locked, unlocked, locked, unlocked, locked];
    holds(rt, locker.calls.as_slice() == expected.as_slice());
    holds(rt, locker.held());
}

/// Room for six calls, asked for once more where memory was refused.
fn room_for_six(rt: &impl Abort, alloc: Global) -> Vec<LockerCall> {
    match Vec::with_capacity(alloc, 6) {
        Ok(calls) => calls,
        Err(_refused) => Vec::with_capacity(alloc, 6).expect(rt, "memory"),
    }
}

#[test]
fn a_locker_signals_as_it_is_unlocked(rt: HostRuntime) {
    let (cond, mut seats) = cond_given::made(&rt, rt.alloc(), 2);
    let second = cond_given::last_own(&rt, &cond, &mut seats);
    let first = cond_given::last_own(&rt, &cond, &mut seats);
    waits(&rt, &cond, first, second, room_for_six(&rt, rt.alloc()));
}

/// The lock over a counter is a locker too.
fn is_a_locker<R: Abort + Wait>(rt: &R, table: &SemaTable, seat: Seat, own: &ListSeat)
    requires { (seat.table ≡ table.now) × (0 < length table.now.setting.starts) }
{
    let mut lock = SemaLock::over(table, seat, CounterId::new(0));
    assert!(rt; !lock.held());
    lock.lock(rt, own);
    assert!(rt; lock.held() && lock.left() > 0);
    lock.release(rt);
    holds(rt, lock.left() == 9);
    assert!(rt; !lock.held());
    holds(rt, lock.into_seat().taken() == 1);
}

fn locks_over_a_counter<R: Abort + Wait>(rt: &R, alloc: Global, own: &ListSeat) {
    let (table, mut seats) = made(rt, alloc, &one_counter(1, 1));
    let seat = last_seat(rt, &table, &mut seats);
    assert!(rt; 0 < table.counters());
    is_a_locker(rt, &table, seat, own);
}

#[test]
fn a_lock_over_a_counter_is_a_locker(rt: HostRuntime) {
    let (cond, mut owns) = cond_given::made(&rt, rt.alloc(), 1);
    let own = cond_given::last_own(&rt, &cond, &mut owns);
    locks_over_a_counter(&rt, rt.alloc(), &own);
}
