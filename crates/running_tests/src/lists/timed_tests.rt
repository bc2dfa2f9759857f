//! Waits with a time-out, in one thread.

ghost use Rattle.std.specs.Prelude.{◌≡◌};

use crate::lists::given::{adds, ends_at, gives_back, grants, holds, last_seat, made};
use notify_list::{Holding, ListSeat, NotifyList, WaitedUntil};
use std::alloc::Global;
use std::process::Abort;
use std::sync::Wait;
use std::time::{Clock, Duration, Instant};

/// Waits until a time that has passed.
fn waits_until_now<R: Abort + Clock + Wait>(
    rt: &R,
    list: &NotifyList,
    holding: Holding,
    expected: WaitedUntil,
) -> ListSeat
    requires { holding.list ≡ list.now }
    ensures { result.list ≡ list.now }
{
    let past = Instant::now(rt).expect(rt, "a clock");
    let (seat, waited) = list.wait_until(rt, holding, past);
    holds(rt, waited == expected);
    seat
}

/// Waits for so long.
fn waits_for<R: Abort + Clock + Wait>(
    rt: &R,
    list: &NotifyList,
    holding: Holding,
    longest: Duration,
    expected: WaitedUntil,
) -> ListSeat
    requires { holding.list ≡ list.now }
    ensures { result.list ≡ list.now }
{
    let (seat, waited) = list.wait_for(rt, holding, longest);
    holds(rt, waited == expected);
    seat
}

/// Where nobody notifies in time the ticket is gone: no notification grants it, and who looks finds none that
/// isn't granted.
fn time_out<R: Abort + Clock + Wait>(rt: &R, alloc: Global) {
    let (list, mut seats) = made(rt, alloc, u64::MAX, 2);
    let mut other = last_seat(rt, &list, &mut seats);
    let seat = last_seat(rt, &list, &mut seats);
    let holding = adds(rt, &list, seat, u64::MAX);
    let seat = waits_until_now(rt, &list, holding, WaitedUntil::TimedOut);
    grants(rt, &list, &mut other, None);
    let holding = adds(rt, &list, seat, 0);
    let seat = waits_for(
        rt,
        &list,
        holding,
        Duration::from_millis(2),
        WaitedUntil::TimedOut,
    );
    holds(rt, list.quiet(&mut other));
    gives_back(rt, &list, &mut seats, seat);
    gives_back(rt, &list, &mut seats, other);
    ends_at(rt, list, seats, 1);
}

/// A ticket that was granted before is found so, though no time is left.
fn are_granted<R: Abort + Clock + Wait>(rt: &R, alloc: Global) {
    let (list, mut seats) = made(rt, alloc, 5, 2);
    let mut other = last_seat(rt, &list, &mut seats);
    let seat = last_seat(rt, &list, &mut seats);
    let holding = adds(rt, &list, seat, 5);
    grants(rt, &list, &mut other, Some(5));
    let seat = waits_until_now(rt, &list, holding, WaitedUntil::AtOnce);
    let holding = adds(rt, &list, seat, 6);
    grants(rt, &list, &mut other, Some(6));
    let seat = waits_for(rt, &list, holding, Duration::ZERO, WaitedUntil::AtOnce);
    let holding = adds(rt, &list, seat, 7);
    grants(rt, &list, &mut other, Some(7));
    let seat = waits_for(rt, &list, holding, Duration::MAX, WaitedUntil::AtOnce);
    gives_back(rt, &list, &mut seats, seat);
    gives_back(rt, &list, &mut seats, other);
    ends_at(rt, list, seats, 8);
}

#[test]
fn waits_with_a_time_out_end_as_known(rt: HostRuntime) {
    time_out(&rt, rt.alloc());
    are_granted(&rt, rt.alloc());
}
