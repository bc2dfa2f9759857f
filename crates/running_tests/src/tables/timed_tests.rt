//! Acquires with a time-out, in one thread.

ghost use Rattle.std.specs.Prelude.{◌≡◌, MatchResult};

use crate::tables::given::{
    Sizes, adds, counter, holds, last_seat, made, one_counter, value, waiters,
};
use sema_table::{Acquired, Entered, GaveUp, Polled, Seat, SemaTable, Sleeping};
use std::alloc::Global;
use std::process::Abort;
use std::sync::Wait;
use std::time::{Clock, Duration, Instant};

/// A seat that came by a unit, or one whose time was over.
type Got = Result<Seat, Seat>;

fn now(rt: &(impl Abort + Clock)) -> Instant {
    Instant::now(rt).expect(rt, "a clock")
}

/// An acquire until then, by a seat that may spend something.
fn until<R: Abort + Clock + Wait>(rt: &R, table: &SemaTable, seat: Seat, deadline: Instant) -> Got
    requires { seat.table ≡ table.now }
    ensures { MatchResult result (λ seat. seat.table ≡ table.now) (λ seat. seat.table ≡ table.now) }
{
    let at = counter(rt, table, 0);
    match table.acquire_until(rt, seat, at, false, deadline) {
        Acquired::Taken(seat) => Ok(seat),
        Acquired::TimedOut(seat) => Err(seat),
        Acquired::LimitReached(_seat) => panic!(rt; "it may spend more"),
    }
}

/// The same for so long.
fn within<R: Abort + Clock + Wait>(rt: &R, table: &SemaTable, seat: Seat, longest: Duration) -> Got
    requires { seat.table ≡ table.now }
    ensures { MatchResult result (λ seat. seat.table ≡ table.now) (λ seat. seat.table ≡ table.now) }
{
    let at = counter(rt, table, 0);
    match table.acquire_for(rt, seat, at, false, longest) {
        Acquired::Taken(seat) => Ok(seat),
        Acquired::TimedOut(seat) => Err(seat),
        Acquired::LimitReached(_seat) => panic!(rt; "it may spend more"),
    }
}

/// A time that has passed tries once, and one that passes takes the wait out: it costs one unit to spend.
fn time_out<R: Abort + Clock + Wait>(rt: &R, alloc: Global) {
    let (table, mut seats) = made(rt, alloc, &one_counter(1, 1));
    let seat = last_seat(rt, &table, &mut seats);
    let past = now(rt);
    let Ok(seat) = until(rt, &table, seat, past) else {
        panic!(rt; "a unit was there");
    };
    let Err(seat) = until(rt, &table, seat, past) else {
        panic!(rt; "no unit is there");
    };
    holds(rt, seat.left() == 10 && seat.taken() == 1);
    let Err(mut seat) = within(rt, &table, seat, Duration::from_millis(2)) else {
        panic!(rt; "nobody releases");
    };
    holds(rt, seat.left() == 9 && seat.taken() == 1);
    holds(rt, waiters(rt, &table, &mut seat, 0) == 0);
    let Err(seat) = until(rt, &table, seat, past) else {
        panic!(rt; "no unit is there");
    };
    holds(rt, seat.left() == 9);
}

/// A seat that may spend nothing more is told so, though there is a unit.
fn are_refused<R: Abort + Clock + Wait>(rt: &R, alloc: Global) {
    let sizes = Sizes {
        counters: 1,
        start: 0,
        seats: 1,
        roots: 1,
        release_limit: 1,
    };
    let (table, mut seats) = made(rt, alloc, &sizes);
    let seat = last_seat(rt, &table, &mut seats);
    let seat = adds(rt, &table, seat, 0, 1);
    let at = counter(rt, &table, 0);
    match table.acquire_until(rt, seat, at, false, now(rt)) {
        Acquired::LimitReached(mut seat) => holds(rt, value(rt, &table, &mut seat, 0) == 1),
        Acquired::Taken(_seat) => panic!(rt; "it may spend nothing"),
        Acquired::TimedOut(_seat) => panic!(rt; "it may spend nothing"),
    }
}

fn leaves<R: Abort + Wait>(rt: &R, table: &SemaTable, asleep: Sleeping)
    requires { asleep.table ≡ table.now }
{
    match table.leave(rt, asleep) {
        GaveUp::Left(seat) => holds(rt, seat.left() == 9),
        GaveUp::Coming(_asleep) => panic!(rt; "nobody releases"),
        GaveUp::Woken(_woken) => panic!(rt; "nobody releases"),
        GaveUp::Handed(_seat) => panic!(rt; "nobody releases"),
        GaveUp::LimitReached(_asleep) => panic!(rt; "it may spend more"),
    }
}

/// A sleep ends with its time, and the wait stays.
fn sleeps_so_long<R: Abort + Clock + Wait>(rt: &R, alloc: Global) {
    let (table, mut seats) = made(rt, alloc, &one_counter(0, 1));
    let seat = last_seat(rt, &table, &mut seats);
    let at = counter(rt, &table, 0);
    let asleep = match table.enter(rt, seat, at, false) {
        Entered::Asleep(asleep) => asleep,
        Entered::Taken(_seat) => panic!(rt; "no unit is there"),
    };
    match table.sleep_until(rt, asleep, now(rt)) {
        Polled::Still(asleep) => leaves(rt, &table, asleep),
        Polled::Woken(_woken) => panic!(rt; "nobody releases"),
        Polled::Handed(_seat) => panic!(rt; "nobody releases"),
    }
}

#[test]
fn time_outs_end_as_known(rt: HostRuntime) {
    time_out(&rt, rt.alloc());
    are_refused(&rt, rt.alloc());
    sleeps_so_long(&rt, rt.alloc());
}
