//! Threads that wait for short times, again and again, while another notifies all: each ticket is granted, or
//! leaves.

ghost use Rattle.std.specs.Prelude.{◌≡◌, All, IfSome};

use crate::lists::crew::{Back, Waiter, join_all};
use crate::lists::given::{ends_at, holds, last_seat, made};
use notify_list::{ListSeat, NotifyList};
use std::alloc::Global;
use std::process::Abort;
use std::sync::Wait;
use std::thread;
use std::thread::{Scope, Threads};
use std::time::{Clock, Duration};

/// How often each of them waits, and how often the other notifies.
const ROUNDS: u64 = 2_000;

/// Takes a ticket and waits with it for 0 to 63 microseconds, so many times.
fn waits_on<R: Clock + Wait>(rt: &R, list: &NotifyList, seat: ListSeat) -> ListSeat
    requires { seat.list ≡ list.now }
    ensures { result.list ≡ list.now }
{
    let mut seat = seat;
    for round in 0..ROUNDS {
        let holding = list.add(seat);
        seat = list
            .wait_for(rt, holding, Duration::from_micros(round % 64))
            .0;
    }
    seat
}

/// Notifies all, so many times.
fn notifies_on<R: Wait>(rt: &R, list: &NotifyList, seat: ListSeat) -> ListSeat
    requires { seat.list ≡ list.now }
    ensures { result.list ≡ list.now }
{
    let mut seat = seat;
    for _ in 0..ROUNDS {
        let _ = list.all(rt, &mut seat);
        thread::yield_now();
    }
    seat
}

/// A thread for the seat, where there can be one.
fn hire<'s, E, R: Clock + Threads + Wait + Sync>(
    scope: &'s Scope<'s, E>,
    rt: &'s R,
    list: &'s NotifyList,
    seat: ListSeat,
) -> Option<Waiter<'s>>
    requires { seat.list ≡ list.now }
    ensures { IfSome result (λ w. w.promise.list.now ≡ list.now) }
{
    let promise = Back { list };
    match scope.spawn_with(promise, move || waits_on(rt, list, seat)) {
        Ok(waiter) => Some(waiter),
        Err(_) => None,
    }
}

/// A thread for each seat, where there can be one.
fn hire_all<'s, E, R: Clock + Threads + Wait + Sync>(
    scope: &'s Scope<'s, E>,
    rt: &'s R,
    alloc: Global,
    list: &'s NotifyList,
    seats: Vec<ListSeat>,
) -> Vec<Waiter<'s>>
    requires { All (λ s. s.list ≡ list.now) seats.items }
    ensures { All (λ w. w.promise.list.now ≡ list.now) result.items }
{
    let mut seats = seats;
    let mut waiters = Vec::new(alloc);
    while let Some(seat) = seats.pop() {
        if let Some(waiter) = hire(scope, rt, list, seat) {
            let _ = waiters.push(waiter);
        }
    }
    waiters
}

/// The seats that came back from their threads: fewer where memory is short.
fn wait_all<R: Abort + Clock + Threads + Wait + Sync>(
    rt: &R,
    alloc: Global,
    list: &NotifyList,
    seats: Vec<ListSeat>,
) -> Vec<ListSeat>
    requires { All (λ s. s.list ≡ list.now) seats.items }
    ensures { All (λ s. s.list ≡ list.now) result.items }
{
    let mut seats = seats;
    let last = last_seat(rt, list, &mut seats);
    thread::scope(
        thread::scope_env(),
        rt,
        move |scope| -> Vec<ListSeat>
            requires { (last.list ≡ list.now) × All (λ s. s.list ≡ list.now) seats.items }
            ensures { All (λ s. s.list ≡ list.entry.now) result.items }
        {
            let waiters = hire_all(scope, rt, alloc, list, seats);
            let last = notifies_on(rt, list, last);
            join_all(rt, alloc, list, waiters, last)
        },
    )
}

/// Eight wait, and one notifies. It is `false` where memory was refused.
fn all_come_back<R: Abort + Clock + Threads + Wait + Sync>(rt: &R, alloc: Global) -> bool {
    let (list, seats) = made(rt, alloc, 0, 9);
    let seats = wait_all(rt, alloc, &list, seats);
    if seats.len() != list.seats() as usize {
        return false;
    }
    ends_at(rt, list, seats, 8 * ROUNDS);
    true
}

#[test]
fn all_come_back_that_are_notified_or_leave(rt: HostRuntime) {
    holds(
        &rt,
        all_come_back(&rt, rt.alloc()) || all_come_back(&rt, rt.alloc()),
    );
}
