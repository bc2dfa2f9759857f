//! Threads that sleep, and a seat before them that polls: a notification of all wakes them without it.

ghost use Rattle.std.specs.Prelude.{◌≡◌, All, IfSome};

use crate::lists::attempt_tests::{parks, wakes};
use crate::lists::crew::{Back, Waiter, join_all};
use crate::lists::given::{ends_at, holds, last_seat, made};
use crate::tables::given::is_reached;
use notify_list::{ListSeat, NotifyList, Parked};
use std::alloc::Global;
use std::process::Abort;
use std::sync::Wait;
use std::sync::atomic::{AtomicU64, Ordering};
use std::thread;
use std::thread::{Scope, Threads};

/// Of the threads, how many have a ticket, and how many came back.
#[derive(Drop)]
struct Marks {
    came: AtomicU64,
    back: AtomicU64,
}

/// Waits once with the next ticket.
fn waits_once<R: Wait>(rt: &R, list: &NotifyList, marks: &Marks, seat: ListSeat) -> ListSeat
    requires { seat.list ≡ list.now }
    ensures { result.list ≡ list.now }
{
    let holding = list.add(seat);
    marks.came.fetch_add(1, Ordering::SeqCst);
    let (seat, _) = list.wait(rt, holding);
    marks.back.fetch_add(1, Ordering::SeqCst);
    seat
}

/// A thread for the seat, where there can be one.
fn hire<'s, E, R: Threads + Wait + Sync>(
    scope: &'s Scope<'s, E>,
    rt: &'s R,
    list: &'s NotifyList,
    marks: &'s Marks,
    seat: ListSeat,
) -> Option<Waiter<'s>>
    requires { seat.list ≡ list.now }
    ensures { IfSome result (λ w. w.promise.list.now ≡ list.now) }
{
    let promise = Back { list };
    match scope.spawn_with(promise, move || waits_once(rt, list, marks, seat)) {
        Ok(waiter) => Some(waiter),
        Err(_) => None,
    }
}

/// A thread for each seat, where there can be one: the threads, and how many there are.
fn hire_all<'s, E, R: Threads + Wait + Sync>(
    scope: &'s Scope<'s, E>,
    rt: &'s R,
    alloc: Global,
    list: &'s NotifyList,
    marks: &'s Marks,
    seats: Vec<ListSeat>,
) -> (Vec<Waiter<'s>>, u32)
    requires { All (λ s. s.list ≡ list.now) seats.items }
    ensures { All (λ w. w.promise.list.now ≡ list.now) result.0.items }
{
    let mut seats = seats;
    let mut waiters = Vec::new(alloc);
    let mut count: u32 = 0;
    while let Some(seat) = seats.pop() {
        if let Some(waiter) = hire(scope, rt, list, marks, seat) {
            count = count.saturating_add(1);
            let _ = waiters.push(waiter);
        }
    }
    (waiters, count)
}

/// Grants all tickets once so many threads sleep, or nearly: all come back before anybody polls.
fn wakes_all<R: Abort + Wait>(
    rt: &R,
    list: &NotifyList,
    marks: &Marks,
    sleepers: u32,
    notifier: &mut ListSeat,
)
    requires { notifier.old.list ≡ list.now }
    ensures { notifier.new.list ≡ list.now }
{
    holds(rt, is_reached(&marks.came, u64::from(sleepers)));
    for _ in 0..10_000 {
        thread::yield_now();
    }
    holds(rt, list.all(rt, notifier).checked_sub(1) == Some(sleepers));
    holds(rt, is_reached(&marks.back, u64::from(sleepers)));
}

/// The last seat notifies, the one before it has polled, and each of the others sleeps in a thread of its own:
/// the seats that came back, fewer where memory is short.
fn sleep_beside<R: Abort + Threads + Wait + Sync>(
    rt: &R,
    alloc: Global,
    list: &NotifyList,
    seats: Vec<ListSeat>,
) -> Vec<ListSeat>
    requires { All (λ s. s.list ≡ list.now) seats.items }
    ensures { All (λ s. s.list ≡ list.now) result.items }
{
    let marks = &Marks {
        came: AtomicU64::new(0),
        back: AtomicU64::new(0),
    };
    let mut seats = seats;
    let notifier = last_seat(rt, list, &mut seats);
    let poller = last_seat(rt, list, &mut seats);
    thread::scope(
        thread::scope_env(),
        rt,
        move |scope| -> Vec<ListSeat>
            requires { (notifier.list ≡ list.now) × (poller.list ≡ list.now)
                × All (λ s. s.list ≡ list.now) seats.items }
            ensures { All (λ s. s.list ≡ list.entry.now) result.items }
        {
            let mut notifier = notifier;
            let parked = parks(rt, list, poller, 0);
            let (waiters, sleepers) = hire_all(scope, rt, alloc, list, marks, seats);
            wakes_all(rt, list, marks, sleepers, &mut notifier);
            let poller = wakes(rt, list, parked);
            let mut back = join_all(rt, alloc, list, waiters, notifier);
            let _ = back.push(poller);
            back
        },
    )
}

/// Whether all four came back; not where memory was refused.
fn come_back<R: Abort + Threads + Wait + Sync>(rt: &R, alloc: Global) -> bool {
    let (list, seats) = made(rt, alloc, 0, 6);
    let seats = sleep_beside(rt, alloc, &list, seats);
    if seats.len() != list.seats() as usize {
        return false;
    }
    ends_at(rt, list, seats, 5);
    true
}

#[test]
fn sleepers_behind_a_seat_that_polls_come_back(rt: HostRuntime) {
    holds(
        &rt,
        come_back(&rt, rt.alloc()) || come_back(&rt, rt.alloc()),
    );
}
