//! Threads that wait on a list again and again, one for each seat but the last, which notifies. Those of even
//! numbers poll, and the others sleep.

ghost use Rattle.std.specs.Prelude.{◌≡◌, ◌≤◌, length, All, IfSome};

use crate::lists::given::last_seat;
use notify_list::{Entered, Holding, ListSeat, NotifyList, OwingAll, Parked, Polled};
use std::alloc::Global;
use std::process::Abort;
use std::sync::Wait;
use std::thread;
use std::thread::{Promise, PromisedHandle, Scope, Threads};

/// How often each of them waits.
pub(crate) const ROUNDS: u64 = 10_000;

/// How the last seat notifies.
#[derive(Clone, Copy, Drop)]
pub(crate) enum Way {
    OneByOne,
    All,
    /// The same by the calls that don't wait for the list's lock.
    TryOne,
    TryAll,
}

/// What a thread hands back: a seat of this list.
#[derive(Clone, Copy, Drop)]
pub(crate) struct Back<'l> {
    pub(crate) list: &'l NotifyList,
}

impl<'l> Promise<ListSeat> for Back<'l> {
    ghost kept_by = { λ promise seat. seat.list ≡ promise.list.now };
}

/// A thread that waits for a seat.
pub(crate) type Waiter<'l> = PromisedHandle<ListSeat, Back<'l>>;

/// Looks for the grant of a queued wait until it is there.
fn polls_on<R: Wait>(rt: &R, list: &NotifyList, parked: Parked) -> ListSeat
    requires { parked.list ≡ list.now }
    ensures { result.list ≡ list.now }
{
    let mut parked = parked;
    for _ in rt.forever() {
        match list.poll(parked) {
            Polled::Granted(seat) => return seat,
            Polled::Still(still) => parked = still,
        }
        thread::yield_now();
    }
    unreachable!()
}

/// Waits with the ticket, and never sleeps.
fn waits_awake<R: Wait>(rt: &R, list: &NotifyList, holding: Holding) -> ListSeat
    requires { holding.list ≡ list.now }
    ensures { result.list ≡ list.now }
{
    let mut holding = holding;
    for _ in rt.forever() {
        match list.try_wait(holding) {
            Ok(Entered::AtOnce(seat)) => return seat,
            Ok(Entered::Queued(parked)) => return polls_on(rt, list, parked),
            Err(kept) => holding = kept,
        }
        thread::yield_now();
    }
    unreachable!()
}

/// Takes a ticket and waits with it, so many times.
fn waits_on<R: Wait>(rt: &R, list: &NotifyList, seat: ListSeat) -> ListSeat
    requires { seat.list ≡ list.now }
    ensures { result.list ≡ list.now }
{
    let mut seat = seat;
    for _ in 0..ROUNDS {
        let polls = seat.id().number() % 2 == 0;
        let holding = list.add(seat);
        seat = if polls {
            waits_awake(rt, list, holding)
        } else {
            list.wait(rt, holding).0
        };
    }
    seat
}

/// Goes on with a notification of all to its end: how many tickets it granted.
fn ends_all<R: Wait>(
    rt: &R,
    list: &NotifyList,
    owing: OwingAll,
    woken: &mut [u32],
) -> (ListSeat, u64)
    requires seat { owing.list ≡ list.now }
    requires room { list.now.setting.seats ≤ length woken.old }
    ensures { result.0.list ≡ list.now }
{
    let mut owing = owing;
    for _ in rt.forever() {
        match list.retry_all(owing, woken) {
            Ok((seat, all)) => return (seat, u64::from(all.tickets)),
            Err(kept) => owing = kept,
        }
    }
    unreachable!()
}

/// How many tickets one call grants.
fn granted<R: Wait>(rt: &R, list: &NotifyList, seat: ListSeat, way: Way) -> (ListSeat, u64)
    requires { seat.list ≡ list.now }
    ensures { result.0.list ≡ list.now }
{
    let mut seat = seat;
    let tickets = match way {
        Way::OneByOne => u64::from(list.one(rt, &mut seat).is_some()),
        Way::All => u64::from(list.all(rt, &mut seat)),
        Way::TryOne => match list.try_one(&mut seat) {
            Ok(notified) => u64::from(notified.is_some()),
            Err(_busy) => 0,
        },
        Way::TryAll => {
            let mut woken = [0; 256];
            if list.seats() as usize <= woken.len() {
                return match list.try_all(seat, &mut woken) {
                    Ok((seat, all)) => (seat, u64::from(all.tickets)),
                    Err(owing) => ends_all(rt, list, owing, &mut woken),
                };
            }
            u64::from(list.all(rt, &mut seat))
        }
    };
    (seat, tickets)
}

/// Notifies until so many tickets were granted.
fn notifies_on<R: Wait>(
    rt: &R,
    list: &NotifyList,
    seat: ListSeat,
    tickets: u64,
    way: Way,
) -> ListSeat
    requires { seat.list ≡ list.now }
    ensures { result.list ≡ list.now }
{
    let mut seat = seat;
    let mut left = tickets;
    for _ in rt.forever() {
        if left == 0 {
            break;
        }
        let (back, tickets) = granted(rt, list, seat, way);
        seat = back;
        left = left.saturating_sub(tickets);
    }
    seat
}

/// A thread for the seat, where there can be one.
fn hire<'s, E, R: Threads + Wait + Sync>(
    scope: &'s Scope<'s, E>,
    rt: &'s R,
    list: &'s NotifyList,
    seat: ListSeat,
) -> Option<Waiter<'s>>
    requires { seat.list ≡ list.now }
    ensures { IfSome result (λ w. w.promise.list.now ≡ list.now) }
{
    let promise = Back { list };
    match scope.spawn_with(promise, move || waits_on(rt, list, seat)) {
        Ok(waiter) => Some(waiter),
        Err(_) => None,
    }
}

/// A thread for each seat, where there can be one: the threads, and how many tickets they take.
fn hire_all<'s, E, R: Threads + Wait + Sync>(
    scope: &'s Scope<'s, E>,
    rt: &'s R,
    alloc: Global,
    list: &'s NotifyList,
    seats: Vec<ListSeat>,
) -> (Vec<Waiter<'s>>, u64)
    requires { All (λ s. s.list ≡ list.now) seats.items }
    ensures { All (λ w. w.promise.list.now ≡ list.now) result.0.items }
{
    let mut seats = seats;
    let mut waiters = Vec::new(alloc);
    let mut tickets: u64 = 0;
    while let Some(seat) = seats.pop() {
        if let Some(waiter) = hire(scope, rt, list, seat) {
            tickets = tickets.saturating_add(ROUNDS);
            let _ = waiters.push(waiter);
        }
    }
    (waiters, tickets)
}

/// This seat, and those of all threads once they have ended. Where memory is short there are fewer.
pub(crate) fn join_all<'s, R: Threads>(
    rt: &R,
    alloc: Global,
    list: &'s NotifyList,
    waiters: Vec<Waiter<'s>>,
    seat: ListSeat,
) -> Vec<ListSeat>
    requires { (seat.list ≡ list.now) × All (λ w. w.promise.list.now ≡ list.now) waiters.items }
    ensures { All (λ s. s.list ≡ list.now) result.items }
{
    let mut waiters = waiters;
    let mut seats = Vec::new(alloc);
    let _ = seats.push(seat);
    while let Some(waiter) = waiters.pop() {
        let _ = seats.push(waiter.join(rt));
    }
    seats
}

/// The seats that came back from their threads, all of which were notified: fewer where memory is short.
pub(crate) fn wait_all<R: Abort + Threads + Wait + Sync>(
    rt: &R,
    alloc: Global,
    list: &NotifyList,
    seats: Vec<ListSeat>,
    way: Way,
) -> Vec<ListSeat>
    requires { All (λ s. s.list ≡ list.now) seats.items }
    ensures { All (λ s. s.list ≡ list.now) result.items }
{
    let mut seats = seats;
    let last = last_seat(rt, list, &mut seats);
    thread::scope(
        thread::scope_env(),
        rt,
        move |scope| -> Vec<ListSeat>
            requires { (last.list ≡ list.now) × All (λ s. s.list ≡ list.now) seats.items }
            ensures { All (λ s. s.list ≡ list.entry.now) result.items }
        {
            let (waiters, tickets) = hire_all(scope, rt, alloc, list, seats);
            let last = notifies_on(rt, list, last, tickets, way);
            join_all(rt, alloc, list, waiters, last)
        },
    )
}
