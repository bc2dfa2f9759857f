//! Lists of many seats.

ghost use Rattle.std.specs.Prelude.{◌≡◌, All};

use crate::lists::attempt_tests::{parks, wakes};
use crate::lists::given::{ends_at, gives_back, holds, last_seat, made};
use notify_list::{ListSeat, NotifyList, TaskEntered, TaskList, TaskListSeat, TaskPolled};
use std::alloc::Global;
use std::process::Abort;
use std::sync::Wait;

/// So many seats wait, one after the other, then all tickets are granted, and each seat takes its grant.
fn all_of_so_many<R: Abort + Wait>(
    rt: &R,
    list: &NotifyList,
    seats: &mut Vec<ListSeat>,
    notifier: &mut ListSeat,
    waits: u32,
    left: u32,
)
    requires { (notifier.old.list ≡ list.now) × All (λ s. s.list ≡ list.now) seats.old.items }
    ensures { (notifier.new.list ≡ list.now) × All (λ s. s.list ≡ list.now) seats.new.items }
{
    if left == 0 {
        holds(rt, list.all(rt, notifier) == waits);
        return;
    }
    let ticket = u64::from(waits.saturating_sub(left));
    let parked = parks(rt, list, last_seat(rt, list, seats), ticket);
    all_of_so_many(rt, list, seats, notifier, waits, left - 1);
    let seat = wakes(rt, list, parked);
    gives_back(rt, list, seats, seat);
}

/// How many waits there are: at the end of the small room on the stack, behind it, and many.
static WAITS: [u32; 3] = [256, 257, 1_000];

fn grants_so_many<R: Abort + Wait>(rt: &R, alloc: Global, waits: u32) {
    let (list, mut seats) = made(rt, alloc, 0, 65_536);
    let mut notifier = last_seat(rt, &list, &mut seats);
    all_of_so_many(rt, &list, &mut seats, &mut notifier, waits, waits);
    gives_back(rt, &list, &mut seats, notifier);
    ends_at(rt, list, seats, u64::from(waits));
}

#[test]
fn a_notification_of_all_grants_any_number_of_waits(rt: HostRuntime) {
    for waits in &WAITS {
        grants_so_many(&rt, rt.alloc(), *waits);
    }
}

/// A task's seat takes a ticket and waits.
fn waits_as_a_task(rt: &impl Abort, list: &TaskList, seat: TaskListSeat) -> TaskListSeat
    requires { seat.seat.list ≡ list.now }
    ensures { result.seat.list ≡ list.now }
{
    let (seat, ticket) = list.add(seat);
    holds(rt, ticket.is_ok());
    let (seat, entered) = list.try_wait(seat);
    holds(rt, matches!(entered, Ok(TaskEntered::Queued)));
    seat
}

/// So many of the seats wait, the last first.
fn park(
    rt: &impl Abort,
    list: &TaskList,
    seats: &mut Vec<TaskListSeat>,
    parked: &mut Vec<TaskListSeat>,
    left: u32,
)
    requires { All (λ s. s.seat.list ≡ list.now) seats.old.items
        × All (λ s. s.seat.list ≡ list.now) parked.old.items }
    ensures { All (λ s. s.seat.list ≡ list.now) seats.new.items
        × All (λ s. s.seat.list ≡ list.now) parked.new.items }
{
    if left == 0 {
        return;
    }
    let seat = waits_as_a_task(rt, list, seats.pop().expect(rt, "a seat"));
    parked.push(seat).expect(rt, "room");
    park(rt, list, seats, parked, left - 1);
}

/// So many seats are named first, from this number down.
fn are_named_down(rt: &impl Abort, named: &[u32], waits: usize, first: u64) {
    for (at, seat) in named.iter().take(waits).enumerate() {
        holds(rt, u64::from(*seat).wrapping_add(at as u64) == first);
    }
}

/// Each of these seats has its grant.
fn all_are_granted(rt: &impl Abort, list: &TaskList, parked: Vec<TaskListSeat>)
    requires { All (λ s. s.seat.list ≡ list.now) parked.items }
{
    for seat in parked {
        let (_seat, polled) = list.poll(seat);
        holds(rt, matches!(polled, Ok(TaskPolled::Granted)));
    }
}

#[test]
fn tasks_are_named_in_the_order_of_their_waits(rt: HostRuntime) {
    let (list, mut seats) = TaskList::starting_at(rt.alloc(), 0, 400).expect(&rt, "a list");
    let mut parked = Vec::new(rt.alloc());
    park(&rt, &list, &mut seats, &mut parked, 300);
    let mut woken = [0; 400];
    assert!(&rt; list.seats() as usize <= woken.len());
    let (_notifier, answer) = list.all(seats.pop().expect(&rt, "a seat"), &mut woken);
    let all = answer.expect(&rt, "a lock that was free");
    holds(&rt, all.tickets == 300 && all.waits == 300);
    are_named_down(&rt, &woken, all.waits, 399);
    all_are_granted(&rt, &list, parked);
}
