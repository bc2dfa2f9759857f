//! Tickets that are taken and granted in one thread.

ghost use Rattle.std.specs.Prelude.{◌≡◌, All};

use crate::lists::given::{
    adds, ends_at, gives_back, grants, holds, last_seat, made, waits_at_once,
};
use notify_list::{ListSeat, NotifyList, SetupError};
use std::alloc::Global;
use std::process::Abort;
use std::sync::Wait;

/// Two tickets are taken, and granted one by one.
fn two_tickets<R: Abort + Wait>(
    rt: &R,
    list: &NotifyList,
    seats: &mut Vec<ListSeat>,
    first: u64,
    second: u64,
)
    requires { All (λ s. s.list ≡ list.now) seats.old.items }
    ensures { All (λ s. s.list ≡ list.now) seats.new.items }
{
    let mut third = last_seat(rt, list, seats);
    let holding = last_seat(rt, list, seats);
    let other = last_seat(rt, list, seats);
    let holding = adds(rt, list, holding, first);
    let other = adds(rt, list, other, second);
    grants(rt, list, &mut third, Some(first));
    grants(rt, list, &mut third, Some(second));
    grants(rt, list, &mut third, None);
    holds(rt, list.all(rt, &mut third) == 0);
    let holding = waits_at_once(rt, list, holding);
    let other = waits_at_once(rt, list, other);
    gives_back(rt, list, seats, holding);
    gives_back(rt, list, seats, other);
    gives_back(rt, list, seats, third);
}

/// A ticket that wraps, and one that goes past 32 bits: the first, the second, and the next after both.
static TICKETS: [(u64, u64, u64); 2] = [
    (18_446_744_073_709_551_615, 0, 1),
    (4_294_967_295, 4_294_967_296, 4_294_967_297),
];

fn goes_past_an_end<R: Abort + Wait>(rt: &R, alloc: Global, row: &(u64, u64, u64)) {
    let (first, second, next) = *row;
    let (list, mut seats) = made(rt, alloc, first, 3);
    two_tickets(rt, &list, &mut seats, first, second);
    ends_at(rt, list, seats, next);
}

#[test]
fn tickets_go_past_their_ends(rt: HostRuntime) {
    for row in &TICKETS {
        goes_past_an_end(&rt, rt.alloc(), row);
    }
}

#[test]
fn an_unused_list_ends_as_it_began(rt: HostRuntime) {
    let (list, seats) = made(&rt, rt.alloc(), 7, 65_536);
    ends_at(&rt, list, seats, 7);
}

/// Grants all tickets: so many, where there are some. Then there are no more.
fn grants_all<R: Abort + Wait>(rt: &R, list: &NotifyList, seat: &mut ListSeat, tickets: u32)
    requires { seat.old.list ≡ list.now }
    ensures { seat.new.list ≡ list.now }
{
    holds(rt, list.quiet(seat) == (tickets == 0));
    holds(rt, list.all(rt, seat) == tickets);
    holds(rt, list.quiet(seat));
}

/// A list is quiet until a ticket is taken, and again once it is granted.
fn grants_none_and_one<R: Abort + Wait>(rt: &R, list: &NotifyList, seats: &mut Vec<ListSeat>)
    requires { All (λ s. s.list ≡ list.now) seats.old.items }
{
    let mut other = last_seat(rt, list, seats);
    let seat = last_seat(rt, list, seats);
    grants_all(rt, list, &mut other, 0);
    let holding = adds(rt, list, seat, 0);
    grants_all(rt, list, &mut other, 1);
    let mut seat = waits_at_once(rt, list, holding);
    list.meet(&mut seat, &mut other);
    holds(rt, list.quiet(&mut seat));
}

#[test]
fn all_tickets_are_granted(rt: HostRuntime) {
    let (list, mut seats) = made(&rt, rt.alloc(), 0, 2);
    grants_none_and_one(&rt, &list, &mut seats);
}

/// So many seats make no list.
fn is_refused(rt: &impl Abort, alloc: Global, seats: u32) {
    match NotifyList::starting_at(alloc, 0, seats) {
        Err(refused) => holds(rt, refused == SetupError::Seats),
        Ok(_made) => panic!(rt; "a list was made"),
    }
}

#[test]
fn numbers_of_seats_past_their_limits_are_refused(rt: HostRuntime) {
    is_refused(&rt, rt.alloc(), 0);
    is_refused(&rt, rt.alloc(), 65_537);
}
