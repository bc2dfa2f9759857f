//! Seats that leave the list: alone, from its middle, all of them, with tickets that wrap, and while others
//! notify.

ghost use Rattle.std.specs.Prelude.{◌≡◌};

use crate::lists::attempt_tests::{parks, wakes};
use crate::lists::given::{ends_at, gives_back, grants, holds, last_seat, made};
use notify_list::{GaveUp, ListSeat, NotifyList, Parked};
use std::alloc::Global;
use std::process::Abort;
use std::sync::Wait;

/// Leaves with a wait that is queued.
fn goes<R: Abort + Wait>(rt: &R, list: &NotifyList, parked: Parked) -> ListSeat
    requires { parked.list ≡ list.now }
    ensures { result.list ≡ list.now }
{
    match list.leave(rt, parked) {
        GaveUp::Left(seat) => seat,
        GaveUp::Granted(_seat) => panic!(rt; "the ticket was granted"),
        GaveUp::Coming(_parked) => panic!(rt; "the wait was taken out"),
        GaveUp::LimitReached(_parked) => panic!(rt; "too many tickets"),
    }
}

/// One leaves alone: a notification finds nobody, and the next ticket is granted as ever.
#[test]
fn one_leaves_alone(rt: HostRuntime) {
    let (list, mut seats) = made(&rt, rt.alloc(), 7, 2);
    let mut other = last_seat(&rt, &list, &mut seats);
    let seat = last_seat(&rt, &list, &mut seats);
    let parked = parks(&rt, &list, seat, 7);
    let seat = goes(&rt, &list, parked);
    grants(&rt, &list, &mut other, None);
    let parked = parks(&rt, &list, seat, 8);
    grants(&rt, &list, &mut other, Some(8));
    let seat = wakes(&rt, &list, parked);
    gives_back(&rt, &list, &mut seats, seat);
    gives_back(&rt, &list, &mut seats, other);
    ends_at(&rt, list, seats, 9);
}

/// The middle one of three leaves: notifications pass over it.
fn middle_leaves<R: Abort + Wait>(rt: &R, alloc: Global, first: u64) {
    let (list, mut seats) = made(rt, alloc, first, 4);
    let mut other = last_seat(rt, &list, &mut seats);
    let third = last_seat(rt, &list, &mut seats);
    let second = last_seat(rt, &list, &mut seats);
    let one = last_seat(rt, &list, &mut seats);
    let one = parks(rt, &list, one, first);
    let second = parks(rt, &list, second, first.wrapping_add(1));
    let third = parks(rt, &list, third, first.wrapping_add(2));
    let second = goes(rt, &list, second);
    grants(rt, &list, &mut other, Some(first));
    grants(rt, &list, &mut other, Some(first.wrapping_add(2)));
    grants(rt, &list, &mut other, None);
    let one = wakes(rt, &list, one);
    let third = wakes(rt, &list, third);
    gives_back(rt, &list, &mut seats, one);
    gives_back(rt, &list, &mut seats, second);
    gives_back(rt, &list, &mut seats, third);
    gives_back(rt, &list, &mut seats, other);
    ends_at(rt, list, seats, first.wrapping_add(3));
}

#[test]
fn the_middle_leaves(rt: HostRuntime) {
    middle_leaves(&rt, rt.alloc(), 0);
}

#[test]
fn the_middle_leaves_where_tickets_wrap(rt: HostRuntime) {
    middle_leaves(&rt, rt.alloc(), u64::MAX);
}

/// Two leave, the later first: a notification of all grants nothing then, and one beside a third grants that
/// alone.
#[test]
fn all_leave(rt: HostRuntime) {
    let (list, mut seats) = made(&rt, rt.alloc(), u64::MAX, 3);
    let mut other = last_seat(&rt, &list, &mut seats);
    let second = last_seat(&rt, &list, &mut seats);
    let one = last_seat(&rt, &list, &mut seats);
    let one = parks(&rt, &list, one, u64::MAX);
    let second = parks(&rt, &list, second, 0);
    let second = goes(&rt, &list, second);
    let one = goes(&rt, &list, one);
    holds(&rt, list.quiet(&mut other));
    holds(&rt, list.all(&rt, &mut other) == 0);
    let one = parks(&rt, &list, one, 1);
    let second = parks(&rt, &list, second, 2);
    let second = goes(&rt, &list, second);
    let again = parks(&rt, &list, second, 3);
    holds(&rt, list.all(&rt, &mut other) == 2);
    let one = wakes(&rt, &list, one);
    let second = wakes(&rt, &list, again);
    gives_back(&rt, &list, &mut seats, one);
    gives_back(&rt, &list, &mut seats, second);
    gives_back(&rt, &list, &mut seats, other);
    ends_at(&rt, list, seats, 4);
}
