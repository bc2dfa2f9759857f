//! Threads that wait on a list until another notifies.

ghost use Rattle.std.specs.Prelude.{◌≡◌, All};
ghost use Rattle.std.specs.Arc.{arc_value};

use crate::lists::crew::{ROUNDS, Way, wait_all};
use crate::lists::given::{adds, ends_at, holds, last_seat, made};
use notify_list::{Holding, ListSeat, NotifyList};
use std::alloc::{AllocError, Global};
use std::process::Abort;
use std::sync::{Arc, Wait};
use std::thread;
use std::thread::Threads;

/// A seat that notifies, with its list.
#[derive(Drop)]
struct Notifier {
    list: Arc<NotifyList, Global>,
    seat: ListSeat,
    ghost own: { seat.list ≡ arc_value list },
}

fn notifier_of(list: &Arc<NotifyList, Global>, seat: ListSeat) -> Result<Notifier, AllocError>
    requires { seat.list ≡ arc_value list.now }
{
    let list = Arc::try_clone(list)?;
    Ok(Notifier { list, seat })
}

/// Grants all tickets: how many.
fn notifies<R: Wait + Copy>(rt: R, notifier: Notifier) -> u32 {
    let Notifier { list, mut seat } = notifier;
    list.all(&rt, &mut seat)
}

/// One waits with its ticket while another thread grants all, or after it where there can be no other: how
/// many were granted.
fn granted_while_it_waits<R: Threads + Wait + Copy + Send + 'static>(
    rt: R,
    list: &NotifyList,
    holding: Holding,
    notifier: Notifier,
) -> u32
    requires { holding.list ≡ list.now }
{
    match thread::spawn(&rt, move || notifies(rt, notifier)) {
        Ok(handle) => {
            let _ = list.wait(&rt, holding);
            handle.join(&rt)
        }
        Err(refused) => {
            let granted = (refused.value)();
            let _ = list.wait(&rt, holding);
            granted
        }
    }
}

/// One waits with a ticket that was taken before both began, and the other grants all: one ticket.
fn one_wakes<R: Abort + Threads + Wait + Copy + Send + 'static>(
    rt: R,
    list: &Arc<NotifyList, Global>,
    first: ListSeat,
    second: ListSeat,
) -> Result<(), AllocError>
    requires { (first.list ≡ arc_value list.now) × (second.list ≡ arc_value list.now) }
{
    let notifier = notifier_of(list, second)?;
    let holding = adds(&rt, &**list, first, 0);
    holds(
        &rt,
        granted_while_it_waits(rt, &**list, holding, notifier) == 1,
    );
    Ok(())
}

/// The same in a new list.
fn one_wakes_in_a_list<R: Abort + Threads + Wait + Copy + Send + 'static>(
    rt: R,
    alloc: Global,
) -> Result<(), AllocError> {
    let (list, mut seats) = made(&rt, alloc, 0, 2);
    let second = last_seat(&rt, &list, &mut seats);
    let first = last_seat(&rt, &list, &mut seats);
    let list = Arc::new(alloc, list)?;
    one_wakes(rt, &list, first, second)
}

#[test]
fn a_broadcast_wakes_who_took_a_ticket_before(rt: HostRuntime) {
    let told = one_wakes_in_a_list(rt, rt.alloc()).is_ok()
        || one_wakes_in_a_list(rt, rt.alloc()).is_ok();
    holds(&rt, told);
}

/// Eight threads wait, again and again, and this one notifies as often. The list is closed with all nine
/// seats. It is `false` where memory was refused.
fn all_come_back<R: Abort + Threads + Wait + Sync>(rt: &R, alloc: Global, way: Way) -> bool {
    let (list, seats) = made(rt, alloc, 0, 9);
    let seats = wait_all(rt, alloc, &list, seats, way);
    if seats.len() != list.seats() as usize {
        return false;
    }
    ends_at(rt, list, seats, 8 * ROUNDS);
    true
}

/// The same, once more where memory was refused.
fn all_come_back_again<R: Abort + Threads + Wait + Sync>(rt: &R, alloc: Global, way: Way) {
    holds(
        rt,
        all_come_back(rt, alloc, way) || all_come_back(rt, alloc, way),
    );
}

#[test]
fn all_come_back_that_are_notified_one_by_one_or_together(rt: HostRuntime) {
    for way in [Way::OneByOne, Way::All, Way::TryOne, Way::TryAll] {
        all_come_back_again(&rt, rt.alloc(), way);
    }
}
