//! What the calls answer that never wait, in one thread.

ghost use Rattle.std.specs.Prelude.{◌≡◌, All};

use crate::lists::given::{adds, ends_at, gives_back, holds, last_seat, made};
use notify_list::{Entered, ListSeat, Notified, NotifyList, Parked, Polled};
use std::process::Abort;

/// Takes the next ticket, which is this one, and queues its wait.
pub(crate) fn parks(rt: &impl Abort, list: &NotifyList, seat: ListSeat, ticket: u64) -> Parked
    requires { seat.list ≡ list.now }
    ensures { result.list ≡ list.now }
{
    match list.try_wait(adds(rt, list, seat, ticket)) {
        Ok(Entered::Queued(parked)) => parked,
        Ok(Entered::AtOnce(_seat)) => panic!(rt; "the ticket was granted"),
        Err(_holding) => panic!(rt; "the lock was held"),
    }
}

/// Its wait isn't granted yet.
fn stays(rt: &impl Abort, list: &NotifyList, parked: Parked) -> Parked
    requires { parked.list ≡ list.now }
    ensures { result.list ≡ list.now }
{
    match list.poll(parked) {
        Polled::Still(parked) => parked,
        Polled::Granted(_seat) => panic!(rt; "the ticket was granted"),
    }
}

/// Its wait is granted.
pub(crate) fn wakes(rt: &impl Abort, list: &NotifyList, parked: Parked) -> ListSeat
    requires { parked.list ≡ list.now }
    ensures { result.list ≡ list.now }
{
    match list.poll(parked) {
        Polled::Granted(seat) => seat,
        Polled::Still(_parked) => panic!(rt; "the ticket wasn't granted"),
    }
}

/// One ticket is granted before its wait is queued, and so it isn't; one that is queued is granted then.
fn grants_one_by_one(rt: &impl Abort, list: &NotifyList, seats: &mut Vec<ListSeat>)
    requires { All (λ s. s.list ≡ list.now) seats.old.items }
    ensures { All (λ s. s.list ≡ list.now) seats.new.items }
{
    let mut notifier = last_seat(rt, list, seats);
    let seat = last_seat(rt, list, seats);
    let number = seat.id().number();
    holds(rt, list.try_one(&mut notifier) == Ok(None));
    let holding = adds(rt, list, seat, 0);
    let granted = Notified {
        ticket: 0,
        seat: None,
    };
    holds(rt, list.try_one(&mut notifier) == Ok(Some(granted)));
    let seat = match list.try_wait(holding) {
        Ok(Entered::AtOnce(seat)) => seat,
        Ok(Entered::Queued(_parked)) => panic!(rt; "the ticket wasn't granted"),
        Err(_holding) => panic!(rt; "the lock was held"),
    };
    let parked = parks(rt, list, seat, 1);
    let parked = stays(rt, list, parked);
    let granted = Notified {
        ticket: 1,
        seat: Some(number),
    };
    holds(rt, list.try_one(&mut notifier) == Ok(Some(granted)));
    let seat = wakes(rt, list, parked);
    gives_back(rt, list, seats, seat);
    gives_back(rt, list, seats, notifier);
}

/// Two waits are granted at once, in the order in which they were queued.
fn grants_both(rt: &impl Abort, list: &NotifyList, seats: &mut Vec<ListSeat>)
    requires { All (λ s. s.list ≡ list.now) seats.old.items }
    ensures { All (λ s. s.list ≡ list.now) seats.new.items }
{
    let notifier = last_seat(rt, list, seats);
    let (one, other) = (last_seat(rt, list, seats), last_seat(rt, list, seats));
    let (first, second) = (one.id().number(), other.id().number());
    let one = parks(rt, list, one, 2);
    let other = parks(rt, list, other, 3);
    let mut woken = [0; 3];
    assert!(rt; list.seats() as usize <= woken.len());
    let (notifier, all) = match list.try_all(notifier, &mut woken) {
        Ok(done) => done,
        Err(_owing) => panic!(rt; "the lock was held"),
    };
    holds(rt, all.tickets == 2 && all.waits == 2);
    holds(
        rt,
        woken[0] == u32::from(first) && woken[1] == u32::from(second),
    );
    let one = wakes(rt, list, one);
    let other = wakes(rt, list, other);
    gives_back(rt, list, seats, one);
    gives_back(rt, list, seats, other);
    gives_back(rt, list, seats, notifier);
}

#[test]
fn calls_that_never_wait_answer_so(rt: HostRuntime) {
    let (list, mut seats) = made(&rt, rt.alloc(), 0, 3);
    grants_one_by_one(&rt, &list, &mut seats);
    grants_both(&rt, &list, &mut seats);
    ends_at(&rt, list, seats, 4);
}
