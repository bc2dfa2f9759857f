//! What the tests start from: a list, and its seats.

ghost use Rattle.std.specs.Prelude.{◌≡◌, All, IfOk};

pub(crate) use crate::tables::given::holds;
use notify_list::{Holding, ListClosed, ListSeat, NotifyList, SetupError, Waited};
use std::alloc::Global;
use std::process::Abort;
use std::sync::Wait;

/// The list and its seats, asked for once more where memory was refused.
pub(crate) fn new_again(
    alloc: Global,
    first: u64,
    seats: u32,
) -> Result<(NotifyList, Vec<ListSeat>), SetupError>
    ensures { IfOk result (λ t. All (λ s. s.list ≡ t.0) t.1.items) }
{
    match NotifyList::starting_at(alloc, first, seats) {
        Err(SetupError::NoMemory) => NotifyList::starting_at(alloc, first, seats),
        answer => answer,
    }
}

/// The same, of so many seats that there can be.
pub(crate) fn made(
    rt: &impl Abort,
    alloc: Global,
    first: u64,
    seats: u32,
) -> (NotifyList, Vec<ListSeat>)
    ensures { All (λ s. s.list ≡ result.0) result.1.items }
{
    new_again(alloc, first, seats).expect(rt, "a list")
}

/// Takes the last seat. A new list's seats are in the order of their numbers.
pub(crate) fn last_seat(rt: &impl Abort, list: &NotifyList, seats: &mut Vec<ListSeat>) -> ListSeat
    requires { All (λ s. s.list ≡ list.now) seats.old.items }
    ensures own { result.list ≡ list.now }
    ensures rest { All (λ s. s.list ≡ list.now) seats.new.items }
{
    seats.pop().expect(rt, "a seat")
}

/// Gives a seat back to those that it was taken from.
pub(crate) fn gives_back(
    rt: &impl Abort,
    list: &NotifyList,
    seats: &mut Vec<ListSeat>,
    seat: ListSeat,
)
    requires { (seat.list ≡ list.now) × All (λ s. s.list ≡ list.now) seats.old.items }
    ensures { All (λ s. s.list ≡ list.now) seats.new.items }
{
    seats
        .push(seat)
        .expect(rt, "the room of a seat that was there");
}

/// Takes the next ticket, which is this one.
pub(crate) fn adds(rt: &impl Abort, list: &NotifyList, seat: ListSeat, expected: u64) -> Holding
    requires { seat.list ≡ list.now }
    ensures { result.list ≡ list.now }
{
    let holding = list.add(seat);
    holds(rt, holding.ticket() == expected);
    holding
}

/// Waits with a ticket that is granted already.
pub(crate) fn waits_at_once<R: Abort + Wait>(
    rt: &R,
    list: &NotifyList,
    holding: Holding,
) -> ListSeat
    requires { holding.list ≡ list.now }
    ensures { result.list ≡ list.now }
{
    let (seat, waited) = list.wait(rt, holding);
    holds(rt, waited == Waited::AtOnce);
    seat
}

/// Grants one ticket, or finds none.
pub(crate) fn grants<R: Abort + Wait>(
    rt: &R,
    list: &NotifyList,
    seat: &mut ListSeat,
    expected: Option<u64>,
)
    requires { seat.old.list ≡ list.now }
    ensures { seat.new.list ≡ list.now }
{
    holds(rt, list.one(rt, seat) == expected);
}

/// Ends the list with all its seats, whose two words are this.
pub(crate) fn ends_at(rt: &impl Abort, list: NotifyList, seats: Vec<ListSeat>, next: u64)
    requires { All (λ s. s.list ≡ list) seats.items }
{
    assert!(rt; seats.len() == list.seats() as usize);
    let notified = next;
    holds(rt, list.close(seats) == ListClosed { next, notified });
}
