//! Tickets of a notify list: found by one thread, and by two that signal each other.
ghost use Rattle.std.specs.Prelude.{◌≡◌, All};

use crate::crew;
use crate::crew::{Job, Seats};
use crate::plan::Plan;
use anyhow::{Result, bail};
use notify_list::{ListSeat, NotifyList};
use sema_table_crew::tell;
use std::sync::Wait;
use std::thread;
use std::thread::Threads;
use std::time::{Clock, Instant};

/// Takes a ticket by one seat, notifies by the other, and waits with the ticket, so many times. Alone it
/// grants its own ticket.
#[inline(never)]
fn rounds<R: Wait>(
    rt: &R,
    list: &NotifyList,
    waits: ListSeat,
    tells: ListSeat,
    turns: u32,
) -> ListSeat
    requires { (waits.list ≡ list.now) × (tells.list ≡ list.now) }
    ensures { result.list ≡ list.now }
{
    let (mut waits, mut tells) = (waits, tells);
    for _ in 0..turns {
        // Its own ticket before it notifies: whom it wakes is to find that ticket.
        let holding = list.add(waits);
        list.one(rt, &mut tells);
        (waits, _) = list.wait(rt, holding);
    }
    tells
}

/// Returns once a ticket is handed out that isn't granted.
fn await_ticket<R: Wait>(rt: &R, list: &NotifyList, seat: &mut ListSeat)
    requires { seat.old.list ≡ list.now }
    ensures { seat.new.list ≡ list.now }
{
    for _ in rt.forever() {
        if !list.quiet(seat) {
            return;
        }
        thread::yield_now();
    }
}

/// A thread with two seats of a list: a seat that holds a ticket can't notify.
#[derive(Drop)]
struct Signaller<'b> {
    list: &'b NotifyList,
    waits: ListSeat,
    tells: ListSeat,
    /// Whether it notifies first; the other has its first ticket by then.
    begins: bool,
    ghost own: { (waits.list ≡ list.now) × (tells.list ≡ list.now) },
}

impl<'b> Job for Signaller<'b> {
    /// So many times there and back.
    fn turns<R: Wait>(self, rt: &R, turns: u32) {
        let Signaller {
            list,
            waits,
            mut tells,
            begins,
        } = self;
        if begins {
            await_ticket(rt, list, &mut tells);
            let mut tells = rounds(rt, list, waits, tells, turns);
            // The other's last ticket.
            list.one(rt, &mut tells);
        } else {
            let holding = list.add(waits);
            let (waits, _) = list.wait(rt, holding);
            rounds(rt, list, waits, tells, turns);
        }
    }
}

/// A list, and its seats.
#[derive(Drop)]
struct ListSeats<'b> {
    list: &'b NotifyList,
    seats: Vec<ListSeat>,
    ghost own: { All (λ s. s.list ≡ list.now) seats.items },
}

impl<'b> Seats<Signaller<'b>> for ListSeats<'b> {
    /// One of two that signal each other, with the last two seats.
    fn job(&mut self, number: u32) -> Option<Signaller<'b>> {
        let waits = self.seats.pop()?;
        let tells = self.seats.pop()?;
        Some(Signaller {
            list: self.list,
            waits,
            tells,
            begins: number == 0,
        })
    }
}

/// Times tickets that are granted by the thread that took them.
fn time_rounds(
    rt: &(impl Clock + Print + Wait),
    plan: &Plan<'_>,
    seats: Signaller<'_>,
) -> Result<()> {
    let Signaller {
        list,
        waits,
        tells,
        ..
    } = seats;
    let start = Instant::now(rt)?;
    rounds(rt, list, waits, tells, plan.turns);
    tell(rt, plan.case, &start, u64::from(plan.turns))
}

/// Times one thread that signals itself.
pub fn time_alone(rt: &(impl Clock + Print + Wait), plan: &Plan<'_>) -> Result<()> {
    let (list, seats) = NotifyList::starting_at(plan.alloc, 0, 2)?;
    let mut seats = ListSeats { list: &list, seats };
    let Some(seats) = seats.job(0) else {
        bail!("no seats")
    };
    time_rounds(rt, plan, seats)
}

/// Times two threads that signal each other.
pub fn time<R: Clock + Print + Threads + Wait + Sync>(rt: &R, plan: &Plan<'_>) -> Result<()> {
    let (list, seats) = NotifyList::starting_at(plan.alloc, 0, 4)?;
    let seats = ListSeats { list: &list, seats };
    crew::time(rt, plan, seats, 2, u64::from(plan.turns))
}
