//! Tickets that are taken in one order and queued in another: they are granted in the order in which they
//! were taken.

ghost use Rattle.std.specs.Prelude.{◌≡◌, All};

use crate::lists::given::{adds, grants, holds, last_seat, made};
use crate::parts::actor::reaches;
use notify_list::{ListSeat, NotifyList};
use sema_table_crew::CrewStart;
use std::process::Abort;
use std::sync::Wait;
use std::sync::atomic::AtomicU64;
use std::sync::atomic::Ordering::SeqCst;
use std::thread;
use std::thread::{Scope, Threads};

/// How often a thread lets the others run once its turn has come, so that who came before it is queued by
/// then.
const YIELDS: u32 = 1_000;

/// When they begin; how many have taken a ticket, how many have gone to wait, and how many have come back.
#[derive(Drop)]
struct Turns {
    start: CrewStart,
    taken: AtomicU64,
    gone: AtomicU64,
    back: AtomicU64,
}

/// Returns a while after the number is this.
fn awaits<R: Wait>(rt: &R, number: &AtomicU64, wanted: u64) {
    reaches(rt, number, wanted);
    for _ in 0..YIELDS {
        thread::yield_now();
    }
}

/// Takes this ticket, of three, after those before it, goes to wait with it after those behind it, and comes
/// back after those before it.
fn waits_in_turn<R: Abort + Wait>(
    rt: &R,
    list: &NotifyList,
    seat: ListSeat,
    turns: &Turns,
    ticket: u64,
)
    requires { seat.list ≡ list.now }
{
    if turns.start.wait(rt) {
        awaits(rt, &turns.taken, ticket);
        let holding = adds(rt, list, seat, ticket);
        turns.taken.store(ticket.wrapping_add(1), SeqCst);
        awaits(rt, &turns.gone, 2_u64.wrapping_sub(ticket));
        turns.gone.store(3_u64.wrapping_sub(ticket), SeqCst);
        let _ = list.wait(rt, holding);
        holds(
            rt,
            turns.back.swap(ticket.wrapping_add(1), SeqCst) == ticket,
        );
    }
}

/// Grants the three tickets one by one, each once the one before has come back.
fn notifies_in_turn<R: Abort + Wait>(rt: &R, list: &NotifyList, seat: ListSeat, turns: &Turns)
    requires { seat.list ≡ list.now }
{
    let mut seat = seat;
    awaits(rt, &turns.gone, 3);
    grants(rt, list, &mut seat, Some(0));
    awaits(rt, &turns.back, 1);
    grants(rt, list, &mut seat, Some(1));
    awaits(rt, &turns.back, 2);
    grants(rt, list, &mut seat, Some(2));
    awaits(rt, &turns.back, 3);
    grants(rt, list, &mut seat, None);
}

/// Whether there could be a thread that waits in turn.
fn hire<'s, E, R: Abort + Threads + Wait + Sync>(
    scope: &'s Scope<'s, E>,
    rt: &'s R,
    list: &'s NotifyList,
    seat: ListSeat,
    turns: &'s Turns,
    ticket: u64,
) -> bool
    requires { seat.list ≡ list.now }
{
    scope
        .spawn(move || waits_in_turn(rt, list, seat, turns, ticket))
        .is_ok()
}

/// The tickets 0, 1 and 2 are taken in this order, and queued the other way round. It is `false` where a
/// thread can't be made.
fn three_tickets<R: Abort + Threads + Wait + Sync>(
    rt: &R,
    list: &NotifyList,
    seats: &mut Vec<ListSeat>,
) -> bool
    requires { All (λ s. s.list ≡ list.now) seats.old.items }
    ensures { All (λ s. s.list ≡ list.now) seats.new.items }
{
    let turns = Turns {
        start: CrewStart::new(),
        taken: AtomicU64::new(0),
        gone: AtomicU64::new(0),
        back: AtomicU64::new(0),
    };
    let turns = &turns;
    let first = last_seat(rt, list, seats);
    let second = last_seat(rt, list, seats);
    let third = last_seat(rt, list, seats);
    let fourth = last_seat(rt, list, seats);
    thread::scope(
        thread::scope_env(),
        rt,
        move |scope| -> bool
            requires one { (first.list ≡ list.now) × (second.list ≡ list.now) }
            requires other { (third.list ≡ list.now) × (fourth.list ≡ list.now) }
        {
            let one = hire(scope, rt, list, first, turns, 0);
            let two = hire(scope, rt, list, second, turns, 1);
            let three = hire(scope, rt, list, third, turns, 2);
            let all = one && two && three;
            turns.start.tell(all);
            if all {
                notifies_in_turn(rt, list, fourth, turns);
            }
            all
        },
    )
}

#[test]
fn tickets_are_granted_in_the_order_in_which_they_were_taken(rt: HostRuntime) {
    let (list, mut seats) = made(&rt, rt.alloc(), 0, 8);
    let told = three_tickets(&rt, &list, &mut seats) || three_tickets(&rt, &list, &mut seats);
    holds(&rt, told);
}
