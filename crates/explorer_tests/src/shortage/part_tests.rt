//! A table, a notify list and what stands on them.

ghost use Rattle.std.specs.Prelude.{◌≡◌, All};

use crate::shortage::rounds::{Attempt, Call, FINE, answered, is_refused_then_answers};
use notify_list::{ListClosed, ListSeat, NotifyList};
use sema_table::{Seat, SemaTable, Settings, SetupError};
use std::alloc::Global;
use sync_guarded::{GuardSeat, Guarded};
use sync_parts::{Cond, GroupSeat, WaitGroup};
use waiters::CounterId;

/// Two counters, at 3 and at 5.
fn is_the_table(table: &SemaTable, seats: &mut Vec<Seat>) -> bool
    requires { All (λ s. s.table ≡ table.now) seats.old.items }
{
    let Some(mut seat) = seats.pop() else {
        return false;
    };
    table.counters() == 2
        && table.seats() == 2
        && seat.id().number() == 1
        && seat.left() == 7
        && table.value(&mut seat, CounterId(0)) == 3
        && table.value(&mut seat, CounterId(1)) == 5
}

#[derive(Drop)]
struct NewTable;

impl Call for NewTable {
    fn attempt(&mut self, alloc: Global) -> Attempt {
        let Ok(starts) = vec![in alloc; 3, 5] else {
            return Attempt::Unasked;
        };
        let settings = Settings {
            starts,
            seats: 2,
            roots: 2,
            seed: 1,
            release_limit: 7,
        };
        match SemaTable::new(alloc, settings) {
            Ok((table, mut seats)) => answered(is_the_table(&table, &mut seats)),
            Err(SetupError::NoMemory) => Attempt::Refused,
            Err(_) => Attempt::Wrong,
        }
    }
}

#[test]
fn a_table_is_refused_or_made(rt: HostRuntime) {
    is_refused_then_answers(&rt, rt.alloc(), FINE, &mut NewTable);
}

/// The list's next ticket is this one, and so is the first that isn't granted.
fn starts_at(list: NotifyList, seats: Vec<ListSeat>, next: u64) -> bool
    requires { All (λ s. s.list ≡ list) seats.items }
{
    let notified = next;
    seats.len() == 3 && list.seats() == 3 && list.close(seats) == ListClosed { next, notified }
}

#[derive(Drop)]
struct StartingAt(u64);

impl Call for StartingAt {
    fn attempt(&mut self, alloc: Global) -> Attempt {
        match NotifyList::starting_at(alloc, self.0, 3) {
            Ok((list, seats)) => answered(starts_at(list, seats, self.0)),
            Err(notify_list::SetupError::NoMemory) => Attempt::Refused,
            Err(_) => Attempt::Wrong,
        }
    }
}

#[test]
fn a_list_is_refused_or_made(rt: HostRuntime) {
    is_refused_then_answers(&rt, rt.alloc(), FINE, &mut StartingAt(4294967295));
}

fn are_list_seats(seats: &[ListSeat]) -> bool {
    seats.len() == 2 && seats[0].id().number() == 0 && seats[1].id().number() == 1
}

#[derive(Drop)]
struct NewCond;

impl Call for NewCond {
    fn attempt(&mut self, alloc: Global) -> Attempt {
        match Cond::with_seats(alloc, 2) {
            Ok((_cond, seats)) => answered(are_list_seats(&seats)),
            Err(notify_list::SetupError::NoMemory) => Attempt::Refused,
            Err(_) => Attempt::Wrong,
        }
    }
}

#[test]
fn a_condition_variable_is_refused_or_made(rt: HostRuntime) {
    is_refused_then_answers(&rt, rt.alloc(), FINE, &mut NewCond);
}

fn are_group_seats(seats: &[GroupSeat]) -> bool {
    let left = 1 << 40;
    seats.len() == 2 && seats[0].left() == left && seats[1].left() == left
}

#[derive(Drop)]
struct NewGroup;

impl Call for NewGroup {
    fn attempt(&mut self, alloc: Global) -> Attempt {
        match WaitGroup::with_seats(alloc, 2) {
            Ok((_group, seats)) => answered(are_group_seats(&seats)),
            Err(SetupError::NoMemory) => Attempt::Refused,
            Err(_) => Attempt::Wrong,
        }
    }
}

#[test]
fn a_wait_group_is_refused_or_made(rt: HostRuntime) {
    is_refused_then_answers(&rt, rt.alloc(), FINE, &mut NewGroup);
}

/// The value is there, for two seats.
fn is_the_value(guarded: Guarded<u32>, mut seats: Vec<GuardSeat<u32>>) -> bool
    requires { All (λ s. s.guarded ≡ guarded) seats.items }
{
    let count = seats.len();
    match seats.pop() {
        Some(seat) => count == 2 && guarded.into_value(seat) == 7,
        None => false,
    }
}

#[derive(Drop)]
struct NewGuarded;

impl Call for NewGuarded {
    fn attempt(&mut self, alloc: Global) -> Attempt {
        match Guarded::with_seats(alloc, 2, 7u32) {
            Ok((guarded, seats)) => answered(is_the_value(guarded, seats)),
            Err(refused) if refused.why == SetupError::NoMemory && refused.value == 7 => {
                Attempt::Refused
            }
            Err(_) => Attempt::Wrong,
        }
    }
}

#[test]
fn a_guarded_value_is_refused_and_given_back_or_made(rt: HostRuntime) {
    is_refused_then_answers(&rt, rt.alloc(), FINE, &mut NewGuarded);
}
