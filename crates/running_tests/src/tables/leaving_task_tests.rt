//! A task whose seat gives up: while it sleeps, at rest, and with no unit left to spend.

ghost use Rattle.std.specs.Prelude.{◌≡◌, All, IfOk};

use crate::tables::given::holds;
use sema_table::{
    Settings, SetupError, TaskEntered, TaskGaveUp, TaskRefused, TaskSeat, TaskStage, TaskTable,
};
use std::alloc::Global;
use std::process::Abort;
use waiters::CounterId;

fn new_table(alloc: Global) -> Result<(TaskTable, Vec<TaskSeat>), SetupError>
    ensures { IfOk result (λ t. All (λ s. s.seat.table ≡ t.0) t.1.items) }
{
    let Ok(starts) = vec![in alloc; 0; 1] else {
        return Err(SetupError::NoMemory);
    };
    let settings = Settings {
        starts,
        seats: 2,
        roots: 1,
        seed: 1,
        release_limit: 1,
    };
    TaskTable::new(alloc, settings)
}

/// A table with two seats, each of which may spend one unit; asked for once more where memory was refused.
fn made(rt: &impl Abort, alloc: Global) -> (TaskTable, Vec<TaskSeat>)
    ensures { All (λ s. s.seat.table ≡ result.0) result.1.items }
{
    match new_table(alloc) {
        Ok(made) => made,
        Err(_refused) => new_table(alloc).expect(rt, "a table"),
    }
}

fn sleeps(rt: &impl Abort, table: &TaskTable, seat: TaskSeat) -> TaskSeat
    requires { seat.seat.table ≡ table.now }
    ensures { result.seat.table ≡ table.now }
{
    match table.enter(seat, CounterId::new(0), false) {
        (seat, Ok(TaskEntered::Asleep)) => seat,
        (_seat, _other) => panic!(rt; "there is no unit"),
    }
}

fn leaves(rt: &impl Abort, table: &TaskTable, seat: TaskSeat) -> TaskSeat
    requires { seat.seat.table ≡ table.now }
    ensures { result.seat.table ≡ table.now }
{
    match table.leave(seat) {
        (seat, Ok(TaskGaveUp::Left)) => seat,
        (_seat, _other) => panic!(rt; "its wait was queued"),
    }
}

/// The seat gives up, but may not: it isn't asleep, or has no unit left to spend.
fn is_refused(rt: &impl Abort, table: &TaskTable, seat: TaskSeat, number: u8)
    requires { seat.seat.table ≡ table.now }
{
    let (_seat, told) = table.leave(seat);
    let Err(why) = told else {
        panic!(rt; "it may not give up");
    };
    holds(rt, why as u8 == number);
}

/// Whether the seat is between two calls.
fn rests(seat: &TaskSeat) -> bool {
    matches!(seat.stage(), TaskStage::Resting)
}

fn gives_up(rt: &impl Abort, table: &TaskTable, seat: TaskSeat)
    requires { seat.seat.table ≡ table.now }
{
    let seat = sleeps(rt, table, seat);
    let seat = leaves(rt, table, seat);
    holds(rt, rests(&seat));
    let seat = sleeps(rt, table, seat);
    holds(rt, !rests(&seat));
    is_refused(rt, table, seat, TaskRefused::LimitReached as u8);
}

#[test]
fn a_task_gives_up(rt: HostRuntime) {
    let (table, mut seats) = made(&rt, rt.alloc());
    let at_rest = seats.pop().expect(&rt, "a seat");
    is_refused(&rt, &table, at_rest, TaskRefused::OtherCall as u8);
    let seat = seats.pop().expect(&rt, "a seat");
    gives_up(&rt, &table, seat);
}
