//! A table or a list, with a pool of its seats.
ghost use Rattle.std.specs.Prelude.{◌≡◌, Some, IfOk, IfErr};
ghost use Rattle.sema_table.specs.Rule.{for_threads, for_tasks, setting_of};
ghost use Rattle.sema_table.specs.Making.{IsRefused as RefusesTable};
ghost use Rattle.notify_list.specs.Making as list;
ghost use Rattle.notify_list.specs.Making.{IsRefused as RefusesList};

use crate::pool::{Borrower, SeatPool};
use notify_list::{ListSeat, NotifyList, SetupError as ListSetupError, TaskList, TaskListSeat};
use sema_table::{Seat, SemaTable, Settings, SetupError, TaskSeat, TaskTable};
use std::alloc::Global;
use std::sync::Wait;

/// A table with these settings, a pool of its seats, and who borrows from it. An error has made nothing.
pub fn pooled_table<R: Wait>(
    rt: &R,
    alloc: Global,
    settings: Settings,
) -> Result<
    (
        SemaTable,
        SeatPool<Seat, SemaTable>,
        Borrower<Seat, SemaTable>,
    ),
    SetupError,
>
    ensures setting { IfOk result (λ made. made.0.setting ≡ setting_of (for_threads settings)) }
    ensures pool { IfOk result (λ made. (made.2.pool ≡ made.1) × (made.2.home ≡ Some made.0)) }
    ensures err { IfErr result (λ refused. RefusesTable settings refused) }
{
    let (table, seats) = SemaTable::new(alloc, settings)?;
    match SeatPool::new(rt, alloc, seats) {
        Ok((pool, borrower)) => Ok((table, pool, borrower)),
        Err(_) => Err(SetupError::NoMemory),
    }
}

/// The same for tasks.
pub fn pooled_task_table<R: Wait>(
    rt: &R,
    alloc: Global,
    settings: Settings,
) -> Result<
    (
        TaskTable,
        SeatPool<TaskSeat, TaskTable>,
        Borrower<TaskSeat, TaskTable>,
    ),
    SetupError,
>
    ensures setting { IfOk result (λ made. made.0.setting ≡ setting_of (for_tasks settings)) }
    ensures pool { IfOk result (λ made. (made.2.pool ≡ made.1) × (made.2.home ≡ Some made.0)) }
    ensures err { IfErr result (λ refused. RefusesTable settings refused) }
{
    let (table, seats) = TaskTable::new(alloc, settings)?;
    match SeatPool::new(rt, alloc, seats) {
        Ok((pool, borrower)) => Ok((table, pool, borrower)),
        Err(_) => Err(SetupError::NoMemory),
    }
}

/// A list whose first ticket has this word, a pool of its seats, and who borrows from it. An error has made
/// nothing.
pub fn pooled_list<R: Wait>(
    rt: &R,
    alloc: Global,
    first: u64,
    seats: u32,
) -> Result<
    (
        NotifyList,
        SeatPool<ListSeat, NotifyList>,
        Borrower<ListSeat, NotifyList>,
    ),
    ListSetupError,
>
    ensures setting { IfOk result (λ made. made.0.setting ≡ list.for_threads first seats) }
    ensures pool { IfOk result (λ made. (made.2.pool ≡ made.1) × (made.2.home ≡ Some made.0)) }
    ensures err { IfErr result (λ refused. RefusesList seats refused) }
{
    let (list, seats) = NotifyList::starting_at(alloc, first, seats)?;
    match SeatPool::new(rt, alloc, seats) {
        Ok((pool, borrower)) => Ok((list, pool, borrower)),
        Err(_) => Err(ListSetupError::NoMemory),
    }
}

/// The same for tasks.
pub fn pooled_task_list<R: Wait>(
    rt: &R,
    alloc: Global,
    first: u64,
    seats: u32,
) -> Result<
    (
        TaskList,
        SeatPool<TaskListSeat, TaskList>,
        Borrower<TaskListSeat, TaskList>,
    ),
    ListSetupError,
>
    ensures setting { IfOk result (λ made. made.0.setting ≡ list.for_tasks first seats) }
    ensures pool { IfOk result (λ made. (made.2.pool ≡ made.1) × (made.2.home ≡ Some made.0)) }
    ensures err { IfErr result (λ refused. RefusesList seats refused) }
{
    let (list, seats) = TaskList::starting_at(alloc, first, seats)?;
    match SeatPool::new(rt, alloc, seats) {
        Ok((pool, borrower)) => Ok((list, pool, borrower)),
        Err(_) => Err(ListSetupError::NoMemory),
    }
}
