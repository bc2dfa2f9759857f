//! A list for tasks whose threads somebody else parks, as a scheduler does, or a program in another language.
//!
//! No thread sleeps in the kernel at it, so none of its calls calls the kernel, and none waits: a task whose
//! seat is parked polls again once its seat was named by the answer of a [`TaskList::one`], a
//! [`TaskList::all`] or a [`TaskList::retry_all`].
ghost use Rattle.std.specs.Prelude.{◌≡◌, ◌≤◌, length, All, IfOk, OnErr, IfErr, map};
ghost use Rattle.notify_list.specs.declared.task_seat.TaskStage.TheVariants.{Resting};
ghost use Rattle.notify_list.specs.Making.{IsRefused};
ghost use Rattle.notify_list.specs.Tasks.{IsMadeForTasks, AddsByTask, LooksByTask, EntersByTask, PollsByTask};
ghost use Rattle.notify_list.specs.Tasks.{LeavesByTask};
ghost use Rattle.notify_list.specs.Tasks.{NotifiesOneByTask, NotifiesAllByTask, GoesOnByTask};

use crate::make::make_with;
use crate::notified::{Notified, NotifiedAll};
use crate::notify_list::NotifyList;
use crate::seat::{Holding, ListSeat, OwingAll, Parked};
use crate::setup_error::SetupError;
use crate::task_answers::{TaskEntered, TaskGaveUp, TaskPolled, TaskRefused};
use crate::task_seat::{Stage, TaskListSeat};
use crate::view::Setting;
use crate::waited::{Entered, GaveUp, Polled};
use running_rows::NoThreads;
use std::alloc::{AllocError, Global};
use std::marker::Model;

/// Tickets, on which tasks wait and which they grant. Its calls take `&self` and a seat, and give the seat
/// back, so threads share it in an `Arc`.
#[derive(Drop)]
pub struct TaskList {
    list: NotifyList,
}

impl Model for TaskList {
    ghost use Rattle.std.specs.Prelude.{◌≡◌, false};
    ghost use Rattle.notify_list.specs.Seats.{ListModel};

    ghost Value = { ListModel };

    ghost view = { λ t. t.list };

    ghost invariant = { λ t. t.list.setting.has_threads ≡ false };
}

/// Each seat as a task's.
fn resting_seats(alloc: Global, seats: Vec<ListSeat>) -> Result<Vec<TaskListSeat>, AllocError>
    ensures { IfOk result (λ made. made.items ≡ map (λ s. record { seat = s; stage = Resting }) seats.items) }
{
    let mut made = Vec::with_capacity(alloc, seats.len())?;
    for seat in seats {
        made.push(TaskListSeat::resting(seat))?;
    }
    Ok(made)
}

impl TaskList {
    /// A list whose first ticket is this one, and its seats in the order of their numbers. An error has made
    /// nothing: there are not 1 to 65,536 seats, or no memory for them.
    pub fn starting_at(
        alloc: Global,
        first: u64,
        seats: u32,
    ) -> Result<(TaskList, Vec<TaskListSeat>), SetupError>
        ensures ok { IfOk result (λ t. IsMadeForTasks first seats t.0 t.1.items) }
        ensures own { IfOk result (λ t. All (λ s. s.seat.list ≡ t.0) t.1.items) }
        ensures err { IfErr result (λ refused. IsRefused seats refused) }
    {
        let setting = Setting {
            first,
            seats,
            has_threads: false,
        };
        let (list, made) = make_with(alloc, setting)?;
        match resting_seats(alloc, made) {
            Ok(made) => Ok((TaskList { list }, made)),
            Err(AllocError) => Err(SetupError::NoMemory),
        }
    }

    /// How many seats there are.
    pub fn seats(&self) -> u32
        ensures { result ≡ self.now.setting.seats }
    {
        self.list.seats()
    }

    /// As [`NotifyList::add`]: the ticket.
    pub fn add(&self, seat: TaskListSeat) -> (TaskListSeat, Result<u64, TaskRefused>)
        requires { seat.seat.list ≡ self.now }
        ensures { AddsByTask seat result.1 result.0 }
    {
        let Stage::Resting = seat.stage else {
            return (seat, Err(TaskRefused::OtherCall));
        };
        let TaskListSeat { token, number, .. } = seat;
        let holding = self.list.add(ListSeat { token, number });
        let ticket = holding.ticket();
        (TaskListSeat::holding(holding), Ok(ticket))
    }

    /// As [`NotifyList::quiet`].
    pub fn quiet(&self, seat: TaskListSeat) -> (TaskListSeat, Result<bool, TaskRefused>)
        requires { seat.seat.list ≡ self.now }
        ensures { LooksByTask seat result.1 result.0 }
    {
        let Stage::Resting = seat.stage else {
            return (seat, Err(TaskRefused::OtherCall));
        };
        let TaskListSeat { token, number, .. } = seat;
        let mut seat = ListSeat { token, number };
        let quiet = self.list.quiet(&mut seat);
        (TaskListSeat::resting(seat), Ok(quiet))
    }

    /// As [`NotifyList::try_wait`].
    pub fn try_wait(&self, seat: TaskListSeat) -> (TaskListSeat, Result<TaskEntered, TaskRefused>)
        requires { seat.seat.list ≡ self.now }
        ensures { EntersByTask seat result.1 result.0 }
    {
        let Stage::Holding(ticket) = seat.stage else {
            return (seat, Err(TaskRefused::OtherCall));
        };
        let TaskListSeat { token, number, .. } = seat;
        let holding = Holding {
            token,
            number,
            ticket,
        };
        match self.list.try_wait_with::<NoThreads>(holding) {
            Ok(Entered::AtOnce(seat)) => (TaskListSeat::resting(seat), Ok(TaskEntered::AtOnce)),
            Ok(Entered::Queued(parked)) => (TaskListSeat::parked(parked), Ok(TaskEntered::Queued)),
            Err(holding) => (TaskListSeat::holding(holding), Err(TaskRefused::Busy)),
        }
    }

    /// As [`NotifyList::poll`].
    pub fn poll(&self, seat: TaskListSeat) -> (TaskListSeat, Result<TaskPolled, TaskRefused>)
        requires { seat.seat.list ≡ self.now }
        ensures { PollsByTask seat result.1 result.0 }
    {
        let Stage::Parked(may_leave) = seat.stage else {
            return (seat, Err(TaskRefused::OtherCall));
        };
        let TaskListSeat { token, number, .. } = seat;
        let parked = Parked {
            token,
            number,
            may_leave,
        };
        match self.list.poll(parked) {
            Polled::Still(parked) => (TaskListSeat::parked(parked), Ok(TaskPolled::Still)),
            Polled::Granted(seat) => (TaskListSeat::resting(seat), Ok(TaskPolled::Granted)),
        }
    }

    /// As [`NotifyList::try_leave`].
    pub fn leave(&self, seat: TaskListSeat) -> (TaskListSeat, Result<TaskGaveUp, TaskRefused>)
        requires { seat.seat.list ≡ self.now }
        ensures { LeavesByTask seat result.1 result.0 }
    {
        let Stage::Parked(may_leave) = seat.stage else {
            return (seat, Err(TaskRefused::OtherCall));
        };
        let TaskListSeat { token, number, .. } = seat;
        let parked = Parked {
            token,
            number,
            may_leave,
        };
        match self.list.try_leave_with::<NoThreads>(parked) {
            Ok(GaveUp::Left(seat)) => (TaskListSeat::resting(seat), Ok(TaskGaveUp::Left)),
            Ok(GaveUp::Coming(parked)) => (TaskListSeat::parked(parked), Ok(TaskGaveUp::Coming)),
            Ok(GaveUp::Granted(seat)) => (TaskListSeat::resting(seat), Ok(TaskGaveUp::Granted)),
            Ok(GaveUp::LimitReached(parked)) => {
                (TaskListSeat::parked(parked), Ok(TaskGaveUp::LimitReached))
            }
            Err(parked) => (TaskListSeat::parked(parked), Err(TaskRefused::Busy)),
        }
    }

    /// As [`NotifyList::try_one`]. The caller makes the task ready whose seat is named.
    pub fn one(&self, seat: TaskListSeat) -> (TaskListSeat, Result<Option<Notified>, TaskRefused>)
        requires { seat.seat.list ≡ self.now }
        ensures { NotifiesOneByTask seat result.1 result.0 }
    {
        let Stage::Resting = seat.stage else {
            return (seat, Err(TaskRefused::OtherCall));
        };
        let TaskListSeat { token, number, .. } = seat;
        let mut seat = ListSeat { token, number };
        match self.list.try_one_with::<NoThreads>(&mut seat) {
            Ok(notified) => (TaskListSeat::resting(seat), Ok(notified)),
            Err(_) => (TaskListSeat::resting(seat), Err(TaskRefused::Busy)),
        }
    }

    /// As [`NotifyList::try_all`]. The caller makes the tasks ready whose seats are named. A busy seat owes a
    /// `retry_all`.
    pub fn all(
        &self,
        seat: TaskListSeat,
        woken: &mut [u32],
    ) -> (TaskListSeat, Result<NotifiedAll, TaskRefused>)
        requires seat { seat.seat.list ≡ self.now }
        requires room { self.now.setting.seats ≤ length woken.old }
        ensures answer { NotifiesAllByTask seat result.1 woken.new result.0 }
        ensures kept { OnErr result.1 (woken.new ≡ woken.old) }
    {
        let Stage::Resting = seat.stage else {
            return (seat, Err(TaskRefused::OtherCall));
        };
        let TaskListSeat { token, number, .. } = seat;
        match self
            .list
            .try_all_with::<NoThreads>(ListSeat { token, number }, woken)
        {
            Ok((seat, all)) => (TaskListSeat::resting(seat), Ok(all)),
            Err(owing) => (TaskListSeat::owing_all(owing), Err(TaskRefused::Busy)),
        }
    }

    /// As [`NotifyList::retry_all`].
    pub fn retry_all(
        &self,
        seat: TaskListSeat,
        woken: &mut [u32],
    ) -> (TaskListSeat, Result<NotifiedAll, TaskRefused>)
        requires seat { seat.seat.list ≡ self.now }
        requires room { self.now.setting.seats ≤ length woken.old }
        ensures answer { GoesOnByTask seat result.1 woken.new result.0 }
        ensures kept { OnErr result.1 (woken.new ≡ woken.old) }
    {
        let Stage::OwingAll = seat.stage else {
            return (seat, Err(TaskRefused::OtherCall));
        };
        let TaskListSeat { token, number, .. } = seat;
        match self
            .list
            .retry_all_with::<NoThreads>(OwingAll { token, number }, woken)
        {
            Ok((seat, all)) => (TaskListSeat::resting(seat), Ok(all)),
            Err(owing) => (TaskListSeat::owing_all(owing), Err(TaskRefused::Busy)),
        }
    }
}
