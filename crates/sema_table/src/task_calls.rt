//! The calls of a task that may change where its seat stands: they take the seat, and give it back. (`post`, which
//! is a step or two, changes it where it lies.)
ghost use Rattle.std.specs.Prelude.{◌≡◌};
ghost use Rattle.sema_table.specs.Tasks.{PostsManyByTask, EntersByTask, PollsByTask, RetriesByTask};
ghost use Rattle.sema_table.specs.Tasks.{LeavesByTask, WakesByTask, WakesSomeByTask};

use crate::answers::{Entered, GaveUp, Polled, Retried, Wake};
use crate::many_seat::{OwingMany, PostedMany};
use crate::seat::{Owing, Seat, Sleeping, Woken};
use crate::task_answers::{
    TaskEntered, TaskGaveUp, TaskPolled, TaskPosted, TaskRefused, TaskRetried,
};
use crate::task_seat::{Stage, TaskSeat};
use crate::tasks::TaskTable;
use crate::waking_many::WokenSeats;
use running_rows::NoThreads;
use waiters::CounterId;

impl TaskTable {
    /// As [`SemaTable::post_many`].
    pub fn post_many(
        &self,
        seat: TaskSeat,
        counter: CounterId,
        units: u32,
    ) -> (TaskSeat, Result<TaskPosted, TaskRefused>)
        requires { seat.seat.table ≡ self.now }
        ensures { PostsManyByTask seat counter units result.1 result.0 }
    {
        if let Some(why) = self.refusal(&seat.stage, counter) {
            return (seat, Err(why));
        }
        if units == 0 || units > 256 {
            return (seat, Err(TaskRefused::Units));
        }
        let TaskSeat { token, numbers, .. } = seat;
        match self
            .table
            .post_many(Seat { token, numbers }, counter, units)
        {
            Ok(PostedMany::Done(seat)) => (TaskSeat::resting(seat), Ok(TaskPosted::Done)),
            Ok(PostedMany::Owes(owing)) => (TaskSeat::owing_many(owing), Ok(TaskPosted::Owes)),
            Err((seat, _)) => (TaskSeat::resting(seat), Err(TaskRefused::LimitReached)),
        }
    }

    /// As [`SemaTable::try_enter`].
    pub fn enter(
        &self,
        seat: TaskSeat,
        counter: CounterId,
        lifo: bool,
    ) -> (TaskSeat, Result<TaskEntered, TaskRefused>)
        requires { seat.seat.table ≡ self.now }
        ensures { EntersByTask seat counter lifo result.1 result.0 }
    {
        if let Some(why) = self.refusal(&seat.stage, counter) {
            return (seat, Err(why));
        }
        let TaskSeat { token, numbers, .. } = seat;
        match self
            .table
            .try_enter_with::<NoThreads>(Seat { token, numbers }, counter, lifo)
        {
            Ok(Entered::Taken(seat)) => (TaskSeat::resting(seat), Ok(TaskEntered::Taken)),
            Ok(Entered::Asleep(asleep)) => (TaskSeat::sleeping(asleep), Ok(TaskEntered::Asleep)),
            Err(seat) => (TaskSeat::resting(seat), Err(TaskRefused::Busy)),
        }
    }

    /// As [`SemaTable::poll`].
    pub fn poll(&self, seat: TaskSeat) -> (TaskSeat, Result<TaskPolled, TaskRefused>)
        requires { seat.seat.table ≡ self.now }
        ensures { PollsByTask seat result.1 result.0 }
    {
        let stage = seat.stage;
        let Stage::Sleeping(call, turn) = stage else {
            return (seat, Err(TaskRefused::OtherCall));
        };
        let TaskSeat { token, numbers, .. } = seat;
        let asleep = Sleeping {
            token,
            numbers,
            call,
            turn,
        };
        match self.table.poll(asleep) {
            Polled::Still(asleep) => (TaskSeat::sleeping(asleep), Ok(TaskPolled::Still)),
            Polled::Woken(woken) => (TaskSeat::woken(woken), Ok(TaskPolled::Woken)),
            Polled::Handed(seat) => (TaskSeat::resting(seat), Ok(TaskPolled::Handed)),
        }
    }

    /// As [`SemaTable::try_leave`].
    pub fn leave(&self, seat: TaskSeat) -> (TaskSeat, Result<TaskGaveUp, TaskRefused>)
        requires { seat.seat.table ≡ self.now }
        ensures { LeavesByTask seat result.1 result.0 }
    {
        let stage = seat.stage;
        let Stage::Sleeping(call, turn) = stage else {
            return (seat, Err(TaskRefused::OtherCall));
        };
        let TaskSeat { token, numbers, .. } = seat;
        let asleep = Sleeping {
            token,
            numbers,
            call,
            turn,
        };
        match self.table.try_leave_with::<NoThreads>(asleep) {
            Ok(GaveUp::Left(seat)) => (TaskSeat::resting(seat), Ok(TaskGaveUp::Left)),
            Ok(GaveUp::Coming(asleep)) => (TaskSeat::sleeping(asleep), Ok(TaskGaveUp::Coming)),
            Ok(GaveUp::Woken(woken)) => (TaskSeat::woken(woken), Ok(TaskGaveUp::Woken)),
            Ok(GaveUp::Handed(seat)) => (TaskSeat::resting(seat), Ok(TaskGaveUp::Handed)),
            Ok(GaveUp::LimitReached(asleep)) => {
                (TaskSeat::sleeping(asleep), Err(TaskRefused::LimitReached))
            }
            Err(asleep) => (TaskSeat::sleeping(asleep), Err(TaskRefused::Busy)),
        }
    }

    /// As [`SemaTable::retry_at_once`].
    pub fn retry(&self, seat: TaskSeat) -> (TaskSeat, Result<TaskRetried, TaskRefused>)
        requires { seat.seat.table ≡ self.now }
        ensures { RetriesByTask seat result.1 result.0 }
    {
        let stage = seat.stage;
        let Stage::Woken(call) = stage else {
            return (seat, Err(TaskRefused::OtherCall));
        };
        let TaskSeat { token, numbers, .. } = seat;
        let woken = Woken {
            token,
            numbers,
            call,
        };
        match self.table.retry_at_once(woken) {
            Retried::Taken(seat) => (TaskSeat::resting(seat), Ok(TaskRetried::Taken)),
            Retried::Zero(seat) => (TaskSeat::resting(seat), Ok(TaskRetried::Zero)),
        }
    }

    /// As [`SemaTable::try_wake`]. The caller makes the task ready whose seat is named.
    pub fn wake(&self, seat: TaskSeat, handoff: bool) -> (TaskSeat, Result<Wake, TaskRefused>)
        requires { seat.seat.table ≡ self.now }
        ensures { WakesByTask seat handoff result.1 result.0 }
    {
        let stage = seat.stage;
        let Stage::Owing(counter) = stage else {
            return (seat, Err(TaskRefused::OtherCall));
        };
        let TaskSeat { token, numbers, .. } = seat;
        let owing = Owing {
            token,
            numbers,
            counter,
        };
        match self.table.try_wake_with::<NoThreads>(owing, handoff) {
            Ok((seat, wake)) => (TaskSeat::resting(seat), Ok(wake)),
            Err(owing) => (TaskSeat::owing(owing), Err(TaskRefused::Busy)),
        }
    }

    /// As [`SemaTable::try_wake_some`]. The caller makes the tasks ready whose seats are named.
    pub fn wake_some(&self, seat: TaskSeat) -> (TaskSeat, Result<WokenSeats, TaskRefused>)
        requires { seat.seat.table ≡ self.now }
        ensures { WakesSomeByTask seat result.1 result.0 }
    {
        let stage = seat.stage;
        let Stage::OwingMany(call) = stage else {
            return (seat, Err(TaskRefused::OtherCall));
        };
        let TaskSeat { token, numbers, .. } = seat;
        let owing = OwingMany {
            token,
            numbers,
            call,
        };
        match self.table.try_wake_some_with::<NoThreads>(owing) {
            Ok((seat, seats)) => (TaskSeat::resting(seat), Ok(seats)),
            Err(owing) => (TaskSeat::owing_many(owing), Err(TaskRefused::Busy)),
        }
    }
}
