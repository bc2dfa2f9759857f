//! A seat of a task, wherever it stands.
ghost use Rattle.std.specs.Prelude.{◌≡◌};
ghost use Rattle.sema_table.specs.declared.task_seat.TaskStage.TheVariants as standing;

use crate::many_seat::OwingMany;
use crate::rows::Token;
use crate::seat::{Numbers, Owing, Seat, Sleeping, Woken};
use std::marker::Model;
use step_table::{Acquire, ReleaseMany};
use waiters::{CounterId, SeatId};

/// A seat between two calls, or in the middle of one: one type for all, for a caller that keeps its seats
/// in places of one type. One that is let go in the middle of a call leaves that call half done: units stay
/// beside waits that nobody wakes, or a wait stays queued that nobody ends.
#[derive(Drop)]
pub struct TaskSeat {
    pub(crate) token: Token,
    pub(crate) numbers: Numbers,
    pub(crate) stage: Stage,
}

/// Where it stands.
#[derive(Clone, Copy, Drop)]
pub(crate) enum Stage {
    Resting,
    /// It has added a unit to this counter, and has yet to look for a wait.
    Owing(CounterId),
    /// It has added many, and has yet to look for waits.
    OwingMany(ReleaseMany),
    /// Its wait of this turn is queued.
    Sleeping(Acquire, u64),
    /// Its wait was woken without a unit.
    Woken(Acquire),
}

/// Where a seat stands, as its caller sees it.
#[derive(Clone, Copy, Drop)]
pub enum TaskStage {
    /// Between two calls.
    Resting,
    /// It owes a `wake`.
    Owing,
    /// It owes a `wake_some`.
    OwingMany,
    /// It owes a `poll`.
    Sleeping,
    /// It owes a `retry`.
    Woken,
}

impl Model for TaskSeat {
    ghost use Rattle.sema_table.specs.TaskSeats.{TaskModel, task_of, IsTaskSeat};

    ghost Value = { TaskModel };

    ghost view = { λ s. task_of s.token s.numbers s.stage };

    ghost invariant = { λ s. IsTaskSeat s.token s.numbers s.stage };
}

impl TaskSeat {
    /// Which seat it is.
    pub fn number(&self) -> SeatId
        ensures { result ≡ self.now.seat.number }
    {
        self.numbers.id()
    }

    /// Where it stands.
    pub fn stage(&self) -> TaskStage
        ensures { result ≡ self.now.stage }
    {
        match self.stage {
            Stage::Resting => TaskStage::Resting,
            Stage::Owing(_) => TaskStage::Owing,
            Stage::OwingMany(_) => TaskStage::OwingMany,
            Stage::Sleeping(_, _) => TaskStage::Sleeping,
            Stage::Woken(_) => TaskStage::Woken,
        }
    }

    /// A seat between two calls.
    #[inline]
    pub(crate) fn resting(seat: Seat) -> TaskSeat
        ensures { result ≡ record { seat = seat; stage = standing.Resting } }
    {
        let Seat { token, numbers } = seat;
        TaskSeat {
            token,
            numbers,
            stage: Stage::Resting,
        }
    }

    /// A seat that owes a wake.
    pub(crate) fn owing(seat: Owing) -> TaskSeat
        ensures { result ≡ record { seat = seat; stage = standing.Owing } }
    {
        let Owing {
            token,
            numbers,
            counter,
        } = seat;
        TaskSeat {
            token,
            numbers,
            stage: Stage::Owing(counter),
        }
    }

    /// A seat that owes wakes.
    pub(crate) fn owing_many(seat: OwingMany) -> TaskSeat
        ensures { result ≡ record { seat = seat; stage = standing.OwingMany } }
    {
        let OwingMany {
            token,
            numbers,
            call,
        } = seat;
        TaskSeat {
            token,
            numbers,
            stage: Stage::OwingMany(call),
        }
    }

    /// A seat whose wait is queued.
    pub(crate) fn sleeping(seat: Sleeping) -> TaskSeat
        ensures { result ≡ record { seat = seat; stage = standing.Sleeping } }
    {
        let Sleeping {
            token,
            numbers,
            call,
            turn,
        } = seat;
        TaskSeat {
            token,
            numbers,
            stage: Stage::Sleeping(call, turn),
        }
    }

    /// A seat that was woken without a unit.
    pub(crate) fn woken(seat: Woken) -> TaskSeat
        ensures { result ≡ record { seat = seat; stage = standing.Woken } }
    {
        let Woken {
            token,
            numbers,
            call,
        } = seat;
        TaskSeat {
            token,
            numbers,
            stage: Stage::Woken(call),
        }
    }
}
