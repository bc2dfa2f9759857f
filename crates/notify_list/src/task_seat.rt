//! A seat of a task, wherever it stands.
ghost use Rattle.std.specs.Prelude.{◌≡◌};
ghost use Rattle.notify_list.specs.declared.task_seat.TaskStage.TheVariants as stands;

use crate::rows::Token;
use crate::seat::{Holding, ListSeat, OwingAll, Parked};
use std::marker::Model;
use waiters::SeatId;

/// A seat between two calls, or in the middle of one: one type for all, for a caller that keeps its seats in
/// places of one type. One that is let go in the middle of a call leaves that call half done: a ticket is
/// granted and nobody goes on with it, or a wait stays queued that nobody ends.
#[derive(Drop)]
pub struct TaskListSeat {
    pub(crate) token: Token,
    pub(crate) number: u16,
    pub(crate) stage: Stage,
}

/// Where it stands.
#[derive(Clone, Copy, Drop)]
pub(crate) enum Stage {
    Resting,
    /// It holds the ticket with this word.
    Holding(u64),
    /// Its wait is queued, and whether it may leave.
    Parked(bool),
    /// It has to go on with a notification of all.
    OwingAll,
}

/// Where a seat stands, as its caller sees it.
#[derive(Clone, Copy, Drop)]
pub enum TaskStage {
    /// Between two calls, without a ticket.
    Resting,
    /// It owes a `try_wait`.
    Holding,
    /// It owes a `poll`, or leaves.
    Parked,
    /// It owes a `retry_all`.
    OwingAll,
}

impl Model for TaskListSeat {
    ghost use Rattle.notify_list.specs.TaskSeats.{TaskModel, task_of, IsTaskSeat};

    ghost Value = { TaskModel };

    ghost view = { λ s. task_of s.token s.number s.stage };

    ghost invariant = { λ s. IsTaskSeat s.token s.number s.stage };
}

impl TaskListSeat {
    /// Which seat it is.
    pub fn id(&self) -> SeatId
        ensures { result ≡ self.now.seat.number }
    {
        SeatId::new(self.number)
    }

    /// Where it stands.
    pub fn stage(&self) -> TaskStage
        ensures { result ≡ self.now.stage }
    {
        match self.stage {
            Stage::Resting => TaskStage::Resting,
            Stage::Holding(_) => TaskStage::Holding,
            Stage::Parked(_) => TaskStage::Parked,
            Stage::OwingAll => TaskStage::OwingAll,
        }
    }

    /// A seat between two calls.
    pub(crate) fn resting(seat: ListSeat) -> TaskListSeat
        ensures { result ≡ record { seat = seat; stage = stands.Resting } }
    {
        let ListSeat { token, number } = seat;
        TaskListSeat {
            token,
            number,
            stage: Stage::Resting,
        }
    }

    /// A seat with a ticket.
    pub(crate) fn holding(seat: Holding) -> TaskListSeat
        ensures { result ≡ record { seat = seat; stage = stands.Holding } }
    {
        let Holding {
            token,
            number,
            ticket,
        } = seat;
        TaskListSeat {
            token,
            number,
            stage: Stage::Holding(ticket),
        }
    }

    /// A seat whose wait is queued.
    pub(crate) fn parked(seat: Parked) -> TaskListSeat
        ensures { result ≡ record { seat = seat; stage = stands.Parked } }
    {
        let Parked {
            token,
            number,
            may_leave,
        } = seat;
        TaskListSeat {
            token,
            number,
            stage: Stage::Parked(may_leave),
        }
    }

    /// A seat that has to go on.
    pub(crate) fn owing_all(seat: OwingAll) -> TaskListSeat
        ensures { result ≡ record { seat = seat; stage = stands.OwingAll } }
    {
        let OwingAll { token, number } = seat;
        TaskListSeat {
            token,
            number,
            stage: Stage::OwingAll,
        }
    }
}
