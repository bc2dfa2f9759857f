//! A table for tasks whose threads somebody else parks, as a scheduler does, or a program in another language.
//!
//! No thread sleeps in the kernel at it, so none of its calls calls the kernel, and none waits: a task whose
//! seat sleeps polls again once its seat was named by the answer of a [`TaskTable::wake`] or
//! [`TaskTable::wake_some`].
ghost use Rattle.std.specs.Prelude.{◌≡◌, ◌<◌, length, All, Ok, IfOk, IfErr, IfSome, IfNone, map, ◌≢◌, ◌≤◌};
ghost use Rattle.sema_table.specs.Making.{IsRefused};
ghost use Rattle.sema_table.specs.declared.task_seat.TaskStage.TheVariants.{Resting};
ghost use Rattle.sema_table.specs.Tasks.{ReadsByTask, CountsByTask, TriesByTask, PostsByTask, IsMadeForTasks};
ghost use Rattle.sema_table.specs.Tasks.{Unfit};

use crate::answers::Tried;
use crate::make::make_with;
use crate::seat::Seat;
use crate::sema_table::SemaTable;
use crate::settings::{Settings, TableKey};
use crate::setup_error::SetupError;
use crate::task_answers::{TaskPosted, TaskRefused};
use crate::task_seat::{Stage, TaskSeat};
use std::alloc::{AllocError, Global};
use std::marker::Model;
use waiters::CounterId;

/// Counters, on which tasks wait for and wake each other. Its calls take `&self` and a seat, so threads share
/// it in an `Arc`.
#[derive(Drop)]
pub struct TaskTable {
    pub(crate) table: SemaTable,
}

impl Model for TaskTable {
    ghost use Rattle.std.specs.Prelude.{◌≡◌, false};
    ghost use Rattle.sema_table.specs.Seats.{TableModel};

    ghost Value = { TableModel };

    ghost view = { λ t. t.table };

    ghost invariant = { λ t. t.table.setting.has_threads ≡ false };
}

/// Each seat as a task's.
fn resting_seats(alloc: Global, seats: Vec<Seat>) -> Result<Vec<TaskSeat>, AllocError>
    ensures { IfOk result (λ made. made.items ≡ map (λ s. record { seat = s; stage = Resting }) seats.items) }
{
    let mut made = Vec::with_capacity(alloc, seats.len())?;
    for seat in seats {
        made.push(TaskSeat::resting(seat))?;
    }
    Ok(made)
}

impl TaskTable {
    /// A table with these settings, and its seats in the order of their numbers. An error has made nothing:
    /// settings out of their limits, or no memory for what they ask.
    pub fn new(alloc: Global, settings: Settings) -> Result<(TaskTable, Vec<TaskSeat>), SetupError>
        ensures ok { IfOk result (λ t. IsMadeForTasks settings t.0 t.1.items) }
        ensures own { IfOk result (λ t. All (λ s. s.seat.table ≡ t.0) t.1.items) }
        ensures err { IfErr result (λ refused. IsRefused settings refused) }
    {
        let key = TableKey {
            settings,
            has_threads: false,
        };
        let (table, seats) = make_with(alloc, key)?;
        match resting_seats(alloc, seats) {
            Ok(seats) => Ok((TaskTable { table }, seats)),
            Err(AllocError) => Err(SetupError::NoMemory),
        }
    }

    /// How many counters there are.
    pub fn counters(&self) -> u32
        ensures { result ≡ length self.now.setting.starts }
    {
        self.table.counters()
    }

    /// How many seats there are.
    pub fn seats(&self) -> u32
        ensures { result ≡ self.now.setting.seats }
    {
        self.table.seats()
    }

    /// Why a seat may not begin a call on this counter.
    #[inline]
    pub(crate) fn refusal(&self, stage: &Stage, counter: CounterId) -> Option<TaskRefused>
        ensures none { IfNone result ((stage.now ≡ Stage.Resting) × (counter < length self.now.setting.starts)) }
        ensures some { IfSome result (λ why. Unfit self.now stage.now counter why) }
    {
        let Stage::Resting = stage else {
            return Some(TaskRefused::OtherCall);
        };
        if counter.number() >= self.table.counters() {
            return Some(TaskRefused::NoCounter);
        }
        None
    }

    /// As [`SemaTable::try_acquire`].
    #[inline]
    pub fn try_acquire(&self, seat: &mut TaskSeat, counter: CounterId) -> Result<Tried, TaskRefused>
        requires { seat.old.seat.table ≡ self.now }
        ensures { TriesByTask seat.old counter result seat.new }
    {
        if let Some(why) = self.refusal(&seat.stage, counter) {
            return Err(why);
        }
        Ok(
            self.table
                .try_in_place(&mut seat.token, &mut seat.numbers, counter),
        )
    }

    /// As [`SemaTable::post`].
    #[inline]
    pub fn post(&self, seat: &mut TaskSeat, counter: CounterId) -> Result<TaskPosted, TaskRefused>
        requires { seat.old.seat.table ≡ self.now }
        ensures { PostsByTask seat.old counter result seat.new }
    {
        if let Some(why) = self.refusal(&seat.stage, counter) {
            return Err(why);
        }
        if seat.numbers.left == 0 {
            return Err(TaskRefused::LimitReached);
        }
        match self
            .table
            .post_in_place(&mut seat.token, &mut seat.numbers, counter)
        {
            TaskPosted::Done => Ok(TaskPosted::Done),
            TaskPosted::Owes => {
                seat.stage = Stage::Owing(counter);
                Ok(TaskPosted::Owes)
            }
        }
    }

    /// As [`SemaTable::value`].
    pub fn value(&self, seat: &mut TaskSeat, counter: CounterId) -> Result<u64, TaskRefused>
        requires { seat.old.seat.table ≡ self.now }
        ensures { ReadsByTask seat.old counter result seat.new }
    {
        if let Some(why) = self.refusal(&seat.stage, counter) {
            return Err(why);
        }
        Ok(
            self.table
                .value_in_place(&mut seat.token, &seat.numbers, counter),
        )
    }

    /// As [`SemaTable::waiters_of_root`].
    pub fn waiters_of_root(
        &self,
        seat: &mut TaskSeat,
        counter: CounterId,
    ) -> Result<u64, TaskRefused>
        requires { seat.old.seat.table ≡ self.now }
        ensures { CountsByTask seat.old counter result seat.new }
    {
        if let Some(why) = self.refusal(&seat.stage, counter) {
            return Err(why);
        }
        Ok(
            self.table
                .waiters_in_place(&mut seat.token, &seat.numbers, counter),
        )
    }
}
