//! The calls of a seat in its place.
ghost use Rattle.std.specs.Prelude.{◌≡◌, IfOk};
ghost use Rattle.sema_table.specs.Tasks.{TriesByTask, PostsByTask};
ghost use Rattle.sema_table.specs.Tasks.{ReadsByTask, CountsByTask, PostsManyByTask};
ghost use Rattle.sema_table.specs.Tasks.{EntersByTask, PollsByTask, LeavesByTask};
ghost use Rattle.sema_table.specs.Tasks.{RetriesByTask, WakesByTask};
ghost use Rattle.sema_table.specs.declared.task_seat.TaskStage.TheVariants.{Resting};
ghost use Rattle.c_calls.specs.Codes.{tried_code, entered_code, polled_code};
ghost use Rattle.c_calls.specs.Codes.{gave_up_code, retried_code, posted_code, wake_code};
ghost use Rattle.c_calls.specs.Codes.{told, code_of, refused_code, IsOk, IsOneOrHanded};
ghost use Rattle.c_calls.specs.Answers.{Answers, Telling, NamesWoken, TellsNumber, MayLeave};
ghost use Rattle.c_calls.specs.Answers.{WritesOnlyWith};

use crate::answers;
use crate::codes::{HANDED, NO_SEAT, NOBODY, OK, ONE, OTHER_CALL};
use crate::seat_place::TableSeatPlace;
use sema_table::{CounterId, TaskRefused, TaskStage, Wake};

/// The code of a wake; the number of the seat that was woken is told.
fn tell_wake(answer: Result<Wake, TaskRefused>, woken: &mut u32) -> u32
    ensures code { result ≡ code_of refused_code wake_code answer }
    ensures told { IfOk answer (NamesWoken woken.new) }
    ensures kept { WritesOnlyWith IsOneOrHanded result woken.old woken.new }
{
    match answer {
        Ok(Wake::Nobody) => NOBODY,
        Ok(Wake::One(wait)) => {
            *woken = u32::from(wait.seat.number());
            ONE
        }
        Ok(Wake::Handed(wait)) => {
            *woken = u32::from(wait.seat.number());
            HANDED
        }
        Err(why) => answers::of_refusal(why),
    }
}

/// The code of a look at a number, which is told.
fn tell_number(answer: Result<u64, TaskRefused>, number: &mut u64) -> u32
    ensures code { result ≡ code_of refused_code told answer }
    ensures told { IfOk answer (λ n. number.new ≡ n) }
    ensures kept { WritesOnlyWith IsOk result number.old number.new }
{
    match answer {
        Ok(found) => {
            *number = found;
            OK
        }
        Err(why) => answers::of_refusal(why),
    }
}

impl TableSeatPlace {
    /// Which seat of its table it is.
    pub fn number(&self, number: &mut u32) -> u32
        ensures told { TellsNumber (λ s. s.seat.number) self.now.seat result number.new }
        ensures kept { WritesOnlyWith IsOk result number.old number.new }
    {
        let Some(seat) = &self.seat else {
            return NO_SEAT;
        };
        *number = u32::from(seat.number().number());
        OK
    }

    /// Whether the seat may be freed: OK, or why not.
    pub fn may_leave(&self) -> u32
        ensures { MayLeave (λ s. s.stage) Resting self.now.seat result }
    {
        let Some(seat) = &self.seat else {
            return NO_SEAT;
        };
        match seat.stage() {
            TaskStage::Resting => OK,
            _ => OTHER_CALL,
        }
    }

    /// Takes a unit if there is one.
    #[inline]
    pub fn try_acquire(&mut self, counter: u32) -> u32
        ensures { Answers refused_code tried_code (λ s. TriesByTask s counter)
            self.old.seat result self.new.seat }
    {
        let Some(seat) = &mut self.seat else {
            return NO_SEAT;
        };
        answers::of_try(self.home.try_acquire(seat, CounterId::new(counter)))
    }

    /// Goes to the lock of the counter's root, and sleeps if there is no unit.
    pub fn enter(&mut self, counter: u32, lifo: bool) -> u32
        ensures { Answers refused_code entered_code (λ s. EntersByTask s counter lifo)
            self.old.seat result self.new.seat }
    {
        let Some(seat) = self.seat.take() else {
            return NO_SEAT;
        };
        let (seat, answer) = self.home.enter(seat, CounterId::new(counter), lifo);
        self.seat = Some(seat);
        answers::of_enter(answer)
    }

    /// Looks whether the wait of a seat that sleeps was granted.
    pub fn poll(&mut self) -> u32
        ensures { Answers refused_code polled_code PollsByTask self.old.seat result self.new.seat }
    {
        let Some(seat) = self.seat.take() else {
            return NO_SEAT;
        };
        let (seat, answer) = self.home.poll(seat);
        self.seat = Some(seat);
        answers::of_poll(answer)
    }

    /// Gives up the wait of a seat that sleeps, or finds that a release has it.
    pub fn leave(&mut self) -> u32
        ensures { Answers refused_code gave_up_code LeavesByTask self.old.seat result self.new.seat }
    {
        let Some(seat) = self.seat.take() else {
            return NO_SEAT;
        };
        let (seat, answer) = self.home.leave(seat);
        self.seat = Some(seat);
        answers::of_leave(answer)
    }

    /// The try of a seat that was woken.
    pub fn retry(&mut self) -> u32
        ensures { Answers refused_code retried_code RetriesByTask
            self.old.seat result self.new.seat }
    {
        let Some(seat) = self.seat.take() else {
            return NO_SEAT;
        };
        let (seat, answer) = self.home.retry(seat);
        self.seat = Some(seat);
        answers::of_retry(answer)
    }

    /// Adds a unit.
    #[inline]
    pub fn post(&mut self, counter: u32) -> u32
        ensures { Answers refused_code posted_code (λ s. PostsByTask s counter)
            self.old.seat result self.new.seat }
    {
        let Some(seat) = &mut self.seat else {
            return NO_SEAT;
        };
        answers::of_post(self.home.post(seat, CounterId::new(counter)))
    }

    /// Adds so many units at once.
    pub fn post_many(&mut self, counter: u32, units: u32) -> u32
        ensures { Answers refused_code posted_code (λ s. PostsManyByTask s counter units)
            self.old.seat result self.new.seat }
    {
        let Some(seat) = self.seat.take() else {
            return NO_SEAT;
        };
        let (seat, answer) = self.home.post_many(seat, CounterId::new(counter), units);
        self.seat = Some(seat);
        answers::of_post(answer)
    }

    /// The rest of a release: takes the first wait out and wakes its seat, whose number is told.
    pub fn wake(&mut self, handoff: bool, woken: &mut u32) -> u32
        ensures answer { Answers refused_code wake_code
            (Telling (NamesWoken woken.new) (λ s. WakesByTask s handoff))
            self.old.seat result self.new.seat }
        ensures kept { WritesOnlyWith IsOneOrHanded result woken.old woken.new }
    {
        let Some(seat) = self.seat.take() else {
            return NO_SEAT;
        };
        let (seat, answer) = self.home.wake(seat, handoff);
        self.seat = Some(seat);
        tell_wake(answer, woken)
    }

    /// The number of a counter.
    pub fn value(&mut self, counter: u32, value: &mut u64) -> u32
        ensures answer { Answers refused_code told
            (Telling (λ n. value.new ≡ n) (λ s. ReadsByTask s counter))
            self.old.seat result self.new.seat }
        ensures kept { WritesOnlyWith IsOk result value.old value.new }
    {
        let Some(seat) = &mut self.seat else {
            return NO_SEAT;
        };
        tell_number(self.home.value(seat, CounterId::new(counter)), value)
    }

    /// How many waits are queued at a counter's root.
    pub fn waiters_of_root(&mut self, counter: u32, waits: &mut u64) -> u32
        ensures answer { Answers refused_code told
            (Telling (λ n. waits.new ≡ n) (λ s. CountsByTask s counter))
            self.old.seat result self.new.seat }
        ensures kept { WritesOnlyWith IsOk result waits.old waits.new }
    {
        let Some(seat) = &mut self.seat else {
            return NO_SEAT;
        };
        tell_number(
            self.home.waiters_of_root(seat, CounterId::new(counter)),
            waits,
        )
    }
}
