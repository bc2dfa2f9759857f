//! The code of each answer.
ghost use Rattle.std.specs.Prelude.{◌≡◌};
ghost use Rattle.c_calls.specs.Codes.{code_of, refused_code, setup_code};
ghost use Rattle.c_calls.specs.Codes.{tried_code, entered_code, polled_code};
ghost use Rattle.c_calls.specs.Codes.{gave_up_code, retried_code, posted_code};

use crate::codes::*;
use sema_table::{
    SetupError, TaskEntered, TaskGaveUp, TaskPolled, TaskPosted, TaskRefused, TaskRetried, Tried,
};

/// Of a call that was refused.
#[inline]
pub fn of_refusal(why: TaskRefused) -> u32
    ensures { result ≡ refused_code why }
{
    match why {
        TaskRefused::OtherCall => OTHER_CALL,
        TaskRefused::NoCounter => NO_COUNTER,
        TaskRefused::Busy => BUSY,
        TaskRefused::LimitReached => LIMIT,
        TaskRefused::Units => UNITS,
    }
}

/// Of a try.
#[inline]
pub fn of_try(answer: Result<Tried, TaskRefused>) -> u32
    ensures { result ≡ code_of refused_code tried_code answer }
{
    match answer {
        Ok(Tried::Taken) => TAKEN,
        Ok(Tried::Zero) => ZERO,
        Ok(Tried::Lost) => LOST,
        Err(why) => of_refusal(why),
    }
}

/// Of an acquire that went to the lock.
pub fn of_enter(answer: Result<TaskEntered, TaskRefused>) -> u32
    ensures { result ≡ code_of refused_code entered_code answer }
{
    match answer {
        Ok(TaskEntered::Taken) => TAKEN,
        Ok(TaskEntered::Asleep) => ASLEEP,
        Err(why) => of_refusal(why),
    }
}

/// Of a look at a grant.
pub fn of_poll(answer: Result<TaskPolled, TaskRefused>) -> u32
    ensures { result ≡ code_of refused_code polled_code answer }
{
    match answer {
        Ok(TaskPolled::Still) => ASLEEP,
        Ok(TaskPolled::Woken) => WOKEN,
        Ok(TaskPolled::Handed) => HANDED,
        Err(why) => of_refusal(why),
    }
}

/// Of a seat that gave up.
pub fn of_leave(answer: Result<TaskGaveUp, TaskRefused>) -> u32
    ensures { result ≡ code_of refused_code gave_up_code answer }
{
    match answer {
        Ok(TaskGaveUp::Left) => LEFT,
        Ok(TaskGaveUp::Coming) => COMING,
        Ok(TaskGaveUp::Woken) => WOKEN,
        Ok(TaskGaveUp::Handed) => HANDED,
        Err(why) => of_refusal(why),
    }
}

/// Of a try of a seat that was woken.
pub fn of_retry(answer: Result<TaskRetried, TaskRefused>) -> u32
    ensures { result ≡ code_of refused_code retried_code answer }
{
    match answer {
        Ok(TaskRetried::Taken) => TAKEN,
        Ok(TaskRetried::Zero) => ZERO,
        Err(why) => of_refusal(why),
    }
}

/// Of units that were added.
#[inline]
pub fn of_post(answer: Result<TaskPosted, TaskRefused>) -> u32
    ensures { result ≡ code_of refused_code posted_code answer }
{
    match answer {
        Ok(TaskPosted::Done) => DONE,
        Ok(TaskPosted::Owes) => OWES,
        Err(why) => of_refusal(why),
    }
}

/// Of settings that make no table.
pub fn of_setup(refused: SetupError) -> u32
    ensures { result ≡ setup_code refused }
{
    match refused {
        SetupError::Counters => COUNTERS,
        SetupError::Seats => SEATS,
        SetupError::Roots => ROOTS,
        SetupError::ReleaseLimit => RELEASE_LIMIT,
        SetupError::NoMemory => NO_MEMORY,
    }
}
