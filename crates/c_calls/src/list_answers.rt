//! The code of each answer of a list.
ghost use Rattle.std.specs.Prelude.{◌≡◌};
ghost use Rattle.c_calls.specs.Codes.{code_of};
ghost use Rattle.c_calls.specs.ListCodes.{refused_code, setup_code, entered_code, polled_code, gave_up_code};

use crate::codes::*;
use notify_list::{SetupError, TaskEntered, TaskGaveUp, TaskPolled, TaskRefused};

/// Of a call that was refused.
pub fn of_refusal(why: TaskRefused) -> u32
    ensures { result ≡ refused_code why }
{
    match why {
        TaskRefused::OtherCall => OTHER_CALL,
        TaskRefused::Busy => BUSY,
    }
}

/// Of a wait.
pub fn of_wait(answer: Result<TaskEntered, TaskRefused>) -> u32
    ensures { result ≡ code_of refused_code entered_code answer }
{
    match answer {
        Ok(TaskEntered::AtOnce) => AT_ONCE,
        Ok(TaskEntered::Queued) => PARKED,
        Err(why) => of_refusal(why),
    }
}

/// Of a look at a grant.
pub fn of_poll(answer: Result<TaskPolled, TaskRefused>) -> u32
    ensures { result ≡ code_of refused_code polled_code answer }
{
    match answer {
        Ok(TaskPolled::Still) => ASLEEP,
        Ok(TaskPolled::Granted) => WOKEN,
        Err(why) => of_refusal(why),
    }
}

/// Of a seat that gave up.
pub fn of_leave(answer: Result<TaskGaveUp, TaskRefused>) -> u32
    ensures { result ≡ code_of refused_code gave_up_code answer }
{
    match answer {
        Ok(TaskGaveUp::Left) => LEFT,
        Ok(TaskGaveUp::Coming) => COMING,
        Ok(TaskGaveUp::Granted) => WOKEN,
        Ok(TaskGaveUp::LimitReached) => LIMIT,
        Err(why) => of_refusal(why),
    }
}

/// Of a number of seats that makes no list.
pub fn of_setup(refused: SetupError) -> u32
    ensures { result ≡ setup_code refused }
{
    match refused {
        SetupError::Seats => SEATS,
        SetupError::NoMemory => NO_MEMORY,
    }
}
