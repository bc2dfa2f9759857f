ghost use Rattle.std.specs.Prelude.{Some};
ghost use Rattle.step_table.specs.Texts.{scenario_refused_text, step_refused_text, run_refused_text};

use std::error::Error;
use std::fmt;

/// Why parts make no scenario, by number: the least that holds is answered.
#[derive(Clone, Copy, Debug, PartialEq, Eq, Drop)]
pub enum ScenarioRefused {
    /// A limit isn't kept.
    OutOfLimits = 1,
    /// A call names a counter, list or group that isn't declared.
    Undeclared = 2,
    /// A call takes a ticket while the seat holds one, or waits without one.
    Ticket = 3,
}

impl fmt::Display for ScenarioRefused {
    ghost output = { λ refused. Some (scenario_refused_text refused) };

    fn fmt<W: fmt::Write>(&self, f: &mut fmt::Formatter<W>) -> fmt::Result {
        f.write_str(match self {
            ScenarioRefused::OutOfLimits => "out of limits",
            ScenarioRefused::Undeclared => "undeclared",
            ScenarioRefused::Ticket => "ticket",
        })
    }
}

impl Error for ScenarioRefused {}

/// Why a step was refused, by number. A refused step changes nothing.
#[derive(Clone, Copy, Debug, PartialEq, Eq, Drop)]
pub enum StepRefused {
    /// The scenario has no such seat.
    NoSuchSeat = 1,
    /// The seat has ended all its calls.
    SeatEnded = 2,
    /// Its row takes a lock that is held.
    LockHeld = 3,
    /// It is parked and its grant word is 0.
    Asleep = 4,
    /// It stopped at a misuse of a wait group.
    SeatFailed = 5,
    /// A growth was refused.
    NoMemory = 6,
}

impl fmt::Display for StepRefused {
    ghost output = { λ refused. Some (step_refused_text refused) };

    fn fmt<W: fmt::Write>(&self, f: &mut fmt::Formatter<W>) -> fmt::Result {
        f.write_str(match self {
            StepRefused::NoSuchSeat => "no such seat",
            StepRefused::SeatEnded => "the seat has ended",
            StepRefused::LockHeld => "the lock is held",
            StepRefused::Asleep => "the seat is asleep",
            StepRefused::SeatFailed => "the seat has failed",
            StepRefused::NoMemory => "no memory",
        })
    }
}

impl Error for StepRefused {}

/// Why a schedule wasn't run. Want of memory for the start is told of step 0.
#[derive(Clone, Copy, Debug, PartialEq, Eq, Drop)]
pub struct RunRefused {
    /// The first step that can't be run, counted from 0.
    pub at: usize,
    /// Why it can't.
    pub cause: StepRefused,
}

impl fmt::Display for RunRefused {
    ghost output = { λ refused. Some (run_refused_text refused) };

    fn fmt<W: fmt::Write>(&self, f: &mut fmt::Formatter<W>) -> fmt::Result {
        let RunRefused { at, cause } = *self;
        write!(f, "step {at}: {cause}")
    }
}

impl Error for RunRefused {}
