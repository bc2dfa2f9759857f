//! The steps of a schedule: each is run, and what it does is kept until all are told.

ghost use Rattle.std.specs.Prelude.{IfOk};
ghost use Rattle.program_retrace.specs.Tried.{HasTried};

use crate::layout::Layout;
use crate::lines::tell_lines;
use crate::step::{Step, see, told_step};
use crate::table::draw_steps;
use crate::told_program::ToldProgram;
use program_machine::ProgramMachine;
use std::alloc::{AllocError, Global};
use step_core::{NoMemory, SeatId, StepRefused};

/// Steps that were run, and what the world was before the first.
#[derive(Drop)]
pub struct Steps {
    /// The number of the first.
    pub(crate) first: usize,
    /// What the world had of each part.
    pub(crate) start: Vec<String>,
    pub(crate) steps: Vec<Step>,
}

impl Steps {
    /// No step, from the world as it is: the first has this number.
    ///
    /// It is an `Err` where memory is short.
    pub fn new(
        alloc: Global,
        told: &ToldProgram<'_>,
        machine: &ProgramMachine<'_>,
        first: usize,
    ) -> Result<Steps, NoMemory> {
        let start = told.cells(alloc, machine)?;
        let steps = Vec::new(alloc);
        Ok(Steps {
            first,
            start,
            steps,
        })
    }

    /// How many they are.
    pub fn len(&self) -> usize {
        self.steps.len()
    }

    /// The number of the step behind them.
    pub(crate) fn next_number(&self) -> usize {
        self.first.saturating_add(self.len())
    }

    fn push(&mut self, step: Step) -> Result<(), AllocError> {
        self.steps.push(step)?;
        Ok(())
    }
}

/// Runs the step of the seat and keeps it behind the others, or answers why it can't be run.
///
/// It is an `Err` where memory is short.
pub fn tell_step(
    alloc: Global,
    told: &ToldProgram<'_>,
    machine: &mut ProgramMachine<'_>,
    steps: &mut Steps,
    seat: SeatId,
) -> Result<Option<StepRefused>, NoMemory>
    ensures { IfOk result (λ refused. HasTried machine.old seat machine.new refused) }
{
    if machine.seats() <= seat.number() as usize {
        return Ok(Some(StepRefused::NoSuchSeat));
    }
    let seen = see(alloc, told, machine, seat)?;
    if let Err(cause) = machine.step(seat) {
        return Ok(Some(cause));
    }
    let step = told_step(alloc, told, machine, seat, seen)?;
    steps.push(step)?;
    Ok(None)
}

/// Tells the steps in this layout.
///
/// It is an `Err` where memory is short.
pub fn tell_steps(
    alloc: Global,
    text: &mut String,
    told: &ToldProgram<'_>,
    machine: &ProgramMachine<'_>,
    steps: &Steps,
    layout: Layout,
) -> Result<(), AllocError> {
    match layout {
        Layout::Table => draw_steps(alloc, text, told, machine, steps),
        Layout::Rows => tell_lines(alloc, text, told, machine, steps, false),
        Layout::Lines => tell_lines(alloc, text, told, machine, steps, true),
    }
}
