//! The table of a schedule.

ghost use Rattle.std.specs.Prelude.{◌≡◌, IfOk, OnOk, replicate};
ghost use Rattle.step_core.specs.State.{and_then};
ghost use Rattle.scenario_replay.specs.Lines.{IsTableOf};

use crate::line::{StepLine, step_line};
use std::alloc::{AllocError, Global};
use step_core::{Entry, Moment, NoMemory, Picture, Scenario, SeatId, StepRefused, Variant};

/// A step that can't be run.
#[derive(Clone, Copy, Drop)]
pub struct RefusedStep {
    /// The number of the step, from 0.
    pub at: usize,
    /// Why it is refused.
    pub cause: StepRefused,
}

/// A schedule step by step.
#[derive(Drop)]
pub struct ReplayTable<'s> {
    /// All words at the start.
    pub start: Picture<'s>,
    /// The steps that were run, in order.
    pub lines: Vec<StepLine<'s>>,
    /// What they told, in order.
    pub journal: Vec<Entry>,
    /// The step before which the table ends, where one is refused.
    pub refused: Option<RefusedStep>,
    /// The run where the table ends.
    pub end: Moment<'s>,
}

/// No seat has made a step.
fn none_told(alloc: Global, seats: usize) -> Result<Vec<usize>, AllocError>
    ensures { IfOk result (λ told. told.items ≡ replicate seats 0) }
{
    vec![in alloc; 0; seats]
}

/// Writes down what a step told, where it told something.
fn write_down(journal: &mut Vec<Entry>, entry: Option<Entry>) -> Result<(), AllocError>
    ensures { OnOk result (journal.new.items ≡ and_then journal.old.items entry) }
{
    if let Some(entry) = entry {
        journal.push(entry)?;
    }
    Ok(())
}

/// The table of the schedule, by the step table or by this change of it. Line `i` tells step `i`: the row
/// before which its seat stood, what that found, the call that begins there, what it told, and the words after
/// the step. The table ends before the first step that is refused.
pub fn table_of<'s>(
    alloc: Global,
    scenario: &'s Scenario,
    change: Option<Variant>,
    schedule: &[SeatId],
) -> Result<ReplayTable<'s>, NoMemory>
    ensures { IfOk result (IsTableOf change scenario.now schedule.now) }
{
    let mut running = Moment::new_by(alloc, scenario, change)?;
    let mut told = none_told(alloc, scenario.seats())?;
    let start = running.picture(alloc)?;
    let mut lines = Vec::new(alloc);
    let mut journal = Vec::new(alloc);
    for (at, seat) in schedule.iter().enumerate() {
        match step_line(alloc, &mut running, &mut told, *seat)? {
            Ok(line) => {
                write_down(&mut journal, line.entry)?;
                lines.reserve(1)?;
                lines.push_reserved(line);
            }
            Err(cause) => {
                return Ok(ReplayTable {
                    start,
                    lines,
                    journal,
                    refused: Some(RefusedStep { at, cause }),
                    end: running,
                });
            }
        }
    }
    Ok(ReplayTable {
        start,
        lines,
        journal,
        refused: None,
        end: running,
    })
}
