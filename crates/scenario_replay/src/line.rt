//! A line: one step of a schedule, and what it finds and leaves.

ghost use Rattle.std.specs.Prelude.{◌≡◌, ◌<◌, length, IfOk};
ghost use Rattle.scenario_replay.specs.StepLine.{call_begun, TellsStep};

use std::alloc::Global;
use step_core::{
    Call, Entry, Moment, NoMemory, Phase, Picture, Scenario, SeatId, StepRefused, WordFound,
};

/// One step of a schedule.
#[derive(Drop)]
pub struct StepLine<'s> {
    /// The seat that steps.
    pub seat: SeatId,
    /// The row before which it stood.
    pub row: Phase,
    /// What the row found.
    pub found: WordFound,
    /// The call that begins here, where this is its first step.
    pub call: Option<Call>,
    /// What the row told, where it told something.
    pub entry: Option<Entry>,
    /// All words after the step.
    pub after: Picture<'s>,
}

/// The call that the seat is in, where it had begun fewer before its last step.
fn call_begun(scenario: &Scenario, seat: SeatId, told: usize, begun: usize) -> Option<Call>
    requires { seat < length scenario.now.calls }
    ensures { result ≡ call_begun scenario.now seat told begun }
{
    if told == begun {
        return None;
    }
    scenario.call(seat.number() as usize, begun.saturating_sub(1))
}

/// Runs the step of the seat and gives its line, or why it can't be run. For each seat `told` says how many
/// calls it had begun before its last step.
pub fn step_line<'s>(
    alloc: Global,
    running: &mut Moment<'s>,
    told: &mut Vec<usize>,
    seat: SeatId,
) -> Result<Result<StepLine<'s>, StepRefused>, NoMemory>
    requires { length told.old.items ≡ length running.old.parts.calls }
    ensures { IfOk result (TellsStep running.old told.old.items seat running.new told.new.items) }
{
    let before = running.picture(alloc)?;
    let found = match before.found(seat) {
        Ok(found) => found,
        Err(cause) => return Ok(Err(cause)),
    };
    let i = seat.number() as usize;
    let row = before.phase(seat);
    let begun = before.begun(seat);
    let call = call_begun(before.scenario(), seat, told[i], begun);
    let entry = match running.step(seat) {
        Ok(entry) => entry,
        Err(cause) => return Ok(Err(cause)),
    };
    told[i] = begun;
    Ok(Ok(StepLine {
        seat,
        row,
        found,
        call,
        entry,
        after: running.picture(alloc)?,
    }))
}
