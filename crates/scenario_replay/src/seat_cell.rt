//! The cell of a step: the call that begins, the row, what it found, and why the seat fails.

use crate::line::StepLine;
use crate::spelling::{misuse_name, spell_call, spell_found, spell_group};
use std::alloc::{AllocError, Global};
use step_core::{Call, GroupId, Phase, Picture, SeatId};

/// The group that a call is on.
fn group_of(call: &Call) -> Option<GroupId> {
    match *call {
        Call::GroupAdd(group, _) | Call::GroupWait(group) | Call::GroupWaitOrLeave(group, _) => {
            Some(group)
        }
        _ => None,
    }
}

/// The group of the call that the seat is in.
fn group_at(picture: &Picture<'_>, seat: SeatId) -> Option<GroupId> {
    let scenario = picture.scenario();
    if scenario.seats() <= seat.number() as usize {
        return None;
    }
    let begun = picture.begun(seat);
    let call = scenario.call(seat.number() as usize, begun.saturating_sub(1))?;
    group_of(&call)
}

/// Writes why the seat has failed, if it has, with the counter and the waits of its group.
fn write_failure(text: &mut String, line: &StepLine<'_>) -> Result<(), AllocError> {
    let scenario = line.after.scenario();
    if scenario.seats() <= line.seat.number() as usize {
        return Ok(());
    }
    let Phase::Failed(misuse) = line.after.phase(line.seat) else {
        return Ok(());
    };
    let name = misuse_name(misuse);
    write!(text, " fails: {name}")?;
    match group_at(&line.after, line.seat) {
        Some(group) if group.number() < scenario.parts().groups => {
            text.push_str(" at ")?;
            spell_group(text, line.after.group(group))
        }
        _ => Ok(()),
    }
}

/// Writes the cell of the seat that steps.
fn write_seat(text: &mut String, line: &StepLine<'_>) -> Result<(), AllocError> {
    if let Some(call) = line.call {
        spell_call(text, &call)?;
        text.push_str(": ")?;
    }
    let row = line.row;
    write!(text, "{row} ")?;
    spell_found(text, &line.found)?;
    write_failure(text, line)
}

/// The cell of the seat that steps.
pub(crate) fn seat_cell(alloc: Global, line: &StepLine<'_>) -> Result<String, AllocError> {
    let mut text = String::new(alloc);
    write_seat(&mut text, line)?;
    Ok(text)
}
