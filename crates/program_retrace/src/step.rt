//! One step: the line that it ran, its row, what that found, and what its seat and the world have after it.

ghost use Rattle.std.specs.Prelude.{◌<◌, length};

use crate::held::{held_by, spell_changed_held};
use crate::look::{Look, NO_LOOK, code_line, look_of};
use crate::place::index_of;
use crate::spelling::spell_within;
use crate::told_program::ToldProgram;
use crate::words::words_of_line;
use program_machine::ProgramMachine;
use program_steps::{Failure, Stand};
use std::alloc::{AllocError, Global};
use step_core::{NoMemory, SeatId};

/// What is seen of a seat before its step.
#[derive(Drop)]
pub(crate) struct SeenSeat {
    /// The number of the text's line that it runs.
    pub line: usize,
    /// The `do` lines that led there, as they are told behind that number.
    pub calls: String,
    /// The words of the line.
    pub words: String,
    /// Which member it asks for, where the line is about an array.
    pub index: Option<i64>,
    /// The row, and what it finds.
    pub look: Look,
    /// The row isn't the first of its call.
    pub goes_on: bool,
    /// The registers and sections of the seat.
    pub held: Vec<String>,
}

/// One step of a schedule.
#[derive(Drop)]
pub(crate) struct Step {
    /// The seat that stepped.
    pub seat: SeatId,
    /// What was seen of it before.
    pub seen: SeenSeat,
    /// The registers and sections of the seat after it.
    pub held: Vec<String>,
    /// What the world has after it of each part.
    pub after: Vec<String>,
}

impl Step {
    /// Whether it runs the next row of the call of which the other, just before it, ran one.
    pub(crate) fn goes_on_from(&self, other: &Step) -> bool {
        self.seen.goes_on && self.seat == other.seat
    }

    /// Writes the words of the line, the row, and what it found.
    fn spell_line(&self, text: &mut String) -> Result<(), AllocError> {
        text.push_str(self.seen.words.as_str())?;
        if let Some(row) = self.seen.look.row {
            write!(text, ", {row}")?;
        }
        if let Some(found) = self.seen.look.found {
            write!(text, ": found {found}")?;
        }
        Ok(())
    }

    /// Writes the line as it was run, and what is other of the seat.
    pub(crate) fn spell_own(&self, alloc: Global, text: &mut String) -> Result<(), AllocError> {
        let line = self.seen.line;
        write!(text, "{line} ")?;
        self.spell_line(text)?;
        let mut changes = String::new(alloc);
        spell_changed_held(&mut changes, &self.seen.held, &self.held)?;
        spell_changes(text, changes.as_str())
    }
}

/// Writes what is other, if anything is.
pub(crate) fn spell_changes(text: &mut String, changes: &str) -> Result<(), AllocError> {
    if changes.is_empty() {
        return Ok(());
    }
    write!(text, " -> {changes}")
}

/// Whether the seat has failed in place of its row.
fn has_failed_at_row(stand: Stand) -> bool {
    match stand {
        Stand::FailedAt(_, failure) => matches!(
            failure,
            Failure::Index | Failure::Overflow | Failure::Many | Failure::Ticket
        ),
        _ => false,
    }
}

/// What is seen of the seat: no line, where it has ended.
pub(crate) fn see(
    alloc: Global,
    told: &ToldProgram<'_>,
    machine: &ProgramMachine<'_>,
    seat: SeatId,
) -> Result<SeenSeat, NoMemory>
    requires { seat < length machine.now.program.seats }
{
    let mut seen = SeenSeat {
        line: 0,
        calls: String::new(alloc),
        words: String::new(alloc),
        index: None,
        look: NO_LOOK,
        goes_on: matches!(machine.stand(seat), Stand::Within(_)),
        held: held_by(alloc, machine, told.names, seat)?,
    };
    if let Some(code_line) = code_line(machine, seat) {
        seen.line = code_line.line;
        spell_within(&mut seen.calls, code_line.within.as_slice())?;
        seen.words = words_of_line(alloc, told.text, code_line.line)?;
        seen.index = index_of(machine, seat, &code_line.instruction);
        seen.look = look_of(machine, seat, &code_line.instruction);
    }
    Ok(seen)
}

/// What is told of the step of a seat, of which that was seen before it.
pub(crate) fn told_step(
    alloc: Global,
    told: &ToldProgram<'_>,
    machine: &ProgramMachine<'_>,
    seat: SeatId,
    seen: SeenSeat,
) -> Result<Step, NoMemory>
    requires { seat < length machine.now.program.seats }
{
    let mut seen = seen;
    if has_failed_at_row(machine.stand(seat)) {
        seen.look = NO_LOOK;
    }
    let held = held_by(alloc, machine, told.names, seat)?;
    let after = told.cells(alloc, machine)?;
    Ok(Step {
        seat,
        seen,
        held,
        after,
    })
}
