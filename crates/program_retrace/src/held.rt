//! What a seat has of its own: its registers, and the sections in which it is.

ghost use Rattle.std.specs.Prelude.{◌<◌, length};

use crate::changes::{changed_at, set_apart};
use program::DeclaredNames;
use program_code::Operand;
use program_machine::ProgramMachine;
use std::alloc::{AllocError, Global};
use step_core::SeatId;

/// Each of the seat's registers with its number, and for each section whether the seat is in it or out of it.
pub(crate) fn held_by(
    alloc: Global,
    machine: &ProgramMachine<'_>,
    names: &DeclaredNames<'_>,
    seat: SeatId,
) -> Result<Vec<String>, AllocError>
    requires { seat < length machine.now.program.seats }
{
    let mut held = Vec::new(alloc);
    for (register, name) in names.registers.as_slice().iter().enumerate() {
        let name = name.as_str();
        let number = machine.value(seat, &Operand::Register(register));
        held.push(format!(in alloc; "{name} {number}")?)?;
    }
    for (section, name) in names.sections.as_slice().iter().enumerate() {
        let name = name.as_str();
        let side = if machine.is_inside(seat, section) {
            "in"
        } else {
            "out"
        };
        held.push(format!(in alloc; "{side} {name}")?)?;
    }
    Ok(held)
}

/// Writes what of it is other than before, as it is now.
pub(crate) fn spell_changed_held(
    text: &mut String,
    before: &[String],
    after: &[String],
) -> Result<(), AllocError> {
    for place in 0..after.len() {
        if let Some(is) = changed_at(before, after, place) {
            set_apart(text)?;
            text.push_str(is)?;
        }
    }
    Ok(())
}

/// Writes the registers of the seat that aren't 0, and the sections in which it is.
pub(crate) fn spell_held(
    text: &mut String,
    machine: &ProgramMachine<'_>,
    names: &DeclaredNames<'_>,
    seat: SeatId,
) -> Result<(), AllocError>
    requires { seat < length machine.now.program.seats }
{
    for (register, name) in names.registers.as_slice().iter().enumerate() {
        let name = name.as_str();
        let number = machine.value(seat, &Operand::Register(register));
        if number != 0 {
            set_apart(text)?;
            write!(text, "{name} {number}")?;
        }
    }
    for (section, name) in names.sections.as_slice().iter().enumerate() {
        if machine.is_inside(seat, section) {
            let name = name.as_str();
            set_apart(text)?;
            write!(text, "in {name}")?;
        }
    }
    Ok(())
}
