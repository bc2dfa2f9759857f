//! Why a seat failed, with the numbers that its line has read.

ghost use Rattle.std.specs.Prelude.{◌<◌, length};

use crate::place::index_of;
use crate::spelling::failure_name;
use crate::told_program::ToldProgram;
use crate::words::words_of_line;
use program_code::{CodeLine, Instruction, Operand, Share};
use program_machine::ProgramMachine;
use program_steps::Failure;
use std::alloc::{AllocError, Global};
use step_core::SeatId;

/// Writes what was asked for, as it stands in the text, and the two numbers of which it doesn't hold.
fn spell_asserted(
    text: &mut String,
    machine: &ProgramMachine<'_>,
    seat: SeatId,
    words: &str,
    operands: (&Operand, &Operand),
) -> Result<(), AllocError>
    requires { seat < length machine.now.program.seats }
{
    let left = machine.value(seat, operands.0);
    let right = machine.value(seat, operands.1);
    write!(text, "{words}, with {left} and {right}")
}

/// The number for which the seat failed, where that is one.
fn number_at_fault(
    machine: &ProgramMachine<'_>,
    seat: SeatId,
    instruction: &Instruction,
    failure: Failure,
) -> Option<i64>
    requires { seat < length machine.now.program.seats }
{
    match (failure, instruction) {
        (Failure::Index, _) => index_of(machine, seat, instruction),
        (Failure::Many, Instruction::Release(_, Share::Many(units))) => {
            Some(machine.value(seat, units))
        }
        _ => None,
    }
}

/// Writes why the seat failed at this line.
pub(crate) fn spell_failure(
    alloc: Global,
    text: &mut String,
    told: &ToldProgram<'_>,
    machine: &ProgramMachine<'_>,
    seat: SeatId,
    code_line: &CodeLine,
    failure: Failure,
) -> Result<(), AllocError>
    requires { seat < length machine.now.program.seats }
{
    if let Instruction::Assert(left, _, right) = &code_line.instruction {
        let words = words_of_line(alloc, told.text, code_line.line)?;
        return spell_asserted(text, machine, seat, words.as_str(), (left, right));
    }
    text.push_str(failure_name(failure))?;
    match number_at_fault(machine, seat, &code_line.instruction, failure) {
        Some(number) => write!(text, " {number}"),
        None => Ok(()),
    }
}
