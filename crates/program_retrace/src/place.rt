//! Which word or counter a line is about.

ghost use Rattle.std.specs.Prelude.{◌<◌, length};

use program_code::{CodePlace, Instruction};
use program_machine::ProgramMachine;
use step_core::SeatId;

/// The word or the counter that the line is about, if it is about one.
fn place_of(instruction: &Instruction) -> Option<&CodePlace> {
    match instruction {
        Instruction::Load(place, _)
        | Instruction::Store(place, _)
        | Instruction::Swap(place, _, _)
        | Instruction::Add(place, _, _)
        | Instruction::Exchange(place, _, _, _)
        | Instruction::Await(place, _, _, _)
        | Instruction::Acquire(place, _)
        | Instruction::Release(place, _)
        | Instruction::Park(place, _)
        | Instruction::Unpark(place, _) => Some(place),
        _ => None,
    }
}

/// Which member the seat asks for, where its line is about an array; also one that the array doesn't have.
pub(crate) fn index_of(
    machine: &ProgramMachine<'_>,
    seat: SeatId,
    instruction: &Instruction,
) -> Option<i64>
    requires { seat < length machine.now.program.seats }
{
    match place_of(instruction)? {
        CodePlace::Member(_, _, operand) => Some(machine.value(seat, operand)),
        CodePlace::Single(_) => None,
    }
}
