//! Whether the row of a line can run: it takes no memory and changes nothing.

ghost use Rattle.std.specs.Prelude.{◌<◌, ◌↔◌, ℕ, length, IsTrue, IsSome, Option};
ghost use Rattle.step_table.specs.Core.{Core};
ghost use Rattle.program_steps.specs.Steps.{row_of_line};
ghost use Rattle.program_rows.specs.Fitting.{FitsPlace, FitsWords};
ghost use Rattle.program_rows.specs.Stored.{world_over};

use crate::state::ProgramState;
use program_code::{CodePlace, Instruction, Operand, Relation};
use program_steps::is_so;
use waiters::SeatId;

impl ProgramState {
    /// Whether this holds of the word. Where the array has no such member, the row is that the seat fails.
    fn can_go_on(
        &self,
        seat: SeatId,
        place: &CodePlace,
        relation: Relation,
        operand: &Operand,
    ) -> bool
        requires seat { seat < length self.now.seats }
        requires place { FitsPlace (length self.now.words) place.now }
        ensures { (layer : Core) (n : ℕ) (register : Option ℕ)
            → IsTrue result ↔ IsSome (row_of_line (world_over layer self.now) seat n
            (Instruction.Await place.now relation operand.now register)) }
    {
        match self.word(seat, place) {
            Some(word) => is_so(relation, self.words[word], self.value(seat, operand)),
            None => true,
        }
    }

    /// Whether the row can run of a line that is none of the layer: all can but a wait for what doesn't hold.
    pub fn can_run(&self, seat: SeatId, instruction: &Instruction) -> bool
        requires seat { seat < length self.now.seats }
        requires fits { FitsWords (length self.now.words) instruction.now }
        ensures { (layer : Core) (n : ℕ)
            → IsTrue result ↔ IsSome (row_of_line (world_over layer self.now) seat n instruction.now) }
    {
        match instruction {
            Instruction::Await(place, relation, operand, _) => {
                self.can_go_on(seat, place, *relation, operand)
            }
            Instruction::Load(..)
            | Instruction::Store(..)
            | Instruction::Swap(..)
            | Instruction::Add(..)
            | Instruction::Exchange(..)
            | Instruction::Park(..)
            | Instruction::Unpark(..)
            | Instruction::Out(_) => true,
            _ => false,
        }
    }
}
