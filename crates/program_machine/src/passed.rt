//! The lines without a step that seats ran, by which one can tell which lines of a program never do.
//! Nothing is promised of them.

ghost use Rattle.std.specs.Prelude.{◌<◌, length};

use crate::machine::ProgramMachine;
use program_rows::{LineSet, passed_first};
use waiters::SeatId;

impl<'p> ProgramMachine<'p> {
    /// The lines without a step that the seat ran that made the last step.
    pub fn passed(&self) -> &LineSet {
        self.shared.own.passed()
    }

    /// The lines without a step that the seat runs before its first step.
    pub fn passed_first(&self, seat: SeatId) -> LineSet
        requires { seat < length self.now.program.seats }
    {
        passed_first(seat, self.program.code(seat))
    }
}
