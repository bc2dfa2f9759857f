//! Which sections a seat comes into by a step: those of the `in` lines that it runs as it goes on after its row.

ghost use Rattle.std.specs.Prelude.{◌≡◌, ◌<◌, ℕ, false, length};
ghost use Rattle.program_steps.specs.Entering.{outside, comes_into, comes_into_then};
ghost use Rattle.program_rows.specs.Fitting.{FitsCode};
ghost use Rattle.program_rows.specs.Stored.{seat_of, seats_of};
ghost use Rattle.step_rows.specs.Stored.{each};

use crate::line_set::LineSet;
use crate::seat::{MAX_SECTIONS, Seat};
use crate::state::ProgramState;
use program_code::CodeLine;
use program_steps::Then;
use waiters::SeatId;

/// No section.
fn no_sections() -> [bool; MAX_SECTIONS]
    ensures { (k : ℕ) → each false result k ≡ false }
{
    [false; MAX_SECTIONS]
}

impl Seat {
    /// The same seat, out of all sections.
    fn outside(&self) -> Seat
        ensures { seat_of result ≡ outside (seat_of self.now) }
    {
        Seat {
            stand: self.stand,
            registers: self.registers,
            sections: [false; MAX_SECTIONS],
            asks: self.asks,
            grant: self.grant,
        }
    }

    /// Which sections the seat comes into as it goes on from the line of this number: those that it is in then if
    /// it was in none before.
    fn comes_into(&self, me: SeatId, code: &[CodeLine], line: usize) -> [bool; MAX_SECTIONS]
        requires { FitsCode code.now }
        ensures { (k : ℕ) → each false result k ≡ comes_into code.now me (seat_of self.now) line k }
    {
        let mut walker = self.outside();
        let mut passed = LineSet::empty();
        walker.come_from(me, code, line, &mut passed);
        walker.sections
    }
}

impl ProgramState {
    /// Which sections the seat comes into by what comes after its row at this line.
    pub fn entered_by(
        &self,
        seat: SeatId,
        code: &[CodeLine],
        line: usize,
        then: Then,
    ) -> [bool; MAX_SECTIONS]
        requires seat { seat < length self.now.seats }
        requires fits { FitsCode code.now }
        requires line { line < length code.now }
        ensures { (k : ℕ) → each false result k
            ≡ comes_into_then code.now seat (seats_of self.now.seats seat) line then k }
    {
        match then {
            Then::OnFromNext => {
                self.seats[seat.number() as usize].comes_into(seat, code, line + 1)
            }
            Then::Stands(_) | Then::Fails(_) => no_sections(),
        }
    }

    /// For which sections the seat asks.
    pub fn asks(&self, seat: SeatId) -> [bool; MAX_SECTIONS]
        requires { seat < length self.now.seats }
        ensures { (k : ℕ) → each false result k ≡ (seats_of self.now.seats seat).asks k }
    {
        self.seats[seat.number() as usize].asks
    }
}
