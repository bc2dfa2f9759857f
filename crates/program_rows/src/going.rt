//! What comes after a row: the seat goes on from the next line, stands there, or fails.

ghost use Rattle.std.specs.Prelude.{◌≡◌, ◌<◌, ◌≤◌, ◌+◌, ◌^◌, ℕ, pos, length};
ghost use Rattle.program_steps.specs.Table.{IsTableOf};
ghost use Rattle.program_rows.specs.Fitting.{FitsCode};
ghost use Rattle.program_rows.specs.Settling.{IsClearedBy, kept_by, HasSettled, HasStarted, IsSeatAfterIn};
ghost use Rattle.program_rows.specs.Stored.{seat_of};
ghost use Rattle.program_steps.specs.Going.{GoesOn};

use crate::line_set::LineSet;
use crate::seat::{MAX_REGISTERS, Seat};
use crate::state::ProgramState;
use program_code::CodeLine;
use program_steps::{InUse, Stand, Then};
use waiters::SeatId;

/// Whether a seat that stands there keeps the register: it is in use there, or the seat has failed.
fn is_kept(in_use: &InUse, stand: Stand, register: usize) -> bool
    ensures { result ≡ kept_by in_use.now stand register }
{
    match stand {
        Stand::Before(line) => in_use.is_in_use(line, register),
        Stand::FailedAt(_, _) => true,
        _ => false,
    }
}

impl Seat {
    /// The registers that aren't in use where the seat stands become 0; a seat that has failed keeps all.
    fn clear(&mut self, in_use: &InUse)
        ensures seat { IsClearedBy in_use.now (seat_of self.old) (seat_of self.new) }
        ensures few { (r : ℕ) → 8 ≤ r → (seat_of self.old).registers r ≡ pos 0 }
        ensures grant { self.new.grant ≡ self.old.grant }
    {
        let stand = self.stand;
        for register in 0..MAX_REGISTERS {
            if !is_kept(in_use, stand, register) {
                self.registers[register] = 0;
            }
        }
    }

    /// The seat goes on from the line of this number, and then what isn't in use is 0.
    fn go_on(
        &mut self,
        me: SeatId,
        code: &[CodeLine],
        in_use: &InUse,
        line: usize,
        passed: &mut LineSet,
    )
        requires fits { FitsCode code.now }
        requires table { IsTableOf code.now 8 in_use.now }
        ensures seat { GoesOn code.now me (seat_of self.old) line (seat_of self.new) }
        ensures grant { self.new.grant ≡ self.old.grant }
    {
        self.come_from(me, code, line, passed);
        self.clear(in_use);
    }

    /// What comes after the row of a seat at this line.
    fn settle(
        &mut self,
        me: SeatId,
        code: &[CodeLine],
        in_use: &InUse,
        line: usize,
        then: Then,
        passed: &mut LineSet,
    )
        requires fits { FitsCode code.now }
        requires table { IsTableOf code.now 8 in_use.now }
        requires line { line < length code.now }
        ensures seat { IsSeatAfterIn code.now me line (seat_of self.old) then (seat_of self.new) }
        ensures grant { self.new.grant ≡ self.old.grant }
    {
        match then {
            Then::OnFromNext => self.go_on(me, code, in_use, line + 1, passed),
            Then::Stands(stand) => self.stand = stand,
            Then::Fails(failure) => self.stand = Stand::FailedAt(line, failure),
        }
    }
}

/// The lines without a step that the seat runs as it goes on from its first line. Nothing is promised of
/// them.
pub fn passed_first(seat: SeatId, code: &[CodeLine]) -> LineSet
    requires { FitsCode code.now }
{
    let mut passed = LineSet::empty();
    Seat::new().come_from(seat, code, 0, &mut passed);
    passed
}

impl ProgramState {
    /// The seat goes on from its first line.
    pub fn start(&mut self, seat: SeatId, code: &[CodeLine], in_use: &InUse)
        requires seat { seat < length self.old.seats }
        requires fits { FitsCode code.now }
        requires table { IsTableOf code.now 8 in_use.now }
        ensures { HasStarted code.now seat self.old self.new }
    {
        self.passed = LineSet::empty();
        let stored = &mut self.seats[seat.number() as usize];
        stored.go_on(seat, code, in_use, 0, &mut self.passed);
    }

    /// What comes after the row of the seat at this line.
    pub fn settle(
        &mut self,
        seat: SeatId,
        code: &[CodeLine],
        in_use: &InUse,
        line: usize,
        then: Then,
    )
        requires seat { seat < length self.old.seats }
        requires fits { FitsCode code.now }
        requires table { IsTableOf code.now 8 in_use.now }
        requires line { line < length code.now }
        ensures { HasSettled code.now seat line then self.old self.new }
    {
        self.passed = LineSet::empty();
        let stored = &mut self.seats[seat.number() as usize];
        stored.settle(seat, code, in_use, line, then, &mut self.passed);
    }
}
