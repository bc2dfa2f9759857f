//! A lock program that is ready to run: the program, and which of its registers are in use where.

ghost use Rattle.std.specs.Prelude.{◌≡◌, ◌<◌, length, IfOk};
ghost use Rattle.program_code.specs.WellFormed.{IsWellFormed, IsFew};
ghost use Rattle.program_steps.specs.Table.{IsTableOf};
ghost use Rattle.program_machine.specs.Prepared.{ArePrepared, IsPrepared};
ghost use Rattle.program_steps.specs.World.{code_of};

use program_code::{CodeLine, Program};
use program_rows::MAX_REGISTERS;
use program_steps::InUse;
use std::alloc::Global;
use std::marker::Model;
use step_table::Items;
use waiters::{NoMemory, SeatId};

/// A program that is ready to run.
#[derive(Drop)]
pub struct Prepared {
    program: Program,
    in_use: Items<InUse>,
}

impl Model for Prepared {
    ghost use Rattle.program_code.specs.declared.program.Program.{Program as Shown};
    ghost use Rattle.program_machine.specs.Prepared.{IsPrepared};

    ghost Value = { Shown };

    ghost view = { λ p. p.program };

    ghost invariant = { λ p. IsPrepared p.program p.in_use };
}

impl Prepared {
    /// Finds out which registers are in use before each line of each program.
    pub fn new(alloc: Global, program: Program) -> Result<Prepared, NoMemory>
        requires formed { IsWellFormed program }
        requires few { IsFew program }
        ensures { IfOk result (λ prepared. prepared ≡ program) }
    {
        let mut in_use = Items::empty(alloc);
        for code in program.codes.as_slice() {
            in_use.push_back(InUse::of(alloc, code.as_slice(), MAX_REGISTERS)?)?;
        }
        Ok(Prepared { program, in_use })
    }

    /// The program.
    pub fn program(&self) -> &Program
        ensures program { result.now ≡ self.now }
        ensures formed { IsWellFormed self.now }
        ensures few { IsFew self.now }
    {
        &self.program
    }

    /// The lines that the seat runs.
    pub(crate) fn code(&self, seat: SeatId) -> &[CodeLine]
        requires { seat < length self.now.seats }
        ensures { result.now ≡ code_of self.now seat }
    {
        let code = self.program.seats.as_slice()[seat.number() as usize];
        self.program.codes.as_slice()[code].as_slice()
    }

    /// Which registers are in use before each line of each of the programs.
    pub(crate) fn tables(&self) -> &[InUse]
        ensures { IsPrepared self.now result.now }
    {
        self.in_use.as_slice()
    }

    /// Which registers are in use before the lines that the seat runs.
    pub(crate) fn in_use(&self, seat: SeatId) -> &InUse
        requires { seat < length self.now.seats }
        ensures { IsTableOf (code_of self.now seat) 8 result.now }
    {
        let code = self.program.seats.as_slice()[seat.number() as usize];
        &self.in_use.as_slice()[code]
    }
}
