//! A lock program at one moment, and its steps.

ghost use Rattle.std.specs.Prelude.{◌≡◌, ◌<◌, ℕ, pos, false, length, IfOk, IfErr, OnOk, OnErr};
ghost use Rattle.program_machine.specs.Entered.{AreEntered};
ghost use Rattle.program_machine.specs.Moment.{IsStarted, HasMoved, IsRefusedBy};
ghost use Rattle.program_machine.specs.Prepared.{IsPrepared};
ghost use Rattle.program_machine.specs.Sound.{IsSound};
ghost use Rattle.program_rows.specs.Stored.{seats_of};
ghost use Rattle.program_steps.specs.World.{code_of};
ghost use Rattle.step_rows.specs.Stored.{each};

use crate::prepared::Prepared;
use crate::shared::Shared;
use crate::starting::{first_layer, first_state};
use program_code::{CodeLine, Program};
use program_rows::{MAX_SECTIONS, ProgramState};
use program_steps::{InUse, Stand};
use std::alloc::Global;
use std::marker::Model;
use step_core::WholeMachine;
use step_table::StepRefused;
use waiters::{NoMemory, SeatId};

/// So many steps a machine makes at most: then its numbers of turns and tickets could run out.
pub(crate) const MOST_STEPS: u64 = 1 << 63;

/// A lock program at one moment.
#[derive(Drop)]
pub struct ProgramMachine<'p> {
    pub(crate) program: &'p Prepared,
    pub(crate) shared: Box<Shared>,
    pub(crate) steps: u64,
}

impl<'p> Model for ProgramMachine<'p> {
    ghost use Rattle.program_machine.specs.Moment.{ProgramMoment};
    ghost use Rattle.program_machine.specs.Sound.{IsSound};

    ghost Value = { ProgramMoment };

    ghost view = { λ m. record { program = m.program.now; shared = m.shared.value; steps = m.steps } };

    ghost invariant = { λ m. IsSound m.program.now m.steps m.shared.value };
}

impl<'p> ProgramMachine<'p> {
    /// The program at its start: each seat has gone on from its first line.
    pub fn new(alloc: Global, program: &'p Prepared) -> Result<ProgramMachine<'p>, NoMemory>
        ensures { IfOk result (IsStarted program.now) }
    {
        let shared = Shared {
            layer: first_layer(alloc, program)?,
            own: first_state(alloc, program)?,
        };
        Ok(ProgramMachine {
            program,
            shared: shared.boxed(alloc)?,
            steps: 0,
        })
    }

    /// The program.
    pub fn program(&self) -> &'p Program
        ensures { result.now ≡ self.now.program }
    {
        self.program.program()
    }

    /// The lines that the seat runs.
    pub fn code(&self, seat: SeatId) -> &'p [CodeLine]
        requires { seat < length self.now.program.seats }
        ensures { result.now ≡ code_of self.now.program seat }
    {
        self.program.code(seat)
    }

    /// Which registers are in use before each line of each of the programs.
    pub fn tables(&self) -> &'p [InUse]
        ensures { IsPrepared self.now.program result.now }
    {
        self.program.tables()
    }

    /// The sleeping layer.
    pub fn layer(&self) -> &WholeMachine
        ensures layer { result.now ≡ self.now.shared.layer }
        ensures sound { IsSound self.now.program self.now.steps self.now.shared }
    {
        &self.shared.layer
    }

    /// The words, who sleeps on them, and the seats.
    pub fn own(&self) -> &ProgramState
        ensures own { result.now ≡ self.now.shared.own }
        ensures sound { IsSound self.now.program self.now.steps self.now.shared }
    {
        &self.shared.own
    }

    /// How many seats there are.
    pub fn seats(&self) -> usize
        ensures { result ≡ length self.now.program.seats }
    {
        self.program.program().seats.len()
    }

    /// How many words there are.
    pub fn words(&self) -> usize
        ensures { result ≡ length self.now.program.words }
    {
        self.program.program().words.len()
    }

    /// Where the seat stands.
    pub fn stand(&self, seat: SeatId) -> Stand
        requires { seat < length self.now.program.seats }
        ensures { result ≡ (seats_of self.now.shared.own.seats seat).stand }
    {
        self.shared.own.stand(seat)
    }

    /// Whether the seat is in the section.
    pub fn is_inside(&self, seat: SeatId, section: usize) -> bool
        requires { seat < length self.now.program.seats }
        ensures { result ≡ (seats_of self.now.shared.own.seats seat).sections section }
    {
        self.shared.own.is_inside(seat, section)
    }

    /// For which sections the seat asks.
    pub fn asks(&self, seat: SeatId) -> [bool; MAX_SECTIONS]
        requires { seat < length self.now.program.seats }
        ensures { (k : ℕ) → each false result k ≡ (seats_of self.now.shared.own.seats seat).asks k }
    {
        self.shared.own.asks(seat)
    }

    /// The number in the word.
    pub fn number(&self, word: usize) -> i64
        requires { word < length self.now.program.words }
        ensures { result ≡ each (pos 0) self.now.shared.own.words word }
    {
        self.shared.own.number(word)
    }

    /// A step of the seat: its row, and then it goes on. A refused step changes nothing.
    pub fn step(&mut self, seat: SeatId) -> Result<(), StepRefused>
        ensures step { OnOk result (HasMoved self.old seat self.new) }
        ensures err { OnErr result (self.new ≡ self.old) }
        ensures why { IfErr result (λ cause. IsRefusedBy cause self.old seat) }
    {
        if self.seats() <= seat.number() as usize {
            return Err(StepRefused::NoSuchSeat);
        }
        if MOST_STEPS <= self.steps {
            return Err(StepRefused::NoMemory);
        }
        match self.shared.step(self.program, seat) {
            Ok(()) => {
                self.steps += 1;
                Ok(())
            }
            Err(cause) => Err(cause),
        }
    }

    /// A step of the seat, and which sections it comes into by it. A refused step changes nothing.
    pub fn step_into(&mut self, seat: SeatId) -> Result<[bool; MAX_SECTIONS], StepRefused>
        ensures step { OnOk result (HasMoved self.old seat self.new) }
        ensures entered { IfOk result (λ entered.
            AreEntered self.old.program self.old.shared seat entered) }
        ensures err { OnErr result (self.new ≡ self.old) }
        ensures why { IfErr result (λ cause. IsRefusedBy cause self.old seat) }
    {
        if self.seats() <= seat.number() as usize {
            return Err(StepRefused::NoSuchSeat);
        }
        if MOST_STEPS <= self.steps {
            return Err(StepRefused::NoMemory);
        }
        match self.shared.step_into(self.program, seat) {
            Ok(entered) => {
                self.steps += 1;
                Ok(entered)
            }
            Err(cause) => Err(cause),
        }
    }
}
