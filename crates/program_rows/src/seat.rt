//! A seat: where it stands, its registers, the sections that it is in, and those that it asks for.
//!
//! What a line without a step does is done on the seat alone, and takes no memory.

ghost use Rattle.std.specs.Prelude.{◌≡◌, ◌<◌, ◌≤◌, ◌+◌, ◌^◌, ℕ, pos, true, length, slice_get, Some, IfSome};
ghost use Rattle.program_steps.specs.Reading.{value, member, place_of, makes_steps};
ghost use Rattle.program_steps.specs.World.{new_seat};
ghost use Rattle.program_steps.specs.Going.{at_line, with_register, with_section, with_asking, entered, ended};
ghost use Rattle.program_steps.specs.Going.{after_line, come_from, endless_from};
ghost use Rattle.program_rows.specs.Stored.{seat_of};
ghost use Rattle.program_rows.specs.Fitting.{HasNumbers, FitsFree, FitsCode};

use crate::line_set::LineSet;
use program_code::{CodeLine, CodePlace, Instruction, Operand};
use program_steps::{Failure, Stand, compute, is_so};
use waiters::SeatId;

/// How many registers a seat has at most.
pub const MAX_REGISTERS: usize = 8;

/// How many sections there are at most.
pub const MAX_SECTIONS: usize = 8;

/// How many lines without a step a seat runs in a row.
const MAX_FREE_LINES: usize = 256;

/// What is stored of a seat.
#[derive(Clone, Copy, Drop)]
pub(crate) struct Seat {
    pub stand: Stand,
    pub registers: [i64; MAX_REGISTERS],
    pub sections: [bool; MAX_SECTIONS],
    /// The sections that it asks for.
    pub asks: [bool; MAX_SECTIONS],
    /// Above 0 where the seat was woken and hasn't seen so yet.
    pub grant: u64,
}

/// Whether the line makes steps.
pub(crate) fn makes_steps(instruction: &Instruction) -> bool
    ensures { result ≡ makes_steps instruction.now }
{
    !matches!(
        instruction,
        Instruction::Let(..)
            | Instruction::Compute(..)
            | Instruction::If(..)
            | Instruction::Goto(_)
            | Instruction::In(_)
            | Instruction::Ask(_)
            | Instruction::Assert(..)
            | Instruction::Fail
    )
}

/// The member of this index, where the array that begins there has so many.
fn member(first: usize, many: usize, index: i64) -> Option<usize>
    requires { first + many < 2 ^ 64 }
    ensures { result ≡ member first many index }
{
    match usize::try_from(index) {
        Ok(index) if index < many => Some(first + index),
        _ => None,
    }
}

impl Seat {
    /// Before its first line, with all registers 0, in no section and asking for none.
    pub fn new() -> Seat
        ensures seat { seat_of result ≡ new_seat }
        ensures grant { result.grant ≡ 0 }
    {
        Seat {
            stand: Stand::Before(0),
            registers: [0; MAX_REGISTERS],
            sections: [false; MAX_SECTIONS],
            asks: [false; MAX_SECTIONS],
            grant: 0,
        }
    }

    /// The number that an operand stands for.
    pub fn value(&self, me: SeatId, operand: &Operand) -> i64
        ensures { result ≡ value me (seat_of self.now).registers operand.now }
    {
        match *operand {
            Operand::Number(number) => number,
            Operand::Me => i64::from(me.number()),
            Operand::Register(register) => match self.registers.get(register) {
                Some(number) => *number,
                None => 0,
            },
        }
    }

    /// The word or counter of a place, where its index is within the array.
    pub fn place(&self, me: SeatId, place: &CodePlace) -> Option<usize>
        requires { HasNumbers place.now }
        ensures { result ≡ place_of me (seat_of self.now).registers place.now }
    {
        match place {
            CodePlace::Single(word) => Some(*word),
            CodePlace::Member(first, many, operand) => member(
                *first,
                *many,
                self.value(me, operand),
            ),
        }
    }

    /// The register, if one is named, becomes this.
    pub fn keep(&mut self, register: Option<usize>, number: i64)
        requires { IfSome register (λ r. r < 8) }
        ensures seat { seat_of self.new ≡ with_register (seat_of self.old) register number }
        ensures grant { self.new.grant ≡ self.old.grant }
    {
        if let Some(register) = register {
            self.registers[register] = number;
        }
    }

    /// The seat is in the section, or out of it.
    pub fn enter(&mut self, section: usize, inside: bool)
        requires { section < 8 }
        ensures seat { seat_of self.new ≡ with_section (seat_of self.old) section inside }
        ensures grant { self.new.grant ≡ self.old.grant }
    {
        self.sections[section] = inside;
    }

    /// The seat asks for the section, or no longer does.
    fn ask(&mut self, section: usize, asks: bool)
        requires { section < 8 }
        ensures seat { seat_of self.new ≡ with_asking (seat_of self.old) section asks }
        ensures grant { self.new.grant ≡ self.old.grant }
    {
        self.asks[section] = asks;
    }

    /// The seat enters the section, for which it no longer asks, and stands before that line.
    fn come_in(&mut self, section: usize, next: usize)
        requires { section < 8 }
        ensures seat { seat_of self.new ≡ at_line (entered (seat_of self.old) section) next }
        ensures grant { self.new.grant ≡ self.old.grant }
    {
        self.enter(section, true);
        self.ask(section, false);
        self.stand = Stand::Before(next);
    }

    /// The seat has ended, and asks for nothing.
    fn end(&mut self)
        ensures seat { seat_of self.new ≡ ended (seat_of self.old) }
        ensures grant { self.new.grant ≡ self.old.grant }
    {
        self.stand = Stand::Ended;
        self.asks = [false; MAX_SECTIONS];
    }

    /// Runs the line of this number, which makes no step.
    fn advance(&mut self, me: SeatId, line: usize, instruction: &Instruction)
        requires fits { FitsFree instruction.now }
        requires room { line + 1 < 2 ^ 64 }
        ensures seat { seat_of self.new ≡ after_line me (seat_of self.old) line instruction.now }
        ensures grant { self.new.grant ≡ self.old.grant }
    {
        match instruction {
            Instruction::Let(register, operand) => {
                let number = self.value(me, operand);
                self.keep(Some(*register), number);
                self.stand = Stand::Before(line + 1);
            }
            Instruction::Compute(register, first, operator, second) => {
                let number = compute(*operator, self.value(me, first), self.value(me, second));
                self.keep(Some(*register), number);
                self.stand = Stand::Before(line + 1);
            }
            Instruction::If(first, relation, second, to) => {
                let so = is_so(*relation, self.value(me, first), self.value(me, second));
                self.stand = Stand::Before(if so { *to } else { line + 1 });
            }
            Instruction::Goto(to) => self.stand = Stand::Before(*to),
            Instruction::In(section) => self.come_in(*section, line + 1),
            Instruction::Ask(section) => {
                self.ask(*section, true);
                self.stand = Stand::Before(line + 1);
            }
            Instruction::Assert(first, relation, second) => {
                let so = is_so(*relation, self.value(me, first), self.value(me, second));
                self.stand = if so {
                    Stand::Before(line + 1)
                } else {
                    Stand::FailedAt(line, Failure::Assert)
                };
            }
            Instruction::Fail => self.stand = Stand::FailedAt(line, Failure::Fail),
            _ => {}
        }
    }

    /// From the line of this number the seat runs lines without a step until it comes to one with.
    pub fn come_from(&mut self, me: SeatId, code: &[CodeLine], line: usize, passed: &mut LineSet)
        requires { FitsCode code.now }
        ensures seat { seat_of self.new ≡ come_from code.now me (seat_of self.old) line }
        ensures grant { self.new.grant ≡ self.old.grant }
    {
        self.stand = Stand::Before(line);
        for _ in 0..MAX_FREE_LINES {
            let Stand::Before(at) = self.stand else {
                return;
            };
            match code.get(at) {
                None => {
                    self.end();
                    return;
                }
                Some(next) if makes_steps(&next.instruction) => return,
                Some(next) => {
                    passed.add(at);
                    self.advance(me, at, &next.instruction);
                }
            }
        }
        self.end_there(code);
    }

    /// Who has run so many lines without a step fails before one more.
    fn end_there(&mut self, code: &[CodeLine])
        ensures seat { seat_of self.new ≡ endless_from code.now (seat_of self.old) self.old.stand }
        ensures grant { self.new.grant ≡ self.old.grant }
    {
        let Stand::Before(at) = self.stand else {
            return;
        };
        match code.get(at) {
            None => self.end(),
            Some(next) if makes_steps(&next.instruction) => {}
            Some(_) => self.stand = Stand::FailedAt(at, Failure::Endless),
        }
    }
}
