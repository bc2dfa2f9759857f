//! The rows of lines that are none of the layer: each looks at one word, as one step.

ghost use Rattle.std.specs.Prelude.{◌≡◌, ◌≢◌, ◌<◌, ℕ, length, None, IfSome, IfOk, IfErr};
ghost use Rattle.std.specs.Prelude.{OnErr, cond};
ghost use Rattle.std.specs.Ordering.{int_eq};
ghost use Rattle.step_table.specs.Core.{Core};
ghost use Rattle.program_steps.specs.Reading.{place_of, value};
ghost use Rattle.program_steps.specs.Steps.{row_of_line, as_many};
ghost use Rattle.program_rows.specs.Fitting.{FitsPlace, FitsWords, HasNumbers};
ghost use Rattle.program_rows.specs.Rows.{Does, DoesIfItCan, HasWoken, row_at, reads_at, wakes_at};
ghost use Rattle.program_rows.specs.Stored.{AreThere, seats_of, world_over};

use crate::state::ProgramState;
use program_code::{CodePlace, Instruction, Operand, Relation};
use program_steps::{Failure, Sleeper, Stand, Then, is_so};
use step_table::StepRefused;
use waiters::{NoMemory, SeatId};

/// Where the array has no such member, the seat fails.
const NO_MEMBER: Then = Then::Fails(Failure::Index);

/// How many sleepers a number wakes: none where it is below 0.
fn as_many(number: i64) -> u64
    ensures { result ≡ as_many number }
{
    match u64::try_from(number) {
        Ok(many) => many,
        Err(_) => 0,
    }
}

/// What an exchange leaves in a word that was this.
fn exchanged(was: i64, old: i64, new: i64) -> i64
    ensures { result ≡ cond (int_eq was old) new was }
{
    if was == old { new } else { was }
}

impl ProgramState {
    /// The word or counter of a place, where its index is within the array.
    pub fn place(&self, seat: SeatId, place: &CodePlace) -> Option<usize>
        requires seat { seat < length self.now.seats }
        requires numbers { HasNumbers place.now }
        ensures found { result ≡ place_of seat (seats_of self.now.seats seat).registers place.now }
        ensures within { (n : ℕ) → FitsPlace n place.now → IfSome result (λ k. k < n) }
    {
        self.seats[seat.number() as usize].place(seat, place)
    }

    /// The word of a place, where its index is within the array.
    pub(crate) fn word(&self, seat: SeatId, place: &CodePlace) -> Option<usize>
        requires seat { seat < length self.now.seats }
        requires place { FitsPlace (length self.now.words) place.now }
        ensures found { result ≡ place_of seat (seats_of self.now.seats seat).registers place.now }
        ensures within { IfSome result (λ word. word < length self.now.words) }
    {
        self.seats[seat.number() as usize].place(seat, place)
    }

    /// The number that an operand stands for.
    pub fn value(&self, seat: SeatId, operand: &Operand) -> i64
        requires { seat < length self.now.seats }
        ensures { result ≡ value seat (seats_of self.now.seats seat).registers operand.now }
    {
        self.seats[seat.number() as usize].value(seat, operand)
    }

    /// The word becomes this, and the register, if one is named, what the word was.
    fn read(&mut self, seat: SeatId, register: Option<usize>, word: usize, number: i64) -> Then
        requires seat { seat < length self.old.seats }
        requires word { word < length self.old.words }
        requires register { IfSome register (λ r. r < 8) }
        ensures { Does (reads_at seat register word number) self.old self.new result }
    {
        let was = self.words[word];
        self.seats[seat.number() as usize].keep(register, was);
        self.words[word] = number;
        Then::OnFromNext
    }

    /// The register is the word.
    fn load(&mut self, seat: SeatId, place: &CodePlace, register: usize) -> Then
        requires seat { seat < length self.old.seats }
        requires place { FitsPlace (length self.old.words) place.now }
        requires register { register < 8 }
        ensures { (n : ℕ) → Does (row_at seat n (Instruction.Load place.now register)) self.old self.new result }
    {
        let Some(word) = self.word(seat, place) else {
            return NO_MEMBER;
        };
        let number = self.words[word];
        self.read(seat, Some(register), word, number)
    }

    /// The word becomes the operand.
    fn store(&mut self, seat: SeatId, place: &CodePlace, operand: &Operand) -> Then
        requires seat { seat < length self.old.seats }
        requires place { FitsPlace (length self.old.words) place.now }
        ensures { (n : ℕ) → Does (row_at seat n (Instruction.Store place.now operand.now)) self.old self.new result }
    {
        let Some(word) = self.word(seat, place) else {
            return NO_MEMBER;
        };
        let number = self.value(seat, operand);
        self.read(seat, None, word, number)
    }

    /// The word becomes the operand, and the register what the word was.
    fn swap(
        &mut self,
        seat: SeatId,
        place: &CodePlace,
        operand: &Operand,
        register: Option<usize>,
    ) -> Then
        requires seat { seat < length self.old.seats }
        requires place { FitsPlace (length self.old.words) place.now }
        requires register { IfSome register (λ r. r < 8) }
        ensures { (n : ℕ) → Does (row_at seat n (Instruction.Swap place.now operand.now register)) self.old self.new result }
    {
        let Some(word) = self.word(seat, place) else {
            return NO_MEMBER;
        };
        let number = self.value(seat, operand);
        self.read(seat, register, word, number)
    }

    /// The operand is added to the word, and the register is what the word was.
    fn add(
        &mut self,
        seat: SeatId,
        place: &CodePlace,
        operand: &Operand,
        register: Option<usize>,
    ) -> Then
        requires seat { seat < length self.old.seats }
        requires place { FitsPlace (length self.old.words) place.now }
        requires register { IfSome register (λ r. r < 8) }
        ensures { (n : ℕ) → Does (row_at seat n (Instruction.Add place.now operand.now register)) self.old self.new result }
    {
        let Some(word) = self.word(seat, place) else {
            return NO_MEMBER;
        };
        let number = self.words[word].wrapping_add(self.value(seat, operand));
        self.read(seat, register, word, number)
    }

    /// The word, if it is the first operand, becomes the second, and the register is what the word was.
    fn exchange(
        &mut self,
        seat: SeatId,
        place: &CodePlace,
        first: &Operand,
        second: &Operand,
        register: Option<usize>,
    ) -> Then
        requires seat { seat < length self.old.seats }
        requires place { FitsPlace (length self.old.words) place.now }
        requires register { IfSome register (λ r. r < 8) }
        ensures { (n : ℕ) →
            Does (row_at seat n (Instruction.Exchange place.now first.now second.now register)) self.old self.new result }
    {
        let Some(word) = self.word(seat, place) else {
            return NO_MEMBER;
        };
        let was = self.words[word];
        let number = exchanged(was, self.value(seat, first), self.value(seat, second));
        self.read(seat, register, word, number)
    }

    /// Where this holds of the word, the register is the word; else the seat waits.
    fn await_word(
        &mut self,
        seat: SeatId,
        place: &CodePlace,
        relation: Relation,
        operand: &Operand,
        register: Option<usize>,
    ) -> Option<Then>
        requires seat { seat < length self.old.seats }
        requires place { FitsPlace (length self.old.words) place.now }
        requires register { IfSome register (λ r. r < 8) }
        ensures { (n : ℕ)
            → DoesIfItCan (row_at seat n (Instruction.Await place.now relation operand.now register)) self.old self.new result }
    {
        let Some(word) = self.word(seat, place) else {
            return Some(NO_MEMBER);
        };
        let number = self.words[word];
        if !is_so(relation, number, self.value(seat, operand)) {
            return None;
        }
        Some(self.read(seat, register, word, number))
    }

    /// The seat sleeps if the word is the operand.
    fn park(
        &mut self,
        seat: SeatId,
        line: usize,
        place: &CodePlace,
        operand: &Operand,
    ) -> Result<Then, NoMemory>
        requires seat { seat < length self.old.seats }
        requires place { FitsPlace (length self.old.words) place.now }
        ensures row { IfOk result (Does (row_at seat line (Instruction.Park place.now operand.now)) self.old self.new) }
        ensures err { OnErr result (self.new ≡ self.old) }
    {
        let Some(word) = self.word(seat, place) else {
            return Ok(NO_MEMBER);
        };
        if self.words[word] != self.value(seat, operand) {
            return Ok(Then::OnFromNext);
        }
        self.sleepers.reserve(1)?;
        self.sleepers.push_reserved(Sleeper { seat, word });
        Ok(Then::Stands(Stand::Asleep(line)))
    }

    /// The first so many that sleep on the word leave, and are granted.
    fn wake(&mut self, word: usize, many: u64)
        requires { AreThere self.old }
        ensures { HasWoken word many self.old self.new }
    {
        let mut left = many;
        let mut at = 0;
        while at < self.sleepers.len() && 0 < left {
            let sleeper = self.sleepers[at];
            if sleeper.word == word {
                self.sleepers.remove(at);
                self.seats[sleeper.seat.number() as usize].grant = 1;
                left -= 1;
            } else {
                at += 1;
            }
        }
    }

    /// So many of those that sleep on the word are woken.
    fn unpark(&mut self, seat: SeatId, place: &CodePlace, operand: &Operand) -> Then
        requires seat { seat < length self.old.seats }
        requires there { AreThere self.old }
        requires place { FitsPlace (length self.old.words) place.now }
        ensures { (n : ℕ) → Does (row_at seat n (Instruction.Unpark place.now operand.now)) self.old self.new result }
    {
        let Some(word) = self.word(seat, place) else {
            return NO_MEMBER;
        };
        let many = as_many(self.value(seat, operand));
        self.wake(word, many);
        Then::OnFromNext
    }

    /// The seat leaves the section.
    fn leave(&mut self, seat: SeatId, section: usize) -> Then
        requires seat { seat < length self.old.seats }
        requires section { section < 8 }
        ensures { (n : ℕ) → Does (row_at seat n (Instruction.Out section)) self.old self.new result }
    {
        self.seats[seat.number() as usize].enter(section, false);
        Then::OnFromNext
    }

    /// The row of a line that is none of the layer, if it can run.
    pub fn row_of_line(
        &mut self,
        seat: SeatId,
        line: usize,
        instruction: &Instruction,
    ) -> Result<Then, StepRefused>
        requires seat { seat < length self.old.seats }
        requires there { AreThere self.old }
        requires fits { FitsWords (length self.old.words) instruction.now }
        ensures row { IfOk result (Does (row_at seat line instruction.now) self.old self.new) }
        ensures err { OnErr result (self.new ≡ self.old) }
        ensures why { IfErr result (λ cause. cause ≢ StepRefused.NoMemory
            → (layer : Core)
            → row_of_line (world_over layer self.old) seat line instruction.now ≡ None) }
    {
        Ok(match instruction {
            Instruction::Load(place, register) => self.load(seat, place, *register),
            Instruction::Store(place, operand) => self.store(seat, place, operand),
            Instruction::Swap(place, operand, register) => {
                self.swap(seat, place, operand, *register)
            }
            Instruction::Add(place, operand, register) => self.add(seat, place, operand, *register),
            Instruction::Exchange(place, first, second, register) => {
                self.exchange(seat, place, first, second, *register)
            }
            Instruction::Await(place, relation, operand, register) => {
                match self.await_word(seat, place, *relation, operand, *register) {
                    None => return Err(StepRefused::Asleep),
                    Some(then) => then,
                }
            }
            Instruction::Park(place, operand) => match self.park(seat, line, place, operand) {
                Err(_) => return Err(StepRefused::NoMemory),
                Ok(then) => then,
            },
            Instruction::Unpark(place, operand) => self.unpark(seat, place, operand),
            Instruction::Out(section) => self.leave(seat, *section),
            _ => return Err(StepRefused::SeatEnded),
        })
    }

    /// The grant of a seat that sleeps on a word is taken, if it has one.
    pub fn awake(&mut self, seat: SeatId) -> Option<Then>
        requires { seat < length self.old.seats }
        ensures { DoesIfItCan (wakes_at seat) self.old self.new result }
    {
        let stored = &mut self.seats[seat.number() as usize];
        if stored.grant == 0 {
            return None;
        }
        stored.grant = 0;
        Some(Then::OnFromNext)
    }
}
