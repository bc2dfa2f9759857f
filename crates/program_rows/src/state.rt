//! What a lock program has of its own: its words, who sleeps on them, and its seats.

ghost use Rattle.std.specs.Prelude.{◌≡◌, ◌<◌, pos, not, eqb, length, IfOk, OnOk};
ghost use Rattle.program_rows.specs.Starting.{IsFirst};
ghost use Rattle.program_rows.specs.Stored.{seats_of, grants_of};
ghost use Rattle.step_rows.specs.Stored.{each};

use crate::line_set::LineSet;
use crate::seat::Seat;
use program_steps::{Sleeper, Stand};
use std::alloc::Global;
use std::marker::Model;
use step_rows::copy_items;
use waiters::{NoMemory, SeatId};

/// The words, who sleeps on them, and the seats.
#[derive(Drop)]
pub struct ProgramState {
    pub(crate) words: Vec<i64>,
    pub(crate) sleepers: Vec<Sleeper>,
    pub(crate) seats: Vec<Seat>,
    /// The lines without a step that a seat ran when it last went on.
    pub(crate) passed: LineSet,
}

impl Model for ProgramState {
    ghost use Rattle.program_rows.specs.Stored.{Stored};

    ghost Value = { Stored };

    ghost view = { λ s. record {
      words = s.words.items;
      sleepers = s.sleepers.items;
      seats = s.seats.items;
    } };
}

impl ProgramState {
    /// The words at which a program starts, and so many seats before their first lines. Nobody sleeps.
    pub fn new(alloc: Global, words: &[i64], seats: usize) -> Result<ProgramState, NoMemory>
        ensures { IfOk result (IsFirst words.now seats) }
    {
        Ok(ProgramState {
            words: words.to_vec(alloc)?,
            sleepers: Vec::with_capacity(alloc, seats)?,
            seats: vec![in alloc; Seat::new(); seats]?,
            passed: LineSet::empty(),
        })
    }

    /// Where the seat stands.
    pub fn stand(&self, seat: SeatId) -> Stand
        requires { seat < length self.now.seats }
        ensures { result ≡ (seats_of self.now.seats seat).stand }
    {
        self.seats[seat.number() as usize].stand
    }

    /// Whether the seat is in the section.
    pub fn is_inside(&self, seat: SeatId, section: usize) -> bool
        requires { seat < length self.now.seats }
        ensures { result ≡ (seats_of self.now.seats seat).sections section }
    {
        match self.seats[seat.number() as usize].sections.get(section) {
            Some(inside) => *inside,
            None => false,
        }
    }

    /// Whether the seat was woken where it sleeps on a word.
    pub fn is_granted(&self, seat: SeatId) -> bool
        requires { seat < length self.now.seats }
        ensures { result ≡ not (eqb (grants_of self.now.seats seat) 0) }
    {
        self.seats[seat.number() as usize].grant != 0
    }

    /// The number in the word.
    pub fn number(&self, word: usize) -> i64
        requires { word < length self.now.words }
        ensures { result ≡ each (pos 0) self.now.words word }
    {
        self.words[word]
    }

    /// The lines without a step that a seat ran when it last went on. Nothing is promised of them.
    pub fn passed(&self) -> &LineSet {
        &self.passed
    }

    /// Who sleeps on words, and on which, in the order in which they went to sleep.
    pub fn sleepers(&self) -> &[Sleeper]
        ensures { result.now ≡ self.now.sleepers }
    {
        self.sleepers.as_slice()
    }

    /// The same, with memory of its own.
    pub fn try_clone(&self, alloc: Global) -> Result<ProgramState, NoMemory>
        ensures { IfOk result (λ copy. copy ≡ self.now) }
    {
        Ok(ProgramState {
            words: self.words.as_slice().to_vec(alloc)?,
            sleepers: self.sleepers.as_slice().to_vec(alloc)?,
            seats: self.seats.as_slice().to_vec(alloc)?,
            passed: self.passed,
        })
    }

    /// Becomes as the other is, in the memory that it has.
    pub fn copy_from(&mut self, other: &ProgramState) -> Result<(), NoMemory>
        ensures { OnOk result (self.new ≡ other.now) }
    {
        copy_items(&mut self.words, &other.words)?;
        copy_items(&mut self.sleepers, &other.sleepers)?;
        copy_items(&mut self.seats, &other.seats)?;
        self.passed = other.passed;
        Ok(())
    }
}
