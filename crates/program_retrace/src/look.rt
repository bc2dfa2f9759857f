//! Which row a seat's next step runs, and what that finds.

ghost use Rattle.std.specs.Prelude.{◌<◌, length};

use crate::members::{counter_at, list_at};
use program_code::{CodeLine, CodePlace, Instruction, Operand, Share};
use program_machine::ProgramMachine;
use program_steps::Stand;
use std::fmt;
use step_core::{Phase, Row, SeatId, WordFound};

/// The name of a row.
#[derive(Clone, Copy, Drop)]
pub(crate) enum RowName {
    /// A row of the sleeping layer.
    Layer(Row),
    /// The row of a seat that sleeps on a word.
    Awake,
}

impl fmt::Display for RowName {
    fn fmt<W: fmt::Write>(&self, f: &mut fmt::Formatter<W>) -> fmt::Result {
        match self {
            RowName::Layer(row) => write!(f, "{row}"),
            RowName::Awake => f.write_str("K2"),
        }
    }
}

/// The number that a row finds.
#[derive(Clone, Copy, Drop)]
pub(crate) enum Finding {
    /// That of a word of the program.
    OfWord(i64),
    /// That of a word of the layer, or of a grant word, or of those that are woken.
    OfLayer(u64),
}

impl fmt::Display for Finding {
    fn fmt<W: fmt::Write>(&self, f: &mut fmt::Formatter<W>) -> fmt::Result {
        match self {
            Finding::OfWord(number) => write!(f, "{number}"),
            Finding::OfLayer(number) => write!(f, "{number}"),
        }
    }
}

/// The row that a step runs, where it has a name, and what it finds, where it reads.
#[derive(Clone, Copy, Drop)]
pub(crate) struct Look {
    pub row: Option<RowName>,
    pub found: Option<Finding>,
}

/// A step that runs no row that is named, and finds nothing.
pub(crate) const NO_LOOK: Look = Look {
    row: None,
    found: None,
};

/// The line at which a seat stands.
fn line_of(stand: Stand) -> Option<usize> {
    match stand {
        Stand::Before(line)
        | Stand::Within(line)
        | Stand::Asleep(line)
        | Stand::FailedAt(line, _) => Some(line),
        Stand::Ended => None,
    }
}

/// The line at which the seat stands.
pub(crate) fn code_line<'p>(machine: &ProgramMachine<'p>, seat: SeatId) -> Option<&'p CodeLine>
    requires { seat < length machine.now.program.seats }
{
    let line = line_of(machine.stand(seat))?;
    machine.code(seat).get(line)
}

/// The number of the one, or of the array's member that is meant.
pub(crate) fn number_of_place(
    machine: &ProgramMachine<'_>,
    seat: SeatId,
    place: &CodePlace,
) -> Option<usize>
    requires { seat < length machine.now.program.seats }
{
    match place {
        CodePlace::Single(number) => Some(*number),
        CodePlace::Member(first, many, operand) => {
            let index = usize::try_from(machine.value(seat, operand)).ok()?;
            if *many <= index {
                return None;
            }
            first.checked_add(index)
        }
    }
}

/// What is found in a word.
fn in_word(machine: &ProgramMachine<'_>, seat: SeatId, place: &CodePlace) -> Look
    requires { seat < length machine.now.program.seats }
{
    let found = match number_of_place(machine, seat, place) {
        Some(word) if word < machine.words() => Some(Finding::OfWord(machine.number(word))),
        _ => None,
    };
    Look { row: None, found }
}

/// How many an `unpark` finds that it wakes: those that sleep on its word, and no more than it asks for.
fn woken(machine: &ProgramMachine<'_>, seat: SeatId, place: &CodePlace, many: &Operand) -> Look
    requires { seat < length machine.now.program.seats }
{
    let Some(word) = number_of_place(machine, seat, place) else {
        return NO_LOOK;
    };
    let mut asleep: u64 = 0;
    for sleeper in machine.sleepers() {
        if sleeper.word == word {
            asleep = asleep.saturating_add(1);
        }
    }
    let asked = u64::try_from(machine.value(seat, many)).unwrap_or(0);
    Look {
        row: None,
        found: Some(Finding::OfLayer(asleep.min(asked))),
    }
}

/// The number of a counter.
fn of_counter(machine: &ProgramMachine<'_>, seat: SeatId, place: &CodePlace) -> Option<Finding>
    requires { seat < length machine.now.program.seats }
{
    let number = number_of_place(machine, seat, place)?;
    let counter = counter_at(machine, number)?;
    Some(Finding::OfLayer(machine.counter(counter)))
}

/// The list's wait word.
fn of_list(machine: &ProgramMachine<'_>, list: usize) -> Option<Finding> {
    let list = list_at(machine, list)?;
    Some(Finding::OfLayer(machine.next_ticket(list)))
}

/// A row of the layer.
fn at_row(row: Row, found: Option<Finding>) -> Look {
    Look {
        row: Some(RowName::Layer(row)),
        found,
    }
}

/// The row with which a line begins.
fn first_look(machine: &ProgramMachine<'_>, seat: SeatId, instruction: &Instruction) -> Look
    requires { seat < length machine.now.program.seats }
{
    match instruction {
        Instruction::Load(word, _)
        | Instruction::Store(word, _)
        | Instruction::Swap(word, _, _)
        | Instruction::Add(word, _, _)
        | Instruction::Exchange(word, _, _, _)
        | Instruction::Await(word, _, _, _)
        | Instruction::Park(word, _) => in_word(machine, seat, word),
        Instruction::Unpark(word, many) => woken(machine, seat, word, many),
        Instruction::Acquire(counter, _) => at_row(Row::A1, of_counter(machine, seat, counter)),
        Instruction::Release(counter, Share::Many(_)) => {
            at_row(Row::M1, of_counter(machine, seat, counter))
        }
        Instruction::Release(counter, _) => at_row(Row::R1, of_counter(machine, seat, counter)),
        Instruction::Ticket(list) => at_row(Row::N1, of_list(machine, *list)),
        // it can run only where it finds its list's lock free
        Instruction::Wait(_) => at_row(Row::W1, Some(Finding::OfLayer(0))),
        Instruction::One(list) => at_row(Row::O1, of_list(machine, *list)),
        Instruction::All(list) => at_row(Row::L1, of_list(machine, *list)),
        _ => NO_LOOK,
    }
}

/// The counter that an exchange of this line's call is about.
fn exchanged(
    machine: &ProgramMachine<'_>,
    seat: SeatId,
    instruction: &Instruction,
) -> Option<Finding>
    requires { seat < length machine.now.program.seats }
{
    match instruction {
        Instruction::Acquire(counter, _) | Instruction::Release(counter, _) => {
            of_counter(machine, seat, counter)
        }
        _ => None,
    }
}

/// A row of the call that the seat's line has begun.
fn look_within(machine: &ProgramMachine<'_>, seat: SeatId, instruction: &Instruction) -> Look
    requires { seat < length machine.now.program.seats }
{
    let Phase::At(row) = machine.phase(seat) else {
        return NO_LOOK;
    };
    let found = match machine.look(seat) {
        Ok(WordFound::Number(number)) => Some(Finding::OfLayer(number)),
        Ok(WordFound::Won | WordFound::Lost) => exchanged(machine, seat, instruction),
        _ => None,
    };
    at_row(row, found)
}

/// The row that the seat's next step runs, and what it finds, if it can run.
pub(crate) fn look_of(machine: &ProgramMachine<'_>, seat: SeatId, instruction: &Instruction) -> Look
    requires { seat < length machine.now.program.seats }
{
    match machine.stand(seat) {
        Stand::Before(_) => first_look(machine, seat, instruction),
        Stand::Within(_) => look_within(machine, seat, instruction),
        // it can run only where its grant word isn't 0, and then that is 1
        Stand::Asleep(_) => Look {
            row: Some(RowName::Awake),
            found: Some(Finding::OfLayer(1)),
        },
        _ => NO_LOOK,
    }
}
