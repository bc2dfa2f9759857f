//! What there is too much of, and what is declared again.

ghost use Rattle.std.specs.Prelude.{◌≡◌, ◌<◌, ◌^◌};
ghost use Rattle.program.specs.Codes as coding;
ghost use Rattle.program.specs.Limits as limits;

use crate::codes::{code_at, has_label, size_of};
use crate::draft::ProgramDraft;
use program_text::{Name, Number, SpelledLine, SpelledOperand};

/// How many constants a text has at most.
const MOST_CONSTANTS: usize = 32;

/// How many words, the members of arrays counted.
const MOST_WORDS: usize = 32;

/// How many counters, the members of arrays counted.
const MOST_COUNTERS: usize = 16;

/// How many notify lists.
const MOST_LISTS: usize = 4;

/// How many registers.
const MOST_REGISTERS: usize = 8;

/// How many sections.
const MOST_SECTIONS: usize = 8;

/// How many programs.
const MOST_PROGRAMS: usize = 16;

/// How many lines each of them has as it is written, its labels counted.
const MOST_WRITTEN: usize = 128;

/// How many lines, those that are done put in, its labels not counted.
const MOST_LINES: usize = 255;

/// How many seats.
const MOST_SEATS: usize = 16;

/// How many properties.
const MOST_PROPERTIES: usize = 16;

/// Whether there are more than are left of so many.
fn is_over(most: usize, used: usize, more: u128) -> bool
    ensures { result ≡ limits.is_over most used more }
{
    (most.saturating_sub(used) as u128) < more
}

/// A word or a counter, or the members of an array.
fn cells_asked(index: &Option<SpelledOperand<'_>>) -> u128
    ensures { result ≡ limits.cells_asked index.now }
{
    match index {
        Some(SpelledOperand::Number(Number::Plus(length))) => *length,
        _ => 1,
    }
}

/// How many seats are asked for.
fn seats_asked(count: Number) -> u128
    ensures { result ≡ limits.seats_asked count }
{
    match count {
        Number::Plus(count) => count,
        Number::Minus(_) => 0,
    }
}

/// How many lines the program of this name has, when it is done.
fn lines_done<'t>(draft: &ProgramDraft<'t>, program: &Name<'t>) -> usize
    ensures { result ≡ limits.lines_done draft.now program.now }
{
    match draft.names.program(program) {
        Ok(number) => code_at(draft.codes.as_slice(), number).len(),
        Err(_) => 0,
    }
}

/// How many lines a line of a program makes.
fn lines_asked<'t>(draft: &ProgramDraft<'t>, line: &SpelledLine<'t>) -> usize
    ensures { result ≡ limits.lines_asked draft.now line.now }
{
    match line {
        SpelledLine::Label(_) => 0,
        SpelledLine::Do(program) => lines_done(draft, program),
        _ => 1,
    }
}

/// Whether the line of a program is one too many, or makes too many.
fn is_too_long<'t>(draft: &ProgramDraft<'t>, line: &SpelledLine<'t>) -> bool
    requires { coding.size_of draft.now.codes draft.now.body < 2 ^ 64 }
    ensures { result ≡ limits.is_too_long draft.now line.now }
{
    let size = size_of(draft.codes.as_slice(), draft.body.as_slice());
    is_over(MOST_WRITTEN, draft.body.len(), 1)
        || is_over(MOST_LINES, size, lines_asked(draft, line) as u128)
}

/// Whether the line is one too many, or makes too many.
pub(crate) fn is_too_many<'t>(draft: &ProgramDraft<'t>, line: &SpelledLine<'t>) -> bool
    requires { coding.size_of draft.now.codes draft.now.body < 2 ^ 64 }
    ensures { result ≡ limits.is_too_many draft.now line.now }
{
    let names = &draft.names;
    match line {
        SpelledLine::Blank => false,
        SpelledLine::Const(_, _) => is_over(MOST_CONSTANTS, names.constants.len(), 1),
        SpelledLine::Word(word, _) => is_over(
            MOST_WORDS,
            draft.words.len(),
            cells_asked(&word.index),
        ),
        SpelledLine::Counter(counter, _) => {
            is_over(
                MOST_COUNTERS,
                draft.counters.len(),
                cells_asked(&counter.index),
            )
        }
        SpelledLine::List(_) => is_over(MOST_LISTS, names.lists.len(), 1),
        SpelledLine::Registers(more) => {
            is_over(MOST_REGISTERS, names.registers.len(), more.len() as u128)
        }
        SpelledLine::Section(_) => is_over(MOST_SECTIONS, names.sections.len(), 1),
        SpelledLine::Program(_) => is_over(MOST_PROGRAMS, names.programs.len(), 1),
        SpelledLine::Seats(count, _) => is_over(MOST_SEATS, draft.seats.len(), seats_asked(*count)),
        SpelledLine::Most(_, _)
        | SpelledLine::Apart(_, _)
        | SpelledLine::Passed(_, _)
        | SpelledLine::Finally(_, _, _) => is_over(MOST_PROPERTIES, draft.properties.len(), 1),
        _ => is_too_long(draft, line),
    }
}

/// Whether the line declares a name, or a label of the program that is open, again.
pub(crate) fn is_again<'t>(draft: &ProgramDraft<'t>, line: &SpelledLine<'t>) -> bool
    ensures { result ≡ limits.is_again draft.now line.now }
{
    let names = &draft.names;
    match line {
        SpelledLine::Const(name, _)
        | SpelledLine::List(name)
        | SpelledLine::Section(name)
        | SpelledLine::Program(name) => names.is_declared(name),
        SpelledLine::Word(place, _) | SpelledLine::Counter(place, _) => names.is_declared(
            &place.name,
        ),
        SpelledLine::Registers(more) => names.is_any_again(more.as_slice()),
        SpelledLine::Label(name) => has_label(draft.body.as_slice(), name),
        _ => false,
    }
}
