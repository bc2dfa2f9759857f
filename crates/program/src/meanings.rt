//! What a line means behind those before it.

ghost use Rattle.std.specs.Prelude.{◌≡◌};
ghost use Rattle.program.specs.Meanings as meanings;
ghost use Rattle.program.specs.Bounds.{AreNear};
ghost use Rattle.program.specs.Causes.{both, map_ok};
ghost use Rattle.program.specs.Parts as parts;
ghost use Rattle.program.specs.Statements as statements;

use crate::meant::Meant;
use crate::names::{CellSpan, DeclaredNames};
use crate::parts::{
    count_of, fixed_of, fixed_place, length_of, number_of, passes_of, some_of, start_of,
};
use crate::results::both;
use crate::statements::statement_of;
use program_code::{ProgramProperty, Relation};
use program_text::{Name, Number, ProgramCause, SpelledLine, SpelledOperand, SpelledPlace};

/// The word or the counter of this name.
fn shared_of<'t>(names: &DeclaredNames<'t>, name: &Name<'t>) -> Result<CellSpan, ProgramCause>
    ensures { result ≡ meanings.shared_of names.now name.now }
{
    match names.word(name) {
        Some(span) => Ok(span),
        None => names.counter(name).ok_or(ProgramCause::Undeclared),
    }
}

/// What must hold where each seat has ended.
fn finally_of<'t>(
    names: &DeclaredNames<'t>,
    place: &SpelledPlace<'t>,
    relation: Relation,
    value: &SpelledOperand<'t>,
) -> Result<ProgramProperty, ProgramCause>
    requires { AreNear names.now }
    ensures { result ≡ meanings.finally_of names.now place.now relation value.now }
{
    let (number, value) = both(
        fixed_place(names, shared_of(names, &place.name), &place.index),
        fixed_of(names, value),
    )?;
    match names.word(&place.name) {
        Some(_) => Ok(ProgramProperty::FinallyWord(number, relation, value)),
        None => Ok(ProgramProperty::FinallyCounter(number, relation, value)),
    }
}

/// What a property asks for.
fn property_of<'t>(
    names: &DeclaredNames<'t>,
    line: &SpelledLine<'t>,
) -> Result<ProgramProperty, ProgramCause>
    requires { AreNear names.now }
    ensures { result ≡ meanings.property_of names.now line.now }
{
    match line {
        SpelledLine::Most(section, most) => {
            let (section, most) = both(names.section(section), count_of(*most))?;
            Ok(ProgramProperty::Most(section, most))
        }
        SpelledLine::Apart(first, second) => {
            let (first, second) = both(names.section(first), names.section(second))?;
            Ok(ProgramProperty::Apart(first, second))
        }
        SpelledLine::Passed(section, passes) => {
            let (section, passes) = both(names.section(section), passes_of(*passes))?;
            Ok(ProgramProperty::Passed(section, passes))
        }
        SpelledLine::Finally(place, relation, value) => finally_of(names, place, *relation, value),
        _ => Err(ProgramCause::Place),
    }
}

/// A constant of this value.
fn constant_of<'t>(name: Name<'t>, value: Number) -> Result<Meant<'t>, ProgramCause>
    ensures { result ≡ map_ok (λ z. Meant.Constant name.entry z) (parts.number_of value) }
{
    let value = number_of(value)?;
    Ok(Meant::Constant(name, value))
}

/// A word or so many, and what they start at.
fn words_of<'t>(
    names: &DeclaredNames<'t>,
    word: SpelledPlace<'t>,
    value: &SpelledOperand<'t>,
) -> Result<Meant<'t>, ProgramCause>
    ensures { result ≡ map_ok (λ x. Meant.Words word.entry.name x.0 x.1)
        (both (parts.length_of word.entry.index) (parts.fixed_of names.now value.now)) }
{
    let (length, value) = both(length_of(&word.index), fixed_of(names, value))?;
    Ok(Meant::Words(word.name, length, value))
}

/// A counter or so many, and what they start at.
fn counters_of<'t>(
    names: &DeclaredNames<'t>,
    counter: SpelledPlace<'t>,
    value: &SpelledOperand<'t>,
) -> Result<Meant<'t>, ProgramCause>
    ensures { result ≡ map_ok (λ x. Meant.Counters counter.entry.name x.0 x.1)
        (both (parts.length_of counter.entry.index) (parts.start_of names.now value.now)) }
{
    let (length, value) = both(length_of(&counter.index), start_of(names, value))?;
    Ok(Meant::Counters(counter.name, length, value))
}

/// So many seats that run a program.
fn seats_of<'t>(
    names: &DeclaredNames<'t>,
    count: Number,
    program: &Name<'t>,
) -> Result<Meant<'t>, ProgramCause>
    ensures { result ≡ map_ok (λ x. Meant.Seats x.0 x.1)
        (both (parts.some_of count) (parts.program_of names.now program.now)) }
{
    let (count, program) = both(some_of(count), names.program(program))?;
    Ok(Meant::Seats(count, program))
}

/// What a property asks for.
fn asked_of<'t>(
    names: &DeclaredNames<'t>,
    line: &SpelledLine<'t>,
) -> Result<Meant<'t>, ProgramCause>
    requires { AreNear names.now }
    ensures { result ≡ map_ok Meant.Property (meanings.property_of names.now line.now) }
{
    let property = property_of(names, line)?;
    Ok(Meant::Property(property))
}

/// What a line of a program says, where so many have ended.
fn said_of<'t>(
    names: &DeclaredNames<'t>,
    ended: usize,
    line: SpelledLine<'t>,
) -> Result<Meant<'t>, ProgramCause>
    ensures { result ≡ map_ok Meant.Statement (statements.statement_of names.now ended line.entry) }
{
    let statement = statement_of(names, ended, line)?;
    Ok(Meant::Statement(statement))
}

/// What the line means, where so many programs have ended.
pub(crate) fn meant_of<'t>(
    names: &DeclaredNames<'t>,
    ended: usize,
    line: SpelledLine<'t>,
) -> Result<Meant<'t>, ProgramCause>
    requires { AreNear names.now }
    ensures { result ≡ meanings.meant_of names.now ended line.entry }
{
    match line {
        SpelledLine::Blank => Ok(Meant::Nothing),
        SpelledLine::Const(name, value) => constant_of(name, value),
        SpelledLine::Word(word, value) => words_of(names, word, &value),
        SpelledLine::Counter(counter, value) => counters_of(names, counter, &value),
        SpelledLine::List(name) => Ok(Meant::List(name)),
        SpelledLine::Registers(names) => Ok(Meant::Registers(names)),
        SpelledLine::Section(name) => Ok(Meant::Section(name)),
        SpelledLine::Program(name) => Ok(Meant::Program(name)),
        SpelledLine::Seats(count, program) => seats_of(names, count, &program),
        line @ (SpelledLine::Most(_, _)
        | SpelledLine::Apart(_, _)
        | SpelledLine::Passed(_, _)
        | SpelledLine::Finally(_, _, _)) => asked_of(names, &line),
        line => said_of(names, ended, line),
    }
}
