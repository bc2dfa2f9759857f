//! What the parts of a line stand for, or what is wrong with them.

ghost use Rattle.std.specs.Prelude.{◌≡◌, ◌≤◌};
ghost use Rattle.program.specs.Bounds.{IsNearWhere};
ghost use Rattle.program.specs.Parts as parts;

use crate::names::{CellSpan, DeclaredNames};
use crate::results::both;
use program_code::{CodePlace, Operand, Share};
use program_text::{Name, Number, ProgramCause, SpelledOperand, SpelledPlace, SpelledShare};

/// How many members an array has at most.
const MOST_MEMBERS: u128 = 16;

/// How many times a seat may be passed at most.
const MOST_PASSES: u128 = 255;

/// Two to the power of 63.
const HALF: u128 = 1 << 63;

/// The number, where it is one of 64 bits.
pub fn number_of(number: Number) -> Result<i64, ProgramCause>
    ensures { result ≡ parts.number_of number }
{
    match number {
        Number::Plus(size) => if size < HALF {
            Ok(size as i64)
        } else {
            Err(ProgramCause::Range)
        },
        Number::Minus(size) => if size > HALF {
            Err(ProgramCause::Range)
        } else {
            Ok((-(size as i128)) as i64)
        },
    }
}

/// How many, from 0 on.
pub fn count_of(number: Number) -> Result<u64, ProgramCause>
    ensures { result ≡ parts.count_of number }
{
    match number {
        Number::Plus(size) if size < HALF => Ok(size as u64),
        Number::Plus(_) | Number::Minus(_) => Err(ProgramCause::Range),
    }
}

/// How many passes, from 0 to 255.
pub fn passes_of(number: Number) -> Result<u64, ProgramCause>
    ensures { result ≡ parts.passes_of number }
{
    match number {
        Number::Plus(size) if size <= MOST_PASSES => Ok(size as u64),
        Number::Plus(_) | Number::Minus(_) => Err(ProgramCause::Range),
    }
}

/// How many, from 1 on.
pub fn some_of(number: Number) -> Result<usize, ProgramCause>
    ensures { result ≡ parts.some_of number }
{
    match number {
        Number::Plus(size) => if size == 0 || size > HALF - 1 {
            Err(ProgramCause::Range)
        } else {
            Ok(size as usize)
        },
        Number::Minus(_) => Err(ProgramCause::Range),
    }
}

/// How many members an array has, or that it is none.
pub fn length_of(index: &Option<SpelledOperand<'_>>) -> Result<Option<usize>, ProgramCause>
    ensures { result ≡ parts.length_of index.now }
{
    match index {
        None => Ok(None),
        Some(SpelledOperand::Number(Number::Plus(length))) => {
            if *length == 0 || *length > MOST_MEMBERS {
                Err(ProgramCause::Range)
            } else {
                Ok(Some(*length as usize))
            }
        }
        Some(_) => Err(ProgramCause::Range),
    }
}

/// The number that a number or a constant is.
pub fn fixed_of<'t>(
    names: &DeclaredNames<'t>,
    value: &SpelledOperand<'t>,
) -> Result<i64, ProgramCause>
    ensures { result ≡ parts.fixed_of names.now value.now }
{
    match value {
        SpelledOperand::Number(number) => number_of(*number),
        SpelledOperand::Me => Err(ProgramCause::Undeclared),
        SpelledOperand::Name(name) => names.constant(name).ok_or(ProgramCause::Undeclared),
    }
}

/// What a counter starts at.
pub fn start_of<'t>(
    names: &DeclaredNames<'t>,
    value: &SpelledOperand<'t>,
) -> Result<u32, ProgramCause>
    ensures { result ≡ parts.start_of names.now value.now }
{
    let start = fixed_of(names, value)?;
    if start < 0 || start > u32::MAX as i64 {
        return Err(ProgramCause::Range);
    }
    Ok(start as u32)
}

/// A register that may be left out.
pub(crate) fn result_of<'t>(
    names: &DeclaredNames<'t>,
    register: &Option<Name<'t>>,
) -> Result<Option<usize>, ProgramCause>
    ensures { result ≡ parts.result_of names.now register.now }
{
    let Some(name) = register else {
        return Ok(None);
    };
    let number = names.register(name)?;
    Ok(Some(number))
}

/// What an operand stands for.
pub(crate) fn operand_of<'t>(
    names: &DeclaredNames<'t>,
    operand: &SpelledOperand<'t>,
) -> Result<Operand, ProgramCause>
    ensures { result ≡ parts.operand_of names.now operand.now }
{
    match operand {
        SpelledOperand::Number(number) => {
            let number = number_of(*number)?;
            Ok(Operand::Number(number))
        }
        SpelledOperand::Me => Ok(Operand::Me),
        SpelledOperand::Name(name) => {
            if let Some(value) = names.constant(name) {
                return Ok(Operand::Number(value));
            }
            let register = names.register(name)?;
            Ok(Operand::Register(register))
        }
    }
}

/// The one or the array's member that a place is.
fn place_of<'t>(
    names: &DeclaredNames<'t>,
    span: Result<CellSpan, ProgramCause>,
    index: &Option<SpelledOperand<'t>>,
) -> Result<CodePlace, ProgramCause>
    ensures { result ≡ parts.place_of names.now span index.now }
{
    match index {
        None => {
            let CellSpan { first, length } = span?;
            match length {
                None => Ok(CodePlace::Single(first)),
                Some(_) => Err(ProgramCause::Array),
            }
        }
        Some(index) => {
            let (CellSpan { first, length }, index) = both(span, operand_of(names, index))?;
            match length {
                None => Err(ProgramCause::Array),
                Some(length) => Ok(CodePlace::Member(first, length, index)),
            }
        }
    }
}

/// The word that a place is.
pub(crate) fn word_of<'t>(
    names: &DeclaredNames<'t>,
    word: &SpelledPlace<'t>,
) -> Result<CodePlace, ProgramCause>
    ensures { result ≡ parts.word_of names.now word.now }
{
    place_of(
        names,
        names.word(&word.name).ok_or(ProgramCause::Undeclared),
        &word.index,
    )
}

/// The counter that a place is.
pub(crate) fn counter_of<'t>(
    names: &DeclaredNames<'t>,
    counter: &SpelledPlace<'t>,
) -> Result<CodePlace, ProgramCause>
    ensures { result ≡ parts.counter_of names.now counter.now }
{
    place_of(
        names,
        names.counter(&counter.name).ok_or(ProgramCause::Undeclared),
        &counter.index,
    )
}

/// How many units a release adds.
pub(crate) fn share_of<'t>(
    names: &DeclaredNames<'t>,
    share: &SpelledShare<'t>,
) -> Result<Share, ProgramCause>
    ensures { result ≡ parts.share_of names.now share.now }
{
    match share {
        SpelledShare::One => Ok(Share::One),
        SpelledShare::Handoff => Ok(Share::Handoff),
        SpelledShare::Many(units) => {
            let units = operand_of(names, units)?;
            Ok(Share::Many(units))
        }
    }
}

/// An index that is a number or a constant, and may be left out.
fn index_of<'t>(
    names: &DeclaredNames<'t>,
    index: &Option<SpelledOperand<'t>>,
) -> Result<Option<i64>, ProgramCause>
    ensures { result ≡ parts.index_of names.now index.now }
{
    let Some(index) = index else {
        return Ok(None);
    };
    let index = fixed_of(names, index)?;
    Ok(Some(index))
}

/// The number of the one, or of this member of an array.
fn only_of(span: CellSpan, index: Option<i64>) -> Result<usize, ProgramCause>
    requires { span.first ≤ 32 }
    ensures { result ≡ parts.only_of span.first span.length index }
{
    match (span.length, index) {
        (None, None) => Ok(span.first),
        (Some(length), Some(index)) => {
            if index < 0 || index as usize >= length {
                return Err(ProgramCause::Range);
            }
            Ok(span.first + index as usize)
        }
        _ => Err(ProgramCause::Array),
    }
}

/// The number of the one word or counter that a property speaks of.
pub fn fixed_place<'t>(
    names: &DeclaredNames<'t>,
    span: Result<CellSpan, ProgramCause>,
    index: &Option<SpelledOperand<'t>>,
) -> Result<usize, ProgramCause>
    requires { IsNearWhere span }
    ensures { result ≡ parts.fixed_place names.now span index.now }
{
    let (span, index) = both(span, index_of(names, index))?;
    only_of(span, index)
}
