//! Operands and places.

ghost use Rattle.scenario_text.specs.Phrases.{ReadsAs};
ghost use Rattle.program_text.specs.Words.{IsOperand, IsPlace};

use crate::reader::name::read_name;
use crate::reader::number::read_number;
use crate::words::{SpelledOperand, SpelledPlace};

/// The operand that the word is.
pub(crate) fn read_operand<'t>(word: &'t str) -> Option<SpelledOperand<'t>>
    ensures { ReadsAs (IsOperand word.now) result }
{
    if word == "me" {
        return Some(SpelledOperand::Me);
    }
    if let Some(number) = read_number(word) {
        return Some(SpelledOperand::Number(number));
    }
    match read_name(word) {
        Some(name) => Some(SpelledOperand::Name(name)),
        None => None,
    }
}

/// The place that the word is.
pub(crate) fn read_place<'t>(word: &'t str) -> Option<SpelledPlace<'t>>
    ensures { ReadsAs (IsPlace word.now) result }
{
    let Some((name, rest)) = word.split_once('[') else {
        let Some(name) = read_name(word) else {
            return None;
        };
        return Some(SpelledPlace { name, index: None });
    };
    let Some(name) = read_name(name) else {
        return None;
    };
    let Some(index) = rest.strip_suffix("]") else {
        return None;
    };
    let Some(index) = read_operand(index) else {
        return None;
    };
    Some(SpelledPlace {
        name,
        index: Some(index),
    })
}
