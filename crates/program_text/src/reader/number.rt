//! Numbers.

ghost use Rattle.scenario_text.specs.Phrases.{ReadsAs, IsNumber};
ghost use Rattle.program_text.specs.Words.{IsNumberWord};

use crate::words::Number;

/// How many digits a number has at most.
const DIGITS: usize = 20;

/// The number that the digits spell, without a leading zero.
fn read_digits(text: &str) -> Option<u128>
    ensures { ReadsAs (IsNumber 20 text.now) result }
{
    let digits = text.as_bytes();
    if digits.is_empty() || digits.len() > DIGITS {
        return None;
    }
    let first = digits[0];
    if first == b'+' || (first == b'0' && digits.len() > 1) {
        return None;
    }
    text.parse::<u128>().ok()
}

/// The number that the word spells.
pub(crate) fn read_number(word: &str) -> Option<Number>
    ensures { ReadsAs (IsNumberWord word.now) result }
{
    if let Some(size) = read_digits(word) {
        return Some(Number::Plus(size));
    }
    let Some(digits) = word.strip_prefix("-") else {
        return None;
    };
    let Some(size) = read_digits(digits) else {
        return None;
    };
    if size == 0 {
        return None;
    }
    Some(Number::Minus(size))
}
