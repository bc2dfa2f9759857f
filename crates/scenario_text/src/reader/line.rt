//! One line of a scenario's text: among the properties, `no-lost` asks that no wake-up is lost.

ghost use Rattle.std.specs.Prelude.{IfOk};
ghost use Rattle.std.specs.Option.{option_map};
ghost use Rattle.scenario_text.specs.Line.{Spells};
ghost use Rattle.scenario_text.specs.Phrases.{ReadsAs, IsSeat, line_of};

use crate::reader::call::{SpelledCall, read_calls};
use crate::reader::number::{DIGITS, keyed, pair, short_number};
use std::alloc::{AllocError, Global};

/// How many digits a list's first ticket has at most.
const TICKET_DIGITS: usize = 20;

/// A line, as the text spells it.
#[derive(Drop)]
pub(crate) enum Line {
    Roots(u128),
    Counter(u128),
    NotifyList(u128),
    Group,
    Seat(u128, Vec<SpelledCall>),
    Settled,
    Value(u128, u128),
    NoMisuse,
    NoLost,
}

/// A seat's number and its calls.
fn read_seat(alloc: Global, text: &str) -> Result<Option<(u128, Vec<SpelledCall>)>, AllocError>
    ensures { IfOk result (λ o. ReadsAs (IsSeat text.now) (option_map (λ s. (s.0, s.1.items)) o)) }
{
    let Some(rest) = text.strip_prefix("seat ") else {
        return Ok(None);
    };
    let Some((name, rest)) = rest.split_once(':') else {
        return Ok(None);
    };
    let Some(name) = short_number(name) else {
        return Ok(None);
    };
    let Some(rest) = rest.strip_prefix(" ") else {
        return Ok(None);
    };
    match read_calls(alloc, rest)? {
        Some(calls) => Ok(Some((name, calls))),
        None => Ok(None),
    }
}

/// The one line that the text spells.
pub(crate) fn read_line(alloc: Global, text: &str) -> Result<Option<Line>, AllocError>
    ensures { IfOk result (λ o. ReadsAs (Spells text.now) (option_map line_of o)) }
{
    if let Some(n) = keyed(text, "roots ", DIGITS) {
        return Ok(Some(Line::Roots(n)));
    }
    if let Some(start) = keyed(text, "counter ", DIGITS) {
        return Ok(Some(Line::Counter(start)));
    }
    if let Some(first) = keyed(text, "list ", TICKET_DIGITS) {
        return Ok(Some(Line::NotifyList(first)));
    }
    if let Some((counter, n)) = pair(text, "value ", "") {
        return Ok(Some(Line::Value(counter, n)));
    }
    if text == "group" {
        return Ok(Some(Line::Group));
    }
    if text == "settled" {
        return Ok(Some(Line::Settled));
    }
    if text == "no-misuse" {
        return Ok(Some(Line::NoMisuse));
    }
    if text == "no-lost" {
        return Ok(Some(Line::NoLost));
    }
    match read_seat(alloc, text)? {
        Some((name, calls)) => Ok(Some(Line::Seat(name, calls))),
        None => Ok(None),
    }
}
