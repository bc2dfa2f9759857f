//! One line of a text: what it spells, or what is wrong with it.

ghost use Rattle.std.specs.Prelude.{◌≡◌, map, true, false};
ghost use Rattle.std.specs.List.{list_all};
ghost use Rattle.std.specs.Option.{MatchOption};
ghost use Rattle.scenario_text.specs.Phrases.{line_of};
ghost use Rattle.scenario_text.specs.Causes.{is_printable};
ghost use Rattle.scenario_text.specs.Reader.{Judges};

use crate::read_fault::Cause;
use crate::reader::flaws::flaw;
use crate::reader::line::{Line, read_line};
use std::alloc::Global;

fn are_printable(bytes: &[u8]) -> bool
    ensures { result ≡ list_all is_printable bytes.now }
{
    bytes.iter().all(|byte| *byte >= 32 && *byte <= 126)
}

/// The bytes as a text, where each can be printed.
pub fn printable(bytes: &[u8]) -> Option<&str>
    ensures { MatchOption result (list_all is_printable bytes.now ≡ false)
        (λ text. (text.now ≡ bytes.now) × (list_all is_printable bytes.now ≡ true)) }
{
    if !are_printable(bytes) {
        return None;
    }
    match str::from_utf8(bytes) {
        Ok(text) => Some(text),
        Err(_) => None,
    }
}

/// The line that the bytes spell, or what is wrong with it after the lines before it.
pub(crate) fn judge(
    alloc: Global,
    before: &[Line],
    bytes: &[u8],
    ended: bool,
) -> Result<Line, Cause>
    ensures { Judges (map line_of before.now) (record { text = bytes.now; ended = ended }) result }
{
    if !ended {
        return Err(Cause::Cut);
    }
    let Some(text) = printable(bytes) else {
        return Err(Cause::Byte);
    };
    match read_line(alloc, text) {
        Err(_) => Err(Cause::NoMemory),
        Ok(None) => Err(Cause::Form),
        Ok(Some(line)) => match flaw(before, &line) {
            Some(cause) => Err(cause),
            None => Ok(line),
        },
    }
}
