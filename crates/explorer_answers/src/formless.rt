//! What is wrong with a line, or a call of a seat, that is spelled as none.

ghost use Rattle.std.specs.Prelude.{◌≡◌, Some};
ghost use Rattle.explorer_answers.specs.Explained.{formless_text, IsNoCall, IsNoLine};

use crate::beginning::shown;
use crate::looks::{has_digits, has_semicolon, is_of_lock};
use std::fmt;

/// How many digits a number has at most.
const DIGITS: usize = 10;
/// And how many the first ticket of a list.
const TICKET_DIGITS: usize = 20;

/// What is wrong with a line or a call that has no form, of which this much is shown.
#[derive(Clone, Copy)]
pub(crate) enum Formless<'t> {
    /// No line is spelled so.
    NoLine(&'t str),
    /// It is a line of a lock program.
    OfLock(&'t str),
    /// No call is spelled so.
    NoCall(&'t str),
    /// Nor so, and a semicolon stands in it.
    NotParted(&'t str),
    /// More digits than this stand in a row in it.
    ManyDigits { text: &'t str, most: usize },
}

impl fmt::Display for Formless<'_> {
    ghost output = { λ formless. Some (formless_text formless) };

    fn fmt<W: fmt::Write>(&self, f: &mut fmt::Formatter<W>) -> fmt::Result {
        match self {
            Formless::NoLine(line) => write!(
                f,
                "no line is spelled \"{line}\": roots N, counter S, list F, group, seat K: CALLS, \
                 settled, value C N, no-misuse, no-lost"
            ),
            Formless::OfLock(line) => write!(
                f,
                "\"{line}\" is a line of a lock program: try and retrace take one, check, explore and replay a scenario"
            ),
            Formless::NoCall(call) => write!(
                f,
                "no call is spelled \"{call}\": acquire C [lifo], release C [handoff], release C many N, add L, \
                 wait L, one L, all L, gadd G D, gwait G; behind acquire and wait leave [N] or quit [N], behind gwait leave [N]"
            ),
            Formless::NotParted(call) => write!(
                f,
                "no call is spelled \"{call}\": a semicolon and one space part a call from the next"
            ),
            Formless::ManyDigits { text, most } => write!(
                f,
                "more than {most} digits stand in a row in \"{text}\": a number has ten at most, a list's first ticket \
                 twenty"
            ),
        }
    }
}

/// What is wrong with a call that has no form.
pub(crate) fn no_call(call: &[u8]) -> Formless<'_>
    ensures { IsNoCall call.now result }
{
    let text = shown(call);
    if has_semicolon(call) {
        return Formless::NotParted(text);
    }
    if has_digits(call, DIGITS + 1) {
        return Formless::ManyDigits { text, most: DIGITS };
    }
    Formless::NoCall(text)
}

/// What is wrong with a line that has no form, but for its calls.
pub(crate) fn no_line(line: &[u8]) -> Formless<'_>
    ensures { IsNoLine line.now result }
{
    let text = shown(line);
    if is_of_lock(line) {
        return Formless::OfLock(text);
    }
    let most = if line.starts_with(b"list ") {
        TICKET_DIGITS
    } else {
        DIGITS
    };
    if has_digits(line, most + 1) {
        return Formless::ManyDigits { text, most };
    }
    Formless::NoLine(text)
}
