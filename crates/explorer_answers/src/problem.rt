//! What is wrong with a line, and what was expected there.

ghost use Rattle.std.specs.Prelude.{◌≡◌, IfOk, IfSome, Some, string_bytes};
ghost use Rattle.explorer_answers.specs.Explained.{problem_text, IsProblem, HasCalls, IsUnspelledIn, Explains};

use crate::beginning::shown;
use crate::formless::{Formless, no_call, no_line};
use crate::looks::ends_in_return;
use scenario_text::{Cause, ReadFault, is_call, line_at, printable};
use std::alloc::{AllocError, Global};
use std::fmt;

/// What is wrong with a line, of which this much is shown.
#[derive(Clone, Copy)]
pub(crate) enum Problem<'t> {
    /// No line feed ends it.
    NoLineFeed(&'t str),
    /// A byte behind this can't be printed.
    Unprintable(&'t str),
    /// It ends with a carriage return before its line feed.
    Return(&'t str),
    /// It has no form.
    NoForm(Formless<'t>),
    /// It may not come here.
    Misplaced(&'t str),
    /// A number is outside its range.
    OutOfRange(&'t str),
    /// It is one too many, or has too many calls.
    TooMany(&'t str),
    /// It names what isn't declared.
    Undeclared(&'t str),
    /// It takes a ticket twice, or waits without one.
    Ticket(&'t str),
    /// There is no line: a property is missing.
    NoProperty,
}

impl fmt::Display for Problem<'_> {
    ghost output = { λ problem. Some (problem_text problem) };

    fn fmt<W: fmt::Write>(&self, f: &mut fmt::Formatter<W>) -> fmt::Result {
        match self {
            Problem::NoLineFeed(line) => {
                write!(f, "no line feed ends \"{line}\": each line is ended by one")
            }
            Problem::Unprintable(line) => {
                write!(
                    f,
                    "a byte behind \"{line}\" can't be printed: lines are of printed ASCII"
                )
            }
            Problem::Return(line) => {
                write!(f, "\"{line}\" ends in CRLF: a line feed alone ends a line")
            }
            Problem::NoForm(formless) => write!(f, "{formless}"),
            Problem::Misplaced(line) => write!(
                f,
                "\"{line}\" can't stand here: roots, counters, lists, groups, seats from 0 on and one property \
                 come in this order"
            ),
            Problem::OutOfRange(line) => write!(
                f,
                "a number is out of range in \"{line}\": roots 1 to 251, units 1 to 256, calls left out 1 to 31, \
                 tickets below 2^64, a group's change -2^31 to 2^31 - 1, others below 2^32"
            ),
            Problem::TooMany(line) => write!(
                f,
                "\"{line}\" is too many: at most 16 counters, lists, groups and seats, and 32 calls of a seat"
            ),
            Problem::Undeclared(line) => write!(
                f,
                "\"{line}\" names what isn't declared: counter, list and group lines come before seats, and count from 0, \
                 each kind for itself"
            ),
            Problem::Ticket(line) => write!(
                f,
                "\"{line}\" misuses a ticket: add L takes one where the seat holds none of L, wait L spends it, \
                 and calls left out take and spend none"
            ),
            Problem::NoProperty => f.write_str(
                "the text ends: settled, value C N, no-misuse or no-lost was expected",
            ),
        }
    }
}

/// The calls of a seat's line.
fn calls_of(line: &str) -> Option<&str>
    ensures { IfSome result (λ calls. HasCalls line.now calls.now) }
{
    let (_, calls) = line.strip_prefix("seat ")?.split_once(": ")?;
    Some(calls)
}

/// The first of the calls of a seat's line that isn't spelled as one.
fn unspelled_call(line: &str) -> Option<&str>
    ensures { IfSome result (λ part. IsUnspelledIn line.now part.now) }
{
    let mut rest = calls_of(line)?;
    while let Some((call, others)) = rest.split_once("; ") {
        if !is_call(call) {
            return Some(call);
        }
        rest = others;
    }
    if is_call(rest) { None } else { Some(rest) }
}

/// What is wrong with a line that has no form.
fn formless(line: &[u8]) -> Problem<'_>
    ensures { IsProblem Cause.Form line.now result }
{
    match printable(line).and_then(unspelled_call) {
        Some(call) => Problem::NoForm(no_call(call.as_bytes())),
        None => Problem::NoForm(no_line(line)),
    }
}

/// What is wrong with a line that has a byte which can't be printed.
fn unprintable(line: &[u8]) -> Problem<'_>
    ensures { IsProblem Cause.Byte line.now result }
{
    let text = shown(line);
    if ends_in_return(line) {
        Problem::Return(text)
    } else {
        Problem::Unprintable(text)
    }
}

/// What is wrong with the line for this cause. Want of memory is no fault of a line.
fn problem_of(line: &[u8], cause: Cause) -> Option<Problem<'_>>
    ensures { IfSome result (IsProblem cause line.now) }
{
    Some(match cause {
        Cause::Cut => Problem::NoLineFeed(shown(line)),
        Cause::Byte => unprintable(line),
        Cause::Form => formless(line),
        Cause::Place => Problem::Misplaced(shown(line)),
        Cause::Range => Problem::OutOfRange(shown(line)),
        Cause::TooMany => Problem::TooMany(shown(line)),
        Cause::Undeclared => Problem::Undeclared(shown(line)),
        Cause::Ticket => Problem::Ticket(shown(line)),
        Cause::End => Problem::NoProperty,
        Cause::NoMemory => return None,
    })
}

/// One line that says which line of the text is at fault, shows it, and says what was expected there.
///
/// It is an `Err` where memory is short, and for the fault that says so.
pub fn explain(alloc: Global, text: &[u8], fault: ReadFault) -> Result<String, AllocError>
    ensures { IfOk result (λ told. Explains text.now fault (string_bytes told)) }
{
    let ReadFault { line, cause } = fault;
    let Some(problem) = problem_of(line_at(text, line), cause) else {
        return Err(AllocError);
    };
    let told = format!(in alloc; "line {line}: {problem}\n")?;
    Ok(told)
}
