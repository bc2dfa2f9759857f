//! What is said to a person whose lock program is refused: which line is at fault, what stands there, and
//! what was expected.

use crate::on_program::culprit::Culprit;
use crate::on_program::expected::{expected, first_word};
use crate::on_program::limits::{most_of, range_of};
use explorer_answers::{ends_in_return, shown};
use program::{ProgramCause, ProgramFault};
use scenario_text::line_at;
use std::alloc::{AllocError, Global};
use std::fmt;

/// What is wrong with a line, of which this much is shown.
#[derive(Clone, Copy)]
enum Problem<'t> {
    /// No line feed ends it.
    NoLineFeed(&'t str),
    /// A byte behind this can't be printed.
    Unprintable(&'t str),
    /// It ends with a carriage return before its line feed.
    Return(&'t str),
    /// It begins as these lines and isn't spelled as one of them.
    Misspelled {
        line: &'t str,
        spelled: &'static str,
    },
    /// It begins as no line.
    NoForm(&'t str),
    /// It is a line of a scenario.
    Scenario(&'t str),
    /// It may not come here.
    Misplaced(&'t str),
    /// A number is outside its range.
    OutOfRange(&'t str),
    /// It is one too many, or makes too many.
    TooMany(&'t str),
    /// This name on it isn't declared further up as what it must be.
    Undeclared {
        line: &'t str,
        culprit: Option<Culprit<'t>>,
    },
    /// It declares a name again.
    Twice(&'t str),
    /// It indexes what is no array, or an array without an index.
    Array(&'t str),
    /// It jumps to no label of its program.
    Label(&'t str),
    /// There is no line: no seats stand in the text.
    NoSeats,
}

impl fmt::Display for Problem<'_> {
    fn fmt<W: fmt::Write>(&self, f: &mut fmt::Formatter<W>) -> fmt::Result {
        match self {
            Problem::NoLineFeed(line) => {
                write!(f, "no line feed ends \"{line}\": each line is ended by one")
            }
            Problem::Unprintable(line) => write!(
                f,
                "a byte behind \"{line}\" can't be printed: lines are of printed ASCII, and no tab stands in them"
            ),
            Problem::Return(line) => {
                write!(f, "\"{line}\" ends in CRLF: a line feed alone ends a line")
            }
            Problem::Misspelled { line, spelled } => {
                write!(f, "no line is spelled \"{line}\": {spelled}")
            }
            Problem::NoForm(line) => write!(
                f,
                "no line begins as \"{line}\": const, word, counter, list, register, section, program, seats, most, apart, \
                 passed, finally, a label with a colon, or in a program load, store, swap, add, exchange, await, acquire, release, ticket, \
                 wait, one, all, park, unpark, ask, in, out, let, if, goto, assert, fail, do, return"
            ),
            Problem::Scenario(line) => write!(
                f,
                "\"{line}\" is a line of a scenario: check, explore and replay take one, try and retrace a lock program"
            ),
            Problem::Misplaced(line) => write!(
                f,
                "\"{line}\" can't stand here: const, word, counter, list, register and section lines come first, then programs \
                 with their lines, then seats, and most, apart, passed and finally last"
            ),
            Problem::OutOfRange(line) => write!(
                f,
                "a number is out of range in \"{line}\": {}",
                range_of(first_word(line))
            ),
            Problem::TooMany(line) => write!(
                f,
                "\"{line}\" is too many, or makes too many: {}",
                most_of(first_word(line))
            ),
            Problem::Undeclared { line, culprit } => match culprit {
                Some(culprit) => write!(f, "in \"{line}\" {culprit}"),
                None => write!(
                    f,
                    "\"{line}\" has a name that isn't declared further up as what it must be here"
                ),
            },
            Problem::Twice(line) => write!(
                f,
                "\"{line}\" declares a name again: a name stands for one thing, whatever its kind, and a label once in its program"
            ),
            Problem::Array(line) => write!(
                f,
                "\"{line}\" indexes what is no array, or names an array without an index: W[e] with no space"
            ),
            Problem::Label(line) => write!(
                f,
                "\"{line}\" jumps to no label of its program: labels are a program's own, also where do puts it into another"
            ),
            Problem::NoSeats => f.write_str("the text ends: seats K N was expected"),
        }
    }
}

/// What is wrong with a line that has a byte which can't be printed.
fn unprintable(line: &[u8]) -> Problem<'_> {
    if ends_in_return(line) {
        Problem::Return(shown(line))
    } else {
        Problem::Unprintable(shown(line))
    }
}

/// Whether a line that has no form is one of a scenario.
fn is_of_scenario(line: &str) -> bool {
    let mut words = line.split_whitespace();
    match words.next() {
        Some("roots" | "seat" | "group" | "settled" | "value" | "no-misuse") => true,
        Some("counter" | "list") => words.all(|word| word.parse::<u64>().is_ok()),
        _ => false,
    }
}

/// What is wrong with a line that has no form.
fn formless(line: &str) -> Problem<'_> {
    if is_of_scenario(line) {
        return Problem::Scenario(line);
    }
    match expected(line) {
        Some(spelled) => Problem::Misspelled { line, spelled },
        None => Problem::NoForm(line),
    }
}

/// What is wrong with the line of this number for this cause. Want of memory is no fault of a line.
fn problem_of(text: &[u8], number: usize, cause: ProgramCause) -> Option<Problem<'_>> {
    let line = line_at(text, number);
    let told = shown(line);
    Some(match cause {
        ProgramCause::Cut => Problem::NoLineFeed(told),
        ProgramCause::Byte => unprintable(line),
        ProgramCause::Form => formless(told),
        ProgramCause::Place => Problem::Misplaced(told),
        ProgramCause::Range => Problem::OutOfRange(told),
        ProgramCause::TooMany => Problem::TooMany(told),
        ProgramCause::Undeclared => Problem::Undeclared {
            line: told,
            culprit: Culprit::on_line(text, number),
        },
        ProgramCause::Twice => Problem::Twice(told),
        ProgramCause::Array => Problem::Array(told),
        ProgramCause::Label => Problem::Label(told),
        ProgramCause::End => Problem::NoSeats,
        ProgramCause::NoMemory => return None,
    })
}

/// One line that says which line of the text is at fault, shows it, and says what was expected there.
///
/// It is an `Err` where memory is short, and for the fault that says so.
pub(crate) fn explain(
    alloc: Global,
    text: &[u8],
    fault: ProgramFault,
) -> Result<String, AllocError> {
    let ProgramFault { line, cause } = fault;
    let Some(problem) = problem_of(text, line, cause) else {
        return Err(AllocError);
    };
    let told = format!(in alloc; "line {line}: {problem}\n")?;
    Ok(told)
}
