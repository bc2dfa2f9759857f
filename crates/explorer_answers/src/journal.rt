//! What is said of a line of a journal: of one that has no form what was expected, of any other what it is.

ghost use Rattle.std.specs.Prelude.{◌≡◌, IfOk, Some, string_bytes};
ghost use Rattle.explorer_answers.specs.JournalHelp.{journal_help, line_help, line_shown, wrong_text};

use crate::beginning::shown;
use crate::looks::ends_in_return;
use scenario_text::line_at;
use std::alloc::{AllocError, Global};
use std::fmt;

/// What is wrong with a line, of which this much is shown, and what was expected there.
#[derive(Clone, Copy)]
pub(crate) enum Wrong<'t> {
    /// It ends with a carriage return before its line feed.
    Return(&'t str),
    /// It has no form.
    NoForm(&'t str),
}

impl fmt::Display for Wrong<'_> {
    ghost output = { λ wrong. Some (wrong_text wrong) };

    #[tactic(auto, unfolding(crate::specs::JournalHelp::form_text))]
    fn fmt<W: fmt::Write>(&self, f: &mut fmt::Formatter<W>) -> fmt::Result {
        match self {
            Wrong::Return(line) => {
                write!(f, "\"{line}\" ends in CRLF: a line feed alone ends a line")
            }
            Wrong::NoForm(line) => write!(
                f,
                "no line is spelled \"{line}\" here: counter N and list F come first, and then add C S, add C S many N, \
                 take C S, queue C S.T, queue C S.T lifo, leave C S.T R, withdraw C S.T, ticket L S, grant L UPTO S, \
                 forgo L N S, each of a counter or list that is declared; a line feed ends each line"
            ),
        }
    }
}

/// What is wrong with the line.
fn wrong_with(line: &[u8]) -> Wrong<'_>
    ensures { wrong_text result ≡ line_help line.now }
{
    let text = shown(line);
    if ends_in_return(line) {
        Wrong::Return(text)
    } else {
        Wrong::NoForm(text)
    }
}

/// One line that says which line of a journal is at fault, shows it, and says what was expected there.
///
/// It is an `Err` where memory is short.
pub fn explain_journal(alloc: Global, text: &[u8], line: usize) -> Result<String, AllocError>
    ensures { IfOk result (λ told. string_bytes told ≡ journal_help text.now line) }
{
    let wrong = wrong_with(line_at(text, line));
    let told = format!(in alloc; "line {line}: {wrong}\n")?;
    Ok(told)
}

/// One line that shows a line of a journal, as far as it can be printed.
///
/// It is an `Err` where memory is short.
pub fn show_line(alloc: Global, text: &[u8], line: usize) -> Result<String, AllocError>
    ensures { IfOk result (λ told. string_bytes told ≡ line_shown text.now line) }
{
    let there = shown(line_at(text, line));
    let told = format!(in alloc; "line {line}: {there}\n")?;
    Ok(told)
}
