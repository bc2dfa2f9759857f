//! One line of a text.

ghost use Rattle.std.specs.Prelude.{IfOk};
ghost use Rattle.scenario_text.specs.Phrases.{ReadsAs};
ghost use Rattle.program_text.specs.Words.{texts};
ghost use Rattle.program_text.specs.Lines.{AreWordsOf, IsLabel, Says};

use crate::lines::SpelledLine;
use crate::reader::form::read_form;
use crate::reader::name::read_name;
use crate::reader::shape::read_names;
use crate::reader::split::{before_comment, split_words};
use crate::reader::verb::read_verb;
use crate::words::Name;
use std::alloc::{AllocError, Global};

/// The name of a label, behind which a colon stands, and nothing else.
fn read_label<'t>(words: &[&'t str]) -> Option<Name<'t>>
    ensures { ReadsAs (IsLabel (texts words.now)) result }
{
    if words.len() != 1 {
        return None;
    }
    let Some(label) = words[0].strip_suffix(":") else {
        return None;
    };
    read_name(label)
}

/// The line that has these words.
fn read_words<'t>(alloc: Global, words: &[&'t str]) -> Result<Option<SpelledLine<'t>>, AllocError>
    ensures { IfOk result (λ o. ReadsAs (AreWordsOf (texts words.now)) o) }
{
    if words.is_empty() {
        return Ok(Some(SpelledLine::Blank));
    }
    if let Some(name) = read_label(words) {
        return Ok(Some(SpelledLine::Label(name)));
    }
    if words[0] == "register" {
        let Some(names) = read_names(alloc, &words[1..])? else {
            return Ok(None);
        };
        return Ok(Some(SpelledLine::Registers(names)));
    }
    match read_verb(words[0]) {
        Some(verb) => Ok(read_form(verb, &words[1..])),
        None => Ok(None),
    }
}

/// What the line says, or nothing where it is spelled as no line.
pub fn read_line<'t>(alloc: Global, text: &'t str) -> Result<Option<SpelledLine<'t>>, AllocError>
    ensures { IfOk result (λ o. ReadsAs (Says text.now) o) }
{
    let words = split_words(alloc, before_comment(text))?;
    read_words(alloc, words.as_slice())
}
