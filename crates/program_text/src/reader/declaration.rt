//! The lines that declare something.

ghost use Rattle.scenario_text.specs.Phrases.{ReadsAs};
ghost use Rattle.program_text.specs.Words.{texts};
ghost use Rattle.program_text.specs.Lines.{AreArgumentsOf};
ghost use Rattle.program_text.specs.declared.reader.verb.Verb.TheVariants as verb;

use crate::lines::SpelledLine;
use crate::reader::part::{one, two};
use crate::reader::shape::read_cells;
use crate::words::{Name, Number};

/// A constant.
pub(crate) fn read_const<'t>(words: &[&'t str]) -> Option<SpelledLine<'t>>
    ensures { ReadsAs (AreArgumentsOf verb.Const (texts words.now)) result }
{
    let Some((name, value)) = two::<Name<'t>, Number>(words) else {
        return None;
    };
    Some(SpelledLine::Const(name, value))
}

/// A word, or an array of words.
pub(crate) fn read_word<'t>(words: &[&'t str]) -> Option<SpelledLine<'t>>
    ensures { ReadsAs (AreArgumentsOf verb.Word (texts words.now)) result }
{
    let Some((place, value)) = read_cells(words) else {
        return None;
    };
    Some(SpelledLine::Word(place, value))
}

/// A counter, or an array of counters.
pub(crate) fn read_counter<'t>(words: &[&'t str]) -> Option<SpelledLine<'t>>
    ensures { ReadsAs (AreArgumentsOf verb.Counter (texts words.now)) result }
{
    let Some((place, value)) = read_cells(words) else {
        return None;
    };
    Some(SpelledLine::Counter(place, value))
}

/// A notify list.
pub(crate) fn read_list<'t>(words: &[&'t str]) -> Option<SpelledLine<'t>>
    ensures { ReadsAs (AreArgumentsOf verb.List (texts words.now)) result }
{
    let Some(name) = one::<Name<'t>>(words) else {
        return None;
    };
    Some(SpelledLine::List(name))
}

/// A section.
pub(crate) fn read_section<'t>(words: &[&'t str]) -> Option<SpelledLine<'t>>
    ensures { ReadsAs (AreArgumentsOf verb.Section (texts words.now)) result }
{
    let Some(name) = one::<Name<'t>>(words) else {
        return None;
    };
    Some(SpelledLine::Section(name))
}

/// The head of a program.
pub(crate) fn read_program<'t>(words: &[&'t str]) -> Option<SpelledLine<'t>>
    ensures { ReadsAs (AreArgumentsOf verb.Program (texts words.now)) result }
{
    let Some(name) = one::<Name<'t>>(words) else {
        return None;
    };
    Some(SpelledLine::Program(name))
}

/// Seats that run a program.
pub(crate) fn read_seats<'t>(words: &[&'t str]) -> Option<SpelledLine<'t>>
    ensures { ReadsAs (AreArgumentsOf verb.Seats (texts words.now)) result }
{
    let Some((count, program)) = two::<Number, Name<'t>>(words) else {
        return None;
    };
    Some(SpelledLine::Seats(count, program))
}
