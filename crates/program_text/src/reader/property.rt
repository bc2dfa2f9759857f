//! The lines that say what must hold.

ghost use Rattle.scenario_text.specs.Phrases.{ReadsAs};
ghost use Rattle.program_text.specs.Words.{texts};
ghost use Rattle.program_text.specs.Lines.{AreArgumentsOf};
ghost use Rattle.program_text.specs.declared.reader.verb.Verb.TheVariants as verb;

use crate::lines::SpelledLine;
use crate::reader::part::{three, two};
use crate::reader::shape::{is_fixed, is_fixed_index};
use crate::words::{Name, Number, SpelledOperand, SpelledPlace};
use program_code::Relation;

/// How many seats may be in a section.
pub(crate) fn read_most<'t>(words: &[&'t str]) -> Option<SpelledLine<'t>>
    ensures { ReadsAs (AreArgumentsOf verb.Most (texts words.now)) result }
{
    let Some((section, most)) = two::<Name<'t>, Number>(words) else {
        return None;
    };
    Some(SpelledLine::Most(section, most))
}

/// Two sections that are never both taken.
pub(crate) fn read_apart<'t>(words: &[&'t str]) -> Option<SpelledLine<'t>>
    ensures { ReadsAs (AreArgumentsOf verb.Apart (texts words.now)) result }
{
    let Some((first, second)) = two::<Name<'t>, Name<'t>>(words) else {
        return None;
    };
    Some(SpelledLine::Apart(first, second))
}

/// How many times others may come into a section that a seat asks for.
pub(crate) fn read_passed<'t>(words: &[&'t str]) -> Option<SpelledLine<'t>>
    ensures { ReadsAs (AreArgumentsOf verb.Passed (texts words.now)) result }
{
    let Some((section, passed)) = two::<Name<'t>, Number>(words) else {
        return None;
    };
    Some(SpelledLine::Passed(section, passed))
}

/// What must hold where each seat has ended.
pub(crate) fn read_finally<'t>(words: &[&'t str]) -> Option<SpelledLine<'t>>
    ensures { ReadsAs (AreArgumentsOf verb.Finally (texts words.now)) result }
{
    let Some((place, relation, value)) = three::<SpelledPlace<'t>, Relation, SpelledOperand<'t>>(
        words,
    ) else {
        return None;
    };
    if !is_fixed_index(&place.index) {
        return None;
    }
    if !is_fixed(&value) {
        return None;
    }
    Some(SpelledLine::Finally(place, relation, value))
}
