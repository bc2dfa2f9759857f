//! The lines that read and write words.

ghost use Rattle.scenario_text.specs.Phrases.{ReadsAs};
ghost use Rattle.program_text.specs.Words.{texts};
ghost use Rattle.program_text.specs.Lines.{AreArgumentsOf};
ghost use Rattle.program_text.specs.declared.reader.verb.Verb.TheVariants as verb;

use crate::lines::SpelledLine;
use crate::reader::part::{four, three, two};
use crate::reader::shape::read_access;
use crate::words::{Name, SpelledOperand, SpelledPlace};
use program_code::Relation;

/// A word that is read.
pub(crate) fn read_load<'t>(words: &[&'t str]) -> Option<SpelledLine<'t>>
    ensures { ReadsAs (AreArgumentsOf verb.Load (texts words.now)) result }
{
    let Some((place, register)) = two::<SpelledPlace<'t>, Name<'t>>(words) else {
        return None;
    };
    Some(SpelledLine::Load(place, register))
}

/// A word that is written.
pub(crate) fn read_store<'t>(words: &[&'t str]) -> Option<SpelledLine<'t>>
    ensures { ReadsAs (AreArgumentsOf verb.Store (texts words.now)) result }
{
    let Some((place, operand)) = two::<SpelledPlace<'t>, SpelledOperand<'t>>(words) else {
        return None;
    };
    Some(SpelledLine::Store(place, operand))
}

/// A word that is written and read.
pub(crate) fn read_swap<'t>(words: &[&'t str]) -> Option<SpelledLine<'t>>
    ensures { ReadsAs (AreArgumentsOf verb.Swap (texts words.now)) result }
{
    let Some((place, operand, register)) = read_access(words) else {
        return None;
    };
    Some(SpelledLine::Swap(place, operand, register))
}

/// A word to which something is added.
pub(crate) fn read_add<'t>(words: &[&'t str]) -> Option<SpelledLine<'t>>
    ensures { ReadsAs (AreArgumentsOf verb.Add (texts words.now)) result }
{
    let Some((place, operand, register)) = read_access(words) else {
        return None;
    };
    Some(SpelledLine::Add(place, operand, register))
}

/// A word that becomes another if it is as expected.
pub(crate) fn read_exchange<'t>(words: &[&'t str]) -> Option<SpelledLine<'t>>
    ensures { ReadsAs (AreArgumentsOf verb.Exchange (texts words.now)) result }
{
    if let Some((place, old, new, register)) = four::<
        SpelledPlace<'t>,
        SpelledOperand<'t>,
        SpelledOperand<'t>,
        Name<'t>,
    >(words)
    {
        return Some(SpelledLine::Exchange(place, old, new, Some(register)));
    }
    let Some((place, old, new)) = three::<SpelledPlace<'t>, SpelledOperand<'t>, SpelledOperand<'t>>(
        words,
    ) else {
        return None;
    };
    Some(SpelledLine::Exchange(place, old, new, None))
}

/// A word that is waited for.
pub(crate) fn read_await<'t>(words: &[&'t str]) -> Option<SpelledLine<'t>>
    ensures { ReadsAs (AreArgumentsOf verb.Await (texts words.now)) result }
{
    if let Some((place, relation, operand, register)) = four::<
        SpelledPlace<'t>,
        Relation,
        SpelledOperand<'t>,
        Name<'t>,
    >(words)
    {
        return Some(SpelledLine::Await(place, relation, operand, Some(register)));
    }
    let Some((place, relation, operand)) = three::<SpelledPlace<'t>, Relation, SpelledOperand<'t>>(
        words,
    ) else {
        return None;
    };
    Some(SpelledLine::Await(place, relation, operand, None))
}

/// A word on which a seat sleeps.
pub(crate) fn read_park<'t>(words: &[&'t str]) -> Option<SpelledLine<'t>>
    ensures { ReadsAs (AreArgumentsOf verb.Park (texts words.now)) result }
{
    let Some((place, operand)) = two::<SpelledPlace<'t>, SpelledOperand<'t>>(words) else {
        return None;
    };
    Some(SpelledLine::Park(place, operand))
}

/// A word whose sleepers are woken.
pub(crate) fn read_unpark<'t>(words: &[&'t str]) -> Option<SpelledLine<'t>>
    ensures { ReadsAs (AreArgumentsOf verb.Unpark (texts words.now)) result }
{
    let Some((place, operand)) = two::<SpelledPlace<'t>, SpelledOperand<'t>>(words) else {
        return None;
    };
    Some(SpelledLine::Unpark(place, operand))
}
