//! The lines that call the sleeping layer, and that leave a section.

ghost use Rattle.scenario_text.specs.Phrases.{ReadsAs};
ghost use Rattle.program_text.specs.Words.{texts};
ghost use Rattle.program_text.specs.Lines.{AreArgumentsOf};
ghost use Rattle.program_text.specs.declared.reader.verb.Verb.TheVariants as verb;

use crate::lines::{SpelledLine, SpelledShare};
use crate::reader::keyword::{Handoff, Lifo, ManyUnits};
use crate::reader::part::{one, three, two};
use crate::words::{Name, SpelledOperand, SpelledPlace};

/// A counter that is acquired.
pub(crate) fn read_acquire<'t>(words: &[&'t str]) -> Option<SpelledLine<'t>>
    ensures { ReadsAs (AreArgumentsOf verb.Acquire (texts words.now)) result }
{
    if let Some((place, Lifo)) = two::<SpelledPlace<'t>, Lifo>(words) {
        return Some(SpelledLine::Acquire(place, true));
    }
    let Some(place) = one::<SpelledPlace<'t>>(words) else {
        return None;
    };
    Some(SpelledLine::Acquire(place, false))
}

/// A counter that is released.
pub(crate) fn read_release<'t>(words: &[&'t str]) -> Option<SpelledLine<'t>>
    ensures { ReadsAs (AreArgumentsOf verb.Release (texts words.now)) result }
{
    if let Some((place, Handoff)) = two::<SpelledPlace<'t>, Handoff>(words) {
        return Some(SpelledLine::Release(place, SpelledShare::Handoff));
    }
    if let Some((place, ManyUnits, units)) = three::<
        SpelledPlace<'t>,
        ManyUnits,
        SpelledOperand<'t>,
    >(words)
    {
        return Some(SpelledLine::Release(place, SpelledShare::Many(units)));
    }
    let Some(place) = one::<SpelledPlace<'t>>(words) else {
        return None;
    };
    Some(SpelledLine::Release(place, SpelledShare::One))
}

/// A list of which a ticket is taken.
pub(crate) fn read_ticket<'t>(words: &[&'t str]) -> Option<SpelledLine<'t>>
    ensures { ReadsAs (AreArgumentsOf verb.Ticket (texts words.now)) result }
{
    let Some(list) = one::<Name<'t>>(words) else {
        return None;
    };
    Some(SpelledLine::Ticket(list))
}

/// A list on which a seat waits.
pub(crate) fn read_wait<'t>(words: &[&'t str]) -> Option<SpelledLine<'t>>
    ensures { ReadsAs (AreArgumentsOf verb.Wait (texts words.now)) result }
{
    let Some(list) = one::<Name<'t>>(words) else {
        return None;
    };
    Some(SpelledLine::Wait(list))
}

/// A list of which one is woken.
pub(crate) fn read_one<'t>(words: &[&'t str]) -> Option<SpelledLine<'t>>
    ensures { ReadsAs (AreArgumentsOf verb.One (texts words.now)) result }
{
    let Some(list) = one::<Name<'t>>(words) else {
        return None;
    };
    Some(SpelledLine::One(list))
}

/// A list of which all are woken.
pub(crate) fn read_all<'t>(words: &[&'t str]) -> Option<SpelledLine<'t>>
    ensures { ReadsAs (AreArgumentsOf verb.All (texts words.now)) result }
{
    let Some(list) = one::<Name<'t>>(words) else {
        return None;
    };
    Some(SpelledLine::All(list))
}

/// A section that a seat leaves.
pub(crate) fn read_out<'t>(words: &[&'t str]) -> Option<SpelledLine<'t>>
    ensures { ReadsAs (AreArgumentsOf verb.Out (texts words.now)) result }
{
    let Some(section) = one::<Name<'t>>(words) else {
        return None;
    };
    Some(SpelledLine::Out(section))
}
