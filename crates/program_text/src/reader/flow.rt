//! The lines without a step.

ghost use Rattle.scenario_text.specs.Phrases.{ReadsAs};
ghost use Rattle.program_text.specs.Words.{texts};
ghost use Rattle.program_text.specs.Lines.{AreArgumentsOf};
ghost use Rattle.program_text.specs.declared.reader.verb.Verb.TheVariants as verb;

use crate::lines::SpelledLine;
use crate::reader::name::read_name;
use crate::reader::part::{four, one, three, two};
use crate::words::{Name, SpelledOperand};
use program_code::{Operator, Relation};

/// A register that is given a value.
pub(crate) fn read_let<'t>(words: &[&'t str]) -> Option<SpelledLine<'t>>
    ensures { ReadsAs (AreArgumentsOf verb.Let (texts words.now)) result }
{
    if let Some((register, first, operator, second)) = four::<
        Name<'t>,
        SpelledOperand<'t>,
        Operator,
        SpelledOperand<'t>,
    >(words)
    {
        return Some(SpelledLine::Compute(register, first, operator, second));
    }
    let Some((register, operand)) = two::<Name<'t>, SpelledOperand<'t>>(words) else {
        return None;
    };
    Some(SpelledLine::Let(register, operand))
}

/// A jump where something holds.
pub(crate) fn read_if<'t>(words: &[&'t str]) -> Option<SpelledLine<'t>>
    ensures { ReadsAs (AreArgumentsOf verb.If (texts words.now)) result }
{
    if words.len() != 5 {
        return None;
    }
    if words[3] != "goto" {
        return None;
    }
    let Some((first, relation, second)) = three::<SpelledOperand<'t>, Relation, SpelledOperand<'t>>(
        &words[..3],
    ) else {
        return None;
    };
    let Some(label) = read_name(words[4]) else {
        return None;
    };
    Some(SpelledLine::If(first, relation, second, label))
}

/// A jump.
pub(crate) fn read_goto<'t>(words: &[&'t str]) -> Option<SpelledLine<'t>>
    ensures { ReadsAs (AreArgumentsOf verb.Goto (texts words.now)) result }
{
    let Some(label) = one::<Name<'t>>(words) else {
        return None;
    };
    Some(SpelledLine::Goto(label))
}

/// A section that a seat enters.
pub(crate) fn read_in<'t>(words: &[&'t str]) -> Option<SpelledLine<'t>>
    ensures { ReadsAs (AreArgumentsOf verb.In (texts words.now)) result }
{
    let Some(section) = one::<Name<'t>>(words) else {
        return None;
    };
    Some(SpelledLine::In(section))
}

/// A section that a seat asks for.
pub(crate) fn read_ask<'t>(words: &[&'t str]) -> Option<SpelledLine<'t>>
    ensures { ReadsAs (AreArgumentsOf verb.Ask (texts words.now)) result }
{
    let Some(section) = one::<Name<'t>>(words) else {
        return None;
    };
    Some(SpelledLine::Ask(section))
}

/// What must hold, or the seat fails.
pub(crate) fn read_assert<'t>(words: &[&'t str]) -> Option<SpelledLine<'t>>
    ensures { ReadsAs (AreArgumentsOf verb.Assert (texts words.now)) result }
{
    let Some((first, relation, second)) = three::<SpelledOperand<'t>, Relation, SpelledOperand<'t>>(
        words,
    ) else {
        return None;
    };
    Some(SpelledLine::Assert(first, relation, second))
}

/// A failure.
pub(crate) fn read_fail<'t>(words: &[&'t str]) -> Option<SpelledLine<'t>>
    ensures { ReadsAs (AreArgumentsOf verb.Fail (texts words.now)) result }
{
    if !words.is_empty() {
        return None;
    }
    Some(SpelledLine::Fail)
}

/// A program whose lines stand here.
pub(crate) fn read_do<'t>(words: &[&'t str]) -> Option<SpelledLine<'t>>
    ensures { ReadsAs (AreArgumentsOf verb.Do (texts words.now)) result }
{
    let Some(program) = one::<Name<'t>>(words) else {
        return None;
    };
    Some(SpelledLine::Do(program))
}

/// A jump to the end.
pub(crate) fn read_return<'t>(words: &[&'t str]) -> Option<SpelledLine<'t>>
    ensures { ReadsAs (AreArgumentsOf verb.Return (texts words.now)) result }
{
    if !words.is_empty() {
        return None;
    }
    Some(SpelledLine::Return)
}
