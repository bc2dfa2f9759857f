//! What one word of a line may be, and how so many words are read one after the other.

ghost use Rattle.std.specs.Prelude.{◌≡◌, ℕ, List};
ghost use Rattle.scenario_text.specs.Phrases.{ReadsAs};
ghost use Rattle.program_code.specs.Signs as signs;
ghost use Rattle.program_text.specs.Shapes.{AreOne, AreTwo, AreThree, AreFour};
ghost use Rattle.program_text.specs.Words as words;
ghost use Rattle.program_text.specs.Words.{texts};

use crate::reader::name::read_name;
use crate::reader::number::read_number;
use crate::reader::operand::{read_operand, read_place};
use crate::words::{Name, Number, SpelledOperand, SpelledPlace};
use program_code::{Operator, Relation, read_operator, read_relation};

/// What one word may be.
pub(crate) trait LinePart<'t>: Drop + Sized {
    ghost says: { List ℕ → Self → Type 0 };

    /// What the word is.
    fn read(word: &'t str) -> Option<Self>
        ensures { ReadsAs (says word.now) result };
}

impl<'t> LinePart<'t> for Name<'t> {
    ghost says = { words.IsName };

    fn read(word: &'t str) -> Option<Self> {
        read_name(word)
    }
}

impl<'t> LinePart<'t> for Number {
    ghost says = { words.IsNumberWord };

    fn read(word: &'t str) -> Option<Self> {
        read_number(word)
    }
}

impl<'t> LinePart<'t> for SpelledOperand<'t> {
    ghost says = { words.IsOperand };

    fn read(word: &'t str) -> Option<Self> {
        read_operand(word)
    }
}

impl<'t> LinePart<'t> for SpelledPlace<'t> {
    ghost says = { words.IsPlace };

    fn read(word: &'t str) -> Option<Self> {
        read_place(word)
    }
}

impl<'t> LinePart<'t> for Relation {
    ghost says = { signs.IsRelation };

    fn read(word: &'t str) -> Option<Self> {
        read_relation(word)
    }
}

impl<'t> LinePart<'t> for Operator {
    ghost says = { signs.IsOperator };

    fn read(word: &'t str) -> Option<Self> {
        read_operator(word)
    }
}

/// What one word is.
pub(crate) fn one<'t, A: LinePart<'t>>(words: &[&'t str]) -> Option<A>
    ensures { ReadsAs (AreOne A.says (texts words.now)) result }
{
    if words.len() != 1 {
        return None;
    }
    A::read(words[0])
}

/// What two words are.
pub(crate) fn two<'t, A: LinePart<'t>, B: LinePart<'t>>(words: &[&'t str]) -> Option<(A, B)>
    ensures { ReadsAs (AreTwo A.says B.says (texts words.now)) result }
{
    if words.len() != 2 {
        return None;
    }
    let Some(first) = A::read(words[0]) else {
        return None;
    };
    let Some(second) = B::read(words[1]) else {
        return None;
    };
    Some((first, second))
}

/// What three words are.
pub(crate) fn three<'t, A: LinePart<'t>, B: LinePart<'t>, C: LinePart<'t>>(
    words: &[&'t str],
) -> Option<(A, B, C)>
    ensures { ReadsAs (AreThree A.says B.says C.says (texts words.now)) result }
{
    if words.len() != 3 {
        return None;
    }
    let Some(first) = A::read(words[0]) else {
        return None;
    };
    let Some(second) = B::read(words[1]) else {
        return None;
    };
    let Some(third) = C::read(words[2]) else {
        return None;
    };
    Some((first, second, third))
}

/// What four words are.
pub(crate) fn four<'t, A: LinePart<'t>, B: LinePart<'t>, C: LinePart<'t>, D: LinePart<'t>>(
    words: &[&'t str],
) -> Option<(A, B, C, D)>
    ensures { ReadsAs (AreFour A.says B.says C.says D.says (texts words.now)) result }
{
    if words.len() != 4 {
        return None;
    }
    let Some(first) = A::read(words[0]) else {
        return None;
    };
    let Some(second) = B::read(words[1]) else {
        return None;
    };
    let Some(third) = C::read(words[2]) else {
        return None;
    };
    let Some(fourth) = D::read(words[3]) else {
        return None;
    };
    Some((first, second, third, fourth))
}
