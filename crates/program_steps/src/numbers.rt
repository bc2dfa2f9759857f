//! Signed numbers of 64 bits: what operators make of two, and how they are compared.

ghost use Rattle.std.specs.Prelude.{◌≡◌};
ghost use Rattle.program_steps.specs.Numbers.{computed, holds, shift};

use program_code::{Operator, Relation};

/// What the operator makes of the two, modulo 2^64. A shift goes as far as its second number says modulo 64,
/// and one down keeps the sign.
pub fn compute(operator: Operator, first: i64, second: i64) -> i64
    ensures { result ≡ computed operator first second }
{
    match operator {
        Operator::Plus => first.wrapping_add(second),
        Operator::Minus => first.wrapping_sub(second),
        Operator::And => first & second,
        Operator::Or => first | second,
        Operator::ExclusiveOr => first ^ second,
        Operator::ShiftLeft => first.wrapping_shl(distance(second)),
        Operator::ShiftRight => first.wrapping_shr(distance(second)),
    }
}

/// How far a shift by this number goes.
fn distance(number: i64) -> u32
    ensures { result ≡ shift number }
{
    (number.cast_unsigned() % 64) as u32
}

/// Whether the two numbers are so.
pub fn is_so(relation: Relation, first: i64, second: i64) -> bool
    ensures { result ≡ holds relation first second }
{
    match relation {
        Relation::Equal => first == second,
        Relation::Unequal => first != second,
        Relation::Less => first < second,
        Relation::AtMost => first <= second,
        Relation::Greater => first > second,
        Relation::AtLeast => first >= second,
    }
}
