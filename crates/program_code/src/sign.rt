//! The signs of relations and operators.

ghost use Rattle.program_code.specs.Signs.{IsRelationRead, IsOperatorRead};

use crate::operator::Operator;
use crate::relation::Relation;

/// The relation whose sign the word is.
pub fn read_relation(word: &str) -> Option<Relation>
    ensures { IsRelationRead word.now result }
{
    match word {
        "==" => Some(Relation::Equal),
        "!=" => Some(Relation::Unequal),
        "<" => Some(Relation::Less),
        "<=" => Some(Relation::AtMost),
        ">" => Some(Relation::Greater),
        ">=" => Some(Relation::AtLeast),
        _ => None,
    }
}

/// The operator whose sign the word is.
pub fn read_operator(word: &str) -> Option<Operator>
    ensures { IsOperatorRead word.now result }
{
    match word {
        "+" => Some(Operator::Plus),
        "-" => Some(Operator::Minus),
        "&" => Some(Operator::And),
        "|" => Some(Operator::Or),
        "^" => Some(Operator::ExclusiveOr),
        "<<" => Some(Operator::ShiftLeft),
        ">>" => Some(Operator::ShiftRight),
        _ => None,
    }
}
