//! A lock program as a machine runs it: numbers stand for names, jumps go to lines, and the lines of other
//! programs stand where they are done. Words, counters, lists, registers and sections are numbered from 0 on,
//! each kind for itself, in the order in which they are declared. An array takes as many numbers as it has
//! members.
//!
//! A [`Relation`] compares two numbers, and an [`Operator`] makes one of two. The program's text and its
//! steps share these types, and the sign of each ([`read_relation`], [`read_operator`]).
#![tactic(auto)]

mod instruction;
mod operand;
mod operator;
mod program;
mod relation;
mod sign;

pub use instruction::Instruction;
pub use operand::{CodePlace, Operand, Share};
pub use operator::Operator;
pub use program::{Asked, CodeLine, Program, ProgramProperty};
pub use relation::Relation;
pub use sign::{read_operator, read_relation};
