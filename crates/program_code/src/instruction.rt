//! What one line of a program does.

use crate::operand::{CodePlace, Operand, Share};
use crate::operator::Operator;
use crate::relation::Relation;

/// What one line does: registers, lists, sections and the lines that are jumped to are numbers.
#[derive(Clone, Copy, Drop)]
pub enum Instruction {
    /// The register is the word.
    Load(CodePlace, usize),
    /// The word becomes the operand.
    Store(CodePlace, Operand),
    /// The word becomes the operand, and the register what the word was.
    Swap(CodePlace, Operand, Option<usize>),
    /// The operand is added to the word, and the register is what the word was.
    Add(CodePlace, Operand, Option<usize>),
    /// The word, if it is the first operand, becomes the second, and the register is what the word was.
    Exchange(CodePlace, Operand, Operand, Option<usize>),
    /// The seat waits until this holds, and the register is the word.
    Await(CodePlace, Relation, Operand, Option<usize>),
    /// A unit of the counter is acquired; with `true` the seat waits in front.
    Acquire(CodePlace, bool),
    /// Units of the counter are released.
    Release(CodePlace, Share),
    /// A ticket of the list is taken.
    Ticket(usize),
    /// The seat waits for its ticket of the list to be called.
    Wait(usize),
    /// The list's next ticket is called.
    One(usize),
    /// All tickets of the list are called.
    All(usize),
    /// The seat sleeps if the word is the operand.
    Park(CodePlace, Operand),
    /// So many of those that sleep on the word are woken.
    Unpark(CodePlace, Operand),
    /// The seat leaves the section.
    Out(usize),
    /// The register becomes the operand.
    Let(usize, Operand),
    /// The register becomes what the operator makes of the operands.
    Compute(usize, Operand, Operator, Operand),
    /// A jump to the line of this number, if this holds.
    If(Operand, Relation, Operand, usize),
    /// A jump to the line of this number.
    Goto(usize),
    /// The seat enters the section.
    In(usize),
    /// The seat asks for the section, until it enters it.
    Ask(usize),
    /// The seat fails unless this holds.
    Assert(Operand, Relation, Operand),
    /// The seat fails.
    Fail,
}
