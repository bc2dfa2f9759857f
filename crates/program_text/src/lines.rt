//! What a line says, its names still as the text has them.

use crate::words::{Name, Number, SpelledOperand, SpelledPlace};
use program_code::{Operator, Relation};
use step_table::Items;

/// How many units a release adds, and whether it hands its unit over.
#[derive(Drop)]
pub enum SpelledShare<'t> {
    /// One unit is released.
    One,
    /// One unit is released and handed to a sleeper.
    Handoff,
    /// So many units are released.
    Many(SpelledOperand<'t>),
}

/// A line.
#[derive(Drop)]
pub enum SpelledLine<'t> {
    /// It says nothing.
    Blank,
    /// The name stands for the number.
    Const(Name<'t>, Number),
    /// A word or an array of words, and what it starts at.
    Word(SpelledPlace<'t>, SpelledOperand<'t>),
    /// A counter or an array of counters, and what it starts at.
    Counter(SpelledPlace<'t>, SpelledOperand<'t>),
    /// A notify list.
    List(Name<'t>),
    /// Registers.
    Registers(Items<Name<'t>>),
    /// A section.
    Section(Name<'t>),
    /// The lines of a program follow.
    Program(Name<'t>),
    /// So many seats run the program.
    Seats(Number, Name<'t>),
    /// At most so many seats are in the section.
    Most(Name<'t>, Number),
    /// No seats are in both sections.
    Apart(Name<'t>, Name<'t>),
    /// While a seat asks for the section, others come into it at most so many times.
    Passed(Name<'t>, Number),
    /// So it is where each seat has ended.
    Finally(SpelledPlace<'t>, Relation, SpelledOperand<'t>),
    /// The register is the word.
    Load(SpelledPlace<'t>, Name<'t>),
    /// The word becomes the operand.
    Store(SpelledPlace<'t>, SpelledOperand<'t>),
    /// The word becomes the operand, and the register what the word was.
    Swap(SpelledPlace<'t>, SpelledOperand<'t>, Option<Name<'t>>),
    /// The operand is added to the word, and the register is what the word was.
    Add(SpelledPlace<'t>, SpelledOperand<'t>, Option<Name<'t>>),
    /// The word, if it is the first operand, becomes the second, and the register is what the word was.
    Exchange(SpelledPlace<'t>, SpelledOperand<'t>, SpelledOperand<'t>, Option<Name<'t>>),
    /// The seat waits until this holds, and the register is the word.
    Await(SpelledPlace<'t>, Relation, SpelledOperand<'t>, Option<Name<'t>>),
    /// A unit of the counter is acquired; with `true` the seat waits in front.
    Acquire(SpelledPlace<'t>, bool),
    /// Units of the counter are released.
    Release(SpelledPlace<'t>, SpelledShare<'t>),
    /// A ticket of the list is taken.
    Ticket(Name<'t>),
    /// The seat waits for its ticket to be called.
    Wait(Name<'t>),
    /// The next ticket is called.
    One(Name<'t>),
    /// All tickets are called.
    All(Name<'t>),
    /// The seat sleeps if the word is the operand.
    Park(SpelledPlace<'t>, SpelledOperand<'t>),
    /// So many of those that sleep on the word are woken.
    Unpark(SpelledPlace<'t>, SpelledOperand<'t>),
    /// The seat leaves the section.
    Out(Name<'t>),
    /// The register becomes the operand.
    Let(Name<'t>, SpelledOperand<'t>),
    /// The register becomes what the operator makes of the operands.
    Compute(Name<'t>, SpelledOperand<'t>, Operator, SpelledOperand<'t>),
    /// A jump to the label, if this holds.
    If(SpelledOperand<'t>, Relation, SpelledOperand<'t>, Name<'t>),
    /// A jump to the label.
    Goto(Name<'t>),
    /// A label.
    Label(Name<'t>),
    /// The seat enters the section.
    In(Name<'t>),
    /// The seat asks for the section, until it enters it.
    Ask(Name<'t>),
    /// The seat fails unless this holds.
    Assert(SpelledOperand<'t>, Relation, SpelledOperand<'t>),
    /// The seat fails.
    Fail,
    /// The program's lines stand here.
    Do(Name<'t>),
    /// To the end of the program's lines.
    Return,
}
