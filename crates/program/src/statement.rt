//! The lines of a program whose labels are still names.

use program_code::{Instruction, Operand, Relation};
use program_text::Name;

/// What a line of a program says.
#[derive(Drop)]
pub enum Statement<'t> {
    /// It is this instruction, wherever it stands.
    Plain(Instruction),
    /// A jump to the label, if this holds.
    If(Operand, Relation, Operand, Name<'t>),
    /// A jump to the label.
    Goto(Name<'t>),
    /// A label.
    Label(Name<'t>),
    /// The lines of the program of this number stand here.
    Do(usize),
    /// To the end of the program's lines.
    Return,
}

/// A line of a program, and where the text has it.
#[derive(Drop)]
pub struct Written<'t> {
    /// The number of its line in the text, from 1 on.
    pub line: usize,
    /// What it says.
    pub statement: Statement<'t>,
}
