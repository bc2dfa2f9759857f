//! What a line means behind those before it.

use crate::statement::Statement;
use program_code::ProgramProperty;
use program_text::Name;
use step_table::Items;

/// What a line means: the names that it declares are still names, and those that it uses are numbers.
#[derive(Drop)]
pub(crate) enum Meant<'t> {
    /// Nothing.
    Nothing,
    /// A constant.
    Constant(Name<'t>, i64),
    /// A word or so many, and what they start at.
    Words(Name<'t>, Option<usize>, i64),
    /// A counter or so many, and what they start at.
    Counters(Name<'t>, Option<usize>, u32),
    /// A notify list.
    List(Name<'t>),
    /// Registers.
    Registers(Items<Name<'t>>),
    /// A section.
    Section(Name<'t>),
    /// The lines of a program follow.
    Program(Name<'t>),
    /// So many seats run the program of this number.
    Seats(usize, usize),
    /// What must hold.
    Property(ProgramProperty),
    /// A line of a program.
    Statement(Statement<'t>),
}
