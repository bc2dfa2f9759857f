//! The parser of a lock program's whole text: the program that it says, with numbers for its names, or its
//! first fault. [`read_program`] puts the lines of a text together: what each declares, and what each does
//! behind those before it. A machine needs the program alone; who prints what it does needs the names of a
//! [`NamedProgram`] too.
//!
//! [`statement_of`] looks up each name of a line among those that are declared. [`code_of`] puts the lines of
//! a program that is done where it is done, and the number of a line where a label was. Of what is wrong with
//! the parts of a line the least [`ProgramCause`] is told.
#![tactic(auto)]

mod codes;
mod draft;
mod limits;
mod meanings;
mod meant;
mod named_program;
mod names;
mod parts;
mod reader;
mod results;
mod stage;
mod statement;
mod statements;

pub use codes::{code_at, code_of, first_lost, has_label, size_of};
pub use named_program::NamedProgram;
pub use names::{CellSpan, Cells, Constant, DeclaredNames};
pub use parts::{
    count_of, fixed_of, fixed_place, length_of, number_of, passes_of, some_of, start_of,
};
pub use program_text::{ProgramCause, ProgramFault};
pub use reader::read_program;
pub use results::{both, too_if};
pub use statement::{Statement, Written};
pub use statements::statement_of;
