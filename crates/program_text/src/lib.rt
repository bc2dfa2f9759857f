//! The text of a lock program, line by line: what each line says, and what is wrong with a line that says
//! nothing. [`read_lines`] answers the lines of a text, their names still as they are written, or the first
//! line that is none. [`read_line`] answers what one line says.
//!
//! What a line says is a definition by how lines are printed: which words each line has, and what each word
//! may be. The reader has but the types of it.
#![tactic(auto)]

mod cause;
mod fault;
mod lines;
mod reader;
mod text_reader;
mod words;

pub use cause::ProgramCause;
pub use fault::ProgramFault;
pub use lines::{SpelledLine, SpelledShare};
pub use reader::line::read_line;
pub use text_reader::judge::judge;
pub use text_reader::pieces::first_line;
pub use text_reader::read_lines;
pub use words::{Name, Number, SpelledOperand, SpelledPlace};
