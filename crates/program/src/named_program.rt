//! What a text says.

use crate::names::DeclaredNames;
use program_code::Program;

/// A lock program and the names of its parts.
#[derive(Drop)]
pub struct NamedProgram<'t> {
    /// The names.
    pub names: DeclaredNames<'t>,
    /// The program, in which numbers stand for names.
    pub program: Program,
}
