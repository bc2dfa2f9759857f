//! The lock program of which steps are told.

use crate::parts::{NamedPart, cells_of, parts_of};
use program::DeclaredNames;
use program_machine::ProgramMachine;
use std::alloc::{AllocError, Global};
use step_core::NoMemory;

/// The text of a program, its names, and the parts of its worlds.
#[derive(Drop)]
pub struct ToldProgram<'t> {
    pub(crate) text: &'t [u8],
    pub(crate) names: &'t DeclaredNames<'t>,
    pub(crate) parts: Vec<NamedPart>,
}

impl<'t> ToldProgram<'t> {
    /// The program of this text, whose names these are.
    ///
    /// It is an `Err` where memory is short.
    pub fn new(
        alloc: Global,
        text: &'t [u8],
        names: &'t DeclaredNames<'t>,
    ) -> Result<ToldProgram<'t>, AllocError> {
        let parts = parts_of(alloc, names)?;
        Ok(ToldProgram { text, names, parts })
    }

    /// What the world has of each part.
    pub(crate) fn cells(
        &self,
        alloc: Global,
        machine: &ProgramMachine<'_>,
    ) -> Result<Vec<String>, NoMemory> {
        cells_of(alloc, machine, &self.parts)
    }
}
