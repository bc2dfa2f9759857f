//! The names of what is printed: of words and counters, which an array's members share, and of programs.

use program::{Cells, DeclaredNames};
use program_machine::ProgramMachine;
use std::alloc::{AllocError, Global};
use step_core::SeatId;

/// The name of each of these words or counters, a member's with its index.
pub(crate) fn names_of_cells(
    alloc: Global,
    cells: &[Cells<'_>],
) -> Result<Vec<String>, AllocError> {
    let mut names = Vec::new(alloc);
    for one in cells {
        let name = one.name.as_str();
        match one.span.length {
            None => names.push(format!(in alloc; "{name}")?)?,
            Some(length) => {
                for member in 0..length {
                    names.push(format!(in alloc; "{name}[{member}]")?)?;
                }
            }
        }
    }
    Ok(names)
}

/// The name of the program that the seat runs.
pub(crate) fn program_name<'t>(
    machine: &ProgramMachine<'_>,
    names: &DeclaredNames<'t>,
    seat: SeatId,
) -> &'t str {
    match machine
        .program()
        .seats
        .as_slice()
        .get(seat.number() as usize)
    {
        Some(number) => match names.programs.as_slice().get(*number) {
            Some(name) => name.as_str(),
            None => "-",
        },
        None => "-",
    }
}
