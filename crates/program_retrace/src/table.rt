//! Steps drawn as a table: a line of heads, and then a line a step, in columns two spaces apart. A column a
//! seat has what it ran, and one for each part of the world that changes has what it is after the step.

use crate::changes::changed_at;
use crate::members::seat_at;
use crate::names::program_name;
use crate::parts::NamedPart;
use crate::step::Step;
use crate::steps::Steps;
use crate::told_program::ToldProgram;
use program_machine::ProgramMachine;
use std::alloc::{AllocError, Global};
use step_core::SeatId;

/// A column: its head, and then a cell for each step.
#[derive(Drop)]
struct TableColumn {
    cells: Vec<String>,
    /// The length of the longest of them.
    width: usize,
}

impl TableColumn {
    /// A column of its head alone.
    fn new(alloc: Global, head: String) -> Result<TableColumn, AllocError> {
        let width = head.len();
        let mut cells = Vec::new(alloc);
        cells.push(head)?;
        Ok(TableColumn { cells, width })
    }

    fn push(&mut self, cell: String) -> Result<(), AllocError> {
        self.width = self.width.max(cell.len());
        self.cells.push(cell)?;
        Ok(())
    }

    fn cell(&self, line: usize) -> &str {
        match self.cells.as_slice().get(line) {
            Some(cell) => cell.as_str(),
            None => "",
        }
    }
}

fn number_column(alloc: Global, first: usize, many: usize) -> Result<TableColumn, AllocError> {
    let mut column = TableColumn::new(alloc, "step".to_string(alloc)?)?;
    for behind in 0..many {
        let at = first.saturating_add(behind);
        column.push(format!(in alloc; "{at}")?)?;
    }
    Ok(column)
}

fn seat_head(
    alloc: Global,
    told: &ToldProgram<'_>,
    machine: &ProgramMachine<'_>,
    seat: SeatId,
) -> Result<String, AllocError> {
    let name = program_name(machine, told.names, seat);
    format!(in alloc; "seat {seat} {name}")
}

/// What the seat ran in this step, if it was its own.
fn seat_cell(alloc: Global, step: &Step, seat: SeatId) -> Result<String, AllocError> {
    let mut cell = String::new(alloc);
    if step.seat == seat {
        step.spell_own(alloc, &mut cell)?;
    }
    Ok(cell)
}

fn seat_column(
    alloc: Global,
    head: String,
    steps: &[Step],
    seat: SeatId,
) -> Result<TableColumn, AllocError> {
    let mut column = TableColumn::new(alloc, head)?;
    for step in steps {
        column.push(seat_cell(alloc, step, seat)?)?;
    }
    Ok(column)
}

/// Whether the part of this number is ever other than at the start.
fn is_changed(steps: &Steps, number: usize) -> bool {
    for step in &steps.steps {
        if changed_at(&steps.start, &step.after, number).is_some() {
            return true;
        }
    }
    false
}

/// What the world has of the part of this number after the step.
fn part_cell(alloc: Global, step: &Step, number: usize) -> Result<String, AllocError> {
    match step.after.as_slice().get(number) {
        Some(cell) => cell.as_str().to_string(alloc),
        None => Ok(String::new(alloc)),
    }
}

fn part_column(
    alloc: Global,
    part: &NamedPart,
    steps: &[Step],
    number: usize,
) -> Result<TableColumn, AllocError> {
    let mut column = TableColumn::new(alloc, part.name.as_str().to_string(alloc)?)?;
    for step in steps {
        column.push(part_cell(alloc, step, number)?)?;
    }
    Ok(column)
}

/// Adds a column for each seat.
fn add_seats(
    alloc: Global,
    columns: &mut Vec<TableColumn>,
    told: &ToldProgram<'_>,
    machine: &ProgramMachine<'_>,
    steps: &[Step],
) -> Result<(), AllocError> {
    for number in 0..machine.seats() {
        if let Some(seat) = seat_at(machine, number) {
            let head = seat_head(alloc, told, machine, seat)?;
            columns.push(seat_column(alloc, head, steps, seat)?)?;
        }
    }
    Ok(())
}

/// Adds a column for each part of the world that changes.
fn add_parts(
    alloc: Global,
    columns: &mut Vec<TableColumn>,
    told: &ToldProgram<'_>,
    steps: &Steps,
) -> Result<(), AllocError> {
    for (number, part) in told.parts.iter().enumerate() {
        if is_changed(steps, number) {
            columns.push(part_column(alloc, part, &steps.steps, number)?)?;
        }
    }
    Ok(())
}

fn add_columns(
    alloc: Global,
    columns: &mut Vec<TableColumn>,
    told: &ToldProgram<'_>,
    machine: &ProgramMachine<'_>,
    steps: &Steps,
) -> Result<(), AllocError> {
    columns.push(number_column(alloc, steps.first, steps.len())?)?;
    add_seats(alloc, columns, told, machine, &steps.steps)?;
    add_parts(alloc, columns, told, steps)
}

/// Writes a line of the table, without spaces at its end.
fn spell_row(text: &mut String, columns: &[TableColumn], line: usize) -> Result<(), AllocError> {
    let mut spaces: usize = 0;
    for column in columns {
        let cell = column.cell(line);
        if !cell.is_empty() {
            for _ in 0..spaces {
                text.push(' ')?;
            }
            spaces = 0;
            text.push_str(cell)?;
        }
        let left = column.width.saturating_sub(cell.len()).saturating_add(2);
        spaces = spaces.saturating_add(left);
    }
    text.push('\n')
}

/// Writes the heads, and then so many lines.
fn spell_rows(text: &mut String, columns: &[TableColumn], many: usize) -> Result<(), AllocError> {
    spell_row(text, columns, 0)?;
    for line in 0..many {
        spell_row(text, columns, line + 1)?;
    }
    Ok(())
}

/// Draws the steps.
pub(crate) fn draw_steps(
    alloc: Global,
    text: &mut String,
    told: &ToldProgram<'_>,
    machine: &ProgramMachine<'_>,
    steps: &Steps,
) -> Result<(), AllocError> {
    let mut columns = Vec::new(alloc);
    add_columns(alloc, &mut columns, told, machine, steps)?;
    spell_rows(text, &columns, steps.len())
}
