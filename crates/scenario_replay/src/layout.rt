//! The table as text: a line of heads, then a line for each step, in columns two spaces apart.

use crate::columns::Shown;
use crate::line::StepLine;
use crate::seat_cell::seat_cell;
use crate::table::ReplayTable;
use std::alloc::{AllocError, Global};
use step_core::{CounterId, GroupId, ListId, ListWord, NoMemory, Scenario, SeatId, Word};

/// A column: its head, and its cell in each line.
#[derive(Drop)]
struct Column {
    head: String,
    cells: Vec<String>,
}

impl Column {
    /// A column of no steps yet.
    fn new(alloc: Global, head: String) -> Column {
        Column {
            head,
            cells: Vec::new(alloc),
        }
    }

    /// Whether a cell isn't the first.
    fn changes(&self, first: &str) -> bool {
        for cell in &self.cells {
            if cell.as_str() != first {
                return true;
            }
        }
        false
    }

    /// The length of its longest text.
    fn width(&self) -> usize {
        let mut width = self.head.len();
        for cell in &self.cells {
            width = width.max(cell.len());
        }
        width
    }
}

/// A line under way: its text, and how many spaces come before the next cell that isn't empty.
#[derive(Drop)]
struct Row<'t> {
    text: &'t mut String,
    spaces: usize,
}

impl<'t> Row<'t> {
    /// Writes a cell of a column that is so wide.
    fn write(&mut self, cell: &str, width: usize) -> Result<(), AllocError> {
        if !cell.is_empty() {
            for _ in 0..self.spaces {
                self.text.push(' ')?;
            }
            self.spaces = 0;
            self.text.push_str(cell)?;
        }
        let left = width.saturating_sub(cell.len()).saturating_add(2);
        self.spaces = self.spaces.saturating_add(left);
        Ok(())
    }
}

/// Writes the line of the heads.
fn write_heads(text: &mut String, columns: &[Column]) -> Result<(), AllocError> {
    let mut row = Row { text, spaces: 0 };
    for column in columns {
        row.write(&column.head, column.width())?;
    }
    row.text.push('\n')
}

/// Writes the line of this step.
fn write_cells(text: &mut String, columns: &[Column], at: usize) -> Result<(), AllocError> {
    let mut row = Row { text, spaces: 0 };
    for column in columns {
        let cell = match column.cells.as_slice().get(at) {
            Some(cell) => cell.as_str(),
            None => "",
        };
        row.write(cell, column.width())?;
    }
    row.text.push('\n')
}

/// Adds the numbers of so many steps.
fn add_numbers(alloc: Global, cells: &mut Vec<String>, steps: usize) -> Result<(), AllocError> {
    for at in 0..steps {
        cells.reserve(1)?;
        cells.push_reserved(format!(in alloc; "{at}")?);
    }
    Ok(())
}

fn numbers_column(alloc: Global, table: &ReplayTable<'_>) -> Result<Column, AllocError> {
    let mut column = Column::new(alloc, format!(in alloc; "step")?);
    add_numbers(alloc, &mut column.cells, table.lines.len())?;
    Ok(column)
}

/// What the line has in the column of a seat: nothing, where another steps.
fn cell_at(alloc: Global, line: &StepLine<'_>, seat: SeatId) -> Result<String, AllocError> {
    if line.seat == seat {
        return seat_cell(alloc, line);
    }
    Ok(String::new(alloc))
}

/// Adds what the lines have in the column of a seat.
fn add_steps(
    alloc: Global,
    cells: &mut Vec<String>,
    lines: &[StepLine<'_>],
    seat: SeatId,
) -> Result<(), AllocError> {
    for line in lines {
        cells.reserve(1)?;
        cells.push_reserved(cell_at(alloc, line, seat)?);
    }
    Ok(())
}

fn seat_column(alloc: Global, table: &ReplayTable<'_>, seat: SeatId) -> Result<Column, AllocError> {
    let mut column = Column::new(alloc, format!(in alloc; "seat {seat}")?);
    add_steps(alloc, &mut column.cells, &table.lines, seat)?;
    Ok(column)
}

/// Adds what a column of words has behind each step.
fn add_cells(
    alloc: Global,
    cells: &mut Vec<String>,
    lines: &[StepLine<'_>],
    shown: &Shown,
) -> Result<(), NoMemory> {
    for line in lines {
        cells.reserve(1)?;
        cells.push_reserved(shown.cell(alloc, &line.after)?);
    }
    Ok(())
}

/// The column of a word.
fn word_column(alloc: Global, table: &ReplayTable<'_>, shown: &Shown) -> Result<Column, NoMemory> {
    let mut column = Column::new(alloc, shown.head(alloc)?);
    add_cells(alloc, &mut column.cells, &table.lines, shown)?;
    Ok(column)
}

/// Adds the column of a word, if it is always shown, or isn't the same from the start on.
fn add_word(
    alloc: Global,
    table: &ReplayTable<'_>,
    columns: &mut Vec<Column>,
    shown: &Shown,
) -> Result<(), NoMemory> {
    columns.reserve(1)?;
    let first = shown.cell(alloc, &table.start)?;
    let column = word_column(alloc, table, shown)?;
    if shown.is_always_shown(table.start.scenario()) || column.changes(&first) {
        columns.push_reserved(column);
    }
    Ok(())
}

/// Where a counter is the first of its root: the words of a root are named for it.
fn is_first_of_root(scenario: &Scenario, counter: CounterId) -> bool {
    let number = counter.number() as usize;
    scenario.counters() <= number || number < scenario.parts().roots as usize
}

/// The words of counters, of their roots, and their waits, for each kind in turn.
fn add_counters(
    alloc: Global,
    table: &ReplayTable<'_>,
    columns: &mut Vec<Column>,
) -> Result<(), NoMemory> {
    let scenario = table.start.scenario();
    let counters = scenario.parts().starts.len() as u32 + scenario.parts().groups;
    for c in 0..counters {
        let shown = Shown::Number(Word::Counter(CounterId::new(c)));
        add_word(alloc, table, columns, &shown)?;
    }
    for c in 0..counters {
        if is_first_of_root(scenario, CounterId::new(c)) {
            let shown = Shown::Number(Word::Lock(CounterId::new(c)));
            add_word(alloc, table, columns, &shown)?;
        }
    }
    for c in 0..counters {
        if is_first_of_root(scenario, CounterId::new(c)) {
            let shown = Shown::Number(Word::Waiters(CounterId::new(c)));
            add_word(alloc, table, columns, &shown)?;
        }
    }
    for c in 0..counters {
        let shown = Shown::Waits(CounterId::new(c));
        add_word(alloc, table, columns, &shown)?;
    }
    Ok(())
}

fn add_grants(
    alloc: Global,
    table: &ReplayTable<'_>,
    columns: &mut Vec<Column>,
    seats: u16,
) -> Result<(), NoMemory> {
    for s in 0..seats {
        let shown = Shown::Number(Word::Grant(SeatId::new(s)));
        add_word(alloc, table, columns, &shown)?;
    }
    Ok(())
}

fn add_list(
    alloc: Global,
    table: &ReplayTable<'_>,
    columns: &mut Vec<Column>,
    list: ListId,
    seats: u16,
) -> Result<(), NoMemory> {
    for word in [ListWord::Wait, ListWord::Notify, ListWord::Lock] {
        add_word(alloc, table, columns, &Shown::OnList(list, word))?;
    }
    add_word(alloc, table, columns, &Shown::Queue(list))?;
    for s in 0..seats {
        let shown = Shown::Ticket(list, SeatId::new(s));
        add_word(alloc, table, columns, &shown)?;
    }
    for s in 0..seats {
        let shown = Shown::OnList(list, ListWord::Grant(SeatId::new(s)));
        add_word(alloc, table, columns, &shown)?;
    }
    Ok(())
}

/// The columns of steps and seats.
fn seat_columns(
    alloc: Global,
    table: &ReplayTable<'_>,
    seats: u16,
) -> Result<Vec<Column>, NoMemory> {
    let mut columns = Vec::new(alloc);
    columns.reserve(1)?;
    columns.push_reserved(numbers_column(alloc, table)?);
    for seat in 0..seats {
        columns.reserve(1)?;
        columns.push_reserved(seat_column(alloc, table, SeatId::new(seat))?);
    }
    Ok(columns)
}

/// Adds the columns of words that are needed.
fn add_words(
    alloc: Global,
    table: &ReplayTable<'_>,
    columns: &mut Vec<Column>,
    seats: u16,
) -> Result<(), NoMemory> {
    let parts = table.start.scenario().parts();
    add_counters(alloc, table, columns)?;
    add_grants(alloc, table, columns, seats)?;
    for l in 0..parts.firsts.len() as u32 {
        add_list(alloc, table, columns, ListId::new(l), seats)?;
    }
    for g in 0..parts.groups {
        add_word(alloc, table, columns, &Shown::Group(GroupId::new(g)))?;
    }
    Ok(())
}

fn columns(alloc: Global, table: &ReplayTable<'_>) -> Result<Vec<Column>, NoMemory> {
    let seats = table.start.scenario().parts().calls.len() as u16;
    let mut columns = seat_columns(alloc, table, seats)?;
    add_words(alloc, table, &mut columns, seats)?;
    Ok(columns)
}

/// Writes the line of the heads, and those of so many steps.
fn write_lines(text: &mut String, columns: &[Column], steps: usize) -> Result<(), AllocError> {
    write_heads(text, columns)?;
    for at in 0..steps {
        write_cells(text, columns, at)?;
    }
    Ok(())
}

/// The table as text: a column for each seat, then one for each counter and each group, and for each other
/// word that isn't the same from the start on.
pub fn table_text(alloc: Global, table: &ReplayTable<'_>) -> Result<String, NoMemory> {
    let columns = columns(alloc, table)?;
    let mut text = String::new(alloc);
    write_lines(&mut text, &columns, table.lines.len())?;
    Ok(text)
}
