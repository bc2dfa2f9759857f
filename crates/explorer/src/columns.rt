//! Tables within so many columns of characters: from the first that doesn't fit on they are left out.

ghost use Rattle.std.specs.Prelude.{◌≡◌, ◌≢◌, ◌<◌, ◌≤◌, ◌⊎◌, ◌++◌, ◌∷◌, [], List, ℕ, length, take, max};
ghost use Rattle.std.specs.Prelude.{IfOk, IfSome, IsTrue, position, ◌==◌};
ghost use Rattle.std.specs.List.{AllByRecursion};
ghost use Rattle.explorer.specs.Columns.{may_be_row, IsFitted};

use std::alloc::{AllocError, Global};

/// How wide a table's first column is, which always stays.
const FIRST: usize = 4;

/// A text as it is told, and lines that tell what is left out of it.
#[derive(Drop)]
pub(crate) struct Fitted {
    /// The text, with its tables cut.
    pub(crate) text: Vec<u8>,
    /// A line for each table that is cut.
    pub(crate) without: Vec<u8>,
}

/// Where the first line feed stands.
fn line_feed(text: &[u8]) -> Option<usize>
    ensures at { result ≡ position (λ byte. byte == 10) text.now }
    ensures within { IfSome result (λ end. end < length text.now) }
{
    text.iter().position(|byte| *byte == b'\n')
}

/// The first line, what ends it, and what stands behind.
fn first_line(text: &[u8]) -> (&[u8], &[u8], &[u8])
    requires { 0 < length text.now }
    ensures parts { text.now ≡ (result.0.now ++ result.1.now) ++ result.2.now }
    ensures one { AllByRecursion (λ byte. byte ≢ 10) result.0.now }
    ensures ended { (result.1.now ≡ 10 ∷ []) ⊎ (result.1.now ≡ []) }
    ensures shorter { length result.2.now < length text.now }
{
    match line_feed(text) {
        Some(end) => (&text[..end], &text[end..end + 1], &text[end + 1..]),
        None => (text, &[], &[]),
    }
}

/// Whether a line may be the head or a row of a table, by its first character.
fn may_be_row(line: &[u8]) -> bool
    ensures { result ≡ may_be_row line.now }
{
    match line {
        [byte, ..] => *byte == b's' || (b'0' <= *byte && *byte <= b'9'),
        [] => false,
    }
}

/// How many digits stand at the beginning.
fn digits(line: &[u8]) -> usize
    ensures { result ≤ length line.now }
{
    for (place, byte) in line.iter().enumerate() {
        if !byte.is_ascii_digit() {
            return place;
        }
    }
    line.len()
}

/// Whether this is the head of a table.
fn is_head(line: &[u8]) -> bool {
    line.starts_with(b"step  ")
}

/// Whether this is the head or a row of a table.
fn is_row(line: &[u8]) -> bool {
    let number = digits(line);
    is_head(line) || (number > 0 && line[number..].starts_with(b"  "))
}

/// Where the next column begins: at a word behind two spaces.
fn next_column(head: &[u8], column: usize) -> Option<usize>
    ensures { IfSome result (λ next. (column < next) × (2 ≤ next) × (next < length head.now)) }
{
    for place in column.saturating_add(1).max(2)..head.len() {
        if head[place] != b' ' && head[place - 1] == b' ' && head[place - 2] == b' ' {
            return Some(place);
        }
    }
    None
}

/// How wide the table is that this text begins with.
fn width(text: &[u8]) -> usize {
    let mut rest = text;
    let mut widest = 0;
    while !rest.is_empty() {
        let (line, _, behind) = first_line(rest);
        if !is_row(line) {
            return widest;
        }
        widest = line.len().max(widest);
        rest = behind;
    }
    widest
}

/// Where the first column begins that doesn't fit, of the table that this text begins with, below its head.
fn first_left_out(text: &[u8], head: &[u8], most: usize) -> Option<usize>
    ensures { IfSome result (λ column. (2 ≤ column) × (column < length head.now)) }
{
    let mut column = next_column(head, 0)?;
    while let Some(next) = next_column(head, column) {
        if next - 2 > most {
            return Some(column);
        }
        column = next;
    }
    if width(text) > most {
        Some(column)
    } else {
        None
    }
}

/// The line without the spaces at its end.
fn trimmed(line: &[u8]) -> &[u8]
    ensures beginning { (left : List ℕ) × (line.now ≡ result.now ++ left) }
    ensures within { length result.now ≤ length line.now }
{
    let mut end = line.len();
    while end > 0 && line[end - 1] == b' ' {
        end -= 1;
    }
    &line[..end]
}

/// What is told of a line of a table from which the columns are left out that begin there. A line that
/// nothing ends stays.
fn kept<'t>(line: &'t [u8], end: &[u8], column: Option<usize>, most: u16) -> &'t [u8]
    ensures { (left : List ℕ) × (line.now ≡ result.now ++ left)
        × ((left ≡ []) ⊎ ((end.now ≢ []) × IsTrue (may_be_row line.now) × (length result.now ≤ max most 4))) }
{
    let Some(column) = column else {
        return line;
    };
    let at = column.saturating_sub(2).min(usize::from(most).max(FIRST));
    if at < line.len() && !end.is_empty() && may_be_row(line) {
        trimmed(&line[..at])
    } else {
        line
    }
}

/// Tells the columns that are left out, which stand here in the head.
fn tell_left_out(
    alloc: Global,
    told: &mut Vec<u8>,
    columns: &[u8],
    most: u16,
) -> Result<(), AllocError> {
    let begin = format!(in alloc; "parklot: the table is cut at {most} columns, without: ")?;
    told.extend_from_slice(begin.as_bytes())?;
    let mut was_space = false;
    for (place, byte) in columns.iter().enumerate() {
        let is_space = *byte == b' ';
        if is_space && was_space {
            continue;
        }
        let is_gap = is_space && columns[place..].starts_with(b"  ");
        told.push(if is_gap { b',' } else { *byte })?;
        if is_gap {
            told.push(b' ')?;
        }
        was_space = is_space;
    }
    told.push(b'\n')?;
    Ok(())
}

/// Where the columns begin that are left out of the line with which the text begins: a head begins a table,
/// of which that is told, and what is no row ends it.
fn left_out(
    alloc: Global,
    text: &[u8],
    line: &[u8],
    before: Option<usize>,
    most: u16,
    told: &mut Vec<u8>,
) -> Result<Option<usize>, AllocError> {
    if !is_head(line) {
        return Ok(if is_row(line) { before } else { None });
    }
    let column = first_left_out(text, line, usize::from(most));
    if let Some(column) = column {
        tell_left_out(alloc, told, &line[column..], most)?;
    }
    Ok(column)
}

/// The text with its tables cut to so many columns.
///
/// It is an `Err` where memory is short.
pub(crate) fn fit_tables(alloc: Global, text: &[u8], most: u16) -> Result<Fitted, AllocError>
    ensures { IfOk result (λ fitted. IsFitted most text.now fitted.text.items) }
{
    let mut told = Vec::new(alloc);
    let mut without = Vec::new(alloc);
    let mut column = None;
    let mut rest = text;
    while !rest.is_empty() {
        let (line, end, behind) = first_line(rest);
        column = left_out(alloc, rest, line, column, most, &mut without)?;
        told.extend_from_slice(kept(line, end, column, most))?;
        told.extend_from_slice(end)?;
        rest = behind;
    }
    Ok(Fitted {
        text: told,
        without,
    })
}
