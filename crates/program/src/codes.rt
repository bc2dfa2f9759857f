//! The lines of a program, its labels and `do` lines put in.

ghost use Rattle.std.specs.Prelude.{◌≡◌, ◌≤◌, ◌-◌, ◌<◌, ◌^◌, ◌++◌, length, map, IfOk, IfSome, OnOk};
ghost use Rattle.std.specs.List.{All};
ghost use Rattle.program.specs.Codes as coding;
ghost use Rattle.program.specs.Codes.{IsClosed, IsTargetWithin};

use crate::names::is_same;
use crate::statement::{Statement, Written};
use program_code::{CodeLine, Instruction};
use program_text::Name;
use std::alloc::{AllocError, Global};
use step_table::Items;

/// The lines of the program of this number.
pub fn code_at(codes: &[Items<CodeLine>], number: usize) -> &[CodeLine]
    ensures { result.now ≡ coding.code_at codes.now number }
{
    if number < codes.len() {
        codes[number].as_slice()
    } else {
        &[]
    }
}

/// How many lines a statement is.
pub(crate) fn width(codes: &[Items<CodeLine>], statement: &Statement<'_>) -> usize
    ensures { result ≡ coding.width codes.now statement.now }
{
    match statement {
        Statement::Label(_) => 0,
        Statement::Do(number) => code_at(codes, *number).len(),
        _ => 1,
    }
}

/// How many lines these statements are.
pub fn size_of(codes: &[Items<CodeLine>], body: &[Written<'_>]) -> usize
    requires { coding.size_of codes.now body.now < 2 ^ 64 }
    ensures { result ≡ coding.size_of codes.now body.now }
{
    body.iter()
        .map(|written| width(codes, &written.statement))
        .sum()
}

fn is_label(statement: &Statement<'_>, name: &Name<'_>) -> bool
    ensures { result ≡ coding.is_label name.now statement.now }
{
    match statement {
        Statement::Label(label) => is_same(label, name),
        _ => false,
    }
}

/// Whether a label of this name stands among the statements.
pub fn has_label(body: &[Written<'_>], name: &Name<'_>) -> bool
    ensures { result ≡ coding.has_label body.now name.now }
{
    body.iter()
        .any(|written| is_label(&written.statement, name))
}

/// Behind how many statements the label stands.
fn label_at(body: &[Written<'_>], name: &Name<'_>) -> Option<usize>
    ensures at { result ≡ coding.label_at body.now name.now }
    ensures within { IfSome result (λ label. label < length body.now) }
{
    body.iter()
        .position(|written| is_label(&written.statement, name))
}

/// How many lines stand before the label.
fn target_of(codes: &[Items<CodeLine>], body: &[Written<'_>], name: &Name<'_>) -> usize
    requires { coding.size_of codes.now body.now < 2 ^ 64 }
    ensures { result ≡ coding.target_of codes.now body.now name.now }
{
    match label_at(body, name) {
        Some(label) => size_of(codes, &body[..label]),
        None => size_of(codes, body),
    }
}

/// Whether it jumps to no label of its program.
fn is_lost(body: &[Written<'_>], statement: &Statement<'_>) -> bool
    ensures { result ≡ coding.is_lost body.now statement.now }
{
    match statement {
        Statement::If(_, _, _, label) | Statement::Goto(label) => !has_label(body, label),
        _ => false,
    }
}

/// The first line that does.
pub fn first_lost(body: &[Written<'_>]) -> Option<usize>
    ensures { result ≡ coding.first_lost body.now body.now }
{
    for written in body {
        if is_lost(body, &written.statement) {
            return Some(written.line);
        }
    }
    None
}

/// The instruction, where its program's first line stands behind so many.
fn moved(at: usize, instruction: Instruction) -> Instruction
    requires { IsTargetWithin (2 ^ 64 - 1) (coding.moved at instruction) }
    ensures { result ≡ coding.moved at instruction }
{
    match instruction {
        Instruction::If(first, relation, second, target) => {
            Instruction::If(first, relation, second, at + target)
        }
        Instruction::Goto(target) => Instruction::Goto(at + target),
        other => other,
    }
}

/// A line of a program that is done at the line of this number, behind so many lines.
fn put_in(alloc: Global, at: usize, line: usize, done: &CodeLine) -> Result<CodeLine, AllocError>
    requires { IsTargetWithin (2 ^ 64 - 1) (coding.moved at done.now.instruction) }
    ensures { IfOk result (λ c. c ≡ coding.put_in at line done.now) }
{
    let mut within = Vec::new(alloc);
    within.push(line)?;
    within.extend_from_slice(done.within.as_slice())?;
    Ok(CodeLine {
        line: done.line,
        within: Items::new(within),
        instruction: moved(at, done.instruction),
    })
}

/// Puts what a statement is behind the lines.
fn push_lines(
    alloc: Global,
    lines: &mut Vec<CodeLine>,
    codes: &[Items<CodeLine>],
    body: &[Written<'_>],
    written: &Written<'_>,
) -> Result<(), AllocError>
    requires size { coding.size_of codes.now body.now < 2 ^ 64 }
    requires jumps { coding.CanPutIn codes.now (length lines.old.items) written.now.statement }
    ensures { OnOk result (lines.new.items ≡ lines.old.items
        ++ coding.lines_of codes.now body.now (length lines.old.items)
        written.now.line written.now.statement) }
{
    let line = written.line;
    let instruction = match &written.statement {
        Statement::Label(_) => return Ok(()),
        Statement::Do(number) => return push_done(alloc, lines, line, code_at(codes, *number)),
        Statement::Plain(instruction) => *instruction,
        Statement::If(first, relation, second, label) => {
            Instruction::If(*first, *relation, *second, target_of(codes, body, label))
        }
        Statement::Goto(label) => Instruction::Goto(target_of(codes, body, label)),
        Statement::Return => Instruction::Goto(size_of(codes, body)),
    };
    lines.push(CodeLine {
        line,
        within: Items::empty(alloc),
        instruction,
    })?;
    Ok(())
}

/// Puts the lines of a program that is done at this line behind the lines.
fn push_done(
    alloc: Global,
    lines: &mut Vec<CodeLine>,
    line: usize,
    done: &[CodeLine],
) -> Result<(), AllocError>
    requires { coding.CanMove (length lines.old.items) done.now }
    ensures { OnOk result (lines.new.items ≡ lines.old.items
        ++ map (coding.put_in (length lines.old.items) line) done.now) }
{
    let at = lines.len();
    for one in done {
        lines.push(put_in(alloc, at, line, one)?)?;
    }
    Ok(())
}

/// The lines of a program of these statements.
pub fn code_of(
    alloc: Global,
    codes: &[Items<CodeLine>],
    body: &[Written<'_>],
) -> Result<Items<CodeLine>, AllocError>
    requires short { coding.size_of codes.now body.now ≤ 255 }
    requires closed { All IsClosed codes.now }
    ensures { IfOk result (λ code. code ≡ coding.code_of codes.now body.now) }
{
    let mut lines = Vec::new(alloc);
    for written in body {
        push_lines(alloc, &mut lines, codes, body, written)?;
    }
    Ok(Items::new(lines))
}
