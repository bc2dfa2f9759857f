//! Steps told a line each; or the rows of one call, that no other seat's step parts, in one line.

use crate::held::spell_changed_held;
use crate::names::program_name;
use crate::parts::spell_changed_parts;
use crate::step::{Step, spell_changes};
use crate::steps::Steps;
use crate::told_program::ToldProgram;
use crate::words::spell_words;
use program_machine::ProgramMachine;
use std::alloc::{AllocError, Global};

/// Steps that share a line: which of the schedule's the first is, and what the world had before it.
#[derive(Drop)]
struct SharedLine<'s> {
    at: usize,
    before: &'s [String],
    steps: &'s [Step],
}

/// How many of the steps share the first one's line, where the rows of a call do.
fn many_together(steps: &[Step]) -> usize {
    let Some((first, others)) = steps.split_first() else {
        return 0;
    };
    let mut many: usize = 1;
    for step in others {
        if !step.goes_on_from(first) {
            return many;
        }
        many = many.saturating_add(1);
    }
    many
}

/// Writes the numbers of the first step and of the last.
fn spell_numbers(text: &mut String, line: &SharedLine<'_>) -> Result<(), AllocError> {
    let at = line.at;
    write!(text, "{at}")?;
    if 1 < line.steps.len() {
        let last = at.saturating_add(line.steps.len()).saturating_sub(1);
        write!(text, "-{last}")?;
    }
    Ok(())
}

/// Writes the rows that have a name, and what each row found that reads.
fn spell_rows(text: &mut String, steps: &[Step]) -> Result<(), AllocError> {
    let mut lead = ", ";
    for step in steps {
        if let Some(row) = step.seen.look.row {
            write!(text, "{lead}{row}")?;
            lead = " ";
        }
    }
    let mut lead = ": found ";
    for step in steps {
        if let Some(found) = step.seen.look.found {
            write!(text, "{lead}{found}")?;
            lead = " ";
        }
    }
    Ok(())
}

/// Writes what the steps, of which these are the first and the last, have changed in the world and of their seat.
fn spell_changed(
    alloc: Global,
    text: &mut String,
    told: &ToldProgram<'_>,
    before: &[String],
    first: &Step,
    last: &Step,
) -> Result<(), AllocError> {
    let mut changes = String::new(alloc);
    spell_changed_parts(&mut changes, &told.parts, before, &last.after)?;
    spell_changed_held(&mut changes, &first.seen.held, &last.held)?;
    spell_changes(text, changes.as_str())
}

fn tell_line(
    alloc: Global,
    text: &mut String,
    told: &ToldProgram<'_>,
    machine: &ProgramMachine<'_>,
    line: &SharedLine<'_>,
) -> Result<(), AllocError> {
    let (Some(first), Some(last)) = (line.steps.first(), line.steps.last()) else {
        return Ok(());
    };
    spell_numbers(text, line)?;
    let (seat, number) = (first.seat, first.seen.line);
    let name = program_name(machine, told.names, seat);
    let calls = first.seen.calls.as_str();
    write!(text, ": seat {seat} {name}:{number}{calls} ")?;
    spell_words(text, first.seen.words.as_str(), first.seen.index)?;
    spell_rows(text, line.steps)?;
    spell_changed(alloc, text, told, line.before, first, last)?;
    text.push('\n')
}

/// Tells the steps; those of a call share a line where that is asked for.
pub(crate) fn tell_lines(
    alloc: Global,
    text: &mut String,
    told: &ToldProgram<'_>,
    machine: &ProgramMachine<'_>,
    steps: &Steps,
    together: bool,
) -> Result<(), AllocError> {
    let mut at: usize = steps.first;
    let mut before: &[String] = &steps.start;
    let mut rest: &[Step] = &steps.steps;
    for _ in 0..steps.len() {
        let asked = if together { many_together(rest) } else { 1 };
        let (steps, others) = rest.split_at(asked.min(rest.len()));
        tell_line(
            alloc,
            text,
            told,
            machine,
            &SharedLine { at, before, steps },
        )?;
        at = at.saturating_add(steps.len());
        if let Some(last) = steps.last() {
            before = &last.after;
        }
        rest = others;
    }
    Ok(())
}
