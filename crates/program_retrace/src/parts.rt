//! What a world shows: its words, counters, lists, and who sleeps, each with a name, and as text.

use crate::changes::{changed_at, set_apart};
use crate::members::{counter_at, list_at};
use crate::names::names_of_cells;
use crate::spelling::spell_queue;
use program::DeclaredNames;
use program_machine::ProgramMachine;
use std::alloc::{AllocError, Global};
use step_core::NoMemory;

/// What of a world is shown.
#[derive(Clone, Copy, PartialEq, Eq, Drop)]
pub(crate) enum WorldPart {
    /// The word of this number.
    Word(usize),
    /// The counter of this number, with its waits.
    Counter(usize),
    /// How many tickets of this list were handed out and are granted, and its waits.
    List(usize),
    /// Who sleeps on words.
    Sleepers,
}

/// A part of a program's worlds, and its name.
#[derive(Drop)]
pub(crate) struct NamedPart {
    pub shown: WorldPart,
    pub name: String,
}

/// The parts of a program's worlds, in the order in which they are told: words come first.
pub(crate) fn parts_of(
    alloc: Global,
    names: &DeclaredNames<'_>,
) -> Result<Vec<NamedPart>, AllocError> {
    let mut parts = Vec::new(alloc);
    let words = names_of_cells(alloc, names.words.as_slice())?;
    for (word, name) in words.into_iter().enumerate() {
        let shown = WorldPart::Word(word);
        parts.push(NamedPart { shown, name })?;
    }
    let counters = names_of_cells(alloc, names.counters.as_slice())?;
    for (counter, name) in counters.into_iter().enumerate() {
        let shown = WorldPart::Counter(counter);
        parts.push(NamedPart { shown, name })?;
    }
    for (list, name) in names.lists.as_slice().iter().enumerate() {
        let name = name.as_str().to_string(alloc)?;
        let shown = WorldPart::List(list);
        parts.push(NamedPart { shown, name })?;
    }
    parts.push(NamedPart {
        shown: WorldPart::Sleepers,
        name: "parked".to_string(alloc)?,
    })?;
    Ok(parts)
}

/// The name of the word of this number.
fn word_name(parts: &[NamedPart], word: usize) -> &str {
    match parts.get(word) {
        Some(part) => part.name.as_str(),
        None => "-",
    }
}

fn word_text(
    alloc: Global,
    machine: &ProgramMachine<'_>,
    word: usize,
) -> Result<String, AllocError> {
    let mut text = String::new(alloc);
    if word < machine.words() {
        let number = machine.number(word);
        write!(text, "{number}")?;
    }
    Ok(text)
}

fn counter_text(
    alloc: Global,
    machine: &ProgramMachine<'_>,
    counter: usize,
) -> Result<String, NoMemory> {
    let mut text = String::new(alloc);
    if let Some(counter) = counter_at(machine, counter) {
        let number = machine.counter(counter);
        write!(text, "{number}")?;
        spell_queue(&mut text, &machine.waiting(alloc, counter)?)?;
    }
    Ok(text)
}

fn list_text(alloc: Global, machine: &ProgramMachine<'_>, list: usize) -> Result<String, NoMemory> {
    let mut text = String::new(alloc);
    if let Some(list) = list_at(machine, list) {
        let handed_out = machine.handed_out(list);
        let granted = machine.granted(list);
        write!(text, "{handed_out}/{granted}")?;
        spell_queue(&mut text, &machine.queued(alloc, list)?)?;
    }
    Ok(text)
}

/// Who sleeps, in order, each with the word on which it does, or a hyphen.
fn sleepers_text(
    alloc: Global,
    machine: &ProgramMachine<'_>,
    parts: &[NamedPart],
) -> Result<String, AllocError> {
    let mut text = String::new(alloc);
    for sleeper in machine.sleepers() {
        if !text.is_empty() {
            text.push(' ')?;
        }
        let seat = sleeper.seat;
        let name = word_name(parts, sleeper.word);
        write!(text, "{seat}@{name}")?;
    }
    if text.is_empty() {
        text.push('-')?;
    }
    Ok(text)
}

/// What the world has of a part.
fn cell_of(
    alloc: Global,
    machine: &ProgramMachine<'_>,
    parts: &[NamedPart],
    shown: WorldPart,
) -> Result<String, NoMemory> {
    match shown {
        WorldPart::Word(word) => Ok(word_text(alloc, machine, word)?),
        WorldPart::Counter(counter) => counter_text(alloc, machine, counter),
        WorldPart::List(list) => list_text(alloc, machine, list),
        WorldPart::Sleepers => Ok(sleepers_text(alloc, machine, parts)?),
    }
}

/// What the world has of each part.
pub(crate) fn cells_of(
    alloc: Global,
    machine: &ProgramMachine<'_>,
    parts: &[NamedPart],
) -> Result<Vec<String>, NoMemory> {
    let mut cells = Vec::new(alloc);
    for part in parts {
        let cell = cell_of(alloc, machine, parts, part.shown)?;
        cells.reserve(1)?;
        cells.push_reserved(cell);
    }
    Ok(cells)
}

/// Writes the parts that are other than before, as they are now.
pub(crate) fn spell_changed_parts(
    text: &mut String,
    parts: &[NamedPart],
    before: &[String],
    after: &[String],
) -> Result<(), AllocError> {
    for (place, part) in parts.iter().enumerate() {
        if let Some(is) = changed_at(before, after, place) {
            spell_part(text, part.name.as_str(), is)?;
        }
    }
    Ok(())
}

/// Writes a part behind those that stand there.
fn spell_part(text: &mut String, name: &str, cell: &str) -> Result<(), AllocError> {
    set_apart(text)?;
    write!(text, "{name} {cell}")
}

/// All parts; of who sleeps nothing, where nobody does.
pub(crate) fn all_parts(
    alloc: Global,
    machine: &ProgramMachine<'_>,
    parts: &[NamedPart],
) -> Result<String, NoMemory> {
    let mut text = String::new(alloc);
    for part in parts {
        if part.shown != WorldPart::Sleepers || !machine.sleepers().is_empty() {
            let cell = cell_of(alloc, machine, parts, part.shown)?;
            spell_part(&mut text, part.name.as_str(), cell.as_str())?;
        }
    }
    Ok(text)
}
