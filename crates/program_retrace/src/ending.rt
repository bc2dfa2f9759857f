//! What is told where a schedule ends: where each seat stands, all words, and whether the world is bad.

ghost use Rattle.std.specs.Prelude.{◌<◌, length};

use crate::failure::spell_failure;
use crate::held::spell_held;
use crate::look::code_line;
use crate::members::seat_at;
use crate::names::program_name;
use crate::parts::all_parts;
use crate::spelling::spell_within;
use crate::told_program::ToldProgram;
use program_code::CodeLine;
use program_machine::ProgramMachine;
use program_steps::Stand;
use std::alloc::{AllocError, Global};
use std::fmt;
use step_core::{NoMemory, Phase, Row, SeatId};

/// How a seat is that has neither ended nor failed.
#[derive(Clone, Copy, Drop)]
enum Posture {
    /// It can step.
    Stands,
    /// It can't, until a word or a lock is another.
    Waits,
    /// It can't, until somebody wakes it.
    Sleeps,
}

impl fmt::Display for Posture {
    fn fmt<W: fmt::Write>(&self, f: &mut fmt::Formatter<W>) -> fmt::Result {
        f.write_str(match self {
            Posture::Stands => "stands",
            Posture::Waits => "waits",
            Posture::Sleeps => "sleeps",
        })
    }
}

fn posture_of(machine: &ProgramMachine<'_>, seat: SeatId) -> Posture
    requires { seat < length machine.now.program.seats }
{
    if machine.enabled(seat) {
        return Posture::Stands;
    }
    match machine.stand(seat) {
        Stand::Asleep(_) => Posture::Sleeps,
        Stand::Within(_) if machine.phase(seat) == Phase::At(Row::P) => Posture::Sleeps,
        _ => Posture::Waits,
    }
}

/// Writes how the seat is, and the line at which it stands, with the `do` lines that led there.
fn spell_stand(
    alloc: Global,
    text: &mut String,
    told: &ToldProgram<'_>,
    machine: &ProgramMachine<'_>,
    seat: SeatId,
    code_line: &CodeLine,
) -> Result<(), AllocError>
    requires { seat < length machine.now.program.seats }
{
    let line = code_line.line;
    if let Stand::FailedAt(_, failure) = machine.stand(seat) {
        write!(text, "failed at line {line}")?;
        spell_within(text, code_line.within.as_slice())?;
        text.push_str(": ")?;
        return spell_failure(alloc, text, told, machine, seat, code_line, failure);
    }
    let posture = posture_of(machine, seat);
    write!(text, "{posture} at line {line}")?;
    spell_within(text, code_line.within.as_slice())
}

/// Tells where the seat is, and what it has of its own.
fn tell_seat(
    alloc: Global,
    text: &mut String,
    told: &ToldProgram<'_>,
    machine: &ProgramMachine<'_>,
    seat: SeatId,
) -> Result<(), AllocError>
    requires { seat < length machine.now.program.seats }
{
    let name = program_name(machine, told.names, seat);
    write!(text, "seat {seat} {name}: ")?;
    match code_line(machine, seat) {
        Some(code_line) => spell_stand(alloc, text, told, machine, seat, code_line)?,
        None => text.push_str("ended")?,
    }
    let mut held = String::new(alloc);
    spell_held(&mut held, machine, told.names, seat)?;
    if !held.is_empty() {
        write!(text, "; {held}")?;
    }
    text.push('\n')
}

fn tell_verdict<K: fmt::Display + Drop>(
    text: &mut String,
    verdict: Option<K>,
) -> Result<(), AllocError> {
    match verdict {
        Some(kind) => writeln!(text, "verdict: {kind}"),
        None => writeln!(text, "verdict: not bad"),
    }
}

/// Tells where each seat is, all words, and how the world is bad, if it is.
///
/// It is an `Err` where memory is short.
pub fn tell_world<K: fmt::Display + Drop>(
    alloc: Global,
    text: &mut String,
    told: &ToldProgram<'_>,
    machine: &ProgramMachine<'_>,
    verdict: Option<K>,
) -> Result<(), NoMemory> {
    for number in 0..machine.seats() {
        if let Some(seat) = seat_at(machine, number) {
            tell_seat(alloc, text, told, machine, seat)?;
        }
    }
    let parts = all_parts(alloc, machine, &told.parts)?;
    text.push_str(parts.as_str())?;
    text.push('\n')?;
    tell_verdict(text, verdict)?;
    Ok(())
}
