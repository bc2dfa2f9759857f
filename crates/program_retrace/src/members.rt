//! Counters, lists and seats of a program, by number.

ghost use Rattle.std.specs.Prelude.{◌<◌, length, IfSome};

use program_machine::ProgramMachine;
use step_core::{CounterId, ListId, SeatId};

/// The counter of this number, if there is one.
pub(crate) fn counter_at(machine: &ProgramMachine<'_>, number: usize) -> Option<CounterId>
    ensures { IfSome result (λ counter. counter < length machine.now.program.counters) }
{
    match u32::try_from(number) {
        Ok(id) if number < machine.program().counters.len() => Some(CounterId::new(id)),
        _ => None,
    }
}

/// The list of this number, if there is one.
pub(crate) fn list_at(machine: &ProgramMachine<'_>, number: usize) -> Option<ListId>
    ensures { IfSome result (λ list. list < machine.now.program.lists) }
{
    match u32::try_from(number) {
        Ok(id) if number < machine.program().lists => Some(ListId::new(id)),
        _ => None,
    }
}

/// The seat of this number, if there is one.
pub(crate) fn seat_at(machine: &ProgramMachine<'_>, number: usize) -> Option<SeatId>
    ensures { IfSome result (λ seat. seat < length machine.now.program.seats) }
{
    match u16::try_from(number) {
        Ok(id) if number < machine.seats() => Some(SeatId::new(id)),
        _ => None,
    }
}
