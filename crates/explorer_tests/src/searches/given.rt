//! What all tests here call.

ghost use Rattle.std.specs.Prelude.{◌≡◌, OnOk};

use search::Found;
use waiters::{NoMemory, SeatId};

/// Whether a schedule is of the seats of these numbers, in this order.
pub(crate) fn goes_by(schedule: &[SeatId], seats: &[u16]) -> bool {
    schedule
        .iter()
        .map(|seat| seat.number())
        .eq(seats.iter().copied())
}

/// Whether this schedule was found, and a world that is bad in this way.
pub(crate) fn is_bad(found: &Found<u64>, seats: &[u16], bad: u64) -> bool {
    match found {
        Found::Bad { schedule, kind } => *kind == bad && goes_by(schedule.as_slice(), seats),
        _ => false,
    }
}

/// Whether no bad world was found.
pub(crate) fn is_none(found: &Found<u64>) -> bool {
    match found {
        Found::None => true,
        _ => false,
    }
}

/// Writes these words in place of what is there.
pub(crate) fn write_over(into: &mut Vec<u64>, words: &[u64]) -> Result<(), NoMemory>
    ensures { OnOk result (into.new.items ≡ words.now) }
{
    into.clear();
    into.extend_from_slice(words)?;
    Ok(())
}
