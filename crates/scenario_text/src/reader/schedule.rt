//! The text of a schedule.

ghost use Rattle.std.specs.Prelude.{◌≡◌, ◌<◌, IfOk};
ghost use Rattle.std.specs.Option.{option_map};
ghost use Rattle.scenario_text.specs.Phrases.{ReadsAs, IsNumber};
ghost use Rattle.scenario_text.specs.ScheduleText.{IsSchedule, SpellsSeats};

use crate::reader::number::number;
use std::alloc::{AllocError, Global};
use waiters::SeatId;

/// The most steps of a schedule.
const MAX_STEPS: usize = 256;
/// How many digits a seat's number has at most.
const SEAT_DIGITS: usize = 2;

/// The seat whose number the text spells in one or two digits.
fn read_seat(text: &str) -> Option<SeatId>
    ensures { ReadsAs (IsNumber 2 text.now) result }
{
    let seat = number(text, SEAT_DIGITS)?;
    Some(SeatId::new(seat as u16))
}

/// The seats of a schedule's text, in order and however many, or that it is no schedule.
pub fn read_seats(alloc: Global, text: &str) -> Result<Option<Vec<SeatId>>, AllocError>
    ensures { IfOk result (λ o. ReadsAs (SpellsSeats text.now) (option_map (λ v. v.items) o)) }
{
    let mut seats = Vec::new(alloc);
    if text.is_empty() {
        return Ok(Some(seats));
    }
    let mut rest = text;
    while let Some((first, others)) = rest.split_once(' ') {
        let Some(seat) = read_seat(first) else {
            return Ok(None);
        };
        seats.push(seat)?;
        rest = others;
    }
    let Some(last) = read_seat(rest) else {
        return Ok(None);
    };
    seats.push(last)?;
    Ok(Some(seats))
}

/// The same of a schedule of 256 steps at most.
pub fn read_schedule(alloc: Global, text: &str) -> Result<Option<Vec<SeatId>>, AllocError>
    ensures { IfOk result (λ o. ReadsAs (IsSchedule text.now) (option_map (λ v. v.items) o)) }
{
    let Some(seats) = read_seats(alloc, text)? else {
        return Ok(None);
    };
    if seats.len() > MAX_STEPS {
        return Ok(None);
    }
    Ok(Some(seats))
}
