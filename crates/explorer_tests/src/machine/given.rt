//! What the tests start from: scenarios, which are written as texts, and schedules.
//!
//! What answers want of memory is made once more.

ghost use Rattle.std.specs.Prelude.{◌≡◌};

use scenario_text::{SpelledRequest, read_scenario};
use std::alloc::{AllocError, Global};
use std::process::Abort;
use step_core::{Moment, Scenario};
use waiters::SeatId;

pub(crate) fn seat(number: u16) -> SeatId
    ensures { result ≡ number }
{
    SeatId::new(number)
}

fn request(rt: &impl Abort, alloc: Global, text: &str) -> SpelledRequest {
    match read_scenario(alloc, text.as_bytes()) {
        Ok(request) => request,
        Err(_) => read_scenario(alloc, text.as_bytes()).expect(rt, "a scenario's text"),
    }
}

/// The scenario of this text, which is right.
pub(crate) fn scenario(rt: &impl Abort, alloc: Global, text: &str) -> Scenario {
    Scenario::of(request(rt, alloc, text).parts).expect(rt, "a scenario")
}

fn seats(alloc: Global, schedule: &[u16]) -> Result<Vec<SeatId>, AllocError> {
    let mut seats = Vec::new(alloc);
    for number in schedule {
        seats.push(seat(*number))?;
    }
    Ok(seats)
}

pub(crate) fn seats_again(rt: &impl Abort, alloc: Global, schedule: &[u16]) -> Vec<SeatId> {
    match seats(alloc, schedule) {
        Ok(seats) => seats,
        Err(_) => seats(alloc, schedule).expect(rt, "seats"),
    }
}

/// Each of these seats makes a step.
pub(crate) fn all_step(moment: &mut Moment<'_>, schedule: &[u16]) -> bool {
    for number in schedule {
        if moment.step(seat(*number)).is_err() {
            return false;
        }
    }
    true
}
