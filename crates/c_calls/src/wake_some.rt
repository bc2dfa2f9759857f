//! The rest of a release of many units.
ghost use Rattle.std.specs.Prelude.{◌≡◌, ◌⊎◌, ◌≤◌, length, IfOk};
ghost use Rattle.sema_table.specs.Tasks.{WakesSomeByTask};
ghost use Rattle.c_calls.specs.Codes.{done, code_of, refused_code};
ghost use Rattle.c_calls.specs.Answers.{Answers, Telling, NamesEach, LacksRoom, WritesSeats};

use crate::codes::{DONE, NO_SEAT, ROOM};
use crate::numbers::MOST_WOKEN;
use crate::seat_place::TableSeatPlace;
use crate::{answers, numbers};
use sema_table::{TaskRefused, WokenSeats};

/// The code of a wake of many; the numbers of the seats that were woken are told.
fn tell_some(answer: Result<WokenSeats, TaskRefused>, woken: &mut [u32], count: &mut u32) -> u32
    requires { 256 ≤ length woken.old }
    ensures code { result ≡ code_of refused_code done answer }
    ensures told { IfOk answer (NamesEach woken.new count.new) }
    ensures kept { WritesSeats result woken.old woken.new count.old count.new }
{
    match answer {
        Ok(seats) => {
            numbers::write(seats.as_slice(), woken);
            *count = seats.len() as u32;
            DONE
        }
        Err(why) => answers::of_refusal(why),
    }
}

impl TableSeatPlace {
    /// Takes the first waits out, as many as units were added or fewer if there are no more, and wakes their
    /// seats, whose numbers are told.
    pub fn wake_some(&mut self, woken: &mut [u32], count: &mut u32) -> u32
        ensures answer { LacksRoom woken.old self.old.seat result self.new.seat
            ⊎ Answers refused_code done (Telling (NamesEach woken.new count.new) WakesSomeByTask)
            self.old.seat result self.new.seat }
        ensures kept { WritesSeats result woken.old woken.new count.old count.new }
    {
        // Looked at before anything is done: a seat that was woken and isn't named is never made ready.
        if woken.len() < MOST_WOKEN {
            return ROOM;
        }
        self.wake_some_into(woken, count)
    }

    /// The same, where there is room.
    fn wake_some_into(&mut self, woken: &mut [u32], count: &mut u32) -> u32
        requires { 256 ≤ length woken.old }
        ensures answer { Answers refused_code done
            (Telling (NamesEach woken.new count.new) WakesSomeByTask)
            self.old.seat result self.new.seat }
        ensures kept { WritesSeats result woken.old woken.new count.old count.new }
    {
        let Some(seat) = self.seat.take() else {
            return NO_SEAT;
        };
        let (seat, answer) = self.home.wake_some(seat);
        self.seat = Some(seat);
        tell_some(answer, woken, count)
    }
}
