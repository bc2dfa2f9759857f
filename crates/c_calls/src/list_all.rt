//! A notification of all.
ghost use Rattle.std.specs.Prelude.{◌≡◌, ◌⊎◌, ◌<◌, ◌^◌, IfOk};
ghost use Rattle.c_calls.specs.Codes.{done, code_of, IsDone};
ghost use Rattle.c_calls.specs.ListCodes.{refused_code};
ghost use Rattle.c_calls.specs.Answers.{Answers, Telling, WritesOnlyWith, WritesSeats};
ghost use Rattle.c_calls.specs.ListAnswers.{NotifiesOrGoesOn, CountsAll, LacksSeats};

use crate::codes::{DONE, NO_SEAT, ROOM};
use crate::list_answers;
use crate::seat_place::ListSeatPlace;
use notify_list::{NotifiedAll, TaskRefused, TaskStage};

/// The code of a notification of all; it is told how many seats were woken.
fn tell_all(answer: Result<NotifiedAll, TaskRefused>, count: &mut u32) -> u32
    requires { IfOk answer (λ all. all.waits < 2 ^ 32) }
    ensures code { result ≡ code_of refused_code done answer }
    ensures told { IfOk answer (CountsAll count.new) }
    ensures kept { WritesOnlyWith IsDone result count.old count.new }
{
    match answer {
        Ok(all) => {
            *count = all.waits as u32;
            DONE
        }
        Err(why) => list_answers::of_refusal(why),
    }
}

impl ListSeatPlace {
    /// Grants all tickets, and tells the numbers of the seats that waited with them.
    pub fn all(&mut self, woken: &mut [u32], count: &mut u32) -> u32
        ensures answer { LacksSeats woken.old self.old.seat result self.new.seat
            ⊎ Answers refused_code done (Telling (CountsAll count.new) (NotifiesOrGoesOn woken.new))
            self.old.seat result self.new.seat }
        ensures kept { WritesSeats result woken.old woken.new count.old count.new }
    {
        let Some(seat) = self.seat.take() else {
            return NO_SEAT;
        };
        // Looked at before anything is done: a seat that was woken and isn't named is never made ready.
        if woken.len() < self.home.seats() as usize {
            self.seat = Some(seat);
            return ROOM;
        }
        // A seat that was busy with it has looked already, and goes on at the lock.
        let (seat, answer) = match seat.stage() {
            TaskStage::OwingAll => self.home.retry_all(seat, woken),
            _ => self.home.all(seat, woken),
        };
        self.seat = Some(seat);
        tell_all(answer, count)
    }
}
