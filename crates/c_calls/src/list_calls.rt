//! The calls of a list's seat in its place.
ghost use Rattle.std.specs.Prelude.{◌≡◌, IfOk};
ghost use Rattle.notify_list.specs.Tasks.{AddsByTask, LooksByTask};
ghost use Rattle.notify_list.specs.Tasks.{EntersByTask, PollsByTask, LeavesByTask, NotifiesOneByTask};
ghost use Rattle.notify_list.specs.declared.task_seat.TaskStage.TheVariants.{Resting};
ghost use Rattle.c_calls.specs.Codes.{told, code_of, IsOk, IsOne};
ghost use Rattle.c_calls.specs.ListCodes.{refused_code, entered_code, polled_code, gave_up_code};
ghost use Rattle.c_calls.specs.ListCodes.{one_code, granted_code};
ghost use Rattle.c_calls.specs.Answers.{Answers, Telling, TellsNumber, MayLeave, WritesOnlyWith};
ghost use Rattle.c_calls.specs.ListAnswers.{NamesGranted, IsNumberOf};

use crate::codes::{GRANTED, NO_SEAT, NOBODY, OK, ONE, OTHER_CALL};
use crate::list_answers;
use crate::seat_place::ListSeatPlace;
use notify_list::{Notified, TaskRefused, TaskStage};

/// The code of a ticket that was granted; the number of the seat that waits with it is told.
fn tell_granted(seat: Option<u16>, woken: &mut u32) -> u32
    ensures code { result ≡ granted_code seat }
    ensures told { IsNumberOf woken.new seat }
    ensures kept { WritesOnlyWith IsOne result woken.old woken.new }
{
    match seat {
        Some(seat) => {
            *woken = u32::from(seat);
            ONE
        }
        None => GRANTED,
    }
}

/// The code of a notification of one; the number of the seat that was woken is told.
fn tell_one(answer: Result<Option<Notified>, TaskRefused>, woken: &mut u32) -> u32
    ensures code { result ≡ code_of refused_code one_code answer }
    ensures told { IfOk answer (NamesGranted woken.new) }
    ensures kept { WritesOnlyWith IsOne result woken.old woken.new }
{
    match answer {
        Ok(Some(notified)) => tell_granted(notified.seat, woken),
        Ok(None) => NOBODY,
        Err(why) => list_answers::of_refusal(why),
    }
}

impl ListSeatPlace {
    /// Which seat of its list it is.
    pub fn number(&self, number: &mut u32) -> u32
        ensures told { TellsNumber (λ s. s.seat.number) self.now.seat result number.new }
        ensures kept { WritesOnlyWith IsOk result number.old number.new }
    {
        let Some(seat) = &self.seat else {
            return NO_SEAT;
        };
        *number = u32::from(seat.id().number());
        OK
    }

    /// Whether the seat may be freed: OK, or why not.
    pub fn may_leave(&self) -> u32
        ensures { MayLeave (λ s. s.stage) Resting self.now.seat result }
    {
        let Some(seat) = &self.seat else {
            return NO_SEAT;
        };
        match seat.stage() {
            TaskStage::Resting => OK,
            _ => OTHER_CALL,
        }
    }

    /// Takes the next ticket, which is told.
    pub fn add(&mut self, ticket: &mut u64) -> u32
        ensures answer { Answers refused_code told (Telling (λ word. ticket.new ≡ word) AddsByTask)
            self.old.seat result self.new.seat }
        ensures kept { WritesOnlyWith IsOk result ticket.old ticket.new }
    {
        let Some(seat) = self.seat.take() else {
            return NO_SEAT;
        };
        let (seat, answer) = self.home.add(seat);
        self.seat = Some(seat);
        match answer {
            Ok(taken) => {
                *ticket = taken;
                OK
            }
            Err(why) => list_answers::of_refusal(why),
        }
    }

    /// Waits with the ticket: it was granted before, or the seat's wait is queued.
    pub fn try_wait(&mut self) -> u32
        ensures { Answers refused_code entered_code EntersByTask
            self.old.seat result self.new.seat }
    {
        let Some(seat) = self.seat.take() else {
            return NO_SEAT;
        };
        let (seat, answer) = self.home.try_wait(seat);
        self.seat = Some(seat);
        list_answers::of_wait(answer)
    }

    /// Looks whether the wait of a seat that is parked was granted.
    pub fn poll(&mut self) -> u32
        ensures { Answers refused_code polled_code PollsByTask self.old.seat result self.new.seat }
    {
        let Some(seat) = self.seat.take() else {
            return NO_SEAT;
        };
        let (seat, answer) = self.home.poll(seat);
        self.seat = Some(seat);
        list_answers::of_poll(answer)
    }

    /// Gives up the wait of a seat that is parked, or finds its ticket granted.
    pub fn leave(&mut self) -> u32
        ensures { Answers refused_code gave_up_code LeavesByTask self.old.seat result self.new.seat }
    {
        let Some(seat) = self.seat.take() else {
            return NO_SEAT;
        };
        let (seat, answer) = self.home.leave(seat);
        self.seat = Some(seat);
        list_answers::of_leave(answer)
    }

    /// Grants the least ticket that isn't granted. The seat that waits with it is woken, and its number
    /// told.
    pub fn one(&mut self, woken: &mut u32) -> u32
        ensures answer { Answers refused_code one_code (Telling (NamesGranted woken.new) NotifiesOneByTask)
            self.old.seat result self.new.seat }
        ensures kept { WritesOnlyWith IsOne result woken.old woken.new }
    {
        let Some(seat) = self.seat.take() else {
            return NO_SEAT;
        };
        let (seat, answer) = self.home.one(seat);
        self.seat = Some(seat);
        tell_one(answer, woken)
    }

    /// Looks whether all tickets are granted.
    pub fn quiet(&mut self, quiet: &mut bool) -> u32
        ensures answer { Answers refused_code told (Telling (λ equal. quiet.new ≡ equal) LooksByTask)
            self.old.seat result self.new.seat }
        ensures kept { WritesOnlyWith IsOk result quiet.old quiet.new }
    {
        let Some(seat) = self.seat.take() else {
            return NO_SEAT;
        };
        let (seat, answer) = self.home.quiet(seat);
        self.seat = Some(seat);
        match answer {
            Ok(equal) => {
                *quiet = equal;
                OK
            }
            Err(why) => list_answers::of_refusal(why),
        }
    }
}
