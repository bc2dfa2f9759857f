//! A seat whose wait is queued gives up.
ghost use Rattle.std.specs.Prelude.{◌≡◌, MatchResult};
ghost use Rattle.step_table.specs.declared.list_place.Ticket.{Ticket as Queued};
ghost use Rattle.step_law_lists.specs.ListLawful.{Follows};
ghost use Rattle.notify_list.specs.declared.waited.Polled.TheVariants.{Still};
ghost use Rattle.notify_list.specs.Seats.{Token as Before, seat_of};
ghost use Rattle.notify_list.specs.Leaving.{Leaves, LeavesAtLock, StillParked};
ghost use Rattle.notify_list.specs.Callers.{GivesUp, StandsOn};
ghost use Rattle.notify_list.specs.LeavingRows.{MayLeave, HasLocked, SeesLawful, MayForgo, Forwent};
ghost use Rattle.notify_list.specs.LeavingRows.{MayLetGo, LetGo};
ghost use Rattle.notify_list.specs.Meeting.{FindsHeld};
ghost use Rattle.notify_list.specs.Waiting.{IsPolled};

use crate::notify_list::{LOCK, NOTIFY, NotifyList};
use crate::rows::{AtLeave, Token};
use crate::seat::{ListSeat, Parked};
use crate::waited::{GaveUp, Polled};
use running_rows::{Futexes, Here, Kernel};
use std::sync::Wait;
use waiters::SeatId;

impl NotifyList {
    /// Looks once more at the seat's grant word, and where nothing is granted goes to the list's lock and takes
    /// the seat's wait out of the list, wherever it stands there. It may wait for that lock, and for nothing
    /// else.
    pub fn leave<R: Wait>(&self, rt: &R, parked: Parked) -> GaveUp
        requires { parked.list ≡ self.now }
        ensures rows { Leaves parked result }
        ensures caller { GivesUp parked result }
    {
        match self.look_before(parked) {
            Ok(still) => self.leave_at_lock(rt, still),
            Err(gave_up) => gave_up,
        }
    }

    /// The same for a caller that must not wait: where the list's lock stays held, the seat is parked as it was.
    pub fn try_leave(&self, parked: Parked) -> Result<GaveUp, Parked>
        requires { parked.list ≡ self.now }
        ensures rows { MatchResult result (λ gave_up. Leaves parked gave_up)
            (λ still. StillParked parked still) }
        ensures caller { MatchResult result (λ gave_up. GivesUp parked gave_up)
            (λ still. StandsOn parked still) }
    {
        self.try_leave_with::<Futexes>(parked)
    }

    /// The same, where threads sleep, or none does.
    pub(crate) fn try_leave_with<N: Kernel>(&self, parked: Parked) -> Result<GaveUp, Parked>
        requires kernel { N.serves self.now.setting.has_threads }
        requires seat { parked.list ≡ self.now }
        ensures rows { MatchResult result (λ gave_up. Leaves parked gave_up)
            (λ still. StillParked parked still) }
        ensures caller { MatchResult result (λ gave_up. GivesUp parked gave_up)
            (λ still. StandsOn parked still) }
    {
        match self.look_before(parked) {
            Ok(still) => self.try_leave_at_lock::<N>(still),
            Err(gave_up) => Ok(gave_up),
        }
    }

    /// The look before the lock: the seat, if it may give up. Where it finds a grant the wait is over, and there
    /// is nothing to give up.
    fn look_before(&self, parked: Parked) -> Result<Parked, GaveUp>
        requires { parked.list ≡ self.now }
        ensures rows { MatchResult result (λ still. IsPolled parked (Still still) × MayLeave still)
            (λ gave_up. Leaves parked gave_up) }
        ensures caller { MatchResult result (λ still. StandsOn parked still)
            (λ gave_up. GivesUp parked gave_up) }
    {
        match self.poll(parked) {
            Polled::Still(still) => {
                if !still.may_leave {
                    return Err(GaveUp::LimitReached(still));
                }
                Ok(still)
            }
            Polled::Granted(seat) => Err(GaveUp::Granted(seat)),
        }
    }

    /// The rows from E1 on.
    #[inline(never)]
    fn leave_at_lock<R: Wait>(&self, rt: &R, parked: Parked) -> GaveUp
        requires { (parked.list ≡ self.now) × MayLeave parked }
        ensures rows { LeavesAtLock parked result }
        ensures lawful { SeesLawful result }
    {
        let Parked {
            mut token,
            number,
            may_leave: _,
        } = parked;
        self.words
            .take_lock::<AtLeave, R>(rt, &mut token, LOCK, self.sleepers_word());
        self.leave_locked::<Futexes>(token, number)
    }

    /// The same, if the lock is found free.
    #[inline(never)]
    fn try_leave_at_lock<N: Kernel>(&self, parked: Parked) -> Result<GaveUp, Parked>
        requires kernel { N.serves self.now.setting.has_threads }
        requires seat { (parked.list ≡ self.now) × MayLeave parked }
        ensures rows { MatchResult result (λ gave_up. LeavesAtLock parked gave_up)
            (λ still. FindsHeld parked still) }
        ensures lawful { MatchResult result (λ gave_up. SeesLawful gave_up)
            (λ still. Follows still.sight.seen) }
    {
        let Parked {
            mut token,
            number,
            may_leave,
        } = parked;
        if self.words.try_lock::<AtLeave>(&mut token, LOCK) {
            return Ok(self.leave_locked::<N>(token, number));
        }
        Err(Parked {
            token,
            number,
            may_leave,
        })
    }

    /// The rows after E1, up to the one that gives the lock back.
    fn leave_locked<N: Kernel>(&self, token: Token, number: u16) -> GaveUp
        requires kernel { N.serves self.now.setting.has_threads }
        requires seat { (s : Before) × HasLocked self.now s number token }
        ensures rows { (s : Before) → HasLocked self.now s number token
            → LeavesAtLock (seat_of s number) result }
        ensures lawful { SeesLawful result }
    {
        let mut token = token;
        if let Some(ticket) = self.remove_own(&mut token, SeatId::new(number)) {
            self.forgo(&mut token, ticket);
            self.words
                .give_lock::<N>(&mut token, LOCK, self.sleepers_word());
            return GaveUp::Left(ListSeat { token, number });
        }
        // Asleep again, and not at rest: the grant would be stored for the seat's next sleep.
        self.words
            .give_lock::<N>(&mut token, LOCK, self.sleepers_word());
        GaveUp::Coming(Parked {
            token,
            number,
            may_leave: true,
        })
    }

    /// E2 and E3: the ticket, whose wait was taken out, is gone. In one hold of the lock with the next
    /// notification's look, so the notify word never rests on a gone ticket while the lock is free.
    fn forgo(&self, token: &mut Token, ticket: u64)
        requires { (s : Before) × MayForgo self.now s ticket token.old }
        ensures { (s : Before) → MayForgo self.now s ticket token.old → Forwent s ticket token.new }
    {
        let notified = self.words.load::<Here>(token, NOTIFY);
        let next = self.let_go(token, ticket, notified);
        self.words.store::<Here>(token, NOTIFY, next);
    }

    /// The record tells that the ticket is gone: the first that is neither granted nor gone.
    fn let_go(&self, token: &mut Token, ticket: u64, notified: u64) -> u64
        requires { (k : Queued) × MayLetGo self.now token.old k ticket notified }
        ensures { (k : Queued) → MayLetGo self.now token.old k ticket notified
            → LetGo token.old k.number result token.new }
    {
        if ticket == notified {
            return self.pass(token, ticket);
        }
        self.take_ticket(token, ticket);
        notified
    }
}
