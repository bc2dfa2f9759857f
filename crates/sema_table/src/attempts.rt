//! The calls of a caller that has other work: each tries for the root's lock a few times, and where that stays
//! held leaves it at a look that found it so. None waits.
ghost use Rattle.std.specs.Prelude.{◌≡◌, ◌<◌, length, MatchResult};
ghost use Rattle.step_table.specs.declared.place.Place.TheVariants.{Acquiring};
ghost use Rattle.step_table.specs.declared.place.AcquireRow.TheVariants.{A3};
ghost use Rattle.sema_table.specs.Waking.{acquire_of, IsEntered, IsWakened, StillOwes};
ghost use Rattle.sema_table.specs.Many.{IsWokenSeats, StillOwesMany};
ghost use Rattle.sema_table.specs.Tries.{FindsHeld};
ghost use Rattle.sema_table.specs.Leaving.{Leaves, StillParked};
ghost use Rattle.sema_table.specs.CallersLeaving.{GivesUp};
ghost use Rattle.sema_table.specs.Callers.{JoinsQueue, StandsOn};
ghost use Rattle.sema_table.specs.CallersReleasing.{WakesFirst, WakesThese};

use crate::answers::{Entered, GaveUp, Wake};
use crate::many_seat::OwingMany;
use crate::seat::{Owing, Seat, Sleeping};
use crate::sema_table::SemaTable;
use crate::waking_many::WokenSeats;
use running_rows::{Futexes, Kernel};
use step_table::{Acquire, AcquireRow, ParkedRow, Place, Release};
use waiters::CounterId;

impl SemaTable {
    /// As `enter`; where the root's lock stayed held the seat comes back as it stood.
    pub fn try_enter(&self, seat: Seat, counter: CounterId, lifo: bool) -> Result<Entered, Seat>
        requires { (seat.table ≡ self.now) × (counter < length self.now.setting.starts) }
        ensures rows { MatchResult result
            (λ entered. IsEntered seat (acquire_of counter lifo) (Acquiring (acquire_of counter lifo) A3) entered)
            (λ refused. FindsHeld seat counter refused) }
        ensures caller { MatchResult result (λ entered. JoinsQueue seat counter lifo entered)
            (λ refused. StandsOn seat refused) }
    {
        self.try_enter_with::<Futexes>(seat, counter, lifo)
    }

    /// The same, where threads sleep, or none does.
    pub(crate) fn try_enter_with<N: Kernel>(
        &self,
        seat: Seat,
        counter: CounterId,
        lifo: bool,
    ) -> Result<Entered, Seat>
        requires kernel { N.serves self.now.setting.has_threads }
        requires seat { (seat.table ≡ self.now) × (counter < length self.now.setting.starts) }
        ensures rows { MatchResult result
            (λ entered. IsEntered seat (acquire_of counter lifo) (Acquiring (acquire_of counter lifo) A3) entered)
            (λ refused. FindsHeld seat counter refused) }
        ensures caller { MatchResult result (λ entered. JoinsQueue seat counter lifo entered)
            (λ refused. StandsOn seat refused) }
    {
        let Seat { mut token, numbers } = seat;
        let call = Acquire { counter, lifo };
        let place = Place::Acquiring(call, AcquireRow::A3);
        if !self.try_lock(&mut token, counter, &place) {
            return Err(Seat { token, numbers });
        }
        Ok(self.enter_locked::<N>(token, numbers, &call))
    }

    /// As `wake`; where the root's lock stayed held the seat comes back as it stood, and still owes.
    pub fn try_wake(&self, owing: Owing, handoff: bool) -> Result<(Seat, Wake), Owing>
        requires { owing.table ≡ self.now }
        ensures rows { MatchResult result (λ done. IsWakened owing handoff done.0 done.1)
            (λ refused. StillOwes owing refused) }
        ensures caller { MatchResult result (λ done. WakesFirst owing handoff done.0 done.1)
            (λ refused. StandsOn owing refused) }
    {
        self.try_wake_with::<Futexes>(owing, handoff)
    }

    /// The same, where threads sleep, or none does.
    pub(crate) fn try_wake_with<N: Kernel>(
        &self,
        owing: Owing,
        handoff: bool,
    ) -> Result<(Seat, Wake), Owing>
        requires kernel { N.serves self.now.setting.has_threads }
        requires seat { owing.table ≡ self.now }
        ensures rows { MatchResult result (λ done. IsWakened owing handoff done.0 done.1)
            (λ refused. StillOwes owing refused) }
        ensures caller { MatchResult result (λ done. WakesFirst owing handoff done.0 done.1)
            (λ refused. StandsOn owing refused) }
    {
        let Owing {
            mut token,
            numbers,
            counter,
        } = owing;
        let call = Release { counter, handoff };
        if !self.try_lock_released(&mut token, &call) {
            return Err(Owing {
                token,
                numbers,
                counter,
            });
        }
        Ok(self.wake_locked::<N>(token, numbers, &call))
    }

    /// As `wake_some`, and answers the seats that it woke; where the root's lock stayed held the seat comes
    /// back as it stood, and still owes.
    pub fn try_wake_some(&self, owing: OwingMany) -> Result<(Seat, WokenSeats), OwingMany>
        requires { owing.table ≡ self.now }
        ensures rows { MatchResult result (λ done. IsWokenSeats owing done.0 done.1.items)
            (λ refused. StillOwesMany owing refused) }
        ensures caller { MatchResult result (λ done. WakesThese owing done.0 done.1.items)
            (λ refused. StandsOn owing refused) }
    {
        self.try_wake_some_with::<Futexes>(owing)
    }

    /// The same, where threads sleep, or none does.
    pub(crate) fn try_wake_some_with<N: Kernel>(
        &self,
        owing: OwingMany,
    ) -> Result<(Seat, WokenSeats), OwingMany>
        requires kernel { N.serves self.now.setting.has_threads }
        requires seat { owing.table ≡ self.now }
        ensures rows { MatchResult result (λ done. IsWokenSeats owing done.0 done.1.items)
            (λ refused. StillOwesMany owing refused) }
        ensures caller { MatchResult result (λ done. WakesThese owing done.0 done.1.items)
            (λ refused. StandsOn owing refused) }
    {
        let OwingMany {
            mut token,
            numbers,
            call,
        } = owing;
        if !self.try_lock_many(&mut token, &call) {
            return Err(OwingMany {
                token,
                numbers,
                call,
            });
        }
        let mut hand = WokenSeats::new();
        let seat = self.wake_some_locked::<N>(token, numbers, &call, &mut hand);
        Ok((seat, hand))
    }

    /// As `leave`; where the root's lock stayed held the seat comes back asleep, as it was.
    pub fn try_leave(&self, sleeping: Sleeping) -> Result<GaveUp, Sleeping>
        requires { sleeping.table ≡ self.now }
        ensures rows { MatchResult result (λ gave_up. Leaves sleeping gave_up)
            (λ refused. StillParked sleeping refused) }
        ensures caller { MatchResult result (λ gave_up. GivesUp sleeping gave_up)
            (λ refused. StandsOn sleeping refused) }
    {
        self.try_leave_with::<Futexes>(sleeping)
    }

    /// The same, where threads sleep, or none does.
    pub(crate) fn try_leave_with<N: Kernel>(&self, sleeping: Sleeping) -> Result<GaveUp, Sleeping>
        requires kernel { N.serves self.now.setting.has_threads }
        requires seat { sleeping.table ≡ self.now }
        ensures rows { MatchResult result (λ gave_up. Leaves sleeping gave_up)
            (λ refused. StillParked sleeping refused) }
        ensures caller { MatchResult result (λ gave_up. GivesUp sleeping gave_up)
            (λ refused. StandsOn sleeping refused) }
    {
        let asleep = match self.look_before(sleeping) {
            Ok(asleep) => asleep,
            Err(gave_up) => return Ok(gave_up),
        };
        let Sleeping {
            mut token,
            numbers,
            call,
            turn,
        } = asleep;
        let place = Place::Acquiring(call, AcquireRow::Parked(turn, ParkedRow::D2));
        if !self.try_lock(&mut token, call.counter, &place) {
            return Err(Sleeping {
                token,
                numbers,
                call,
                turn,
            });
        }
        Ok(self.leave_locked::<N>(token, numbers, &call, turn))
    }
}
