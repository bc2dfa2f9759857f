//! An acquire with a time-out for a caller that has to do more under the lock before a wait leaves.
ghost use Rattle.std.specs.Prelude.{◌≡◌, ◌<◌, ℕ, Bool, length, MatchResult};
ghost use Rattle.sema_table.specs.Seats.{SeatModel};
ghost use Rattle.sema_table.specs.Callers.{WaitsForUnit, AcquiresUnit};
ghost use Rattle.sema_table.specs.CallersTimed.{SleepsIn, HoldsLast, GivesUpHolding};

use crate::answers::{Entered, GaveUp, Polled, Roused};
use crate::seat::{Leaver, Seat, Sleeping};
use crate::sema_table::SemaTable;
use std::sync::Wait;
use std::time::{Clock, Instant};
use waiters::CounterId;

impl SemaTable {
    /// As `acquire`, until the deadline: a seat that sleeps then comes back with the lock of its root, its wait
    /// queued, for `end_leave` or `stay_until_taken`. Where a grant is on its way the seat waits for that.
    pub fn acquire_or_begin_leave<R: Wait + Clock>(
        &self,
        rt: &R,
        seat: Seat,
        counter: CounterId,
        lifo: bool,
        deadline: Instant,
    ) -> Result<Seat, Leaver>
        requires seat { (seat.table ≡ self.now) × (0 < seat.left) }
        requires counter { counter < length self.now.setting.starts }
        ensures { MatchResult result (λ taken. AcquiresUnit seat counter lifo taken)
            (λ leaving. GivesUpHolding seat counter lifo leaving) }
    {
        let mut seat = seat;
        if self.take_at_once(&mut seat, counter) {
            return Ok(seat);
        }
        match self.enter(rt, seat, counter, lifo) {
            Entered::Taken(seat) => Ok(seat),
            Entered::Asleep(sleeping) => self.take_or_begin_leave(rt, sleeping, deadline),
        }
    }

    /// Gives the lock back, and sleeps on until a unit is taken or handed over.
    pub fn stay_until_taken<R: Wait>(&self, rt: &R, giving_up: Leaver) -> Seat
        requires { giving_up.table ≡ self.now }
        ensures { (s : SeatModel) (c : ℕ) (lifo : Bool) → GivesUpHolding s c lifo giving_up
            → AcquiresUnit s c lifo result }
    {
        let sleeping = self.stay_asleep(giving_up);
        self.sleep_for_unit(rt, sleeping)
    }

    /// Sleeps, and tries once woken, until a unit is taken or handed over.
    fn sleep_for_unit<R: Wait>(&self, rt: &R, sleeping: Sleeping) -> Seat
        requires { sleeping.table ≡ self.now }
        ensures { (s : SeatModel) (c : ℕ) (lifo : Bool) → SleepsIn s c lifo sleeping → WaitsForUnit s c lifo result }
    {
        let mut sleeping = sleeping;
        for _ in rt.forever() {
            match self.sleep(rt, sleeping) {
                Roused::Handed(seat) => return seat,
                Roused::Woken(woken) => match self.retry(rt, woken) {
                    Entered::Taken(seat) => return seat,
                    Entered::Asleep(again) => sleeping = again,
                },
            }
        }
        unreachable!()
    }

    /// The same until the deadline, and then the lock.
    #[inline(never)]
    fn take_or_begin_leave<R: Wait + Clock>(
        &self,
        rt: &R,
        sleeping: Sleeping,
        deadline: Instant,
    ) -> Result<Seat, Leaver>
        requires { (sleeping.table ≡ self.now) × (0 < sleeping.left) }
        ensures { (s : SeatModel) (c : ℕ) (lifo : Bool) → SleepsIn s c lifo sleeping
            → MatchResult result (λ taken. WaitsForUnit s c lifo taken) (λ leaving. HoldsLast s c lifo leaving) }
    {
        let mut sleeping = sleeping;
        for _ in rt.forever() {
            let woken = match self.sleep_until(rt, sleeping, deadline) {
                Polled::Handed(seat) => return Ok(seat),
                Polled::Woken(woken) => woken,
                Polled::Still(still) => match self.begin_leave(rt, still) {
                    Ok(leaving) => return Err(leaving),
                    Err(GaveUp::Handed(seat)) => return Ok(seat),
                    Err(GaveUp::Coming(asleep)) => return Ok(self.sleep_for_unit(rt, asleep)),
                    Err(GaveUp::Woken(woken)) => woken,
                    Err(GaveUp::Left(_seat)) => unreachable!(),
                    Err(GaveUp::LimitReached(_asleep)) => unreachable!(),
                },
            };
            match self.retry(rt, woken) {
                Entered::Taken(seat) => return Ok(seat),
                Entered::Asleep(again) => sleeping = again,
            }
        }
        unreachable!()
    }
}
