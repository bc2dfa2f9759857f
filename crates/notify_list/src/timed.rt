//! Waits with a time-out. Once the time is over there is no wait but for the list's lock and for a grant: one
//! that is on its way, or any where no ticket goes any more.
ghost use Rattle.std.specs.Prelude.{◌≡◌, ◌<◌};
ghost use Rattle.notify_list.specs.Seats.{list_of};
ghost use Rattle.notify_list.specs.Heirs.{IsSame};
ghost use Rattle.notify_list.specs.Callers.{PollsGrant};
ghost use Rattle.notify_list.specs.CallersTimed.{SleepsInTime, WaitsInTime};

use crate::notify_list::{NotifyList, grant_word};
use crate::rows::Token;
use crate::seat::{Holding, ListSeat, Parked};
use crate::waited::{Entered, GaveUp, Polled, Waited, WaitedUntil};
use crate::waits::PATIENCE;
use running_rows::time_left;
use std::sync::Wait;
use std::time::{Clock, Duration, Instant};

impl NotifyList {
    /// As `wait`, until the deadline: where the ticket isn't granted then, the seat leaves. A deadline that has
    /// passed tries once. A clock that can't be read ends the wait.
    pub fn wait_until<R: Wait + Clock>(
        &self,
        rt: &R,
        holding: Holding,
        deadline: Instant,
    ) -> (ListSeat, WaitedUntil)
        requires { holding.list ≡ self.now }
        ensures own { result.0.list ≡ self.now }
        ensures caller { WaitsInTime holding result.1 result.0 }
    {
        match self.queue(rt, holding) {
            Entered::AtOnce(seat) => (seat, WaitedUntil::AtOnce),
            Entered::Queued(parked) => self.sleep_until(rt, parked, deadline),
        }
    }

    /// As `wait_until`, for so long.
    pub fn wait_for<R: Wait + Clock>(
        &self,
        rt: &R,
        holding: Holding,
        longest: Duration,
    ) -> (ListSeat, WaitedUntil)
        requires { holding.list ≡ self.now }
        ensures own { result.0.list ≡ self.now }
        ensures caller { WaitsInTime holding result.1 result.0 }
    {
        let Ok(now) = Instant::now(rt) else {
            return self.wait_no_longer(rt, holding);
        };
        match now.checked_add(longest) {
            Some(deadline) => self.wait_until(rt, holding, deadline),
            // No clock reads so late a time.
            None => self.wait_without_end(rt, holding),
        }
    }

    /// The same where no time is left.
    fn wait_no_longer<R: Wait>(&self, rt: &R, holding: Holding) -> (ListSeat, WaitedUntil)
        requires { holding.list ≡ self.now }
        ensures own { result.0.list ≡ self.now }
        ensures caller { WaitsInTime holding result.1 result.0 }
    {
        match self.queue(rt, holding) {
            Entered::AtOnce(seat) => (seat, WaitedUntil::AtOnce),
            Entered::Queued(parked) => self.give_up(rt, parked),
        }
    }

    /// The same where there is no end of the time.
    fn wait_without_end<R: Wait>(&self, rt: &R, holding: Holding) -> (ListSeat, WaitedUntil)
        requires { holding.list ≡ self.now }
        ensures own { result.0.list ≡ self.now }
        ensures caller { WaitsInTime holding result.1 result.0 }
    {
        let (seat, waited) = self.wait(rt, holding);
        match waited {
            Waited::AtOnce => (seat, WaitedUntil::AtOnce),
            Waited::Parked => (seat, WaitedUntil::Parked),
        }
    }

    /// Sleeps until the grant of a queued wait, or until the time is over and the seat has left.
    fn sleep_until<R: Wait + Clock>(
        &self,
        rt: &R,
        parked: Parked,
        deadline: Instant,
    ) -> (ListSeat, WaitedUntil)
        requires { parked.list ≡ self.now }
        ensures { SleepsInTime parked result.1 result.0 }
    {
        let mut parked = parked;
        for _ in rt.forever() {
            let longest = time_left(rt, deadline);
            if longest.is_zero() {
                return self.give_up(rt, parked);
            }
            match self.sleep_for(rt, parked, longest) {
                Polled::Still(still) => parked = still,
                Polled::Granted(seat) => return (seat, WaitedUntil::Parked),
            }
        }
        unreachable!()
    }

    /// Leaves; or where the ticket was granted, or no ticket goes any more, sleeps until the grant.
    fn give_up<R: Wait>(&self, rt: &R, parked: Parked) -> (ListSeat, WaitedUntil)
        requires { parked.list ≡ self.now }
        ensures { SleepsInTime parked result.1 result.0 }
    {
        match self.leave(rt, parked) {
            GaveUp::Left(seat) => (seat, WaitedUntil::TimedOut),
            GaveUp::Granted(seat) => (self.with_heirs_awake(seat), WaitedUntil::Parked),
            GaveUp::Coming(still) => (self.sleep(rt, still), WaitedUntil::Parked),
            GaveUp::LimitReached(still) => (self.sleep(rt, still), WaitedUntil::Parked),
        }
    }

    /// Sleeps for so long at most, and looks for the grant.
    fn sleep_for<R: Wait>(&self, rt: &R, parked: Parked, longest: Duration) -> Polled
        requires { parked.list ≡ self.now }
        ensures { PollsGrant parked result }
    {
        let Parked {
            mut token,
            number,
            may_leave,
        } = parked;
        self.await_grant(rt, &mut token, number, longest);
        let awake = Parked {
            token,
            number,
            may_leave,
        };
        match self.poll(awake) {
            Polled::Still(still) => Polled::Still(still),
            Polled::Granted(seat) => Polled::Granted(self.with_heirs_awake(seat)),
        }
    }

    /// Returns once something is granted to the seat or so much time is over, and perhaps before.
    #[tactic(auto, using(crate::proofs::Owned::grant_futex, crate::proofs::Owned::beside))]
    fn await_grant<R: Wait>(&self, rt: &R, token: &mut Token, seat: u16, longest: Duration)
        requires own { list_of token.old ≡ self.now }
        requires there { seat < self.now.setting.seats }
        ensures { IsSame token.old token.new }
    {
        let seat = u32::from(seat);
        let grant = grant_word(seat);
        let asleep = self.asleep_word(seat);
        let misses = self.misses_word(seat);
        self.words
            .await_grant(rt, token, grant, asleep, misses, &PATIENCE, Some(longest));
    }
}
