//! Acquires with a time-out. Once the time is over there is no loop but for tries that others make vain, and
//! no wait but for a lock's holder and for a grant that is on its way.
ghost use Rattle.std.specs.Prelude.{◌≡◌, ◌<◌, length, IfOk, MatchBool, MatchResult};
ghost use Rattle.sema_table.specs.Seats.{SeatModel};
ghost use Rattle.sema_table.specs.CallersTimed.{seat_in, SleepsIn, IsToTry, WithdrewLast, WaitsInTime, AcquiresInTime};

use crate::answers::{Acquired, Entered, GaveUp, Polled, Retried, Roused};
use crate::seat::{Seat, Sleeping, Woken};
use crate::sema_table::SemaTable;
use running_rows::time_left;
use std::sync::Wait;
use std::time::{Clock, Duration, Instant};
use waiters::CounterId;

impl SemaTable {
    /// As `acquire`, until the deadline: where there is no unit then, the seat takes its wait out of the
    /// queue. A deadline that has passed tries once. A clock that can't be read ends the wait.
    pub fn acquire_until<R: Wait + Clock>(
        &self,
        rt: &R,
        seat: Seat,
        counter: CounterId,
        lifo: bool,
        deadline: Instant,
    ) -> Acquired
        requires { (seat.table ≡ self.now) × (counter < length self.now.setting.starts) }
        ensures own { (seat_in result).table ≡ seat.table }
        ensures caller { AcquiresInTime seat counter lifo result }
    {
        if seat.numbers.left == 0 {
            return Acquired::LimitReached(seat);
        }
        let mut seat = seat;
        let took = self.take_at_once(&mut seat, counter);
        if took {
            return Acquired::Taken(seat);
        }
        if time_left(rt, deadline).is_zero() {
            return Acquired::TimedOut(seat);
        }
        match self.enter(rt, seat, counter, lifo) {
            Entered::Taken(seat) => Acquired::Taken(seat),
            Entered::Asleep(sleeping) => self.take_until(rt, sleeping, counter, lifo, deadline),
        }
    }

    /// As `acquire_until`, for so long.
    pub fn acquire_for<R: Wait + Clock>(
        &self,
        rt: &R,
        seat: Seat,
        counter: CounterId,
        lifo: bool,
        longest: Duration,
    ) -> Acquired
        requires { (seat.table ≡ self.now) × (counter < length self.now.setting.starts) }
        ensures own { (seat_in result).table ≡ seat.table }
        ensures caller { AcquiresInTime seat counter lifo result }
    {
        let Ok(now) = Instant::now(rt) else {
            return self.acquire_at_once(seat, counter, lifo);
        };
        match now.checked_add(longest) {
            Some(deadline) => self.acquire_until(rt, seat, counter, lifo, deadline),
            // No clock reads so late a time.
            None => Acquired::Taken(self.acquire(rt, seat, counter, lifo)),
        }
    }

    /// The same where no time is left.
    fn acquire_at_once(&self, seat: Seat, counter: CounterId, _lifo: bool) -> Acquired
        requires { (seat.table ≡ self.now) × (counter < length self.now.setting.starts) }
        ensures { AcquiresInTime seat counter _lifo result }
    {
        let mut seat = seat;
        if self.take_at_once(&mut seat, counter) {
            return Acquired::Taken(seat);
        }
        Acquired::TimedOut(seat)
    }

    /// Sleeps, and tries once woken, until a unit is taken or handed over, or the time is over.
    #[inline(never)]
    fn take_until<R: Wait + Clock>(
        &self,
        rt: &R,
        sleeping: Sleeping,
        counter: CounterId,
        lifo: bool,
        deadline: Instant,
    ) -> Acquired
        requires seat { (sleeping.table ≡ self.now) × (0 < sleeping.left) }
        requires counter { counter < length self.now.setting.starts }
        ensures { (s : SeatModel) → SleepsIn s counter lifo sleeping → WaitsInTime s counter lifo result }
    {
        let mut sleeping = sleeping;
        for _ in rt.forever() {
            match self.sleep_until(rt, sleeping, deadline) {
                Polled::Handed(seat) => return Acquired::Taken(seat),
                Polled::Still(still) => return self.give_up(rt, still, counter, lifo),
                Polled::Woken(woken) => {
                    match self.retry_until(rt, woken, counter, lifo, deadline) {
                        Ok(again) => sleeping = again,
                        Err(acquired) => return acquired,
                    }
                }
            }
        }
        unreachable!()
    }

    /// The try of a seat that was woken; where it finds none and time is left, the way to the lock again.
    fn retry_until<R: Wait + Clock>(
        &self,
        rt: &R,
        woken: Woken,
        counter: CounterId,
        lifo: bool,
        deadline: Instant,
    ) -> Result<Sleeping, Acquired>
        requires seat { woken.table ≡ self.now }
        requires counter { counter < length self.now.setting.starts }
        ensures same { IfOk result (λ again. (again.table ≡ self.now) × (again.left ≡ woken.left)) }
        ensures waits { (s : SeatModel) → IsToTry s counter lifo woken →
            MatchResult result (λ again. SleepsIn s counter lifo again)
            (λ acquired. WaitsInTime s counter lifo acquired) }
    {
        let seat = match self.retry_at_once(woken) {
            Retried::Taken(seat) => return Err(Acquired::Taken(seat)),
            Retried::Zero(seat) => seat,
        };
        if time_left(rt, deadline).is_zero() {
            return Err(Acquired::TimedOut(seat));
        }
        match self.enter(rt, seat, counter, lifo) {
            Entered::Taken(seat) => Err(Acquired::Taken(seat)),
            Entered::Asleep(again) => Ok(again),
        }
    }

    /// Gives up: takes the wait out of the queue and tries once more; or where a release has it, waits for that
    /// release's grant and tries.
    fn give_up<R: Wait>(
        &self,
        rt: &R,
        sleeping: Sleeping,
        counter: CounterId,
        lifo: bool,
    ) -> Acquired
        requires seat { (sleeping.table ≡ self.now) × (0 < sleeping.left) }
        requires counter { counter < length self.now.setting.starts }
        ensures { (s : SeatModel) → SleepsIn s counter lifo sleeping → WaitsInTime s counter lifo result }
    {
        match self.leave(rt, sleeping) {
            GaveUp::Left(seat) => self.take_or_go(seat, counter, lifo),
            GaveUp::Woken(woken) => self.retry_or_go(woken, counter, lifo),
            GaveUp::Handed(seat) => Acquired::Taken(seat),
            GaveUp::Coming(sleeping) => match self.sleep(rt, sleeping) {
                Roused::Woken(woken) => self.retry_or_go(woken, counter, lifo),
                Roused::Handed(seat) => Acquired::Taken(seat),
            },
            GaveUp::LimitReached(_asleep) => unreachable!(),
        }
    }

    /// The last try of a seat that has withdrawn its wait: a unit may have come since it looked.
    fn take_or_go(&self, seat: Seat, counter: CounterId, _lifo: bool) -> Acquired
        requires { (seat.table ≡ self.now) × (counter < length self.now.setting.starts) }
        ensures { (s : SeatModel) → WithdrewLast s counter _lifo seat → WaitsInTime s counter _lifo result }
    {
        let mut seat = seat;
        if self.take_at_once(&mut seat, counter) {
            return Acquired::Taken(seat);
        }
        Acquired::TimedOut(seat)
    }

    /// The last try of a seat that was woken. It can't go without: the release that woke it woke no other, and
    /// its unit may still be there.
    fn retry_or_go(&self, woken: Woken, _counter: CounterId, _lifo: bool) -> Acquired
        requires { woken.table ≡ self.now }
        ensures { (s : SeatModel) → IsToTry s _counter _lifo woken → WaitsInTime s _counter _lifo result }
    {
        match self.retry_at_once(woken) {
            Retried::Taken(seat) => Acquired::Taken(seat),
            Retried::Zero(seat) => Acquired::TimedOut(seat),
        }
    }
}
