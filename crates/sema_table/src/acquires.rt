//! A whole acquire.
ghost use Rattle.std.specs.Prelude.{◌≡◌, ◌<◌, length, MatchBool};
ghost use Rattle.sema_table.specs.Waking.{acquire_of};
ghost use Rattle.sema_table.specs.Whole.{TakesAtOnce, FindsNone, HasParked, TakesAfter, TakesFrom};
ghost use Rattle.sema_table.specs.Whole.{IsAcquired};
ghost use Rattle.sema_table.specs.Callers.{AcquiresUnit};

use crate::answers::{Entered, Roused, Tried};
use crate::seat::{Seat, Sleeping};
use crate::sema_table::{MOST_TRIES, SemaTable};
use std::sync::Wait;
use step_table::{AcquireRow, Place};
use waiters::CounterId;

impl SemaTable {
    /// Takes a unit, and sleeps while there is none (Go's `semacquire1`). With lifo its wait goes to the
    /// front of the list.
    #[inline]
    pub fn acquire<R: Wait>(&self, rt: &R, seat: Seat, counter: CounterId, lifo: bool) -> Seat
        requires { (seat.table ≡ self.now) × (counter < length self.now.setting.starts) }
        ensures rows { IsAcquired seat counter lifo result }
        ensures caller { AcquiresUnit seat counter lifo result }
    {
        let mut seat = seat;
        match self.try_acquire(&mut seat, counter) {
            Tried::Taken => seat,
            Tried::Zero => self.acquire_slowly(rt, seat, counter, lifo),
            Tried::Lost => self.acquire_lost(rt, seat, counter, lifo),
        }
    }

    /// An acquire after a try that was lost. What it keeps of a seat in memory is cleared in here, and not
    /// before each try.
    #[inline]
    fn acquire_lost<R: Wait>(&self, rt: &R, seat: Seat, counter: CounterId, lifo: bool) -> Seat
        requires { (seat.table ≡ self.now) × (counter < length self.now.setting.starts) }
        ensures { IsAcquired seat counter lifo result }
    {
        self.acquire_again(rt, seat, counter, lifo)
    }

    /// The same, apart: so a caller's own code has one try, and no loop that may wait.
    #[inline(never)]
    pub(crate) fn acquire_again<R: Wait>(
        &self,
        rt: &R,
        seat: Seat,
        counter: CounterId,
        lifo: bool,
    ) -> Seat
        requires { (seat.table ≡ self.now) × (counter < length self.now.setting.starts) }
        ensures { IsAcquired seat counter lifo result }
    {
        let mut seat = seat;
        if self.take_at_once(&mut seat, counter) {
            return seat;
        }
        self.acquire_at_lock(rt, seat, counter, lifo)
    }

    /// An acquire from the lock on.
    #[inline]
    pub(crate) fn acquire_slowly<R: Wait>(
        &self,
        rt: &R,
        seat: Seat,
        counter: CounterId,
        lifo: bool,
    ) -> Seat
        requires { (seat.table ≡ self.now) × (counter < length self.now.setting.starts) }
        ensures { let a = acquire_of counter lifo in
            TakesFrom seat (Place.Acquiring a AcquireRow.A3) a result }
    {
        self.acquire_at_lock(rt, seat, counter, lifo)
    }

    /// The same, apart: so a caller's own code has the tries alone.
    #[inline(never)]
    pub(crate) fn acquire_at_lock<R: Wait>(
        &self,
        rt: &R,
        seat: Seat,
        counter: CounterId,
        lifo: bool,
    ) -> Seat
        requires { (seat.table ≡ self.now) × (counter < length self.now.setting.starts) }
        ensures { let a = acquire_of counter lifo in
            TakesFrom seat (Place.Acquiring a AcquireRow.A3) a result }
    {
        match self.enter(rt, seat, counter, lifo) {
            Entered::Taken(seat) => seat,
            Entered::Asleep(sleeping) => self.sleep_until_taken(rt, sleeping),
        }
    }

    /// Tries until a unit is taken or none is found: whether one was taken. It ends whatever others do.
    #[inline]
    pub(crate) fn take_at_once(&self, seat: &mut Seat, counter: CounterId) -> bool
        requires { (seat.old.table ≡ self.now) × (counter < length self.now.setting.starts) }
        ensures { MatchBool result (TakesAtOnce seat.old counter seat.new)
            (FindsNone seat.old counter seat.new) }
    {
        for _ in 0..MOST_TRIES {
            match self.try_acquire(seat, counter) {
                Tried::Taken => return true,
                Tried::Zero => return false,
                Tried::Lost => {}
            }
        }
        unreachable!()
    }

    /// Sleeps, and tries once woken, until a unit is taken or handed over.
    fn sleep_until_taken<R: Wait>(&self, rt: &R, sleeping: Sleeping) -> Seat
        requires { (sleeping.table ≡ self.now) × HasParked sleeping }
        ensures { TakesAfter sleeping result }
    {
        let mut sleeping = sleeping;
        for _ in rt.forever() {
            match self.sleep(rt, sleeping) {
                Roused::Handed(seat) => return seat,
                Roused::Woken(woken) => match self.retry(rt, woken) {
                    Entered::Taken(seat) => return seat,
                    Entered::Asleep(again) => sleeping = again,
                },
            }
        }
        unreachable!()
    }
}
