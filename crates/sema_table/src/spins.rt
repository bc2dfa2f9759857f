//! Looking for a unit before a call queues a wait for one (the spinning of Go's `sync.Mutex`).
ghost use Rattle.std.specs.Prelude.{◌≡◌, ◌<◌, false, length, IsSomeAnd};
ghost use Rattle.std.specs.Option.{ForSome};
ghost use Rattle.sema_table.specs.Whole.{TriesAtSight, IsAcquired};
ghost use Rattle.sema_table.specs.Callers.{AcquiresUnit};

use crate::answers::Tried;
use crate::seat::Seat;
use crate::sema_table::{SemaTable, counter_word};
use running_rows::{BREAKS_END, FIRST_BREAK, make_break};
use std::marker::PhantomData;
use std::sync::Wait;
use waiters::CounterId;

/// How often `spin` looks: what is done under a lock takes less, unless its holder lost its processor.
const LOOKS: u64 = 100;

impl SemaTable {
    /// Looks for a while whether the counter has a unit. Who acquires what another gives back in a moment may
    /// do this first: then it seldom sleeps, and has seldom to be woken. It takes no unit, and says nothing
    /// of one: another may take it first.
    #[inline]
    pub fn spin(&self, counter: CounterId)
        requires { counter < length self.now.setting.starts }
    {
        let word = counter_word(counter.number());
        if !self.words.is_above_zero_soon(PhantomData, word, 1) {
            self.spin_on(word);
        }
    }

    /// The same, apart: so a caller's own code has one look.
    #[inline(never)]
    fn spin_on(&self, word: usize)
        requires { word < self.now.id.words }
    {
        self.words.is_above_zero_soon(PhantomData, word, LOOKS);
    }

    /// An acquire without lifo by one who expects a unit in a moment, as of a lock: where it sees none, or
    /// loses it to another, it makes a break and looks again, and queues a wait only after some of them.
    #[inline]
    pub fn acquire_spinning<R: Wait>(&self, rt: &R, seat: Seat, counter: CounterId) -> Seat
        requires { (seat.table ≡ self.now) × (counter < length self.now.setting.starts) }
        ensures rows { IsAcquired seat counter false result }
        ensures caller { AcquiresUnit seat counter false result }
    {
        let mut seat = seat;
        match self.try_at_sight(&mut seat, counter) {
            Tried::Taken => seat,
            Tried::Zero => self.acquire_slowly(rt, seat, counter, false),
            Tried::Lost => self.acquire_with_breaks(rt, seat, counter),
        }
    }

    /// The same by a seat that lies in a struct of its caller's: it is moved only where its first try is in
    /// vain.
    #[inline]
    pub fn acquire_in_place<R: Wait>(&self, rt: &R, place: &mut Option<Seat>, counter: CounterId)
        requires there { IsSomeAnd place.old (λ seat. seat.table ≡ self.now) }
        requires inside { counter < length self.now.setting.starts }
        ensures rows { ForSome place.old
            (λ seat. IsSomeAnd place.new (λ later. IsAcquired seat counter false later)) }
        ensures caller { ForSome place.old
            (λ seat. IsSomeAnd place.new (λ later. AcquiresUnit seat counter false later)) }
    {
        let tried = match place {
            Some(seat) => self.try_at_sight(seat, counter),
            None => unreachable!(),
        };
        match tried {
            Tried::Taken => {}
            Tried::Zero => {
                let Some(seat) = place.take() else {
                    unreachable!()
                };
                *place = Some(self.acquire_slowly(rt, seat, counter, false));
            }
            Tried::Lost => {
                let Some(seat) = place.take() else {
                    unreachable!()
                };
                *place = Some(self.acquire_with_breaks(rt, seat, counter));
            }
        }
    }

    /// An acquire after a first try in vain. What it keeps of a seat in memory is cleared in here, and not
    /// before each try.
    #[inline]
    fn acquire_with_breaks<R: Wait>(&self, rt: &R, seat: Seat, counter: CounterId) -> Seat
        requires { (seat.table ≡ self.now) × (counter < length self.now.setting.starts) }
        ensures { IsAcquired seat counter false result }
    {
        self.acquire_between_breaks(rt, seat, counter)
    }

    /// The same, apart: so a caller's own code has one try, and no loop.
    #[inline(never)]
    fn acquire_between_breaks<R: Wait>(&self, rt: &R, seat: Seat, counter: CounterId) -> Seat
        requires { (seat.table ≡ self.now) × (counter < length self.now.setting.starts) }
        ensures { IsAcquired seat counter false result }
    {
        let mut seat = seat;
        for turn in FIRST_BREAK..BREAKS_END {
            make_break(turn);
            match self.try_at_sight(&mut seat, counter) {
                Tried::Taken => return seat,
                Tried::Zero => return self.acquire_at_lock(rt, seat, counter, false),
                Tried::Lost => {}
            }
        }
        self.acquire_again(rt, seat, counter, false)
    }

    /// A try where a look finds a unit. It is lost where that finds none, or another was faster; `Zero` says
    /// that the unit was gone when the try began.
    #[inline]
    fn try_at_sight(&self, seat: &mut Seat, counter: CounterId) -> Tried
        requires { (seat.old.table ≡ self.now) × (counter < length self.now.setting.starts) }
        ensures { TriesAtSight seat.old counter result seat.new }
    {
        let word = counter_word(counter.number());
        if !self.words.is_above_zero_soon(PhantomData, word, 1) {
            return Tried::Lost;
        }
        self.try_acquire(seat, counter)
    }
}
