//! A lock over a counter of a table.
ghost use Rattle.std.specs.Prelude.{◌≡◌, ◌<◌, true, false, length, IsSomeAnd, MatchBool};
ghost use Rattle.std.specs.Option.{ForSome};
ghost use Rattle.sema_table.specs.declared.answers.Acquired.TheVariants.{Taken, TimedOut};
ghost use Rattle.sema_table.specs.Whole.{IsAcquired};
ghost use Rattle.sema_table.specs.CallersTimed.{AcquiresInTime};
ghost use Rattle.sync_parts.specs.Lock.{TookLast};
ghost use Rattle.sync_parts.specs.Locking.{new_lock, HasLocked, HasUnlocked, HasLockedInTime, HasTimedOut};
ghost use Rattle.sync_parts.specs.LockRows.{RunsAcquire, RunsRelease, RunsMeet};
ghost use Rattle.sync_parts.specs.Exclusion.{HaveMet};

use crate::limit::Limit;
use crate::locker::Locker;
use notify_list::{Holding, ListSeat};
use sema_table::{Acquired, Seat, SemaTable};
use std::marker::Model;
use std::sync::Wait;
use std::time::{Clock, Duration, Instant};
use waiters::CounterId;

/// An acquire without lifo, by the seat that lies here. Who was woken for the lock, with others perhaps,
/// looks for a while and then sleeps: breaks and tries between them would keep the processor from who holds
/// it.
#[inline]
fn acquire_for<R: Wait>(
    rt: &R,
    table: &SemaTable,
    place: &mut Option<Seat>,
    counter: CounterId,
    was_woken: bool,
)
    requires there { IsSomeAnd place.old (λ seat. seat.table ≡ table.now) }
    requires inside { counter < length table.now.setting.starts }
    ensures { ForSome place.old (λ seat. IsSomeAnd place.new (λ later. IsAcquired seat counter false later)) }
{
    if !was_woken {
        table.acquire_in_place(rt, place, counter);
        return;
    }
    let Some(seat) = place.take() else {
        unreachable!()
    };
    table.spin(counter);
    *place = Some(table.acquire(rt, seat, counter, false));
}

/// An acquire without lifo until then.
fn acquire_until<R: Wait + Clock>(
    rt: &R,
    table: &SemaTable,
    seat: Seat,
    counter: CounterId,
    limit: Limit,
) -> Acquired
    requires { (seat.table ≡ table.now) × (counter < length table.now.setting.starts) }
    ensures { AcquiresInTime seat counter false result }
{
    match limit {
        Limit::At(deadline) => table.acquire_until(rt, seat, counter, false, deadline),
        Limit::After(longest) => table.acquire_for(rt, seat, counter, false, longest),
    }
}

/// The same by the seat that lies here: whether a unit was taken.
fn acquire_in_time<R: Wait + Clock>(
    rt: &R,
    table: &SemaTable,
    place: &mut Option<Seat>,
    counter: CounterId,
    limit: Limit,
) -> bool
    requires there { IsSomeAnd place.old (λ seat. (seat.table ≡ table.now) × (0 < seat.left)) }
    requires inside { counter < length table.now.setting.starts }
    ensures { ForSome place.old (λ seat. IsSomeAnd place.new (λ later. MatchBool result
        (AcquiresInTime seat counter false (Taken later))
        (AcquiresInTime seat counter false (TimedOut later)))) }
{
    let Some(seat) = place.take() else {
        unreachable!()
    };
    match acquire_until(rt, table, seat, counter, limit) {
        Acquired::Taken(seat) => {
            *place = Some(seat);
            true
        }
        Acquired::TimedOut(seat) => {
            *place = Some(seat);
            false
        }
        Acquired::LimitReached(_seat) => unreachable!(),
    }
}

/// A lock over a counter, held while its seat has the counter's unit.
#[derive(Drop)]
pub struct SemaLock<'t> {
    table: &'t SemaTable,
    /// Always there between two calls: the table's calls take a seat by value.
    seat: Option<Seat>,
    counter: CounterId,
    held: bool,
}

impl<'t> Model for SemaLock<'t> {
    ghost use Rattle.sync_parts.specs.Lock.{LockModel, lock_of, IsLock};

    ghost Value = { LockModel };

    ghost view = { λ l. lock_of l.table.now l.seat l.counter l.held };

    ghost invariant = { λ l. IsLock l.table.now l.seat l.counter l.held };
}

impl<'t> SemaLock<'t> {
    /// A lock over this counter, by this seat. It isn't held.
    pub fn over(table: &'t SemaTable, seat: Seat, counter: CounterId) -> SemaLock<'t>
        requires { (seat.table ≡ table.now) × (counter < length table.now.setting.starts) }
        ensures { result ≡ new_lock seat counter }
    {
        // The count is that of the journal: whoever asks for it learns so, and the lock has to know.
        let _ = seat.taken();
        SemaLock {
            table,
            seat: Some(seat),
            counter,
            held: false,
        }
    }

    /// Whether the lock is held: then the last that it did on its counter was to take a unit.
    pub fn held(&self) -> bool
        ensures held { result ≡ self.now.held }
        ensures took { result ≡ true → TookLast self.now }
    {
        self.held
    }

    /// How often the lock may be released yet.
    pub fn left(&self) -> u64
        ensures { result ≡ self.now.seat.left }
    {
        match &self.seat {
            Some(seat) => seat.left(),
            None => unreachable!(),
        }
    }

    /// Locks: takes the counter's unit; while another has it, looks for a while, and then sleeps (an acquire
    /// without lifo).
    pub fn acquire<R: Wait>(&mut self, rt: &R)
        requires { self.old.held ≡ false }
        ensures rows { RunsAcquire self.old self.new }
        ensures caller { HasLocked self.old self.new }
    {
        self.lock_for(rt, false);
    }

    /// Locks as `acquire` does, until the deadline: whether it did. Where it sleeps it may give up, and then the
    /// lock may be released once less: so one that is locked may still be released.
    pub fn try_lock_until<R: Wait + Clock>(&mut self, rt: &R, deadline: Instant) -> bool
        requires free { self.old.held ≡ false }
        requires left { 1 < self.old.seat.left }
        ensures { MatchBool result (HasLockedInTime self.old self.new) (HasTimedOut self.old self.new) }
    {
        self.try_lock_in_time(rt, Limit::At(deadline))
    }

    /// The same for so long.
    pub fn try_lock_for<R: Wait + Clock>(&mut self, rt: &R, longest: Duration) -> bool
        requires free { self.old.held ≡ false }
        requires left { 1 < self.old.seat.left }
        ensures { MatchBool result (HasLockedInTime self.old self.new) (HasTimedOut self.old self.new) }
    {
        self.try_lock_in_time(rt, Limit::After(longest))
    }

    fn try_lock_in_time<R: Wait + Clock>(&mut self, rt: &R, limit: Limit) -> bool
        requires free { self.old.held ≡ false }
        requires left { 1 < self.old.seat.left }
        ensures { MatchBool result (HasLockedInTime self.old self.new) (HasTimedOut self.old self.new) }
    {
        let took = acquire_in_time(rt, self.table, &mut self.seat, self.counter, limit);
        let Some(seat) = &self.seat else {
            unreachable!()
        };
        let _ = seat.taken();
        self.held = took;
        took
    }

    /// Locks, for one who comes, or for one who was woken.
    #[inline]
    fn lock_for<R: Wait>(&mut self, rt: &R, was_woken: bool)
        requires { self.old.held ≡ false }
        ensures rows { RunsAcquire self.old self.new }
        ensures caller { HasLocked self.old self.new }
    {
        acquire_for(rt, self.table, &mut self.seat, self.counter, was_woken);
        let Some(seat) = &self.seat else {
            unreachable!()
        };
        let _ = seat.taken();
        self.held = true;
    }

    /// Unlocks: gives the unit back, and wakes the first that waits for it (a release without handoff).
    pub fn release<R: Wait>(&mut self, rt: &R)
        requires held { self.old.held ≡ true }
        requires left { 0 < self.old.seat.left }
        ensures rows { RunsRelease self.old self.new }
        ensures caller { HasUnlocked self.old self.new }
    {
        let Some(seat) = self.seat.take() else {
            unreachable!()
        };
        let Ok((seat, _)) = self.table.release(rt, seat, self.counter, false) else {
            unreachable!()
        };
        let _ = seat.taken();
        self.seat = Some(seat);
        self.held = false;
    }

    /// The seats of two locks of one counter meet. Afterwards at most one of the two is held, if only such
    /// locks used the counter.
    pub fn meet(&mut self, other: &mut SemaLock<'_>)
        requires { (other.old.seat.table ≡ self.old.seat.table) × (other.old.counter ≡ self.old.counter) }
        ensures rows { RunsMeet self.old other.old self.new other.new }
        ensures caller { HaveMet self.old other.old self.new other.new }
    {
        let (Some(mut mine), Some(mut theirs)) = (self.seat.take(), other.seat.take()) else {
            unreachable!()
        };
        self.table.meet(&mut mine, &mut theirs);
        let _ = (mine.taken(), theirs.taken());
        self.seat = Some(mine);
        other.seat = Some(theirs);
    }

    /// Ends the lock, and gives its seat back.
    pub fn into_seat(self) -> Seat
        requires { self.held ≡ false }
        ensures { result ≡ self.entry.seat }
    {
        let SemaLock { seat, .. } = self;
        match seat {
            Some(seat) => seat,
            None => unreachable!(),
        }
    }
}

impl<'t> Locker for SemaLock<'t> {
    ghost use Rattle.sync_parts.specs.Lock.{locker_calls};

    ghost calls = { λ l. locker_calls l };

    ghost is_held = { λ l. l.held };

    ghost may_unlock = { λ l. l.seat.left };

    ghost unlocks = { λ l holding m. HasUnlocked l m };

    ghost locks = { λ l m. HasLocked l m };

    ghost unlock_rows = { λ l m. RunsRelease l m };

    ghost lock_rows = { λ l m. RunsAcquire l m };

    fn held(&self) -> bool {
        SemaLock::held(self)
    }

    fn left(&self) -> u64 {
        SemaLock::left(self)
    }

    fn unlock<R: Wait>(&mut self, rt: &R, _holding: &Holding) {
        self.release(rt);
    }

    fn lock<R: Wait>(&mut self, rt: &R, _seat: &ListSeat) {
        self.lock_for(rt, true);
    }
}
