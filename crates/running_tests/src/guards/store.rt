//! A store under a guard: two put units in, two take them out, and who finds none waits.
ghost use Rattle.std.specs.Prelude.{◌≡◌, ◌+◌};
ghost use Rattle.std.specs.Option.{ForSome};

use std::process::Abort;
use std::sync::Wait;
use sync_guarded::{Guard, GuardSeat, Guarded};
use sync_parts::{Cond, ListSeat};

/// Units that were put in and taken out, and how many still put some in.
#[derive(Drop)]
pub(crate) struct Store {
    put: u64,
    taken: u64,
    left: u64,
    open: u32,
    ghost balanced: { taken + left ≡ put },
}

impl Store {
    /// An empty store, into which so many will put.
    pub(crate) fn open_for(open: u32) -> Store {
        Store {
            put: 0,
            taken: 0,
            left: 0,
            open,
        }
    }

    /// Puts units in, if they can be counted.
    fn put(&mut self, units: u64) -> bool {
        let (Some(put), Some(left)) = (self.put.checked_add(units), self.left.checked_add(units))
        else {
            return false;
        };
        *self = Store {
            put,
            taken: self.taken,
            left,
            open: self.open,
        };
        true
    }

    /// Takes all units out.
    fn take(&mut self) -> u64 {
        let units = self.left;
        *self = Store {
            put: self.put,
            taken: self.put,
            left: 0,
            open: self.open,
        };
        units
    }

    fn close(&mut self) {
        self.open = self.open.saturating_sub(1);
    }

    /// Whether a taker has to wait.
    fn is_waited_for(&self) -> bool {
        self.left == 0 && self.open > 0
    }

    /// What was put, taken and left.
    pub(crate) fn sums(&self) -> (u64, u64, u64) {
        (self.put, self.taken, self.left)
    }
}

/// Who puts or takes.
#[derive(Drop)]
pub(crate) struct Worker<'t> {
    cond: &'t Cond,
    guard: Guard<'t, Store>,
    /// Always there between two calls: a wait takes a seat by value.
    own: Option<ListSeat>,
    ghost ties: { ForSome own (λ s. s.list ≡ cond.now) },
}

impl<'t> Worker<'t> {
    pub(crate) fn new(
        guarded: &'t Guarded<Store>,
        cond: &'t Cond,
        seat: GuardSeat<Store>,
        own: ListSeat,
    ) -> Worker<'t>
        requires guarded { seat.guarded ≡ guarded.now }
        requires cond { own.list ≡ cond.now }
    {
        Worker {
            cond,
            guard: Guard::over(guarded, seat),
            own: Some(own),
        }
    }

    fn wait<R: Abort + Wait>(&mut self, rt: &R) {
        assert!(rt; self.guard.held());
        let own = self.own.take().expect(rt, "a seat");
        let (own, _) = self.cond.wait(rt, own, &mut self.guard);
        self.own = Some(own);
    }

    fn tell<R: Abort + Wait>(&mut self, rt: &R) {
        let mut own = self.own.take().expect(rt, "a seat");
        self.cond.broadcast(rt, &mut own);
        self.own = Some(own);
    }

    /// Puts 1 up to so many units in, and tells the others each time.
    pub(crate) fn puts<R: Abort + Wait>(self, rt: &R, most: u64) -> u64 {
        let mut worker = self;
        let mut sum = 0u64;
        for units in 1..most.saturating_add(1) {
            assert!(rt; !worker.guard.held());
            if worker.guard.hold(rt, |store| store.put(units)) {
                sum = sum.wrapping_add(units);
            }
            worker.tell(rt);
        }
        assert!(rt; !worker.guard.held());
        worker.guard.hold(rt, |store| store.close());
        worker.tell(rt);
        sum
    }

    /// Takes what is there, and waits where nothing is, until nobody puts any more.
    pub(crate) fn takes<R: Abort + Wait>(self, rt: &R) -> u64 {
        let mut worker = self;
        let mut sum = 0u64;
        for _ in rt.forever() {
            let units = worker.take_one(rt);
            if units == 0 {
                return sum;
            }
            sum = sum.wrapping_add(units);
        }
        unreachable!()
    }

    /// What is there, or 0 where nothing will come any more.
    fn take_one<R: Abort + Wait>(&mut self, rt: &R) -> u64 {
        assert!(rt; !self.guard.held());
        self.guard.acquire(rt);
        for _ in rt.forever() {
            assert!(rt; self.guard.held());
            if !self.guard.lend(|store| store.is_waited_for()) {
                break;
            }
            self.wait(rt);
        }
        assert!(rt; self.guard.held());
        let units = self.guard.lend(|store| store.take());
        self.guard.release();
        units
    }
}
