//! Two threads put numbers into a queue of four places, and two take them out: a lock, and a condition
//! variable on which they wait for a place or for a number.
#![tactic(auto)]

ghost use Rattle.std.specs.Prelude.{◌≡◌, ◌<◌, All, length, true, false};

mod queue;

use anyhow::{Result, bail};
use queue::{Queue, Want};
use std::alloc::{AllocError, Global};
use std::sync::Wait;
use std::sync::atomic::Ordering::SeqCst;
use std::thread;
use std::thread::{JoinHandle, Scope, Threads};
use sync_parts::{Cond, CounterId, ListSeat, Seat, SemaLock, SemaTable, Settings};

/// How many numbers each producer puts.
const EACH: u64 = 1_000;

/// What all threads share.
#[derive(Drop)]
struct Shared<'s> {
    table: &'s SemaTable,
    cond: &'s Cond,
    queue: Queue,
    ghost counter: { 0 < length table.now.setting.starts },
}

/// A thread's own: a lock, which it doesn't hold between two calls, and a seat of the condition variable.
#[derive(Drop)]
struct Worker<'s> {
    shared: &'s Shared<'s>,
    lock: SemaLock<'s>,
    seat: ListSeat,
    ghost free: { lock.held ≡ false },
    ghost own: { seat.list ≡ shared.now.cond.now },
}

/// Locks, and waits until the queue has what is wanted or is closed. A wait unlocks and locks again, and
/// another may have been faster meanwhile: so it looks again.
fn lock_for<R: Wait>(
    rt: &R,
    shared: &Shared<'_>,
    lock: &mut SemaLock<'_>,
    seat: ListSeat,
    want: Want,
) -> ListSeat
    requires free { lock.old.held ≡ false }
    requires left { 0 < lock.old.seat.left }
    requires own { seat.list ≡ shared.now.cond.now }
    ensures held { lock.new.held ≡ true }
    ensures left { 0 < lock.new.seat.left }
    ensures own { result.list ≡ shared.now.cond.now }
{
    lock.acquire(rt);
    let mut seat = seat;
    for _ in rt.forever() {
        // each wait unlocks once, and the last unlock is its caller's
        if shared.queue.has(want) || lock.left() == 1 {
            return seat;
        }
        let (back, _) = shared.cond.wait(rt, seat, lock);
        seat = back;
    }
    unreachable!()
}

impl<'s> Worker<'s> {
    fn new(shared: &'s Shared<'s>, seat: Seat, own: ListSeat) -> Worker<'s>
        requires table { seat.table ≡ shared.now.table.now }
        requires cond { own.list ≡ shared.now.cond.now }
    {
        Worker {
            shared,
            lock: SemaLock::over(shared.table, seat, CounterId::new(0)),
            seat: own,
        }
    }

    /// Puts the number once there is a place: whether it did, before the queue was closed.
    fn put<R: Wait>(self, rt: &R, number: u64) -> (Worker<'s>, bool) {
        if self.lock.left() == 0 {
            return (self, false);
        }
        let Worker { shared, lock, seat } = self;
        let mut lock = lock;
        let mut seat = lock_for(rt, shared, &mut lock, seat, Want::Place);
        let is_put = shared.queue.put(number);
        lock.release(rt);
        // All who wait look again: who waits for a place and who waits for a number wait on one condition
        // variable.
        shared.cond.broadcast(rt, &mut seat);
        (Worker { shared, lock, seat }, is_put)
    }

    /// Takes a number once there is one: none where the queue was closed and is empty.
    fn take<R: Wait>(self, rt: &R) -> (Worker<'s>, Option<u64>) {
        if self.lock.left() == 0 {
            return (self, None);
        }
        let Worker { shared, lock, seat } = self;
        let mut lock = lock;
        let mut seat = lock_for(rt, shared, &mut lock, seat, Want::Number);
        let number = shared.queue.take();
        lock.release(rt);
        shared.cond.broadcast(rt, &mut seat);
        (Worker { shared, lock, seat }, number)
    }

    /// Closes the queue. Without the lock it could be closed behind the look of one who then takes a ticket,
    /// and sleeps for good.
    fn close<R: Wait>(self, rt: &R) {
        let Worker { shared, lock, seat } = self;
        let (mut lock, mut seat) = (lock, seat);
        if lock.left() > 0 {
            lock.acquire(rt);
            shared.queue.closed.store(true, SeqCst);
            lock.release(rt);
        }
        shared.cond.broadcast(rt, &mut seat);
    }

    /// Closes the queue where a thread couldn't be made: whoever has begun ends then.
    fn give_up<T, R: Wait>(self, rt: &R) -> Result<T, AllocError> {
        self.close(rt);
        Err(AllocError)
    }
}

/// How many numbers a thread has put or taken, and their sum.
#[derive(Clone, Copy, Drop)]
struct Sum {
    count: u64,
    total: u64,
}

impl Sum {
    fn plus(self, other: Sum) -> Sum {
        Sum {
            count: self.count.wrapping_add(other.count),
            total: self.total.wrapping_add(other.total),
        }
    }
}

/// Puts the numbers from this one on, so many: what it could put.
fn produce<R: Wait>(rt: &R, worker: Worker<'_>, first: u64) -> Sum {
    let mut worker = worker;
    let mut sum = Sum { count: 0, total: 0 };
    for at in 0..EACH {
        let total = first.wrapping_add(at);
        let (back, is_put) = worker.put(rt, total);
        worker = back;
        if is_put {
            sum = sum.plus(Sum { count: 1, total });
        }
    }
    sum
}

/// Takes numbers until there are no more: what it took.
fn consume<R: Wait>(rt: &R, worker: Worker<'_>) -> Sum {
    let mut worker = worker;
    let mut sum = Sum { count: 0, total: 0 };
    for _ in rt.forever() {
        let (back, taken) = worker.take(rt);
        worker = back;
        match taken {
            Some(total) => sum = sum.plus(Sum { count: 1, total }),
            None => return sum,
        }
    }
    unreachable!()
}

/// What a thread does: it puts the numbers from this one on, or takes them.
#[derive(Clone, Copy, Drop)]
enum Part {
    Puts(u64),
    Takes,
}

/// A thread for the worker, where there can be one.
fn start<'s, E, R: Wait + Sync>(
    rt: &'s R,
    scope: &'s Scope<'s, E>,
    worker: Worker<'s>,
    part: Part,
) -> Option<JoinHandle<Sum>> {
    let thread = scope.spawn(move || match part {
        Part::Puts(first) => produce(rt, worker, first),
        Part::Takes => consume(rt, worker),
    });
    match thread {
        Ok(thread) => Some(thread),
        Err(_refused) => None,
    }
}

/// A worker by the last seats.
fn hire<'s>(
    shared: &'s Shared<'s>,
    seats: &mut Vec<Seat>,
    owns: &mut Vec<ListSeat>,
) -> Result<Worker<'s>, AllocError>
    requires seats { All (λ s. s.table ≡ shared.now.table.now) seats.old.items }
    requires owns { All (λ s. s.list ≡ shared.now.cond.now) owns.old.items }
    ensures seats { All (λ s. s.table ≡ shared.now.table.now) seats.new.items }
    ensures owns { All (λ s. s.list ≡ shared.now.cond.now) owns.new.items }
{
    let (Some(seat), Some(own)) = (seats.pop(), owns.pop()) else {
        return Err(AllocError);
    };
    Ok(Worker::new(shared, seat, own))
}

/// Two threads put, two take, and this one closes the queue once all is put: what was put, and what was
/// taken.
///
/// It is an `Err` where a thread can't be made; whoever has begun then finds the queue closed, and ends.
fn run<R: Threads + Wait + Sync>(
    rt: &R,
    shared: &Shared<'_>,
    seats: Vec<Seat>,
    owns: Vec<ListSeat>,
) -> Result<(Sum, Sum), AllocError>
    requires seats { All (λ s. s.table ≡ shared.now.table.now) seats.items }
    requires owns { All (λ s. s.list ≡ shared.now.cond.now) owns.items }
{
    let (mut seats, mut owns) = (seats, owns);
    let one = hire(shared, &mut seats, &mut owns)?;
    let other = hire(shared, &mut seats, &mut owns)?;
    let third = hire(shared, &mut seats, &mut owns)?;
    let fourth = hire(shared, &mut seats, &mut owns)?;
    let closer = hire(shared, &mut seats, &mut owns)?;
    thread::scope(thread::scope_env(), rt, move |scope| {
        let third = start(rt, scope, third, Part::Takes);
        let fourth = start(rt, scope, fourth, Part::Takes);
        let one = start(rt, scope, one, Part::Puts(1));
        let other = start(rt, scope, other, Part::Puts(EACH + 1));
        let (Some(third), Some(fourth), Some(one), Some(other)) = (third, fourth, one, other) else {
            return closer.give_up(rt);
        };
        let put = one.join(rt).plus(other.join(rt));
        closer.close(rt);
        Ok((put, third.join(rt).plus(fourth.join(rt))))
    })
}

/// The same over a table, a condition variable and a queue of its own.
fn put_and_take<R: Threads + Wait + Sync>(rt: &R, alloc: Global) -> Result<(Sum, Sum)> {
    // one counter, at 1, for the lock: it has one unit, and who takes it holds the lock
    let settings = Settings {
        starts: vec![in alloc; 1]?,
        seats: 5,
        roots: 1,
        seed: 0,
        release_limit: 1 << 40,
    };
    let (table, seats) = SemaTable::new(alloc, settings)?;
    let (cond, owns) = Cond::with_seats(alloc, 5)?;
    if table.counters() == 0 {
        bail!("no counter");
    }
    let shared = Shared {
        table: &table,
        cond: &cond,
        queue: Queue::new(),
    };
    Ok(run(rt, &shared, seats, owns)?)
}

/// Tells how many numbers were put or taken, and their sum.
fn tell(rt: &impl Print, done: &str, sum: Sum) -> Result<()> {
    let Sum { count, total } = sum;
    println!(rt; "{done} {count} numbers, their sum is {total}")?;
    Ok(())
}

fn main(rt: HostRuntime) -> Result<()> {
    let (put, taken) = put_and_take(&rt, rt.alloc())?;
    tell(&rt, "put", put)?;
    tell(&rt, "taken", taken)
}
