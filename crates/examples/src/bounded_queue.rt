//! A queue of at most so many items, which waits where there is no place and where there is no item.
ghost use Rattle.std.specs.Prelude.{◌≡◌, ◌^◌, ◌<◌, ◌∷◌, [], IfOk, IfErr};
ghost use Rattle.crossbeam_queue.specs.Passes.{view, IsSamePass};
ghost use Rattle.examples.specs.Moves.{all_parts, with_put, with_taken};
ghost use Rattle.examples.specs.Queue.{IsNew, IsRefused, IsOf, new_worker, after_entry, after_leave, HasPut};
ghost use Rattle.examples.specs.Queue.{HasTaken, AreLeftOf};

use crate::moves::{Moves, OnePart, Puts, Ring, Takes, Total};
use crossbeam_queue::Pass;
use std::alloc::Global;
use std::marker::Model;
use std::sync::Wait;
use std::thread;
use sync_parts::{CounterId, Seat, SemaTable, Settings, SetupError};

/// The most workers: each has a seat of the table.
const MAX_WORKERS: u32 = 256;

/// The counter of the free places.
const FREE: u32 = 0;
/// The counter of the items.
const FULL: u32 = 1;

/// A ring of items, whose free places and items are two counters. Threads share it by reference, or in an
/// `Arc`, each with a worker of its own.
#[derive(Drop)]
pub struct BoundedQueue {
    table: SemaTable,
    ring: Ring,
}

/// Who puts and takes: used by one thread at a time.
#[derive(Drop)]
pub struct Worker {
    seat: Seat,
    pass: Pass<u32, Moves>,
}

/// Who knows what was put and taken by all who have left.
#[derive(Drop)]
pub struct Tally {
    pass: Pass<u32, Moves>,
}

impl Model for BoundedQueue {
    ghost use Rattle.std.specs.Prelude.{◌≡◌, ◌∷◌, []};
    ghost use Rattle.examples.specs.Parts.{QueueModel};

    ghost Value = { QueueModel };

    ghost view = { λ q. record { table = q.table; ring = q.ring.table.shared.table_id; places = q.ring.cap } };

    ghost invariant = { λ q. q.table.setting.starts ≡ q.ring.cap ∷ 0 ∷ [] };
}

impl Model for Worker {
    ghost use Rattle.std.specs.Prelude.{◌≡◌, ◌<◌, []};
    ghost use Rattle.examples.specs.Parts.{WorkerModel};

    ghost Value = { WorkerModel };

    ghost view = { λ w. record { seat = w.seat; ring = w.pass.table_id; moves = w.pass.me.0.client } };

    ghost invariant = { λ w. (w.pass.me.1 ≡ []) × (0 < w.pass.me.0.client.parts) };
}

impl Model for Tally {
    ghost use Rattle.std.specs.Prelude.{◌≡◌, ◌<◌, []};
    ghost use Rattle.examples.specs.Parts.{TallyModel};

    ghost Value = { TallyModel };

    ghost view = { λ t. record { ring = t.pass.table_id; moves = t.pass.me.0.client } };

    ghost invariant = { λ t. (t.pass.me.1 ≡ []) × (0 < t.pass.me.0.client.parts) };
}

/// Two counters: one of the free places, at so many, and one of the items, at 0.
fn settings(alloc: Global, places: u32, workers: u32) -> Result<Settings, SetupError>
    ensures starts { IfOk result (λ s. s.starts.items ≡ places ∷ 0 ∷ []) }
    ensures others { IfOk result (λ s. (s.seats ≡ workers) × (s.roots ≡ 1) × (s.release_limit ≡ 2 ^ 40)) }
    ensures err { IfErr result (λ refused. refused ≡ SetupError.NoMemory) }
{
    let Ok(mut starts) = Vec::with_capacity(alloc, 2) else {
        return Err(SetupError::NoMemory);
    };
    starts.push_reserved(places);
    starts.push_reserved(0);
    Ok(Settings {
        starts,
        seats: workers,
        roots: 1,
        seed: 0,
        release_limit: 1 << 40,
    })
}

impl Worker {
    /// How many items the worker may yet put or take.
    pub fn left(&self) -> u64
        ensures { result ≡ self.now.seat.left }
    {
        self.seat.left()
    }
}

impl BoundedQueue {
    /// An empty queue of so many places, a seat for each worker, and the tally. An error has made nothing:
    /// there are not 1 to 256 workers, or no memory for what they ask.
    pub fn new(
        alloc: Global,
        places: u32,
        workers: u32,
    ) -> Result<(BoundedQueue, Vec<Seat>, Tally), SetupError>
        requires { 0 < places }
        ensures ok { IfOk result (λ q. IsNew places workers q.0 q.1.items q.2) }
        ensures err { IfErr result (λ refused. IsRefused workers refused) }
    {
        // Looked at before memory is asked for, so that want of it isn't told in its place.
        if workers == 0 || workers > MAX_WORKERS {
            return Err(SetupError::Seats);
        }
        let (table, seats) = SemaTable::new(alloc, settings(alloc, places, workers)?)?;
        let Ok((ring, pass)) = Ring::ruled(alloc, places as usize) else {
            return Err(SetupError::NoMemory);
        };
        Ok((BoundedQueue { table, ring }, seats, Tally { pass }))
    }

    /// A worker at this seat, who has put and taken nothing.
    pub fn enter(&self, tally: &mut Tally, seat: Seat) -> Worker
        requires own { (tally.old.ring ≡ self.now.ring) × (seat.table ≡ self.now.table) }
        requires parts { 1 < tally.old.moves.parts }
        ensures worker { result ≡ new_worker seat self.now.ring }
        ensures tally { tally.new ≡ after_entry tally.old }
    {
        let pass = self.ring.another::<OnePart>(&mut tally.pass);
        Worker { seat, pass }
    }

    /// Puts an item in, and waits while all places are taken.
    pub fn put<R: Wait>(&self, rt: &R, worker: Worker, item: u32) -> Worker
        requires { IsOf self.now worker × (0 < worker.seat.left) }
        ensures { HasPut self.now worker item result }
    {
        let Worker { seat, mut pass } = worker;
        let seat = self.table.acquire(rt, seat, CounterId::new(FREE), false);
        self.push(rt, &mut pass, item);
        // Told once it is there: told earlier, one who takes could look before it came.
        let Ok((seat, _)) = self.table.release(rt, seat, CounterId::new(FULL), false) else {
            unreachable!()
        };
        Worker { seat, pass }
    }

    /// Takes the item that is there the longest, and waits while there is none.
    pub fn take<R: Wait>(&self, rt: &R, worker: Worker) -> (Worker, u32)
        requires { IsOf self.now worker × (0 < worker.seat.left) }
        ensures { HasTaken self.now worker result.1 result.0 }
    {
        let Worker { seat, mut pass } = worker;
        let seat = self.table.acquire(rt, seat, CounterId::new(FULL), false);
        let item = self.pop(rt, &mut pass);
        let Ok((seat, _)) = self.table.release(rt, seat, CounterId::new(FREE), false) else {
            unreachable!()
        };
        (Worker { seat, pass }, item)
    }

    /// The item goes into the ring. Its place was claimed, so it is free, or is being emptied.
    fn push<R: Wait>(&self, rt: &R, pass: &mut Pass<u32, Moves>, item: u32)
        requires pass { (pass.old.table_id ≡ self.now.ring) × (pass.old.me.1 ≡ []) }
        requires part { 0 < (view pass.old).parts }
        ensures same { IsSamePass pass.old pass.new }
        ensures put { view pass.new ≡ with_put (view pass.old) item }
    {
        for _ in rt.forever() {
            match self.ring.try_push_as::<Puts>(pass, item) {
                Ok(()) => return,
                Err(_) => thread::yield_now(),
            }
        }
        unreachable!()
    }

    /// An item comes out of the ring. It was claimed, so it is there, or is being put.
    fn pop<R: Wait>(&self, rt: &R, pass: &mut Pass<u32, Moves>) -> u32
        requires pass { (pass.old.table_id ≡ self.now.ring) × (pass.old.me.1 ≡ []) }
        requires part { 0 < (view pass.old).parts }
        ensures same { IsSamePass pass.old pass.new }
        ensures taken { view pass.new ≡ with_taken (view pass.old) result }
    {
        for _ in rt.forever() {
            match self.ring.try_pop_as::<Takes>(pass) {
                Some(item) => return item,
                None => thread::yield_now(),
            }
        }
        unreachable!()
    }

    /// A worker leaves: what it has put and taken goes to the tally, and its seat comes back.
    pub fn leave(&self, tally: &mut Tally, worker: Worker) -> Seat
        requires { (tally.old.ring ≡ self.now.ring) × IsOf self.now worker }
        ensures seat { result ≡ worker.seat }
        ensures tally { tally.new ≡ after_leave tally.old worker }
    {
        let Worker { seat, pass } = worker;
        self.ring.absorb::<OnePart>(&mut tally.pass, pass);
        seat
    }

    /// How many items are left once all workers have left: each was taken or is left, as often as it was put.
    pub fn audit<R: Wait>(&self, rt: &R, tally: &mut Tally) -> usize
        requires own { tally.old.ring ≡ self.now.ring }
        requires all { tally.old.moves.parts ≡ all_parts }
        ensures same { tally.new ≡ tally.old }
        ensures left { AreLeftOf self.now tally.old result }
    {
        self.ring.len_as::<Total, R>(rt, &mut tally.pass)
    }
}
