//! A root as a sorted vector: the reference for [`TreapRoot`](crate::TreapRoot), and faster while few
//! counters have waits. A search takes logarithmic time; a counter that comes in or goes moves the tail.
ghost use Rattle.std.specs.Prelude.{◌≡◌, ◌<◌, [], IfOk, IfErr, IfNone};
ghost use Rattle.sema_root.specs.Entries.{AreRising};
ghost use Rattle.sema_root.specs.Search.{pairs, IsAt, IsGapFor};
ghost use Rattle.sema_root.specs.Takes.{TakesOut};

use crate::push::push;
use crate::store::RootStore;
use crate::which::{Which, take};
use std::alloc::Global;
use std::marker::Model;
use waiters::{CounterId, ListKey, Lists, NoMemory, SeatId, Sought, Wait, WaitId};

/// A root as a vector of counters in rising order, each with its queue.
#[derive(Drop)]
pub struct SortedRoot {
    entries: Vec<CounterQueue>,
    lists: Lists,
    seats: u16,
}

/// A counter that has waits, and their list.
#[derive(Clone, Copy, Drop)]
struct CounterQueue {
    counter: CounterId,
    list: ListKey,
}

impl Model for SortedRoot {
    ghost use Rattle.sema_root.specs.Root.{Root};

    ghost Value = { Root };

    ghost use Rattle.sema_root.specs.Sorted.{root_of, IsSound};

    ghost view = { root_of };

    ghost invariant = { IsSound };
}

impl SortedRoot {
    /// An empty root, with memory for a wait of each seat.
    pub fn with_room(alloc: Global, seats: u16) -> Result<SortedRoot, NoMemory>
        ensures empty { IfOk result (λ made. made.queues ≡ []) }
        ensures seats { IfOk result (λ made. made.seats ≡ seats) }
    {
        let room = usize::from(seats);
        Ok(SortedRoot {
            entries: Vec::with_capacity(alloc, room)?,
            lists: Lists::with_room(alloc, room, room)?,
            seats,
        })
    }

    // Takes the wait that is meant out of its counter's queue, if it is in.
    fn take(&mut self, counter: CounterId, which: Which) -> Option<Wait>
        ensures out { TakesOut self.old.queues self.new.queues counter which result }
        ensures none { IfNone result (self.new ≡ self.old) }
        ensures seats { self.new.seats ≡ self.old.seats }
    {
        let Ok(at) = search(&self.entries, counter) else {
            return None;
        };
        let list = self.entries[at].list;
        let wait = take(&mut self.lists, list, which);
        if self.lists.len(list) == 0 {
            self.entries.remove(at);
            self.lists.close(list);
        }
        wait
    }
}

impl RootStore for SortedRoot {
    ghost queues = { λ root. root.queues };

    ghost seats = { λ root. root.seats };

    fn queue(&mut self, counter: CounterId, wait: Wait, lifo: bool) {
        match search(&self.entries, counter) {
            Ok(at) => {
                let list = self.entries[at].list;
                push(&mut self.lists, list, wait, lifo);
            }
            Err(at) => {
                let list = self.lists.open();
                push(&mut self.lists, list, wait, lifo);
                self.entries
                    .insert(at, CounterQueue { counter, list })
                    .unwrap();
            }
        }
    }

    fn dequeue(&mut self, counter: CounterId) -> Option<Wait> {
        self.take(counter, Which::First)
    }

    fn withdraw_seat(&mut self, counter: CounterId, seat: SeatId) -> Option<Wait> {
        self.take(counter, Which::Of(Sought::Seat(seat)))
    }

    fn withdraw(&mut self, counter: CounterId, id: WaitId) -> bool {
        self.take(counter, Which::Of(Sought::Id(id))).is_some()
    }

    fn holds(&self, counter: CounterId, seat: SeatId) -> bool {
        match search(&self.entries, counter) {
            Ok(at) => {
                let list = self.entries[at].list;
                self.lists.first_with(list, Sought::Seat(seat)).is_some()
            }
            Err(_) => false,
        }
    }

    fn count(&self) -> usize {
        usize::from(self.seats) - self.lists.room()
    }

    fn waiting(&self, counter: CounterId) -> usize {
        match search(&self.entries, counter) {
            Ok(at) => self.lists.len(self.entries[at].list),
            Err(_) => 0,
        }
    }

    fn first(&self, counter: CounterId) -> Option<Wait> {
        match search(&self.entries, counter) {
            Ok(at) => self.lists.first(self.entries[at].list),
            Err(_) => None,
        }
    }

    fn ids(&self, alloc: Global, counter: CounterId) -> Result<Vec<WaitId>, NoMemory> {
        match search(&self.entries, counter) {
            Ok(at) => self.lists.ids(alloc, self.entries[at].list),
            Err(_) => Ok(Vec::new(alloc)),
        }
    }

    fn is_full(&self) -> bool {
        self.lists.room() == 0
    }
}

// Where the counter is, or where it would go.
fn search(entries: &[CounterQueue], counter: CounterId) -> Result<usize, usize>
    requires { AreRising (pairs entries.now) }
    ensures found { IfOk result (IsAt entries.now counter) }
    ensures absent { IfErr result (IsGapFor entries.now counter) }
{
    entries.binary_search_by_key(&counter, |entry| entry.counter)
}
