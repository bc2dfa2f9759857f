//! A root as a treap, with the tickets of Go's `semaRoot`.
//!
//! A node's ticket is the low 32 bits of the generator's next word with the lowest bit set. The generator
//! starts as `seed_from_u64(seed)`, and a word is used for each node and for nothing else. A counter keeps
//! its node, and so its ticket, while it has waits.
ghost use Rattle.std.specs.Prelude.{◌≡◌, ◌<◌, ◌+◌, ◌++◌, MatchOption, IfOk, OnOk, OnErr, IfNone, OnSome};
ghost use Rattle.std.specs.Prelude.{drop, length, slice_get, is_some, IsSome, true, false};
ghost use Rattle.waiters.specs.Lists.{seats_of, is_sought, first_sought, without_sought};
ghost use Rattle.waiters.specs.declared.sought.Sought.TheVariants.{Seat, Id};
ghost use Rattle.sema_root.specs.Queues.{waits_on, total, AreQueues, joined_by, Changes};
ghost use Rattle.sema_root.specs.Rooted.{Comes, IsIn};
ghost use Rattle.sema_root.specs.declared.which.Which.TheVariants.{Of};
ghost use Rattle.sema_root.specs.Takes.{taken_by, TakesOut};
ghost use Rattle.sema_root.specs.Tree.{leaf, top_counter, top_place, top_value, sought, IsTreap};
ghost use Rattle.sema_root.specs.Treap.{queues_of, KeepsTickets, Draws, tickets_from};

use crate::place::TreapPlace;
use crate::push::push;
use crate::store::RootStore;
use crate::tickets::Tickets;
use crate::treap::Treap;
use crate::which::{Which, take};
use std::alloc::{AllocError, Global};
use std::marker::Model;
use waiters::{CounterId, ListKey, Lists, NoMemory, SeatId, Sought, Wait, WaitId};

/// A root as a treap of counters, each with its queue.
#[derive(Drop)]
pub struct TreapRoot {
    treap: Treap,
    lists: Lists,
    tickets: Tickets,
    seats: u32,
}

impl Model for TreapRoot {
    ghost use Rattle.sema_root.specs.Treap.{Treap as Root, treap_code};

    ghost Value = { Root };

    ghost coded = { treap_code };

    ghost use Rattle.sema_root.specs.Rooted.{shown, IsRooted};

    ghost view = { λ root. shown root.lists root.treap.tree root.tickets root.seats };

    ghost invariant = { λ root. IsRooted root.treap root.lists root.seats };
}

impl TreapRoot {
    /// An empty root, with memory for a wait of each seat. Its tickets are drawn from the seed.
    pub fn with_room(alloc: Global, seats: u16, seed: u64) -> Result<TreapRoot, NoMemory>
        ensures empty { IfOk result (λ made. made.tree ≡ leaf) }
        ensures seats { IfOk result (λ made. made.seats ≡ seats) }
        ensures tickets { IfOk result (λ made. made.tickets ≡ tickets_from seed) }
    {
        TreapRoot::make(alloc, u32::from(seats), 0, seed)
    }

    /// The same for any number of seats, whose waits are withdrawn without a walk.
    pub fn with_room_for(alloc: Global, seats: u32, seed: u64) -> Result<TreapRoot, NoMemory>
        ensures empty { IfOk result (λ made. made.tree ≡ leaf) }
        ensures seats { IfOk result (λ made. made.seats ≡ seats) }
        ensures tickets { IfOk result (λ made. made.tickets ≡ tickets_from seed) }
    {
        TreapRoot::make(alloc, seats, seats, seed)
    }

    // A root that knows where the wait of each seat is that is below `known`.
    fn make(alloc: Global, seats: u32, known: u32, seed: u64) -> Result<TreapRoot, NoMemory>
        ensures empty { IfOk result (λ made. made.tree ≡ leaf) }
        ensures seats { IfOk result (λ made. made.seats ≡ seats) }
        ensures tickets { IfOk result (λ made. made.tickets ≡ tickets_from seed) }
    {
        let (room, known) = (seats as usize, known as usize);
        Ok(TreapRoot {
            treap: Treap::with_room(alloc, room)?,
            lists: Lists::with_seats(alloc, room, room, known)?,
            tickets: Tickets::from_seed(seed),
            seats,
        })
    }

    /// The counter of the topmost node, `None` in an empty root.
    pub fn top(&self) -> Option<CounterId>
        ensures top { result ≡ top_counter self.now.tree }
        ensures treap { IsTreap self.now.tree }
    {
        self.treap.top()
    }

    /// The node of a counter, `None` where nobody waits on it.
    pub fn place(&self, counter: CounterId) -> Option<TreapPlace>
        ensures place { result ≡ top_place (sought counter self.now.tree) }
        ensures treap { IsTreap self.now.tree }
    {
        self.treap.place(counter)
    }

    /// Becomes as the other root is. No memory is taken where there is as much as the other has.
    pub fn copy_from(&mut self, other: &TreapRoot) -> Result<(), NoMemory>
        ensures ok { OnOk result (self.new ≡ other.now) }
        ensures err { OnErr result (self.new ≡ self.old) }
    {
        let tickets = other.tickets.clone()?;
        // Two roots where nobody waits differ in their tickets alone.
        if !self.treap.is_empty() || !other.treap.is_empty() || self.seats != other.seats {
            self.treap
                .copy_from(&other.treap, &mut self.lists, &other.lists)?;
        }
        self.tickets = tickets;
        self.seats = other.seats;
        Ok(())
    }

    /// Writes the seat of each wait of a counter's queue behind these words, in order. On `Err` nothing is
    /// written.
    pub fn write_seats(&self, counter: CounterId, words: &mut Vec<u64>) -> Result<(), NoMemory>
        ensures ok { OnOk result (words.new.items
            ≡ words.old.items ++ seats_of (waits_on (queues_of self.now.tree) counter)) }
        ensures err { OnErr result (words.new.items ≡ words.old.items) }
    {
        match self.treap.find(counter) {
            Some(list) => self.lists.write_seats(list, words),
            None => Ok(()),
        }
    }

    // Takes the wait that is meant out of its counter's queue. Where anybody waits, one has to be meant.
    fn take(&mut self, counter: CounterId, which: Which) -> Option<Wait>
        requires { 0 < length (waits_on (queues_of self.old.tree) counter)
            → IsSome (taken_by which (waits_on (queues_of self.old.tree) counter)) }
        ensures out { TakesOut (queues_of self.old.tree) (queues_of self.new.tree) counter which result }
        ensures none { IfNone result (self.new ≡ self.old) }
        ensures seats { self.new.seats ≡ self.old.seats }
        ensures kept { KeepsTickets self.old.tree self.new.tree }
        ensures undrawn { self.new.tickets ≡ self.old.tickets }
    {
        let Some(list) = self.treap.leave(counter, &self.lists) else {
            return None;
        };
        let wait = take(&mut self.lists, list, which);
        if self.lists.len(list) == 0 {
            self.lists.close(list);
        }
        wait
    }

    // Takes the first wait that is sought out of its counter's queue, if it is in.
    fn take_sought(&mut self, counter: CounterId, meant: Sought) -> Option<Wait>
        ensures out { TakesOut (queues_of self.old.tree) (queues_of self.new.tree) counter (Of meant) result }
        ensures none { IfNone result (self.new ≡ self.old) }
        ensures seats { self.new.seats ≡ self.old.seats }
        ensures kept { KeepsTickets self.old.tree self.new.tree }
        ensures undrawn { self.new.tickets ≡ self.old.tickets }
    {
        if !self.has(counter, &meant) {
            return None;
        }
        self.take(counter, Which::Of(meant))
    }

    // Whether a wait that is sought is in the counter's queue.
    fn has(&self, counter: CounterId, meant: &Sought) -> bool
        ensures is_in { result
            ≡ is_some (first_sought (is_sought meant.now) (waits_on (queues_of self.now.tree) counter)) }
        ensures map { AreQueues (queues_of self.now.tree) }
    {
        match self.treap.find(counter) {
            Some(list) => self.lists.first_with(list, *meant).is_some(),
            None => false,
        }
    }
}

impl RootStore for TreapRoot {
    ghost queues = { λ root. queues_of root.tree };

    ghost seats = { λ root. root.seats };

    fn queue(&mut self, counter: CounterId, wait: Wait, lifo: bool)
        requires fits { total (queues_of self.old.tree) < self.old.seats }
        ensures queued { Changes (queues_of self.old.tree) (queues_of self.new.tree) counter
            (joined_by lifo wait (waits_on (queues_of self.old.tree) counter)) }
        ensures count { total (queues_of self.new.tree) ≡ total (queues_of self.old.tree) + 1 }
        ensures map { AreQueues (queues_of self.new.tree) }
        ensures seats { self.new.seats ≡ self.old.seats }
        ensures kept { KeepsTickets self.old.tree self.new.tree }
        ensures drawn { Draws self.old self.new counter }
    {
        let list = list_for(&mut self.treap, &mut self.tickets, &mut self.lists, counter);
        push(&mut self.lists, list, wait, lifo);
    }

    fn dequeue(&mut self, counter: CounterId) -> Option<Wait>
        ensures first { result ≡ slice_get (waits_on (queues_of self.old.tree) counter) 0 }
        ensures rest { Changes (queues_of self.old.tree) (queues_of self.new.tree) counter
            (drop 1 (waits_on (queues_of self.old.tree) counter)) }
        ensures count { OnSome result
            (total (queues_of self.new.tree) + 1 ≡ total (queues_of self.old.tree)) }
        ensures none { IfNone result (self.new ≡ self.old) }
        ensures map { AreQueues (queues_of self.new.tree) }
        ensures seats { self.new.seats ≡ self.old.seats }
        ensures kept { KeepsTickets self.old.tree self.new.tree }
        ensures undrawn { self.new.tickets ≡ self.old.tickets }
    {
        self.take(counter, Which::First)
    }

    fn withdraw_seat(&mut self, counter: CounterId, seat: SeatId) -> Option<Wait>
        ensures first { result
            ≡ first_sought (is_sought (Seat seat)) (waits_on (queues_of self.old.tree) counter) }
        ensures rest { Changes (queues_of self.old.tree) (queues_of self.new.tree) counter
            (without_sought (is_sought (Seat seat)) (waits_on (queues_of self.old.tree) counter)) }
        ensures count { OnSome result
            (total (queues_of self.new.tree) + 1 ≡ total (queues_of self.old.tree)) }
        ensures none { IfNone result (self.new ≡ self.old) }
        ensures map { AreQueues (queues_of self.new.tree) }
        ensures seats { self.new.seats ≡ self.old.seats }
        ensures kept { KeepsTickets self.old.tree self.new.tree }
        ensures undrawn { self.new.tickets ≡ self.old.tickets }
    {
        self.take_sought(counter, Sought::Seat(seat))
    }

    fn withdraw(&mut self, counter: CounterId, id: WaitId) -> bool
        ensures is_in { result
            ≡ is_some (first_sought (is_sought (Id id)) (waits_on (queues_of self.old.tree) counter)) }
        ensures rest { Changes (queues_of self.old.tree) (queues_of self.new.tree) counter
            (without_sought (is_sought (Id id)) (waits_on (queues_of self.old.tree) counter)) }
        ensures count { result ≡ true
            → total (queues_of self.new.tree) + 1 ≡ total (queues_of self.old.tree) }
        ensures none { result ≡ false → self.new ≡ self.old }
        ensures map { AreQueues (queues_of self.new.tree) }
        ensures seats { self.new.seats ≡ self.old.seats }
        ensures kept { KeepsTickets self.old.tree self.new.tree }
        ensures undrawn { self.new.tickets ≡ self.old.tickets }
    {
        self.take_sought(counter, Sought::Id(id)).is_some()
    }

    fn holds(&self, counter: CounterId, seat: SeatId) -> bool
        ensures is_in { result
            ≡ is_some (first_sought (is_sought (Seat seat)) (waits_on (queues_of self.now.tree) counter)) }
        ensures map { AreQueues (queues_of self.now.tree) }
    {
        self.has(counter, &Sought::Seat(seat))
    }

    fn count(&self) -> usize {
        self.seats as usize - self.lists.room()
    }

    fn waiting(&self, counter: CounterId) -> usize {
        match self.treap.find(counter) {
            Some(list) => self.lists.len(list),
            None => 0,
        }
    }

    fn first(&self, counter: CounterId) -> Option<Wait> {
        match self.treap.find(counter) {
            Some(list) => self.lists.first(list),
            None => None,
        }
    }

    fn ids(&self, alloc: Global, counter: CounterId) -> Result<Vec<WaitId>, NoMemory> {
        match self.treap.find(counter) {
            Some(list) => self.lists.ids(alloc, list),
            None => Ok(Vec::new(alloc)),
        }
    }

    fn is_full(&self) -> bool {
        self.lists.room() == 0
    }
}

impl Clone for TreapRoot {
    ghost is_clone = { λ root copy. copy ≡ root };

    // The copy has its own memory reserved, so that it takes as many waits as this root with no more.
    fn clone(&self) -> Result<Self, AllocError> {
        let treap = self.treap.clone()?;
        let lists = self.lists.clone()?;
        let tickets = self.tickets.clone()?;
        Ok(TreapRoot {
            treap,
            lists,
            tickets,
            seats: self.seats,
        })
    }
}

// The list of a counter. One that isn't in yet comes in, with the next ticket and an empty list.
#[inline]
fn list_for(
    treap: &mut Treap,
    tickets: &mut Tickets,
    lists: &mut Lists,
    counter: CounterId,
) -> ListKey
    requires room { 0 < treap.old.room }
    requires list_room { 0 < lists.old.list_room }
    ensures { MatchOption (top_value (sought counter treap.old.tree))
        (Comes treap.old treap.new tickets.old tickets.new lists.old lists.new counter result)
        (λ found. IsIn treap.old treap.new tickets.old tickets.new lists.old lists.new found result) }
{
    let listed = treap.list_for(counter, tickets.next(), lists);
    if !listed.is_new {
        return listed.list;
    }
    tickets.advance();
    listed.list
}
