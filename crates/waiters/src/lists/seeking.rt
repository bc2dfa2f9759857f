//! The first wait of a list that is sought: where it is, and how it is taken out.
ghost use Rattle.std.specs.Prelude.{◌≡◌, ◌+◌, IfNone, OnSome, Some};
ghost use Rattle.waiters.specs.Chains.{HasLinks, Finds};
ghost use Rattle.waiters.specs.Whereabouts.{IsChainOf, known_about};
ghost use Rattle.waiters.specs.Lists.{IsOpen, waits_at, Changes, is_sought, first_sought, without_sought};
ghost use Rattle.waiters.specs.Lists.{first_with, without_first};

use super::whereabouts::{Seats, Whereabouts};
use super::{Chain, Lists, Place, Record, unlink};
use crate::list_key::ListKey;
use crate::sought::Sought;
use crate::wait::{Wait, WaitId};
use slab::Slab;

impl Lists {
    /// The first wait of the list that is sought.
    pub fn first_with(&self, key: ListKey, sought: Sought) -> Option<Wait>
        requires open { IsOpen self.now key }
        ensures { result ≡ first_sought (is_sought sought) (waits_at self.now key) }
    {
        let list = key.number();
        let chain = self.chains[list];
        let Some(place) = locate(&self.records, &self.seats, list, chain, &sought) else {
            return None;
        };
        Some(self.records[place.key].wait)
    }

    /// Takes the first wait that is sought out of its list. The others stay in order.
    pub fn take(&mut self, key: ListKey, sought: Sought) -> Option<Wait>
        requires open { IsOpen self.old key }
        ensures first { result ≡ first_sought (is_sought sought) (waits_at self.old key) }
        ensures rest { Changes self.old self.new key
            (Some (without_sought (is_sought sought) (waits_at self.old key))) }
        ensures room { OnSome result (self.new.room ≡ self.old.room + 1) }
        ensures none { IfNone result (self.new ≡ self.old) }
        ensures list_room { self.new.list_room ≡ self.old.list_room }
    {
        let list = key.number();
        let chain = self.chains[list];
        let Some(place) = locate(&self.records, &self.seats, list, chain, &sought) else {
            return None;
        };
        self.seats.forget(&self.records, place);
        let (wait, left) = unlink(&mut self.records, chain, place);
        self.chains[list] = left;
        self.room += 1;
        Some(wait)
    }

    /// Takes the first wait with this ticket out of its list. The others stay in order.
    pub fn take_ticket(&mut self, key: ListKey, ticket: u64) -> Option<Wait>
        requires open { IsOpen self.old key }
        ensures first { result ≡ first_with ticket (waits_at self.old key) }
        ensures rest { Changes self.old self.new key (Some (without_first ticket (waits_at self.old key))) }
        ensures room { OnSome result (self.new.room ≡ self.old.room + 1) }
        ensures none { IfNone result (self.new ≡ self.old) }
        ensures list_room { self.new.list_room ≡ self.old.list_room }
    {
        self.take(key, Sought::Ticket(ticket))
    }

    /// Takes the wait of this name out of its list. The others stay in order.
    pub fn remove(&mut self, key: ListKey, id: WaitId) -> Option<Wait>
        requires open { IsOpen self.old key }
        ensures first { result ≡ first_sought (is_sought (Sought.Id id)) (waits_at self.old key) }
        ensures rest { Changes self.old self.new key
            (Some (without_sought (is_sought (Sought.Id id)) (waits_at self.old key))) }
        ensures room { OnSome result (self.new.room ≡ self.old.room + 1) }
        ensures none { IfNone result (self.new ≡ self.old) }
        ensures list_room { self.new.list_room ≡ self.old.list_room }
    {
        self.take(key, Sought::Id(id))
    }
}

// Where the first wait of the list is that is sought: by what is known of its seat, and else by a walk.
fn locate(
    records: &Slab<Record>,
    seats: &Seats,
    list: usize,
    chain: Chain,
    sought: &Sought,
) -> Option<Place>
    requires { IsChainOf records.now seats.now list chain }
    ensures { Finds records.now chain (is_sought sought.now) result }
{
    match about(seats, sought) {
        Whereabouts::Nowhere => None,
        Whereabouts::Only(there, place) => {
            if there != list {
                return None;
            }
            if !sought.is(&records[place.key].wait) {
                return None;
            }
            Some(place)
        }
        Whereabouts::Anywhere => find(records, chain, sought),
    }
}

// What is known of the seat of the wait that is sought.
fn about(seats: &Seats, sought: &Sought) -> Whereabouts
    ensures { result ≡ known_about seats.now sought.now }
{
    let seat = match *sought {
        Sought::Ticket(_) => return Whereabouts::Anywhere,
        Sought::Seat(seat) => seat,
        Sought::Id(id) => id.seat,
    };
    seats.whereabouts(seat)
}

// Where the first wait is that is sought, by a walk.
fn find(records: &Slab<Record>, chain: Chain, sought: &Sought) -> Option<Place>
    requires { HasLinks records.now chain }
    ensures { Finds records.now chain (is_sought sought.now) result }
{
    let mut before = None;
    let mut here = chain.first;
    while let Some(key) = here {
        let Record { wait, next } = records[key];
        if sought.is(&wait) {
            return Some(Place { before, key });
        }
        before = here;
        here = next;
    }
    None
}
