//! Where the wait of each seat is, in lists that know it: so it is found without a walk. Two bytes a seat, and where
//! the record of a wait is stands once a record: memory that no wait needed yet is not touched.
ghost use Rattle.std.specs.Prelude.{◌≡◌, ◌≢◌, ℕ, Bool, IfOk, Some};
ghost use Rattle.waiters.specs.declared.lists.Place.{Place};
ghost use Rattle.waiters.specs.declared.lists.whereabouts.Whereabouts.TheVariants.{Only, Anywhere};
ghost use Rattle.slab.specs.Slab.{get, ContainsKey};
ghost use Rattle.waiters.specs.declared.lists.Record.{Record};
ghost use Rattle.waiters.specs.Whereabouts.{known_of, meant, IsFresh, Notes, Alters, after_put, after_taken, Follows, Learns, Forgets};

use super::{Place, Record};
use crate::seat_id::SeatId;
use slab::Slab;
use std::alloc::{AllocError, Global};
use std::marker::Model;

// The words of a seat that has no wait, and of one whose wait is found by a walk.
const NOWHERE: u16 = 65_535;

const ANYWHERE: u16 = 65_534;

/// What lists know of the wait of each seat from 0 on. Of further ones they know nothing.
#[derive(Drop)]
pub(super) struct Seats {
    /// The key of its only wait, or [`NOWHERE`], or [`ANYWHERE`].
    words: Vec<u16>,
    /// Where the record of each key is.
    sides: Vec<Side>,
}

impl Model for Seats {
    ghost use Rattle.waiters.specs.Whereabouts.{Known};

    ghost Value = { Known };

    ghost use Rattle.waiters.specs.Whereabouts.{AreTold};

    ghost view = { λ seats. record {
      words = seats.words.items;
      sides = seats.sides.items;
    } };

    ghost invariant = { λ seats. AreTold seats.words.items seats.sides.items };
}

/// Where a record is: its list, and the record that links to it.
#[derive(Clone, Copy, Drop)]
struct Side {
    list: usize,
    before: Option<usize>,
}

/// Where the wait of a seat is.
#[derive(Drop)]
pub(super) enum Whereabouts {
    /// In no list.
    Nowhere,
    /// In this list alone, at this place.
    Only(usize, Place),
    /// Perhaps in several places: the seat has had several waits at once.
    Anywhere,
}

impl Seats {
    /// So many seats, none of which has a wait, and memory for so many waits.
    pub(super) fn nowhere(alloc: Global, seats: usize, waits: usize) -> Result<Seats, AllocError>
        ensures { IfOk result (λ known. (seat list : ℕ) (place : Place) → known_of known seat ≢ Only list place) }
    {
        let mut words = Vec::with_capacity(alloc, seats)?;
        words.resize(seats, NOWHERE)?;
        let sides = Vec::with_capacity(alloc, if seats == 0 { 0 } else { waits })?;
        Ok(Seats { words, sides })
    }

    /// Nothing is known of any seat.
    pub(super) fn unknown(&self) -> Seats
        ensures { (seat : ℕ) → known_of result seat ≡ Anywhere }
    {
        let alloc = *self.words.allocator();
        Seats {
            words: Vec::new(alloc),
            sides: Vec::new(alloc),
        }
    }

    /// Nothing is known of any seat any more.
    pub(super) fn forget_all(&mut self)
        ensures { (seat : ℕ) → known_of self.new seat ≡ Anywhere }
    {
        self.words.clear();
    }

    /// Where the wait of this seat is.
    pub(super) fn whereabouts(&self, seat: SeatId) -> Whereabouts
        ensures { result ≡ known_of self.now seat }
    {
        let at = usize::from(seat.number());
        if at >= self.words.len() {
            return Whereabouts::Anywhere;
        }
        let word = self.words[at];
        if word == NOWHERE {
            return Whereabouts::Nowhere;
        }
        if word == ANYWHERE {
            return Whereabouts::Anywhere;
        }
        let key = usize::from(word);
        let Side { list, before } = self.sides[key];
        Whereabouts::Only(list, Place { before, key })
    }

    /// The record at this place was put in, before the record of that key.
    pub(super) fn learn(
        &mut self,
        records: &Slab<Record>,
        list: usize,
        place: Place,
        next: Option<usize>,
    )
        requires there { ContainsKey records.now place.key }
        requires fresh { IsFresh self.old place.key }
        ensures { Learns records.now self.old self.new list place next }
    {
        let seat = records[place.key].wait.id.seat;
        self.put(seat, list, place);
        self.follow(next, Some(place.key));
    }

    /// The record at this place is to be taken out.
    pub(super) fn forget(&mut self, records: &Slab<Record>, place: Place)
        requires { ContainsKey records.now place.key }
        ensures { Forgets records.now self.old self.new place }
    {
        let Record { wait, next } = records[place.key];
        self.take(wait.id.seat);
        self.follow(next, place.before);
    }

    // The seat has one more wait.
    fn put(&mut self, seat: SeatId, list: usize, place: Place)
        requires { IsFresh self.old place.key }
        ensures { (noted : Bool) × Alters self.old self.new seat (after_put noted list place) }
    {
        let at = usize::from(seat.number());
        if at >= self.words.len() {
            return;
        }
        let word = if self.words[at] == NOWHERE {
            self.note(list, place)
        } else {
            ANYWHERE
        };
        self.words[at] = word;
    }

    // Keeps where a record is that is no seat's only one yet, and answers the word for it.
    fn note(&mut self, list: usize, place: Place) -> u16
        requires { IsFresh self.old place.key }
        ensures words { self.new.words ≡ self.old.words }
        ensures kept { (seat : ℕ) → known_of self.new seat ≡ known_of self.old seat }
        ensures word { Notes self.new.sides result list place }
    {
        let key = place.key;
        let known = self.sides.len();
        if key >= usize::from(ANYWHERE) {
            return ANYWHERE;
        }
        let side = Side {
            list,
            before: place.before,
        };
        if key < known {
            self.sides[key] = side;
            return key as u16;
        }
        if key > known || known == self.sides.capacity() {
            return ANYWHERE;
        }
        self.sides.push_reserved(side);
        key as u16
    }

    // A wait of the seat is taken out.
    fn take(&mut self, seat: SeatId)
        ensures { Alters self.old self.new seat after_taken }
    {
        let at = usize::from(seat.number());
        if at >= self.words.len() {
            return;
        }
        if let Whereabouts::Anywhere = self.whereabouts(seat) {
            return;
        }
        self.words[at] = NOWHERE;
    }

    // Another record comes before the one of this key, if there is one.
    fn follow(&mut self, next: Option<usize>, before: Option<usize>)
        ensures { Follows self.old self.new next before }
    {
        let Some(key) = next else {
            return;
        };
        if key < self.sides.len() {
            self.sides[key].before = before;
        }
    }
}
