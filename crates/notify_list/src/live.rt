//! Which tickets are gone, in memory that is reserved once.
//!
//! Between the first ticket that is neither granted nor gone and the last that is gone the live ones are kept,
//! those that aren't gone: each is that of another seat, so there are no more of them than seats. The gone ones
//! between them may be many. Where no ticket is gone, nothing is kept.
ghost use Rattle.std.specs.Prelude.{◌≡◌, ℕ, ◌<◌, ◌≤◌, ◌^◌, List, [], nat_eq, vec_capacity, IfOk};
ghost use Rattle.std.specs.List.{position};
ghost use Rattle.step_table.specs.Wrapping.{word_of};
ghost use Rattle.notify_list.specs.LiveTickets.{AreKept, AreLive, IsPassedBy, MayBeGone, IsGoneBy, MayAllPass, AllPassed};

use std::alloc::{AllocError, Global};
use step_table::{minus, next_word};

/// The live tickets, in order, and the first ticket after the last that is gone.
#[derive(Drop)]
pub struct Live {
    pub words: Vec<u64>,
    pub end: u64,
}

impl Live {
    /// No ticket was handed out, and there is room for so many live ones.
    pub(crate) fn with_room(alloc: Global, first: u64, room: usize) -> Result<Live, AllocError>
        requires { first < 2 ^ 64 }
        ensures live { IfOk result (λ live. AreLive first live 0 []) }
        ensures room { IfOk result (λ live. room ≤ vec_capacity live.words) }
    {
        Ok(Live {
            words: Vec::with_capacity(alloc, room)?,
            end: first,
        })
    }

    /// The first ticket that is neither granted nor gone is passed: the next such one.
    pub(crate) fn pass(&mut self, ticket: u64) -> u64
        requires { (first passed : ℕ) × (gone : List ℕ) × AreLive first self.old passed gone
            × (ticket ≡ word_of first passed) }
        ensures live { (first passed : ℕ) (gone : List ℕ) → AreLive first self.old passed gone
            → ticket ≡ word_of first passed → IsPassedBy first passed gone result self.new }
        ensures capacity { vec_capacity self.new.words ≡ vec_capacity self.old.words }
    {
        let Some(_) = self.words.first() else {
            self.end = next_word(ticket);
            return self.end;
        };
        self.words.remove(0);
        match self.words.first() {
            Some(next) => *next,
            None => self.end,
        }
    }

    /// The ticket, which is live and not the first, is gone.
    pub(crate) fn take(&mut self, ticket: u64)
        requires { (first passed m : ℕ) × (gone : List ℕ) × AreLive first self.old passed gone
            × MayBeGone first passed m gone ticket (vec_capacity self.old.words) }
        ensures live { (first passed m : ℕ) (gone : List ℕ) → AreLive first self.old passed gone
            → MayBeGone first passed m gone ticket (vec_capacity self.old.words) → IsGoneBy first passed m gone self.new }
        ensures capacity { vec_capacity self.new.words ≡ vec_capacity self.old.words }
    {
        match self.place_of(ticket) {
            Some(place) => {
                self.words.remove(place);
            }
            None => self.reach(ticket),
        }
    }

    /// Where the ticket stands among those that are kept.
    fn place_of(&self, ticket: u64) -> Option<usize>
        ensures { result ≡ position (λ word. nat_eq word ticket) self.now.words.items }
    {
        self.words.iter().position(|word| *word == ticket)
    }

    /// The tickets from the end up to this one are live, and this one is gone.
    fn reach(&mut self, ticket: u64)
        requires { (first passed m : ℕ) × (gone : List ℕ) × (kept : AreKept first self.old passed gone)
            × (kept.end ≤ m) × MayBeGone first passed m gone ticket (vec_capacity self.old.words) }
        ensures live { (first passed m : ℕ) (gone : List ℕ) → (kept : AreKept first self.old passed gone)
            → kept.end ≤ m → MayBeGone first passed m gone ticket (vec_capacity self.old.words)
            → IsGoneBy first passed m gone self.new }
        ensures capacity { vec_capacity self.new.words ≡ vec_capacity self.old.words }
    {
        while self.end != ticket {
            self.words.push_reserved(self.end);
            self.end = next_word(self.end);
        }
        self.end = next_word(ticket);
    }

    /// All tickets up to this one are passed: how many of them weren't gone.
    pub(crate) fn pass_all(&mut self, waited: u64) -> u64
        requires { (first passed upto : ℕ) × (gone : List ℕ) × AreLive first self.old passed gone
            × MayAllPass first passed upto gone waited }
        ensures live { (first passed upto : ℕ) (gone : List ℕ) → AreLive first self.old passed gone
            → MayAllPass first passed upto gone waited → AllPassed first passed upto gone result self.new }
        ensures capacity { vec_capacity self.new.words ≡ vec_capacity self.old.words }
    {
        let many = self.words.len() as u64 + minus(waited, self.end);
        self.words.clear();
        self.end = waited;
        many
    }
}
