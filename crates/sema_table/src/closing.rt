//! A table is closed with all its seats.
ghost use Rattle.std.specs.Prelude.{◌≡◌, ℕ, ◌<◌, ◌∷◌, false, All, length, slice_index_or};
ghost use Rattle.std.specs.Mem.Slots.{slots_len, slots_filled, IsFull};
ghost use Rattle.sema_table.specs.Closing.{AreAll, IsClosed, IsGathered};
ghost use Rattle.sema_table.specs.CallersEnding.{EndsTable};

use crate::closed::Closed;
use crate::rows::Token;
use crate::seat::Seat;
use crate::sema_table::SemaTable;
use crate::view::Record;
use std::alloc::Global;

/// Takes what lies in the slots.
fn empty(closed: &mut running_rows::Closed<Record, Global>)
    requires { IsFull closed.old.slots }
    ensures words { closed.new.words ≡ closed.old.words }
    ensures empty { (k : ℕ) → k < slots_len closed.new.slots
        → slice_index_or (slots_filled closed.new.slots) k false ≡ false }
{
    let mut slot = 0;
    while slot < closed.slot_count() {
        drop(closed.take(slot));
        slot += 1;
    }
}

impl SemaTable {
    /// One view of all these seats, and how many units they have added and were given.
    fn gather(&self, first: Seat, seats: &mut Vec<Seat>) -> (Token, u64, u128)
        requires own { (first.table ≡ self.now) × All (λ s. s.table ≡ self.now) seats.old.items }
        requires count { length seats.old.items < self.now.setting.seats }
        ensures { IsGathered self.now (first ∷ seats.old.items) result.0 result.1 result.2 }
    {
        let Seat { mut token, numbers } = first;
        let mut releases = self.limit - numbers.left - numbers.withdrawn;
        // Wider than what it comes to: that this is no more than was there and was added is known in the end.
        let mut acquires = numbers.taken as u128;
        self.words.seat_alone(&mut token);
        while let Some(seat) = seats.pop() {
            let Seat {
                token: mut theirs,
                numbers,
            } = seat;
            releases += self.limit - numbers.left - numbers.withdrawn;
            acquires += numbers.taken as u128;
            self.words.seat_alone(&mut theirs);
            self.words.seat_with(&mut token, theirs);
        }
        (token, releases, acquires)
    }

    /// Ends the table, for which it asks for all seats: what they have added and were given adds up with the
    /// counters' numbers.
    pub fn close(self, seats: Vec<Seat>) -> Closed
        requires { AreAll self seats.items }
        ensures rows { IsClosed self.setting seats.items result }
        ensures caller { EndsTable self.setting seats.items result }
    {
        let counters = self.counters;
        let mut seats = seats;
        let first = seats.remove(0);
        let (token, releases, acquires) = self.gather(first, &mut seats);
        let SemaTable { words, .. } = self;
        let mut closed = words.close_with(token);
        empty(&mut closed);
        Closed {
            words: closed,
            counters,
            releases,
            acquires: acquires as u64,
        }
    }
}
