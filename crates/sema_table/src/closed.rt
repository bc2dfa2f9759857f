//! What is left of a table that was closed.
ghost use Rattle.std.specs.Prelude.{◌≡◌, ◌<◌, length, slice_index};

use crate::sema_table::counter_word;
use crate::view::Record;
use std::alloc::Global;
use std::marker::Model;
use waiters::CounterId;

/// A table that was closed: its counters' numbers, and how many units its seats added and were given.
pub struct Closed {
    /// The table's words, the first of which are the counters. Its slots are empty.
    pub(crate) words: running_rows::Closed<Record, Global>,
    pub(crate) counters: u32,
    pub(crate) releases: u64,
    pub(crate) acquires: u64,
}

impl Model for Closed {
    ghost use Rattle.std.specs.Prelude.{◌≡◌, ℕ, ◌*◌, ◌<◌, ◌≤◌, false, map, slice_index, slice_index_or};
    ghost use Rattle.std.specs.List.{range_with_len};
    ghost use Rattle.std.specs.Mem.Slots.{slots_items, slots_len, slots_filled, IsFull};
    ghost use Rattle.sema_table.specs.Closing.{ClosedModel};

    ghost Value = { ClosedModel };

    ghost view = { λ c. record {
      values = map (λ k. slice_index (slots_items c.words.words) (8 * k)) (range_with_len 0 c.counters);
      releases = c.releases;
      acquires = c.acquires;
    } };

    ghost invariant = { λ c. IsFull c.words.words × (8 * c.counters ≤ slots_len c.words.words)
        × ((k : ℕ) → k < slots_len c.words.slots → slice_index_or (slots_filled c.words.slots) k false ≡ false) };
}

impl Closed {
    /// How many counters there were.
    pub fn counters(&self) -> u32
        ensures { result ≡ length self.now.values }
    {
        self.counters
    }

    /// The number of a counter.
    pub fn value(&self, counter: CounterId) -> u64
        requires { counter < length self.now.values }
        ensures { result ≡ slice_index self.now.values counter }
    {
        self.words.word(counter_word(counter.number()))
    }

    /// How many units the seats have added.
    pub fn releases(&self) -> u64
        ensures { result ≡ self.now.releases }
    {
        self.releases
    }

    /// How many units the seats were given.
    pub fn acquires(&self) -> u64
        ensures { result ≡ self.now.acquires }
    {
        self.acquires
    }
}

impl Drop for Closed {
    fn drop(self) {
        let Self {
            words,
            counters: _,
            releases: _,
            acquires: _,
        } = self;
        words.free();
    }
}
