//! The table that the threads of a caller share.
ghost use Rattle.std.specs.Prelude.{◌≡◌, ◌*◌, ◌^◌, ◌<◌, length};
ghost use Rattle.step_table.specs.declared.word.Word.TheVariants.{Lock, Waiters, Grant};
ghost use Rattle.sema_table.specs.Setting.{root, address, words_shown, asleep_address, misses_address};
ghost use Rattle.sema_table.specs.Setting.{sleepers_address};

use crate::make::MAX_ROOTS;
use crate::rows::Semaphores;
use crate::settings::TableKey;
use crate::stride::Stride;
use crate::view::{Known, Record};
use running_rows::{OneWorld, Running, View};
use std::marker::Model;
use waiters::CounterId;

/// Counters, on which seats sleep and wake each other. Its calls take `&self` and a seat, so threads share it
/// in an `Arc`.
#[derive(Drop)]
pub struct SemaTable {
    pub(crate) words: Running<Record, View<Known, Stride>, TableKey, OneWorld<Semaphores>>,
    pub(crate) counters: u32,
    pub(crate) roots: u32,
    pub(crate) seats: u32,
    /// How many units each seat may spend.
    pub(crate) limit: u64,
}

impl Model for SemaTable {
    ghost use Rattle.sema_table.specs.Seats.{TableModel};
    ghost use Rattle.sema_table.specs.Rule.{setting_of};
    ghost use Rattle.sema_table.specs.Shared.{IsTable};

    ghost Value = { TableModel };

    ghost view = { λ t. record { id = t.words.table.shared.table_id; setting = setting_of t.words.table.shared.key } };

    ghost invariant = { λ t. IsTable t.words.table.shared.table_id (setting_of t.words.table.shared.key) t.counters t.roots t.seats
        t.limit };
}

/// More than can be lost of the tries on one counter. A try is lost only where units of the counter were added
/// or taken since it looked; and of these there are fewer, since seats add no more than they may, and nothing
/// is taken that wasn't there.
pub(crate) const MOST_TRIES: u64 = (1 << 63) + (1 << 33);

/// Where the counter of a number lies. Each has a cache line of its own: two in one line would be fetched
/// together.
#[inline]
pub(crate) fn counter_word(counter: u32) -> usize
    ensures at { result ≡ 8 * counter }
    ensures low { result < 2 ^ 35 }
{
    8 * counter as usize
}

impl SemaTable {
    /// How many counters there are.
    pub fn counters(&self) -> u32
        ensures { result ≡ length self.now.setting.starts }
    {
        self.counters
    }

    /// How many seats there are.
    pub fn seats(&self) -> u32
        ensures { result ≡ self.now.setting.seats }
    {
        self.seats
    }

    /// The root of a counter. By the most roots, which are as many as Go has, the compiler divides with a
    /// product and a shift, which costs nothing beside a step; a look whether the number is small would be
    /// guessed wrong too often. By fewer, a number below that of the roots is its own, and isn't divided:
    /// that takes as long as a step.
    #[inline]
    pub(crate) fn root_of(&self, counter: CounterId) -> usize
        ensures { result ≡ root self.now.setting counter }
    {
        let number = counter.number();
        if self.roots == MAX_ROOTS {
            return (number % MAX_ROOTS) as usize;
        }
        if number < self.roots {
            return number as usize;
        }
        (number % self.roots) as usize
    }

    /// Where the lock of a counter's root lies.
    pub(crate) fn lock_word(&self, counter: CounterId) -> usize
        ensures at { result ≡ address self.now.setting (Lock counter) }
        ensures low { result < self.now.id.words }
    {
        counter_word(self.counters) + self.root_of(counter)
    }

    /// Where the waiter word of a counter's root lies.
    pub(crate) fn waiter_word(&self, counter: CounterId) -> usize
        ensures at { result ≡ address self.now.setting (Waiters counter) }
        ensures low { result < self.now.id.words }
    {
        counter_word(self.counters) + self.roots as usize + self.root_of(counter)
    }

    /// Where the grant word of a seat lies.
    pub(crate) fn grant_word(&self, seat: u16) -> usize
        requires { seat < self.now.setting.seats }
        ensures at { result ≡ address self.now.setting (Grant seat) }
        ensures low { result < self.now.id.words }
    {
        let roots = self.roots as usize;
        counter_word(self.counters) + roots + roots + seat as usize
    }

    /// Where the words begin of which the world knows nothing.
    fn words_aside(&self) -> usize
        ensures at { result ≡ words_shown self.now.setting }
        ensures low { result < 2 ^ 36 }
    {
        let roots = self.roots as usize;
        counter_word(self.counters) + roots + roots + self.seats as usize
    }

    /// Where the word lies that tells how many waits of late a seat looked for a grant in vain.
    pub(crate) fn misses_word(&self, seat: u16) -> usize
        requires { seat < self.now.setting.seats }
        ensures at { result ≡ misses_address self.now.setting seat }
        ensures low { result < self.now.id.words }
    {
        self.words_aside() + (self.seats as usize + seat as usize)
    }

    /// Where the word lies that counts the threads that sleep at the lock of a counter's root.
    pub(crate) fn sleepers_word(&self, counter: CounterId) -> usize
        ensures at { result ≡ sleepers_address self.now.setting counter }
        ensures low { result < self.now.id.words }
    {
        let seats = self.seats as usize;
        self.words_aside() + (seats + seats + self.root_of(counter))
    }

    /// Where the word lies that tells whether a seat's thread sleeps.
    pub(crate) fn asleep_word(&self, seat: u16) -> usize
        requires { seat < self.now.setting.seats }
        ensures at { result ≡ asleep_address self.now.setting seat }
        ensures low { result < self.now.id.words }
    {
        let _ = &self.words;
        self.words_aside() + seat as usize
    }
}
