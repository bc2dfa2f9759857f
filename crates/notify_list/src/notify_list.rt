//! The list that the threads of a caller share.
ghost use Rattle.std.specs.Prelude.{◌≡◌, ◌<◌};
ghost use Rattle.step_table.specs.declared.list_place.ListWord.TheVariants.{Grant};
ghost use Rattle.notify_list.specs.Setting.{address, asleep_address, misses_address, heir_address};
ghost use Rattle.notify_list.specs.Setting.{other_heir_address, sleepers_address};

use crate::rows::ListRows;
use crate::stride::Stride;
use crate::view::{Known, Record, Setting};
use running_rows::{OneWorld, Running, View};
use std::marker::Model;

/// Where the wait word lies: the next ticket.
pub(crate) const WAIT: usize = 0;
/// Where the notify word lies: the first ticket that isn't granted.
pub(crate) const NOTIFY: usize = 1;
/// Where the lock word lies.
pub(crate) const LOCK: usize = 2;
/// Where the grant word of the first seat lies. Those of the others follow.
const GRANTS: usize = 3;
/// In which slot the list of waits lies.
pub(crate) const RECORD: usize = 0;

/// A list on which seats wait for their tickets and grant them. Its calls take `&self` and a seat, so threads
/// share it in an `Arc`.
#[derive(Drop)]
pub struct NotifyList {
    pub(crate) words: Running<Record, View<Known, Stride>, Setting, OneWorld<ListRows>>,
    pub(crate) seats: u32,
    pub(crate) first: u64,
}

impl Model for NotifyList {
    ghost use Rattle.notify_list.specs.Seats.{ListModel};
    ghost use Rattle.notify_list.specs.Shared.{IsList};

    ghost Value = { ListModel };

    ghost view = { λ t. record { id = t.words.table.shared.table_id; setting = t.words.table.shared.key } };

    ghost invariant = { λ t. IsList t.words.table.shared.table_id t.words.table.shared.key t.seats t.first };
}

/// Where the grant word of a seat lies.
pub(crate) fn grant_word(seat: u32) -> usize
    ensures { result ≡ address (Grant seat) }
{
    GRANTS + seat as usize
}

impl NotifyList {
    /// How many seats there are.
    pub fn seats(&self) -> u32
        ensures { result ≡ self.now.setting.seats }
    {
        self.seats
    }

    /// Where the word lies that tells whether a seat's thread sleeps.
    pub(crate) fn asleep_word(&self, seat: u32) -> usize
        requires { seat < self.now.setting.seats }
        ensures at { result ≡ asleep_address self.now.setting seat }
        ensures low { result < self.now.id.words }
    {
        GRANTS + self.seats as usize + seat as usize
    }

    /// Where the word lies that tells how many waits of late a seat looked for a grant in vain.
    pub(crate) fn misses_word(&self, seat: u32) -> usize
        requires { seat < self.now.setting.seats }
        ensures at { result ≡ misses_address self.now.setting seat }
        ensures low { result < self.now.id.words }
    {
        let seats = self.seats as usize;
        GRANTS + seats + (seats + seat as usize)
    }

    /// Where the word lies that names the first of the two seats that a seat wakes.
    pub(crate) fn heir_word(&self, seat: u32) -> usize
        requires { seat < self.now.setting.seats }
        ensures at { result ≡ heir_address self.now.setting seat }
        ensures low { result < self.now.id.words }
    {
        let seats = self.seats as usize;
        GRANTS + seats + (seats + seats + seat as usize)
    }

    /// Where the word lies that names the second.
    pub(crate) fn other_heir_word(&self, seat: u32) -> usize
        requires { seat < self.now.setting.seats }
        ensures at { result ≡ other_heir_address self.now.setting seat }
        ensures low { result < self.now.id.words }
    {
        let seats = self.seats as usize;
        GRANTS + seats + (seats + seats + seats + seat as usize)
    }

    /// Where the word lies that counts the threads that sleep at the lock.
    pub(crate) fn sleepers_word(&self) -> usize
        ensures at { result ≡ sleepers_address self.now.setting }
        ensures low { result < self.now.id.words }
    {
        let seats = self.seats as usize;
        GRANTS + seats + (seats + seats + seats + seats)
    }
}
