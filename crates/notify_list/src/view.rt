//! What a seat knows, and what lies in the slot. A clause reads an array as a list, of any length.
use crate::live::Live;
use std::marker::Model;
use step_table::{ListPlace, Ticket};
use waiters::{ListKey, Lists, Wait};

/// What a list was made with: the word of its first ticket, how many seats there are, and whether threads sleep at
/// its words: at a list for tasks none does.
#[derive(Clone, Copy, Drop)]
pub struct Setting {
    pub first: u64,
    pub seats: u32,
    pub has_threads: bool,
}

/// An entry of the list's journal: the seat took a ticket, or it granted tickets up to this many, or it left
/// with the ticket of this number. No value of it is made.
pub struct Told {
    upto: Option<u64>,
    gone: Option<u64>,
    seat: u64,
}

/// How a seat stands, and what it has seen. No value of it is made.
pub struct Sight {
    place: ListPlace,
    ticket: Option<Ticket>,
    hand: [Wait; 0],
    late: u64,
    seen: [Told; 0],
}

/// What a seat knows beside its number and its strides. No value of it is made.
pub struct Known {
    pub setting: Setting,
    pub sight: Sight,
    /// What lay under the lock after the seat's last stride: the list of waits, the number of the first ticket
    /// that is neither granted nor gone, and the numbers of the gone ones after it.
    pub queue: [Wait; 0],
    pub passed: u64,
    pub gone: [u64; 0],
}

/// The record under the lock: the list of waits, which tickets are gone, and whether few are passed.
#[derive(Drop)]
pub struct Record {
    pub lists: Lists,
    pub key: ListKey,
    pub live: Live,
    pub early: bool,
}

impl Model for Told {
    ghost use Rattle.step_table.specs.ListWorld.{ListEntry};
    ghost use Rattle.notify_list.specs.Sights.{entry_of};

    ghost Value = { ListEntry };

    ghost view = { λ told. entry_of told.upto told.gone told.seat };
}

impl Model for Sight {
    ghost use Rattle.step_law_lists.specs.ListPath.{ListSight};
    ghost use Rattle.notify_list.specs.Sights.{sight_of};

    ghost Value = { ListSight };

    ghost view = { λ sight. sight_of sight.place sight.ticket sight.hand sight.late sight.seen };
}
