//! What a seat knows, and what a slot holds. A clause reads an array as a list, of any length.
use sema_root::TreapRoot;
use step_table::{Entry, Place};
use waiters::WaitId;

/// What a table was made with. No value of it is made.
pub struct Setting {
    pub starts: [u64; 0],
    pub roots: u64,
    pub seats: u64,
    pub limit: u64,
    pub seed: u64,
    pub has_threads: bool,
}

/// What a seat knows. No value of it is made.
pub struct Known {
    pub setting: Setting,
    pub place: Place,
    pub turn: u64,
    pub hand: [WaitId; 0],
    pub seen: [Entry; 0],
    /// How many units the seat has come by.
    pub taken: u64,
}

/// What lies in a root's slot: the root, or nothing while a seat has it. A `Begins` lies in none: it tells a
/// step at which place it begins.
#[derive(Drop)]
pub enum Record {
    Root(TreapRoot),
    Out,
    Begins(Place),
}
