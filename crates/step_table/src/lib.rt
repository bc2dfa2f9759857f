//! The step table of the sleeping layer, as definitions and types: its tables, the names of its rows and
//! refusals, and words of tickets, which wrap.
//!
//! A row is one event of one word. The rows are those of Go's `semacquire1`, `semrelease1`, `notifyList` and
//! `WaitGroup`, and those of a release of many units at once. What is promised of them holds for every
//! interleaving, and is carried by the laws, which have crates of their own; only what is told of one word of
//! a wait group, and of paths on it, stands here. Nothing here runs but names, with their texts, and three
//! functions of ticket words ([`less`], [`minus`], [`next_word`]), which are numbers of 64 bits, as those of
//! Go's `notifyList` are of 32 (`less` of `runtime/sema.go`).
#![tactic(auto)]

mod call;
mod effect;
mod entry;
mod group_id;
mod group_word;
mod items;
mod laws;
mod limits;
mod list_id;
mod list_place;
mod misuse;
mod order;
mod parts;
mod phase;
mod place;
mod refusal;
mod row;
mod standing;
mod word;

pub use call::{Call, GivingUp, Late};
pub use effect::Effect;
pub use entry::Entry;
pub use group_id::GroupId;
pub use group_word::GroupWord;
pub use items::Items;
pub use laws::{law_of_the_group_paths, law_of_the_group_words};
pub use limits::{
    MAX_CALLS, MAX_COUNTERS, MAX_GROUPS, MAX_LISTS, MAX_ROOTS, MAX_SEATS, MAX_SKIPS, MAX_UNITS,
    MIN_UNITS,
};
pub use list_id::ListId;
pub use list_place::{
    AllRow, ListEffect, ListParkedRow, ListPlace, ListWord, OneRow, Reach, Ticket, WaitRow,
};
pub use misuse::Misuse;
pub use order::{less, minus, next_word};
pub use parts::Parts;
pub use phase::Phase;
pub use place::{Acquire, AcquireRow, ManyRow, ParkedRow, Place, Release, ReleaseMany, ReleaseRow};
pub use refusal::{RunRefused, ScenarioRefused, StepRefused};
pub use row::Row;
pub use standing::{After, Ending, GroupNext, GroupRow, Standing};
pub use word::Word;
