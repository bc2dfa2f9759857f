//! The sleeping layer, semaphores, notify lists and wait groups, as a pure machine of single steps. A
//! [`Scenario`] gives each seat a list of calls: its parts keep the limits, name what is declared, and take
//! and spend tickets in turn. Each step runs one row of the step table: one event of one word. The rows are
//! those of Go's `semacquire1`, `semrelease1`, `notifyList` and `WaitGroup`, those of a release of many units,
//! and those of a wait that leaves.
//!
//! A [`World`] is a scenario's run at one moment with its journal, and a [`Moment`] one without. A
//! [`WholeMachine`] has the words and seats of both, and knows no scenario. A [`ChangedWorld`] steps by the
//! table with one change. Which runs have one key is told by [`law_of_the_keys`] and [`law_of_one_key`].
#![tactic(auto)]

mod apart;
mod calling;
mod changed;
mod following;
mod found;
mod group;
mod laws;
mod lost;
mod machine;
mod moment;
mod picture;
mod running;
mod scenario;
mod schedule;
mod starting;
mod turn;
mod words;
mod world;

pub use changed::{ChangedWorld, ChangedWorld as BentWorld};
pub use found::WordFound;
pub use laws::{law_of_one_key, law_of_the_keys};
pub use machine::WholeMachine;
pub use moment::Moment;
pub use picture::Picture;
pub use scenario::Scenario;
pub use schedule::run;
pub use step_law_alike::{Variant, law_of_the_alike, law_of_the_changed, law_of_the_commuting};
pub use step_law_lists::{law_of_the_list_accounts, law_of_the_lists};
pub use step_law_semaphores::{law_of_the_accounts, law_of_the_rows};
pub use step_law_whole::{
    law_of_the_core, law_of_the_core_ends, law_of_the_endless_tables, law_of_the_ends,
    law_of_the_lists_ends, law_of_the_runs, law_of_the_runs_ends, law_of_the_semaphores_ends,
};
pub use step_outcomes::Outcome;
pub use step_rows::Caller;
pub use step_table::{
    Acquire, AcquireRow, After, AllRow, Call, Effect, Ending, Entry, GivingUp, GroupId, GroupNext,
    GroupRow, GroupWord, Items, Late, ListEffect, ListId, ListParkedRow, ListPlace, ListWord,
    MAX_CALLS, MAX_COUNTERS, MAX_GROUPS, MAX_LISTS, MAX_ROOTS, MAX_SEATS, MAX_SKIPS, MAX_UNITS,
    MIN_UNITS, ManyRow, Misuse, OneRow, ParkedRow, Parts, Phase, Place, Reach, Release,
    ReleaseMany, ReleaseRow, Row, RunRefused, ScenarioRefused, Standing, StepRefused, Ticket,
    WaitRow, Word, less,
};
pub use waiters::{CounterId, NoMemory, SeatId, WaitId};
pub use world::World;
