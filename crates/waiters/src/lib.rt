//! Typed numbers for what waits on what: counters, seats and their waits; and lists of waits.
//!
//! A seat is one caller's place at a table of counters, used by one thread at a time. Each time a seat goes
//! to sleep it queues a new wait, and its turns number them from 0. These are the names that Go's `semaRoot`
//! and `notifyList` give by addresses and pointers.
#![tactic(auto)]

mod counter_id;
mod list_key;
mod lists;
mod no_memory;
mod seat_id;
pub mod slabs;
mod sought;
mod wait;

pub use counter_id::CounterId;
pub use list_key::ListKey;
pub use lists::Lists;
pub use no_memory::NoMemory;
pub use seat_id::SeatId;
pub use sought::Sought;
pub use wait::{Wait, WaitId};
