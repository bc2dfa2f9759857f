//! The semaphores and the notify lists as words that rows read and write: the rows of the step table, as they
//! run. [`SemaMachine`] has the counters, their roots and the seats on them. It runs the rows of Go's
//! `semacquire1` and `semrelease1`, and those of a release of many units. A [`ListMachine`] is Go's
//! `notifyList`.
//!
//! What a row does is told by `step_outcomes` and made here; no row takes memory. [`SemaMachine::step`] runs
//! a row where it can run. Who has to know of it before it runs asks first (`ready`), and then runs it, which
//! can't fail. [`Queues`] holds the list of waits of each counter in roots of `sema_root` ([`root_of`]), of
//! which its callers see nothing. The words of a key for these parts are written here too, out of those of
//! `step_keys`.
#![tactic(auto)]

mod apart;
mod begun;
mod caller;
mod copying;
mod list_machine;
mod queues;
mod ready;
mod seats;
mod sema_store;
mod semaphores;
mod step;

pub use begun::{write_begun, write_begun_by};
pub use caller::Caller;
pub use copying::copy_items;
pub use list_machine::ListMachine;
pub use queues::{Queues, remainder, root_of};
pub use ready::{ListReady, Ready, entry_of};
pub use semaphores::SemaMachine;
