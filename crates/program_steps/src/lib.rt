//! The steps of a lock program, as definitions: what each line does to the words, to the sleeping layer and
//! to who sleeps on words, where a seat goes on, and which worlds are bad. What runs are the numbers
//! ([`compute`], [`is_so`]) and the registers in use alone.
//!
//! [`InUse`] tells which registers of a seat are in use before each line of its code: those that some way
//! from there on reads before it writes them. Whoever steps lock programs sets the others to 0, and then two
//! worlds that differ in nothing that a line will read are one. [`Entrances`] tells from which lines some way
//! comes to one by which a seat enters a section.
#![tactic(auto)]

mod bad_kind;
mod entrances;
mod failure;
mod in_use;
mod laws;
mod marks;
mod numbers;
mod reading;
mod stand;

pub use bad_kind::BadKind;
pub use entrances::Entrances;
pub use failure::Failure;
pub use in_use::InUse;
pub use laws::{law_of_the_alike_worlds, law_of_the_layers, law_of_the_numbers};
pub use numbers::{compute, is_so};
pub use reading::{reads, writes};
pub use stand::{Sleeper, Stand, Then};
