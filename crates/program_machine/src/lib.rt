//! A lock program at one moment ([`ProgramMachine`]), as a machine of single steps: its own rows, and below
//! them the sleeping layer of scenarios. A [`Prepared`] is a program with the registers that are in use
//! before each of its lines. [`layer_parts`] tells what its layer is made of at the start.
//!
//! [`write_key`] writes the key of a lock program's world: words that two worlds share exactly where they are
//! alike, so that a search can keep each world once ([`law_of_the_program_keys`]).
#![tactic(auto)]

mod calls;
mod copying;
mod enabled;
mod key;
mod laws;
mod layer;
mod looking;
mod machine;
mod passed;
mod prepared;
mod shared;
mod starting;
mod verdict;

pub use key::write_key;
pub use laws::law_of_the_program_keys;
pub use machine::ProgramMachine;
pub use prepared::Prepared;
pub use starting::layer_parts;
