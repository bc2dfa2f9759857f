//! The tests of the program and of what it stands on, which use each crate from outside, as one above it does:
//! `machine` those of `step_core`, `searches` those of `search`, `locks` those of lock programs,
//! `shortage` those of calls whose memory is really short, and the others those of `explorer`. What the program
//! answers to a text and words is no test: it stands in `crates/gallery/data/cases`, which the gallery tries.
//!
//! A crate with tests is proved with them and without: so they stand here, together, since what they stand on
//! is read for each crate anew, and since a crate of tests links all of it.
//!
//! A call that answers want of memory is made once more. So each test but those of `shortage` passes whichever
//! single allocation is refused (`rt try --test --fail-alloc N`, for each N), and fails where want of memory is
//! answered without a refusal.
#![tactic(auto)]

#[cfg(test)]
mod asked;
#[cfg(test)]
mod assertion;
#[cfg(test)]
mod device_tests;
#[cfg(test)]
mod devices;
#[cfg(test)]
mod extras_tests;
#[cfg(test)]
mod io_tests;
#[cfg(test)]
mod locks;
#[cfg(test)]
mod machine;
#[cfg(test)]
mod memory_tests;
#[cfg(test)]
mod program_tests;
#[cfg(test)]
mod reading;
#[cfg(test)]
mod repeated;
#[cfg(test)]
mod searches;
#[cfg(test)]
mod shortage;
#[cfg(test)]
mod size_tests;
#[cfg(test)]
mod surroundings_tests;
#[cfg(test)]
mod threads_tests;
