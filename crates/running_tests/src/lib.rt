//! The tests of the running parts and of the roots below them, which use them from outside, as a crate above
//! them does.
//!
//! A crate with tests is proved with them and without: so they stand here, together, since what they stand on
//! is read for each crate anew. What answers want of memory is asked for once more. So each test passes
//! whichever single allocation is refused (`rt try --test --fail-alloc N`, for each N); those of `guards` and
//! `copies` are to be copied, and end where memory is refused.
#![tactic(auto)]

#[cfg(test)]
mod codes;
#[cfg(test)]
mod copies;
#[cfg(test)]
mod guards;
#[cfg(test)]
mod lists;
#[cfg(test)]
mod parts;
#[cfg(test)]
mod roots;
#[cfg(test)]
mod tables;
