//! A value that threads share, lent to one of them at a time.
//!
//! A [`Guarded`] has the value in a slot, and a lock of its own: one word, by whose step the value leaves the
//! slot and goes back to it. So no two threads have it at once, in every schedule, with no premise: that is
//! the rule of the word ([`law_of_the_guards`]). A thread has a [`Guard`] over a seat of its own:
//! [`Guard::acquire`] locks, [`Guard::lend`] calls a closure with a `&mut` to the value, [`Guard::release`]
//! unlocks, and [`Guard::hold`] does all three.
//!
//! What is to hold of the value whenever it is lent is a fact of its type: a ghost field, or the invariant of
//! its model. A guard is a `Locker`, so a `Cond` of `sync_parts` waits with it: the value is at home
//! meanwhile.
//!
//! A guarded value has 1 to 65,536 seats, and [`Guarded::with_seats`] takes all memory that it ever takes.
//! `acquire` and `hold` may wait for the lock: they look for a while, and then sleep in the kernel;
//! [`Guard::try_lock_until`] and [`Guard::try_lock_for`] do so until a time, and [`Guard::try_lock`] doesn't wait.
//! All other calls end. A guard that is dropped while it holds the lock keeps the value.
#![tactic(auto)]

mod guard;
mod guarded;
mod laws;
mod make;
mod rows;
mod steps;
mod view;

pub use guard::Guard;
pub use guarded::{GuardSeat, Guarded};
pub use laws::{law_of_the_guards, law_of_the_sleepers};
pub use make::Refused;
pub use sync_parts::{Cond, ListSeat, ListSetupError, SetupError, Waited};
