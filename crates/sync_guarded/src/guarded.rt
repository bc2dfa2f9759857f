//! A guarded value, and a seat of it.

use crate::rows::{GuardRows, GuardToken};
use crate::view::{GuardCall, GuardKnown};
use running_rows::{OneWorld, Running, View};
use std::marker::Model;

/// Where the lock's word lies.
pub(crate) const LOCK: usize = 0;
/// Where the word lies that says how many threads sleep at the lock.
pub(crate) const SLEEPERS: usize = 1;
/// In which slot the value lies.
pub(crate) const VALUE: usize = 0;

/// A value under a lock of its own. A [`Guard`](crate::Guard) takes the lock, and the value with it, by one
/// step. Threads share it by reference, or in an `Arc`.
#[derive(Drop)]
pub struct Guarded<T> {
    pub(crate) words: Running<T, View<GuardKnown<T>, GuardCall<T>>, u32, OneWorld<GuardRows>>,
}

/// A seat of a guarded value, for one guard at a time.
#[derive(Drop)]
pub struct GuardSeat<T> {
    pub(crate) token: GuardToken<T>,
}

impl<T> Model for Guarded<T> {
    ghost use Rattle.sync_guarded.specs.Seats.{GuardedModel, IsLaid};

    ghost Value = { GuardedModel };

    ghost view = { λ g. record { id = g.words.table.shared.table_id; seats = g.words.table.shared.key } };

    ghost invariant = { λ g. IsLaid g.words.table.shared.table_id g.words.table.shared.key };
}

impl<T> Model for GuardSeat<T> {
    ghost use Rattle.sync_guarded.specs.Seats.{SeatModel, seat_of, IsSeat};

    ghost Value = { SeatModel T };

    ghost view = { λ s. seat_of s.token };

    ghost invariant = { λ s. IsSeat s.token };
}
