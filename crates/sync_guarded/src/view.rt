//! What a seat of a guarded value knows, and what it does there. Values stand in ghost fields: they take no
//! bytes, so that a seat has none, whatever `T` is.
ghost use Rattle.std.specs.Prelude.{Option};
ghost use base.Fml.{ftrue};

use std::marker::{Model, PhantomData};
/// What a seat knows beside the calls that it has made. No value of it is made.
pub struct GuardKnown<T> {
    /// How many seats there are.
    pub seats: u64,
    pub marker: PhantomData<T>,
    /// The value as the seat took it, while the seat holds the lock.
    pub ghost holds: { Option T },
}

impl<T> Model for GuardKnown<T> {
    ghost also_owns = { λ _. ftrue };
}

/// What a seat did.
#[derive(Clone, Copy, Drop)]
pub enum GuardDeed {
    /// It locked.
    Locked,
    /// It unlocked.
    Unlocked,
    /// It only looked at the lock, which it `has` itself or not, and which was `held` or free.
    Looked { has: bool, held: bool },
}

/// The same, and the value that moved by it. No value of it is made.
pub struct GuardCall<T> {
    pub deed: GuardDeed,
    pub marker: PhantomData<T>,
    /// What was taken, or given back.
    pub ghost value: { Option T },
}

impl<T> Model for GuardCall<T> {
    ghost also_owns = { λ _. ftrue };
}
