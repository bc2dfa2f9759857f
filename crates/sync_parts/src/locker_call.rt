//! The calls of a locker.

/// A call that was made of a [`Locker`](crate::Locker).
#[derive(Clone, Copy, PartialEq, Eq, Drop)]
pub enum LockerCall {
    /// It was locked.
    Locked,
    /// It was unlocked.
    Unlocked,
}
