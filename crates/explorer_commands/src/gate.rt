//! What holds a worker up before a round.

use waiters::SeatId;

/// What each worker of `run_threads` asks before each of its rounds. Its threads share it.
pub trait Gate {
    /// Returns once the worker with this seat may begin this round, of which the first is 0.
    fn pass(&self, seat: SeatId, round: u32);
}

/// A gate that lets everybody pass at once.
#[derive(Clone, Copy, Drop)]
pub struct Open;

impl Gate for Open {
    fn pass(&self, _seat: SeatId, _round: u32) {}
}
