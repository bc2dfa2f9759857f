//! A whole release.
ghost use Rattle.std.specs.Prelude.{◌≡◌, ◌<◌, length, MatchResult};
ghost use Rattle.sema_table.specs.Whole.{IsReleased};
ghost use Rattle.sema_table.specs.CallersReleasing.{ReleasesUnit};

use crate::answers::{PostRefused, Posted, Wake};
use crate::seat::Seat;
use crate::sema_table::SemaTable;
use std::sync::Wait;
use waiters::CounterId;

impl SemaTable {
    /// Adds a unit and wakes the counter's first wait, if there is one; with handoff, together with a unit if
    /// there is one (Go's `semrelease1`). The seat comes back with nothing changed exactly where it may add
    /// no more.
    #[inline]
    pub fn release<R: Wait>(
        &self,
        rt: &R,
        seat: Seat,
        counter: CounterId,
        handoff: bool,
    ) -> Result<(Seat, Wake), (Seat, PostRefused)>
        requires { (seat.table ≡ self.now) × (counter < length self.now.setting.starts) }
        ensures rows { MatchResult result
            (λ released. (0 < seat.left) × IsReleased seat counter handoff released.0 released.1)
            (λ refused. (seat.left ≡ 0) × (refused.0 ≡ seat)) }
        ensures caller { ReleasesUnit seat counter handoff result }
    {
        match self.post(seat, counter)? {
            Posted::Done(seat) => Ok((seat, Wake::Nobody)),
            Posted::Owes(owing) => Ok(self.wake(rt, owing, handoff)),
        }
    }
}
