//! A whole release of many units.
ghost use Rattle.std.specs.Prelude.{◌≡◌, ◌<◌, ◌≤◌, length, MatchResult};
ghost use Rattle.sema_table.specs.Many.{release_of, IsReleasedMany};
ghost use Rattle.sema_table.specs.CallersReleasing.{ReleasesUnits};

use crate::answers::PostRefused;
use crate::many_seat::PostedMany;
use crate::seat::Seat;
use crate::sema_table::SemaTable;
use std::sync::Wait;
use waiters::CounterId;

impl SemaTable {
    /// Adds many units by one step, and wakes as many of the counter's first waits, or all where there are
    /// fewer. It answers how many it woke. The seat comes back with nothing changed exactly where it may not
    /// add so many.
    #[inline]
    pub fn release_many<R: Wait>(
        &self,
        rt: &R,
        seat: Seat,
        counter: CounterId,
        units: u32,
    ) -> Result<(Seat, u32), (Seat, PostRefused)>
        requires seat { (seat.table ≡ self.now) × (counter < length self.now.setting.starts) }
        requires units { (1 ≤ units) × (units ≤ 256) }
        ensures rows { MatchResult result
            (λ released. (units ≤ seat.left) × IsReleasedMany seat (release_of counter units) released.0 released.1)
            (λ refused. (seat.left < units) × (refused.0 ≡ seat)) }
        ensures caller { ReleasesUnits seat counter units result }
    {
        match self.post_many(seat, counter, units)? {
            PostedMany::Done(seat) => Ok((seat, 0)),
            PostedMany::Owes(owing) => Ok(self.wake_some(rt, owing)),
        }
    }
}
