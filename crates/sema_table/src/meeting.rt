//! Two seats compare what they have seen.
ghost use Rattle.std.specs.Prelude.{◌≡◌};
ghost use Rattle.sema_table.specs.Meeting.{HasMet};
ghost use Rattle.sema_table.specs.CallersEnding.{SeeTheSame};

use crate::seat::Seat;
use crate::sema_table::SemaTable;

impl SemaTable {
    /// Afterwards both seats have seen one journal, which begins with what either had seen. Each has looked
    /// at counter 0 once, and both found one number.
    pub fn meet(&self, one: &mut Seat, other: &mut Seat)
        requires { (one.old.table ≡ self.now) × (other.old.table ≡ self.now) }
        ensures rows { HasMet one.old other.old one.new other.new }
        ensures caller { SeeTheSame one.old other.old one.new other.new }
    {
        self.words.meet(&mut one.token, &mut other.token, 0);
    }
}
