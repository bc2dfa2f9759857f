//! Two seats compare what they have seen.
ghost use Rattle.std.specs.Prelude.{◌≡◌};
ghost use Rattle.notify_list.specs.Meeting.{HasMet};
ghost use Rattle.notify_list.specs.Callers.{SeeTheSame};

use crate::notify_list::{NotifyList, WAIT};
use crate::seat::ListSeat;

impl NotifyList {
    /// Afterwards both seats have seen one journal, which begins with what either had seen. Each has looked
    /// at the wait word once, and both found one number.
    pub fn meet(&self, one: &mut ListSeat, other: &mut ListSeat)
        requires { (one.old.list ≡ self.now) × (other.old.list ≡ self.now) }
        ensures rows { HasMet one.old other.old one.new other.new }
        ensures caller { SeeTheSame one.old other.old one.new other.new }
    {
        self.words.meet(&mut one.token, &mut other.token, WAIT);
    }
}
