//! A seat whose wait is queued looks whether it was granted.
ghost use Rattle.std.specs.Prelude.{◌≡◌};
ghost use Rattle.notify_list.specs.Waiting.{IsPolled};
ghost use Rattle.notify_list.specs.Callers.{PollsGrant};

use crate::notify_list::{NotifyList, grant_word};
use crate::seat::{ListSeat, Parked};
use crate::waited::Polled;

impl NotifyList {
    /// Looks at the seat's grant word once, and takes what is granted. Each look writes the word: a caller
    /// that waits lets other threads run between two of them.
    pub fn poll(&self, parked: Parked) -> Polled
        requires { parked.list ≡ self.now }
        ensures rows { IsPolled parked result }
        ensures caller { PollsGrant parked result }
    {
        let Parked {
            mut token,
            number,
            may_leave,
        } = parked;
        // Taken in the same step: a grant that stayed would wake the seat's next wait too.
        let found = self
            .words
            .take_grant(&mut token, grant_word(u32::from(number)));
        if found == 0 {
            return Polled::Still(Parked {
                token,
                number,
                may_leave,
            });
        }
        Polled::Granted(ListSeat { token, number })
    }
}
