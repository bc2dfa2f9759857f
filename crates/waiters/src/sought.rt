ghost use Rattle.std.specs.Prelude.{◌≡◌};
ghost use Rattle.waiters.specs.Lists.{is_sought};

use crate::seat_id::SeatId;
use crate::wait::{Wait, WaitId};

/// What tells the wait that is sought in a list.
#[derive(Clone, Copy, Debug, PartialEq, Eq, Drop)]
pub enum Sought {
    /// Its ticket.
    Ticket(u64),
    /// Whose wait it is.
    Seat(SeatId),
    /// Its name.
    Id(WaitId),
}

impl Sought {
    /// Whether the wait is one that is sought.
    pub fn is(&self, wait: &Wait) -> bool
        ensures { result ≡ is_sought self.now wait.now }
    {
        match *self {
            Sought::Ticket(ticket) => wait.ticket == ticket,
            Sought::Seat(seat) => wait.id.seat == seat,
            Sought::Id(id) => wait.id.seat == id.seat && wait.id.turn == id.turn,
        }
    }
}
