//! Taking a ticket, and looking whether all are granted. No call here waits.
ghost use Rattle.std.specs.Prelude.{◌≡◌, true};
ghost use Rattle.notify_list.specs.Calls.{AllGranted};
ghost use Rattle.notify_list.specs.Tickets.{IsAdded, HasTicket, HasLooked};
ghost use Rattle.notify_list.specs.Callers.{GetsTicket, FindsAllGranted};

use crate::notify_list::{NOTIFY, NotifyList, WAIT};
use crate::rows::{AtOne, AtTicket};
use crate::seat::{Holding, ListSeat};
use running_rows::Here;

impl NotifyList {
    /// Takes the next ticket (Go's `notifyListAdd`). The seat waits with it before it does anything else.
    #[inline]
    pub fn add(&self, seat: ListSeat) -> Holding
        requires { seat.list ≡ self.now }
        ensures rows { IsAdded seat result }
        ensures caller { GetsTicket seat result }
    {
        let ListSeat { mut token, number } = seat;
        // By one add: tickets that were read first and written then could be handed out twice.
        let ticket = self.words.add::<AtTicket>(&mut token, WAIT, 1);
        Holding {
            token,
            number,
            ticket,
        }
    }

    /// Whether the two words were equal, one read after the other: then every ticket that the seat has seen
    /// handed out is granted (the fast path of Go's `notifyListNotifyOne` and `notifyListNotifyAll`).
    #[inline]
    pub fn quiet(&self, seat: &mut ListSeat) -> bool
        requires { seat.old.list ≡ self.now }
        ensures looked { HasLooked seat.old result seat.new }
        ensures granted { result ≡ true → AllGranted seat.old seat.new }
        ensures caller { FindsAllGranted seat.old result seat.new }
    {
        // The wait word first: a ticket that is handed out after it is none that the answer speaks of.
        let waited = self.words.load::<AtOne>(&mut seat.token, WAIT);
        waited == self.words.load::<Here>(&mut seat.token, NOTIFY)
    }
}

impl Holding {
    /// The ticket: its number from 0, added to the list's first ticket, modulo 2^64.
    pub fn ticket(&self) -> u64
        ensures { HasTicket self.now result }
    {
        self.ticket
    }
}
