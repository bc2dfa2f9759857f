//! A list is closed with all its seats.
ghost use Rattle.std.specs.Prelude.{◌≡◌, ◌∷◌, All};
ghost use Rattle.notify_list.specs.Closing.{AreAll, IsClosed, IsGathered};
ghost use Rattle.notify_list.specs.Callers.{EndsList};

use crate::closed::ListClosed;
use crate::notify_list::{NOTIFY, NotifyList, RECORD, WAIT};
use crate::rows::Token;
use crate::seat::ListSeat;

impl NotifyList {
    /// One view of all these seats.
    fn gather(&self, first: ListSeat, seats: &mut Vec<ListSeat>) -> Token
        requires { (first.list ≡ self.now) × All (λ s. s.list ≡ self.now) seats.old.items }
        ensures { IsGathered self.now (first ∷ seats.old.items) result }
    {
        let ListSeat {
            mut token,
            number: _,
        } = first;
        self.words.seat_alone(&mut token);
        while let Some(seat) = seats.pop() {
            let ListSeat {
                token: mut theirs,
                number: _,
            } = seat;
            self.words.seat_alone(&mut theirs);
            self.words.seat_with(&mut token, theirs);
        }
        token
    }

    /// Ends the list, for which it asks for all seats: every ticket that was handed out is granted, and
    /// nobody waits.
    pub fn close(self, seats: Vec<ListSeat>) -> ListClosed
        requires { AreAll self seats.items }
        ensures rows { IsClosed self.setting seats.items result }
        ensures caller { EndsList self.setting seats.items result }
    {
        let mut seats = seats;
        let first = seats.remove(0);
        let token = self.gather(first, &mut seats);
        let NotifyList { words, .. } = self;
        let mut ended = words.close_with(token);
        let closed = ListClosed {
            next: ended.word(WAIT),
            notified: ended.word(NOTIFY),
        };
        drop(ended.take(RECORD));
        ended.free();
        closed
    }
}
