//! Waiting with a ticket.
ghost use Rattle.std.specs.Prelude.{◌≡◌, MatchResult};
ghost use Rattle.notify_list.specs.declared.waited.Polled.TheVariants.{Granted};
ghost use Rattle.notify_list.specs.Seats.{Token as Before, seat_of};
ghost use Rattle.notify_list.specs.Entering.{MayEnter};
ghost use Rattle.notify_list.specs.Waiting.{IsWaited, IsGranted, IsEntered, TakesGrant};
ghost use Rattle.notify_list.specs.Callers.{WaitsForGrant, EntersWait, PollsGrant, StandsOn};
ghost use Rattle.notify_list.specs.Meeting.{FindsHeld};

use crate::notify_list::{LOCK, NOTIFY, NotifyList, WAIT, grant_word};
use crate::rows::Token;
use crate::seat::{Holding, ListSeat, Parked};
use crate::waited::{Entered, Waited};
use running_rows::{Futexes, GivesWay, Here, Kernel, Patience};
use std::sync::Wait;
use step_table::less;
use waiters::{SeatId, WaitId};

/// How long a seat looks for its grant. Where more than two tickets aren't granted it doesn't look.
pub(crate) const PATIENCE: Patience = Patience {
    rounds: 10,
    looks: 100,
    gives_way: GivesWay::Crowded {
        ahead: WAIT,
        behind: NOTIFY,
    },
};

impl NotifyList {
    /// Waits until the ticket is granted, and gives the seat back (Go's `notifyListWait`).
    pub fn wait<R: Wait>(&self, rt: &R, holding: Holding) -> (ListSeat, Waited)
        requires { holding.list ≡ self.now }
        ensures waited { IsWaited holding result.1 result.0 }
        ensures granted { IsGranted holding result.0 }
        ensures caller { WaitsForGrant holding result.1 result.0 }
    {
        match self.queue(rt, holding) {
            Entered::AtOnce(seat) => (seat, Waited::AtOnce),
            Entered::Queued(parked) => (self.sleep(rt, parked), Waited::Parked),
        }
    }

    /// The same up to the sleep.
    pub(crate) fn queue<R: Wait>(&self, rt: &R, holding: Holding) -> Entered
        requires { holding.list ≡ self.now }
        ensures rows { IsEntered holding result }
        ensures caller { EntersWait holding result }
    {
        let Holding {
            mut token,
            number,
            ticket,
        } = holding;
        self.lock(rt, &mut token);
        self.enter::<Futexes>(token, number, ticket)
    }

    /// The same for a caller that must not wait: where the list's lock stays held, the seat
    /// comes back as it stood. A seat that is parked then polls for its grant.
    pub fn try_wait(&self, holding: Holding) -> Result<Entered, Holding>
        requires { holding.list ≡ self.now }
        ensures rows { MatchResult result (λ entered. IsEntered holding entered) (λ kept. FindsHeld holding kept) }
        ensures caller { MatchResult result (λ entered. EntersWait holding entered) (λ kept. StandsOn holding kept) }
    {
        self.try_wait_with::<Futexes>(holding)
    }

    /// The same, where threads sleep, or none does.
    pub(crate) fn try_wait_with<N: Kernel>(&self, holding: Holding) -> Result<Entered, Holding>
        requires kernel { N.serves self.now.setting.has_threads }
        requires seat { holding.list ≡ self.now }
        ensures rows { MatchResult result (λ entered. IsEntered holding entered) (λ kept. FindsHeld holding kept) }
        ensures caller { MatchResult result (λ entered. EntersWait holding entered) (λ kept. StandsOn holding kept) }
    {
        let Holding {
            mut token,
            number,
            ticket,
        } = holding;
        if self.try_lock(&mut token) {
            return Ok(self.enter::<N>(token, number, ticket));
        }
        Err(Holding {
            token,
            number,
            ticket,
        })
    }

    /// The rows of a wait from W2 on, under the lock, which is given back.
    fn enter<N: Kernel>(&self, token: Token, number: u16, ticket: u64) -> Entered
        requires kernel { N.serves self.now.setting.has_threads }
        requires seat { (s : Before) × MayEnter self.now s number ticket token }
        ensures rows { (s : Before) → MayEnter self.now s number ticket token
            → IsEntered (seat_of s number) result }
        ensures caller { (s : Before) → MayEnter self.now s number ticket token
            → EntersWait (seat_of s number) result }
    {
        let mut token = token;
        // Looked at under the lock, where alone tickets are granted. Without the look, or with one before the
        // lock, a ticket that was granted in between would sleep for good.
        let notified = self.words.load::<Here>(&mut token, NOTIFY);
        if less(ticket, notified) {
            self.words
                .give_lock::<N>(&mut token, LOCK, self.sleepers_word());
            return Entered::AtOnce(ListSeat { token, number });
        }
        let seat = SeatId::new(number);
        let id = WaitId { seat, turn: 0 };
        // Queued in the hold of the lock in which the ticket was found ungranted: who grants it finds the
        // wait.
        let may_leave = self.may_leave(&mut token, ticket);
        self.insert(&mut token, waiters::Wait { id, ticket });
        self.words
            .give_lock::<N>(&mut token, LOCK, self.sleepers_word());
        Entered::Queued(Parked {
            token,
            number,
            may_leave,
        })
    }

    /// Waits for the grant of a queued wait, and takes it.
    pub(crate) fn sleep<R: Wait>(&self, rt: &R, parked: Parked) -> ListSeat
        requires { parked.list ≡ self.now }
        ensures took { TakesGrant parked result }
        ensures caller { PollsGrant parked (Granted result) }
    {
        let Parked {
            mut token,
            number,
            may_leave: _,
        } = parked;
        let seat = u32::from(number);
        let grant = grant_word(seat);
        let asleep = self.asleep_word(seat);
        let misses = self.misses_word(seat);
        self.words
            .take_when_granted(rt, &mut token, grant, asleep, misses, &PATIENCE);
        self.wake_heirs(&mut token, seat);
        ListSeat { token, number }
    }
}
