//! A seat between two calls, without a ticket and with one, and what it is in the middle of one.
ghost use Rattle.std.specs.Prelude.{◌≡◌};

use crate::rows::Token;
use std::marker::Model;
use waiters::SeatId;

/// A seat between two calls, which holds no ticket.
#[derive(Drop)]
pub struct ListSeat {
    pub(crate) token: Token,
    pub(crate) number: u16,
}

/// A seat that holds a ticket. It must be spent, by `wait`.
pub struct Holding {
    pub(crate) token: Token,
    pub(crate) number: u16,
    pub(crate) ticket: u64,
}

/// A seat whose wait is queued. It must be spent, by `poll` or `leave`.
pub struct Parked {
    pub(crate) token: Token,
    pub(crate) number: u16,
    pub(crate) may_leave: bool,
}

/// A seat that has to go on with a notification of all. It must be spent, by `retry_all`.
pub struct OwingAll {
    pub(crate) token: Token,
    pub(crate) number: u16,
}

impl Model for ListSeat {
    ghost use Rattle.notify_list.specs.Seats.{SeatModel, seat_of, IsSeat};

    ghost Value = { SeatModel };

    ghost view = { λ s. seat_of s.token s.number };

    ghost invariant = { λ s. IsSeat s.token s.number };
}

impl Model for Holding {
    ghost use Rattle.notify_list.specs.Seats.{SeatModel, seat_of, IsHolding};

    ghost Value = { SeatModel };

    ghost view = { λ s. seat_of s.token s.number };

    ghost invariant = { λ s. IsHolding s.token s.number s.ticket };
}

impl Model for Parked {
    ghost use Rattle.notify_list.specs.Seats.{SeatModel, seat_of, IsParked};

    ghost Value = { SeatModel };

    ghost view = { λ s. seat_of s.token s.number };

    ghost invariant = { λ s. IsParked s.token s.number s.may_leave };
}

impl Model for OwingAll {
    ghost use Rattle.notify_list.specs.Seats.{SeatModel, seat_of, IsNotifying};

    ghost Value = { SeatModel };

    ghost view = { λ s. seat_of s.token s.number };

    ghost invariant = { λ s. IsNotifying s.token s.number };
}

impl ListSeat {
    /// Which seat it is.
    pub fn id(&self) -> SeatId
        ensures { result ≡ self.now.number }
    {
        SeatId::new(self.number)
    }
}
