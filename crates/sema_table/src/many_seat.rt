//! A seat in the middle of a release of many units, and what such a release came to so far.
use crate::rows::Token;
use crate::seat::{Numbers, Seat};
use std::marker::Model;
use step_table::ReleaseMany;

/// A seat that has added many units, and has yet to look for waits. It must be spent, by `wake_some`.
pub struct OwingMany {
    pub(crate) token: Token,
    pub(crate) numbers: Numbers,
    pub(crate) call: ReleaseMany,
}

/// What adding many units came to.
pub enum PostedMany {
    /// The waiter word of the counter's root read 0: there is nobody to wake.
    Done(Seat),
    /// Somebody may wait: the seat has to look.
    Owes(OwingMany),
}

impl Model for OwingMany {
    ghost use Rattle.sema_table.specs.Seats.{SeatModel, seat_of};
    ghost use Rattle.sema_table.specs.ManySeats.{IsOwingMany};

    ghost Value = { SeatModel };

    ghost view = { λ s. seat_of s.token s.numbers };

    ghost invariant = { λ s. IsOwingMany s.token s.numbers s.call };
}
