ghost use Rattle.std.specs.Prelude.{◌∷◌, ◌++◌, Some};
ghost use Rattle.std.specs.Fmt.{decimal};

use crate::seat_id::SeatId;
use std::fmt;

/// One sleep of a seat: its turn counts the waits that the seat queued before.
#[derive(Clone, Copy, Debug, PartialEq, Eq, Drop)]
pub struct WaitId {
    pub seat: SeatId,
    pub turn: u64,
}

impl fmt::Display for WaitId {
    // its seat, a dot and its turn
    ghost output = { λ wait. Some (decimal wait.seat ++ 46 ∷ decimal wait.turn) };

    fn fmt<W: fmt::Write>(&self, f: &mut fmt::Formatter<W>) -> fmt::Result {
        let seat = self.seat;
        let turn = self.turn;
        write!(f, "{seat}.{turn}")
    }
}

/// A wait as a list holds it. On a notify list the ticket says which notification it is for; elsewhere it is
/// 0.
#[derive(Clone, Copy, Debug, PartialEq, Eq, Drop)]
pub struct Wait {
    pub id: WaitId,
    pub ticket: u64,
}
