ghost use Rattle.std.specs.Prelude.{◌≡◌, ℕ, Some};
ghost use Rattle.std.specs.Fmt.{decimal};

use std::fmt;
use std::marker::Model;

/// A seat, by its number from 0.
#[derive(Clone, Copy, Debug, PartialEq, Eq, PartialOrd, Ord, Hash, Drop)]
pub struct SeatId(pub u16);

impl Model for SeatId {
    ghost Value = { ℕ };

    ghost view = { λ seat. seat.0 };

    ghost inverse = { λ number. record { 0 = number } };
}

impl SeatId {
    /// The seat of this number.
    pub fn new(number: u16) -> Self
        ensures { result ≡ number }
    {
        SeatId(number)
    }

    /// The number of this seat.
    pub fn number(self) -> u16
        ensures { result ≡ self }
    {
        self.0
    }
}

impl fmt::Display for SeatId {
    ghost output = { λ seat. Some (decimal seat) };

    fn fmt<W: fmt::Write>(&self, f: &mut fmt::Formatter<W>) -> fmt::Result {
        let number = self.0;
        write!(f, "{number}")
    }
}
