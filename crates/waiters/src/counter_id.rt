ghost use Rattle.std.specs.Prelude.{◌≡◌, ℕ, Some};
ghost use Rattle.std.specs.Fmt.{decimal};

use std::fmt;
use std::marker::Model;

/// A counter, by its number from 0.
#[derive(Clone, Copy, Debug, PartialEq, Eq, PartialOrd, Ord, Hash, Drop)]
pub struct CounterId(pub u32);

impl Model for CounterId {
    ghost Value = { ℕ };

    ghost view = { λ counter. counter.0 };

    ghost inverse = { λ number. record { 0 = number } };
}

impl CounterId {
    /// The counter of this number.
    pub fn new(number: u32) -> Self
        ensures { result ≡ number }
    {
        CounterId(number)
    }

    /// The number of this counter.
    pub fn number(self) -> u32
        ensures { result ≡ self }
    {
        self.0
    }
}

impl fmt::Display for CounterId {
    ghost output = { λ counter. Some (decimal counter) };

    fn fmt<W: fmt::Write>(&self, f: &mut fmt::Formatter<W>) -> fmt::Result {
        let number = self.0;
        write!(f, "{number}")
    }
}
