ghost use Rattle.std.specs.Prelude.{◌≡◌, ℕ, Some};
ghost use Rattle.std.specs.Fmt.{decimal};

use std::fmt;
use std::marker::Model;

/// A notify list, by its number from 0.
#[derive(Clone, Copy, Debug, PartialEq, Eq, Drop)]
pub struct ListId(pub u32);

impl Model for ListId {
    ghost Value = { ℕ };

    ghost view = { λ list. list.0 };

    ghost inverse = { λ number. record { 0 = number } };
}

impl ListId {
    /// The list of this number.
    pub fn new(number: u32) -> Self
        ensures { result ≡ number }
    {
        ListId(number)
    }

    /// The number of this list.
    pub fn number(self) -> u32
        ensures { result ≡ self }
    {
        self.0
    }
}

impl fmt::Display for ListId {
    ghost output = { λ list. Some (decimal list) };

    fn fmt<W: fmt::Write>(&self, f: &mut fmt::Formatter<W>) -> fmt::Result {
        let number = self.0;
        write!(f, "{number}")
    }
}
