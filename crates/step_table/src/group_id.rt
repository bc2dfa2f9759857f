ghost use Rattle.std.specs.Prelude.{◌≡◌, ℕ, Some};
ghost use Rattle.std.specs.Fmt.{decimal};

use std::fmt;
use std::marker::Model;

/// A wait group, by its number from 0.
#[derive(Clone, Copy, Debug, PartialEq, Eq, Drop)]
pub struct GroupId(pub u32);

impl Model for GroupId {
    ghost Value = { ℕ };

    ghost view = { λ group. group.0 };

    ghost inverse = { λ number. record { 0 = number } };
}

impl GroupId {
    /// The group of this number.
    pub fn new(number: u32) -> Self
        ensures { result ≡ number }
    {
        GroupId(number)
    }

    /// The number of this group.
    pub fn number(self) -> u32
        ensures { result ≡ self }
    {
        self.0
    }
}

impl fmt::Display for GroupId {
    ghost output = { λ group. Some (decimal group) };

    fn fmt<W: fmt::Write>(&self, f: &mut fmt::Formatter<W>) -> fmt::Result {
        let number = self.0;
        write!(f, "{number}")
    }
}
