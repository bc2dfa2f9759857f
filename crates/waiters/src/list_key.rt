ghost use Rattle.std.specs.Prelude.{◌≡◌, ℕ};

use std::marker::Model;

/// The name of an open list. Once the list is closed, the key may be given again.
#[derive(Clone, Copy, Drop)]
pub struct ListKey(usize);

impl Model for ListKey {
    ghost Value = { ℕ };

    ghost view = { λ key. key.0 };

    ghost inverse = { λ number. record { 0 = number } };
}

impl ListKey {
    pub(crate) fn new(number: usize) -> Self
        ensures { result ≡ number }
    {
        ListKey(number)
    }

    pub(crate) fn number(self) -> usize
        ensures { result ≡ self }
    {
        self.0
    }
}
