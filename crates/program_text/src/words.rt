//! What one word of a line may be.

ghost use Rattle.std.specs.Prelude.{◌≡◌, ℕ, List};

use std::marker::Model;

/// A name, as the text has it.
#[derive(Drop)]
pub struct Name<'t> {
    text: &'t str,
}

impl<'t> Model for Name<'t> {
    ghost Value = { List ℕ };

    ghost view = { λ s. s.text.now };
}

impl<'t> Name<'t> {
    /// The name of these bytes.
    pub(crate) fn new(text: &'t str) -> Self
        ensures { result ≡ text.now }
    {
        Name { text }
    }

    /// Its bytes.
    pub fn as_str(&self) -> &'t str
        ensures { result.now ≡ self.now }
    {
        self.text
    }
}

/// A number, as the text spells it: it may be outside its range.
#[derive(Clone, Copy, Drop)]
pub enum Number {
    /// A number from 0 on.
    Plus(u128),
    /// The number with a minus before it.
    Minus(u128),
}

/// What stands for a number.
#[derive(Drop)]
pub enum SpelledOperand<'t> {
    /// The number itself.
    Number(Number),
    /// The seat's own number.
    Me,
    /// A constant's or a register's name.
    Name(Name<'t>),
}

/// What is read and written: a word, a counter, or one of an array.
#[derive(Drop)]
pub struct SpelledPlace<'t> {
    /// Its name.
    pub name: Name<'t>,
    /// Which of an array.
    pub index: Option<SpelledOperand<'t>>,
}
