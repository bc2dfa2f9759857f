//! The words inside of lines that are always the same.

ghost use Rattle.std.specs.Prelude.{◌≡◌, ℕ, List};
ghost use Rattle.scenario_text.specs.Phrases.{ReadsAs};
ghost use Rattle.program_text.specs.Shapes.{IsLifo, IsHandoff, IsMany};

use crate::reader::part::LinePart;

/// The seat waits in front of those that wait.
#[derive(Clone, Copy)]
pub(crate) struct Lifo;

/// The unit is handed to a sleeper.
#[derive(Clone, Copy)]
pub(crate) struct Handoff;

/// So many units follow.
#[derive(Clone, Copy)]
pub(crate) struct ManyUnits;

impl<'t> LinePart<'t> for Lifo {
    ghost says = { λ word _. IsLifo word };

    fn read(word: &'t str) -> Option<Self> {
        if word == "lifo" { Some(Lifo) } else { None }
    }
}

impl<'t> LinePart<'t> for Handoff {
    ghost says = { λ word _. IsHandoff word };

    fn read(word: &'t str) -> Option<Self> {
        if word == "handoff" {
            Some(Handoff)
        } else {
            None
        }
    }
}

impl<'t> LinePart<'t> for ManyUnits {
    ghost says = { λ word _. IsMany word };

    fn read(word: &'t str) -> Option<Self> {
        if word == "many" {
            Some(ManyUnits)
        } else {
            None
        }
    }
}
