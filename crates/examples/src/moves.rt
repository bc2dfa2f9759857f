//! What threads put into a ring and take out of it, and the ring's rule: nothing is lost, and nothing comes
//! twice.

use crossbeam_queue::RuledArrayQueue;
use crossbeam_queue::protocol::{Join, Lesson, Outcome, Protocol, Split};
use std::collections::LinkedList;

/// What a pass has put and taken, and its parts of the right to know the whole. No value of it is made.
pub struct Moves {
    pub parts: u64,
    pub put: LinkedList<u32>,
    pub taken: LinkedList<u32>,
}

/// The rule: what was put is what was taken and what the ring holds.
pub struct Balances;

impl Protocol<u32, Moves> for Balances {
    ghost use Rattle.std.specs.Prelude.{[]};
    ghost use Rattle.examples.specs.Moves.{all_parts, moves, Balanced};

    ghost holds = { Balanced };

    ghost first = { moves all_parts [] [] };
}

/// A pass that has put and taken nothing leaves with one part, and comes back with what it has put and taken.
pub struct OnePart;

impl Split<Moves> for OnePart {
    ghost use Rattle.std.specs.Prelude.{◌-◌, []};
    ghost use Rattle.examples.specs.Moves.{moves};

    ghost left = { λ v. moves (v.parts - 1) v.put v.taken };

    ghost right = { λ v. moves 1 [] [] };
}

impl Join<Moves> for OnePart {
    ghost use Rattle.std.specs.Prelude.{[]};
    ghost use Rattle.examples.specs.Moves.{moves, together};

    ghost both = { together };

    ghost spent = { moves 0 [] [] };
}

/// An item goes in.
pub struct Puts;

impl Outcome<u32, Moves> for Puts {
    ghost use Rattle.std.specs.Prelude.{◌≡◌};
    ghost use Rattle.examples.specs.Moves.{with_put};

    ghost then = { λ v x w. w ≡ with_put v x };
}

/// An item comes out.
pub struct Takes;

impl Outcome<u32, Moves> for Takes {
    ghost use Rattle.std.specs.Prelude.{◌≡◌};
    ghost use Rattle.examples.specs.Moves.{with_taken};

    ghost then = { λ v x w. w ≡ with_taken v x };
}

/// What is there, as a pass with all parts knows it.
pub struct Total;

impl Lesson<u32, Moves> for Total {
    ghost use Rattle.examples.specs.Moves.{AreLeft};

    ghost fact = { AreLeft };
}

/// A ring under the rule.
pub type Ring = RuledArrayQueue<u32, Moves, Balances>;
