//! What a view has of a stride.
use std::marker::Model;
use step_table::{Entry, Place, Word};
use waiters::WaitId;

/// One stride of a seat: how it stood, its deed, what it read, and what it had seen and told. No value of it
/// is made.
pub struct Stride {
    /// The word that it only looked at; of a row none.
    looked: Option<Word>,
    place: Place,
    turn: u64,
    hand: [WaitId; 0],
    read: u64,
    seen: [Entry; 0],
    told: [Entry; 0],
}

impl Model for Stride {
    ghost use Rattle.step_law_semaphores.specs.SemaPath.{SemaStride};
    ghost use Rattle.sema_table.specs.Strides.{deed_of};

    ghost Value = { SemaStride };

    ghost view = { λ s. record {
      deed = deed_of s.looked;
      stood = record { place = s.place; turn = s.turn; hand = s.hand };
      read = s.read;
      seen = s.seen;
      told = s.told;
    } };
}
