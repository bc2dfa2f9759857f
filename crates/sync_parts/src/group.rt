//! A wait group, and a seat of it.
ghost use Rattle.std.specs.Prelude.{◌≡◌, ◌+◌};
ghost use Rattle.step_law_semaphores.specs.Balances.{added_by, withdrawn_by};

use crate::group_rows::StateToken;
use crate::state_word::StateWord;
use sema_table::{Seat, SemaTable};
use std::marker::Model;

/// What is still to be done, counted, and waits that sleep until nothing is (Go's `sync.WaitGroup`). Its
/// calls take `&self` and a seat, so threads share it in an `Arc`.
#[derive(Drop)]
pub struct WaitGroup {
    pub(crate) word: StateWord,
    /// Counter 0 is the semaphore on which the waits sleep.
    pub(crate) sema: SemaTable,
}

/// A seat of a wait group between two calls: one of its state word, and one of its semaphore.
#[derive(Drop)]
pub struct GroupSeat {
    pub(crate) token: StateToken,
    pub(crate) sema: Seat,
}

impl Model for WaitGroup {
    ghost use Rattle.std.specs.Prelude.{◌≡◌};
    ghost use Rattle.sync_parts.specs.GroupSeats.{GroupModel, IsGroupSetting};

    ghost Value = { GroupModel };

    ghost view = { λ g. record { word = g.word.id; sema = g.sema } };

    ghost invariant = { λ g. IsGroupSetting g.sema.setting × (g.word.seats ≡ g.sema.setting.seats) };
}

impl Model for GroupSeat {
    ghost use Rattle.sync_parts.specs.GroupSeats.{GroupSeatModel, group_seat_of, IsGroupSeat};

    ghost Value = { GroupSeatModel };

    ghost view = { λ s. group_seat_of s.token s.sema };

    ghost invariant = { λ s. IsGroupSeat s.token s.sema };
}

impl GroupSeat {
    /// How many releases more the seat may make: 2^40 less those that it has made, and less one for each of its
    /// waits that it has withdrawn.
    pub fn left(&self) -> u64
        ensures left { result ≡ self.now.sema.left }
        ensures made { result + added_by self.now.sema.number self.now.sema.sight.seen
            + withdrawn_by self.now.sema.number self.now.sema.sight.seen ≡ self.now.sema.table.setting.limit }
    {
        self.sema.left()
    }
}
