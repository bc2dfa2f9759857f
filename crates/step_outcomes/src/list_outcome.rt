//! What a row of a notify list sees beside its word, and what it does.

ghost use Rattle.std.specs.Prelude.{◌≡◌, ◌<◌, ℕ, List, Some, slice_get, IfSome};
ghost use Rattle.waiters.specs.declared.wait.Wait.{Wait};
ghost use Rattle.step_table.specs.ListEvent.{waiter};

use step_table::{ListEffect, ListPlace};
use waiters::{SeatId, Wait};

/// How many tickets were handed out; the number of the first that is neither granted nor gone, and how many
/// behind it are gone; the first wait of the list, and how many it has in hand. A row that doesn't look there
/// finds nothing of the others.
#[derive(Clone, Copy, Drop)]
pub struct ListSight {
    pub handed: u64,
    pub passed: u64,
    pub gone: usize,
    pub queued: Option<Wait>,
    /// The wait that `O8` takes out.
    pub asked: Option<Wait>,
    /// Whether the list has a wait of the seat, which looks for it at `E1`.
    pub waits: bool,
    /// What `O7` and `E3` leave in the notify word.
    pub next: u64,
    pub in_hand: Option<Wait>,
    pub held: usize,
}

impl ListSight {
    /// The seat whose wait is the first in hand; without one, the seat itself.
    pub fn waiter(&self, seat: SeatId) -> SeatId
        ensures waiter { (hand : List Wait) → slice_get hand 0 ≡ self.now.in_hand
            → result ≡ waiter seat hand }
        ensures within { (seats : ℕ) → seat < seats → IfSome self.now.in_hand (λ wait. wait.id.seat < seats)
            → result < seats }
    {
        self.in_hand.map_or(seat, |wait| wait.id.seat)
    }
}

/// What a row does where it found a number: what the word becomes, where the seat goes, and the effect.
#[derive(Clone, Copy, Drop)]
pub struct ListOutcome {
    pub becomes: u64,
    pub place: ListPlace,
    pub effect: ListEffect,
}

/// The word becomes this, and the seat goes there.
pub fn goes(becomes: u64, place: ListPlace) -> Option<ListOutcome>
    ensures { result ≡ Some (record { becomes = becomes; place = place; effect = ListEffect.Nothing }) }
{
    does(becomes, place, ListEffect::Nothing)
}

/// The same, with this effect.
pub fn does(becomes: u64, place: ListPlace, effect: ListEffect) -> Option<ListOutcome>
    ensures { result ≡ Some (record { becomes = becomes; place = place; effect = effect }) }
{
    Some(ListOutcome {
        becomes,
        place,
        effect,
    })
}
