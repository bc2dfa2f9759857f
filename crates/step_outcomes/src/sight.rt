//! What a row sees beside its word.

ghost use Rattle.std.specs.Prelude.{◌≡◌, false, ◌<◌, ℕ, List, None, slice_get, IfSome};
ghost use Rattle.waiters.specs.declared.wait.WaitId.{WaitId};
ghost use Rattle.step_table.specs.Event.{waiter};

use waiters::{SeatId, WaitId};

/// The first wait of its counter's list and of its hand, how many the hand has, and, for a release of many,
/// how many the list has; to a seat that gives up, whether the list has a wait of its own. To a row that
/// doesn't look there they are empty.
#[derive(Clone, Copy, Drop)]
pub struct RowSight {
    pub listed: Option<WaitId>,
    pub queued: usize,
    pub in_hand: Option<WaitId>,
    pub held: usize,
    pub in_list: bool,
}

impl RowSight {
    /// To a row that looks at nothing, the list and the hand are empty.
    pub fn nothing() -> RowSight
        ensures { result ≡ record { listed = None; queued = 0; in_hand = None; held = 0; in_list = false } }
    {
        RowSight {
            listed: None,
            queued: 0,
            in_hand: None,
            held: 0,
            in_list: false,
        }
    }

    /// What a row sees that looks at the list alone.
    pub fn of_list(listed: Option<WaitId>, queued: usize) -> RowSight
        ensures { result ≡ record { listed = listed; queued = queued; in_hand = None; held = 0; in_list = false } }
    {
        RowSight {
            listed,
            queued,
            ..RowSight::nothing()
        }
    }

    /// What a row sees that looks for its seat in the list alone.
    pub fn of_own(in_list: bool) -> RowSight
        ensures { result ≡ record { listed = None; queued = 0; in_hand = None; held = 0; in_list = in_list } }
    {
        RowSight {
            in_list,
            ..RowSight::nothing()
        }
    }

    /// What a row sees that looks at the hand alone.
    pub fn of_hand(in_hand: Option<WaitId>, held: usize) -> RowSight
        ensures { result ≡ record { listed = None; queued = 0; in_hand = in_hand; held = held; in_list = false } }
    {
        RowSight {
            in_hand,
            held,
            ..RowSight::nothing()
        }
    }
}

/// The seat whose wait is the first in hand; without one, the seat itself.
pub fn waiter(seat: SeatId, in_hand: Option<WaitId>) -> SeatId
    ensures waiter { (hand : List WaitId) → slice_get hand 0 ≡ in_hand → result ≡ waiter seat hand }
    ensures within { (seats : ℕ) → seat < seats → IfSome in_hand (λ wait. wait.seat < seats)
        → result < seats }
{
    in_hand.map_or(seat, |wait| wait.seat)
}
