//! What a row does, as a number was found.

ghost use Rattle.std.specs.Prelude.{◌≡◌, ◌≢◌, ◌+◌, Some};

use step_table::{Effect, Entry, Place};

/// What a row does where it found a number: what the word becomes, where the seat goes, and the effect.
#[derive(Clone, Copy, Drop)]
pub struct Outcome {
    pub becomes: u64,
    pub place: Place,
    pub effect: Effect,
}

/// The word becomes this, and the seat goes there.
pub fn goes(becomes: u64, place: Place) -> Option<Outcome>
    ensures { result ≡ Some (record { becomes = becomes; place = place; effect = Effect.Nothing }) }
{
    Some(Outcome {
        becomes,
        place,
        effect: Effect::Nothing,
    })
}

/// The same, and the journal tells it.
pub fn tells(becomes: u64, place: Place, entry: Entry) -> Option<Outcome>
    ensures { result ≡ Some (record { becomes = becomes; place = place; effect = Effect.Tells entry }) }
{
    Some(Outcome {
        becomes,
        place,
        effect: Effect::Tells(entry),
    })
}

/// One more than `left` is exchanged for `left`: won, a unit was taken, as the entry tells; lost, the counter
/// stays.
pub fn exchange(found: u64, left: u64, won: (Place, Entry), lost: Place) -> Option<Outcome>
    ensures won { found ≡ left + 1
        → result ≡ Some (record { becomes = left; place = won.0; effect = Effect.Tells won.1 }) }
    ensures lost { found ≢ left + 1
        → result ≡ Some (record { becomes = found; place = lost; effect = Effect.Nothing }) }
{
    if found.checked_sub(1) == Some(left) {
        tells(left, won.0, won.1)
    } else {
        goes(found, lost)
    }
}

/// The waiter's grant word becomes this, its wait leaves the hand, and the seat goes there.
pub fn grants(becomes: u64, place: Place) -> Option<Outcome>
    ensures { result ≡ Some (record { becomes = becomes; place = place; effect = Effect.Wakes }) }
{
    Some(Outcome {
        becomes,
        place,
        effect: Effect::Wakes,
    })
}
