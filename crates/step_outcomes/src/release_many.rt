//! The rows of a release of many units at once.
//!
//! The order is that of a release of one unit: all units are added first (M1), and only then the waiter word
//! is looked at (M2). Under the lock as many waits are taken out as there are units, or as the list has (M5).
//! They are woken one by one after the lock was given back (M6, M7).

ghost use Rattle.std.specs.Prelude.{◌≡◌, ◌<◌, ◌+◌, ◌^◌, ℕ, List, length, slice_get, IfSome};
ghost use Rattle.waiters.specs.declared.wait.WaitId.{WaitId};
ghost use Rattle.step_table.specs.ReleaseMany.{release_many_event, after_leave};
ghost use Rattle.step_outcomes.specs.Outcomes.{IsWordWithin, HasRoom, Does};

use crate::outcome::{Outcome, goes, grants, tells};
use crate::sight::{RowSight, waiter};
use step_table::{Entry, ManyRow, Place, ReleaseMany, Word};
use waiters::SeatId;

/// The word of the row's event.
pub fn word_of(seat: SeatId, sight: &RowSight, release: ReleaseMany, row: ManyRow) -> Word
    ensures word { (hand list : List WaitId) → slice_get hand 0 ≡ sight.now.in_hand
        → result ≡ (release_many_event seat hand list release row).word }
    ensures within { (counters seats : ℕ) → release.counter < counters → seat < seats
        → IfSome sight.now.in_hand (λ wait. wait.seat < seats) → IsWordWithin counters seats result }
{
    let counter = release.counter;
    match row {
        ManyRow::M1 => Word::Counter(counter),
        ManyRow::M2 | ManyRow::M4 | ManyRow::M5 => Word::Waiters(counter),
        ManyRow::M3 | ManyRow::M6 => Word::Lock(counter),
        ManyRow::M7 => Word::Grant(waiter(seat, sight.in_hand)),
    }
}

/// Where it goes that takes one more wait out; `owed` counts the unit of that wait too.
fn after_leave(sight: &RowSight, release: ReleaseMany) -> Place
    ensures { result ≡ after_leave release sight.now.held sight.now.queued }
{
    let owed = (release.units as usize).saturating_sub(sight.held);
    if 1 < owed && 1 < sight.queued {
        Place::ReleasingMany(release, ManyRow::M5)
    } else {
        Place::ReleasingMany(release, ManyRow::M6)
    }
}

/// What the row does where its word is `found`; `None` where its condition doesn't hold.
pub fn outcome_of(
    seat: SeatId,
    sight: &RowSight,
    release: ReleaseMany,
    row: ManyRow,
    found: u64,
) -> Option<Outcome>
    requires { found + 2 ^ 32 < 2 ^ 64 }
    ensures room { (counters : ℕ) → release.counter < counters
        → IfSome result (λ outcome. HasRoom counters outcome.effect) }
    ensures does { (hand list : List WaitId) → slice_get hand 0 ≡ sight.now.in_hand
        → length hand ≡ sight.now.held
        → slice_get list 0 ≡ sight.now.listed → length list ≡ sight.now.queued
        → Does (release_many_event seat hand list release row) found result }
{
    let counter = release.counter;
    let units = release.units;
    let at = |row| Place::ReleasingMany(release, row);
    match row {
        ManyRow::M1 => tells(
            found + u64::from(units),
            at(ManyRow::M2),
            Entry::AddMany(counter, units, seat),
        ),
        ManyRow::M2 => match found {
            0 => goes(found, Place::Rest),
            _ => goes(found, at(ManyRow::M3)),
        },
        ManyRow::M3 => match found {
            0 => goes(1, at(ManyRow::M4)),
            _ => None,
        },
        ManyRow::M4 => match (found, sight.listed) {
            (0, _) | (_, None) => goes(found, at(ManyRow::M6)),
            (_, Some(_)) => goes(found, at(ManyRow::M5)),
        },
        ManyRow::M5 => {
            let lowered = found.saturating_sub(1);
            match sight.listed {
                None => goes(lowered, at(ManyRow::M6)),
                Some(wait) => tells(
                    lowered,
                    after_leave(sight, release),
                    Entry::Leave(counter, wait, seat),
                ),
            }
        }
        ManyRow::M6 => match sight.in_hand {
            None => goes(0, Place::Rest),
            Some(_) => goes(0, at(ManyRow::M7)),
        },
        ManyRow::M7 => {
            let next = if 1 < sight.held {
                at(ManyRow::M7)
            } else {
                Place::Rest
            };
            grants(1, next)
        }
    }
}
