//! The rows of a release: Go's `semrelease1`.
//!
//! The unit is added first (R1), and only then the waiter word is looked at (R2): a seat that is about to
//! sleep raises the word before its last look at the counter, so one of the two sees the other. Where nobody
//! waits no lock is taken. A release wakes a waiter only after it has given the lock back (R6).

ghost use Rattle.std.specs.Prelude.{◌≡◌, ◌<◌, ◌+◌, ◌^◌, ℕ, List, slice_get, IfSome};
ghost use Rattle.waiters.specs.declared.wait.WaitId.{WaitId};
ghost use Rattle.step_table.specs.Release.{release_event};
ghost use Rattle.step_outcomes.specs.Outcomes.{IsWordWithin, HasRoom, Does};

use crate::outcome::{Outcome, exchange, goes, grants, tells};
use crate::sight::{RowSight, waiter};
use step_table::{Entry, Place, Release, ReleaseRow, Word};
use waiters::SeatId;

/// The word of the row's event.
pub fn word_of(seat: SeatId, sight: &RowSight, release: Release, row: ReleaseRow) -> Word
    ensures word { (hand list : List WaitId) → slice_get hand 0 ≡ sight.now.in_hand
        → result ≡ (release_event seat hand list release row).word }
    ensures within { (counters seats : ℕ) → release.counter < counters → seat < seats
        → IfSome sight.now.in_hand (λ wait. wait.seat < seats) → IsWordWithin counters seats result }
{
    let counter = release.counter;
    match row {
        ReleaseRow::R1 | ReleaseRow::R7 | ReleaseRow::R8(_) => Word::Counter(counter),
        ReleaseRow::R2 | ReleaseRow::R4 | ReleaseRow::R5 => Word::Waiters(counter),
        ReleaseRow::R3 | ReleaseRow::R6 => Word::Lock(counter),
        ReleaseRow::R9 | ReleaseRow::R10 => Word::Grant(waiter(seat, sight.in_hand)),
    }
}

/// What the row does where its word is `found`; `None` where its condition doesn't hold.
pub fn outcome_of(
    seat: SeatId,
    sight: &RowSight,
    release: Release,
    row: ReleaseRow,
    found: u64,
) -> Option<Outcome>
    requires { found + 1 < 2 ^ 64 }
    ensures room { (counters : ℕ) → release.counter < counters
        → IfSome result (λ outcome. HasRoom counters outcome.effect) }
    ensures does { (hand list : List WaitId) → slice_get hand 0 ≡ sight.now.in_hand
        → slice_get list 0 ≡ sight.now.listed
        → Does (release_event seat hand list release row) found result }
{
    let counter = release.counter;
    let at = |row| Place::Releasing(release, row);
    match row {
        ReleaseRow::R1 => tells(found + 1, at(ReleaseRow::R2), Entry::Add(counter, seat)),
        ReleaseRow::R2 => match found {
            0 => goes(found, Place::Rest),
            _ => goes(found, at(ReleaseRow::R3)),
        },
        ReleaseRow::R3 => match found {
            0 => goes(1, at(ReleaseRow::R4)),
            _ => None,
        },
        ReleaseRow::R4 => match (found, sight.listed) {
            (0, _) | (_, None) => goes(found, at(ReleaseRow::R6)),
            (_, Some(_)) => goes(found, at(ReleaseRow::R5)),
        },
        ReleaseRow::R5 => {
            let lowered = found.saturating_sub(1);
            match sight.listed {
                None => goes(lowered, at(ReleaseRow::R6)),
                Some(wait) => tells(
                    lowered,
                    at(ReleaseRow::R6),
                    Entry::Leave(counter, wait, seat),
                ),
            }
        }
        ReleaseRow::R6 => match sight.in_hand {
            None => goes(0, Place::Rest),
            Some(_) if release.handoff => goes(0, at(ReleaseRow::R7)),
            Some(_) => goes(0, at(ReleaseRow::R10)),
        },
        ReleaseRow::R7 => match found {
            0 => goes(found, at(ReleaseRow::R10)),
            _ => goes(found, at(ReleaseRow::R8(found - 1))),
        },
        ReleaseRow::R8(left) => {
            let taken = Entry::Take(counter, waiter(seat, sight.in_hand));
            exchange(found, left, (at(ReleaseRow::R9), taken), at(ReleaseRow::R7))
        }
        ReleaseRow::R9 => grants(2, Place::Rest),
        ReleaseRow::R10 => grants(1, Place::Rest),
    }
}
