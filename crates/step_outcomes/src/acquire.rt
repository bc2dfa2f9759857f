//! The rows of an acquire, Go's `semacquire1`, and of a wait that gives up, for which Go has no row.
//!
//! A unit is first tried for without a lock (A1, A2). Else the root is locked (A3), its waiter word is raised
//! (A4) and the counter is looked at once more (A5): the word must be up before this second look, since a
//! release adds its unit before it looks for waiters. So either the look finds the unit, or the release finds
//! the waiter. Who gives up looks for its wait under the lock (D2): it takes it out (D3), or a release has done
//! so, and its grant comes (D5).

ghost use Rattle.std.specs.Prelude.{◌≡◌, ◌<◌, ◌+◌, ◌^◌, ℕ, List, IfSome, Option};
ghost use Rattle.waiters.specs.declared.wait.WaitId.{WaitId};
ghost use Rattle.step_table.specs.Acquire.{acquire_event};
ghost use Rattle.step_table.specs.World.{stands_in};
ghost use Rattle.step_outcomes.specs.Outcomes.{IsWordWithin, HasRoom, Does};

use crate::outcome::{Outcome, exchange, goes, tells};
use crate::sight::RowSight;
use step_table::{Acquire, AcquireRow, Entry, ParkedRow, Place, Word};
use waiters::{SeatId, WaitId};

/// The word of the row's event.
pub fn word_of(seat: SeatId, acquire: Acquire, row: AcquireRow) -> Word
    ensures word { (turn : ℕ) (list : List WaitId) → result ≡ (acquire_event seat turn list acquire row).word }
    ensures within { (counters seats : ℕ) → acquire.counter < counters → seat < seats
        → IsWordWithin counters seats result }
{
    let counter = acquire.counter;
    match row {
        AcquireRow::A1
        | AcquireRow::A2(_)
        | AcquireRow::A5
        | AcquireRow::A6(_)
        | AcquireRow::A10
        | AcquireRow::A11(_) => Word::Counter(counter),
        AcquireRow::A3 | AcquireRow::A7 | AcquireRow::A9 | AcquireRow::D4 => Word::Lock(counter),
        AcquireRow::A4 | AcquireRow::A8 => Word::Waiters(counter),
        AcquireRow::Parked(_, row) => match row {
            ParkedRow::P => Word::Grant(seat),
            ParkedRow::D2 | ParkedRow::D5 => Word::Lock(counter),
            ParkedRow::D3 => Word::Waiters(counter),
        },
    }
}

/// What a row does of a seat that is parked, and whose wait of this turn is in the list or isn't.
fn parked_outcome(
    wait: WaitId,
    in_list: bool,
    acquire: Acquire,
    row: ParkedRow,
    found: u64,
) -> Option<Outcome>
    requires { found + 1 < 2 ^ 64 }
    ensures does { (turn : ℕ) (list : List WaitId) → stands_in wait.seat list ≡ in_list
        → Does (acquire_event wait.seat turn list acquire (AcquireRow.Parked wait.turn row)) found result }
    ensures room { (counters : ℕ) → acquire.counter < counters
        → IfSome result (λ outcome. HasRoom counters outcome.effect) }
{
    let at = |row| Place::Acquiring(acquire, AcquireRow::Parked(wait.turn, row));
    match row {
        ParkedRow::P => match found {
            0 => None,
            1 => goes(0, Place::Acquiring(acquire, AcquireRow::A10)),
            _ => goes(0, Place::Rest),
        },
        ParkedRow::D2 => match found {
            0 if in_list => goes(1, at(ParkedRow::D3)),
            0 => goes(1, at(ParkedRow::D5)),
            _ => None,
        },
        ParkedRow::D3 => tells(
            found.saturating_sub(1),
            Place::Acquiring(acquire, AcquireRow::D4),
            Entry::Withdraw(acquire.counter, wait),
        ),
        ParkedRow::D5 => goes(0, at(ParkedRow::P)),
    }
}

/// What the row does where its word is `found`; `None` where its condition doesn't hold.
pub fn outcome_of(
    seat: SeatId,
    turn: u64,
    sight: &RowSight,
    acquire: Acquire,
    row: AcquireRow,
    found: u64,
) -> Option<Outcome>
    requires { found + 1 < 2 ^ 64 }
    ensures does { (list : List WaitId) → stands_in seat list ≡ sight.now.in_list
        → Does (acquire_event seat turn list acquire row) found result }
    ensures room { (counters : ℕ) → acquire.counter < counters
        → IfSome result (λ outcome. HasRoom counters outcome.effect) }
{
    let counter = acquire.counter;
    let taken = Entry::Take(counter, seat);
    let at = |row| Place::Acquiring(acquire, row);
    match row {
        AcquireRow::A1 => match found {
            0 => goes(found, at(AcquireRow::A3)),
            _ => goes(found, at(AcquireRow::A2(found - 1))),
        },
        AcquireRow::A2(left) => exchange(found, left, (Place::Rest, taken), at(AcquireRow::A1)),
        AcquireRow::A3 => match found {
            0 => goes(1, at(AcquireRow::A4)),
            _ => None,
        },
        AcquireRow::A4 => goes(found + 1, at(AcquireRow::A5)),
        AcquireRow::A5 => match found {
            0 => goes(found, at(AcquireRow::A7)),
            _ => goes(found, at(AcquireRow::A6(found - 1))),
        },
        AcquireRow::A6(left) => exchange(
            found,
            left,
            (at(AcquireRow::A8), taken),
            at(AcquireRow::A5),
        ),
        AcquireRow::A7 => {
            let wait = WaitId { seat, turn };
            tells(
                0,
                at(AcquireRow::Parked(turn, ParkedRow::P)),
                Entry::Queue(counter, wait, acquire.lifo),
            )
        }
        AcquireRow::A8 => goes(found.saturating_sub(1), at(AcquireRow::A9)),
        AcquireRow::A9 | AcquireRow::D4 => goes(0, Place::Rest),
        AcquireRow::Parked(turn, row) => {
            parked_outcome(WaitId { seat, turn }, sight.in_list, acquire, row, found)
        }
        AcquireRow::A10 => match found {
            0 => goes(found, at(AcquireRow::A3)),
            _ => goes(found, at(AcquireRow::A11(found - 1))),
        },
        AcquireRow::A11(left) => exchange(found, left, (Place::Rest, taken), at(AcquireRow::A10)),
    }
}
