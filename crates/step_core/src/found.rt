//! What the row of a seat finds in its word.

ghost use Rattle.std.specs.Prelude.{◌≡◌, ◌<◌, ◌+◌, ◌^◌, List, IfOk, IfErr, Some, None};
ghost use Rattle.step_table.specs.declared.entry.Entry.{Entry as Told};
ghost use Rattle.step_table.specs.Core.{CoreLayout};
ghost use Rattle.step_core.specs.Finding.{exchanged, found_on_counter, found_on_group, found_doing};
ghost use Rattle.step_core.specs.State.{core_of, AsksFor, HasSeat, IsMachineFor, IsReady, IsRefusal};
ghost use Rattle.step_rows.specs.Stored.{each};

use crate::machine::WholeMachine;
use crate::turn::Turn;
use step_table::{AcquireRow, GroupRow, GroupWord, Place, ReleaseRow, Standing, StepRefused};
use waiters::SeatId;

/// What a row finds in its word; of an exchange, whether it is won.
#[derive(Clone, Copy, Drop)]
pub enum WordFound {
    /// This number.
    Number(u64),
    /// This state word of a wait group.
    State(GroupWord),
    /// What its seat has read before: the exchange is won.
    Won,
    /// Something else: the exchange is lost.
    Lost,
}

/// What an exchange finds that would leave this of the number.
fn exchanged(left: u64, number: u64) -> WordFound
    ensures { result ≡ exchanged left number }
{
    match number.checked_sub(1) {
        Some(less) if less == left => WordFound::Won,
        _ => WordFound::Lost,
    }
}

/// What the row at this place finds, where this is the number in its word.
fn on_counter(place: Place, number: u64) -> WordFound
    ensures { result ≡ found_on_counter place number }
{
    match place {
        Place::Acquiring(_, AcquireRow::A2(left) | AcquireRow::A6(left) | AcquireRow::A11(left)) =>
            exchanged(left, number),
        Place::Releasing(_, ReleaseRow::R8(left)) => exchanged(left, number),
        _ => WordFound::Number(number),
    }
}

/// What a row of a wait group finds, where this is the group's word.
fn on_group(row: GroupRow, word: GroupWord) -> WordFound
    ensures { result ≡ found_on_group row word }
{
    match row {
        GroupRow::V2(_, seen) | GroupRow::V5(_, seen) if seen == word => WordFound::Won,
        GroupRow::V2(_, _) | GroupRow::V5(_, _) => WordFound::Lost,
        _ => WordFound::State(word),
    }
}

impl WholeMachine {
    /// What the row finds at which the seat stands, if it can run, or why it can't.
    pub fn look(&self, seat: SeatId) -> Result<WordFound, StepRefused>
        requires seat { HasSeat self.now seat }
        requires asks { AsksFor self.now seat (each Standing.Rest self.now.standing seat) }
        ensures can { IfOk result (λ found. IsRefusal self.now seat None) }
        ensures found { IfOk result (λ found. (m : CoreLayout) → IsMachineFor m self.now
            → (journal : List Told)
            → found_doing m (core_of self.now journal) seat (each Standing.Rest self.now.standing seat) ≡ Some found) }
        ensures why { IfErr result (λ cause. IsRefusal self.now seat (Some cause)) }
    {
        match self.ready(seat) {
            Ok(turn) => Ok(self.found(seat, &turn)),
            Err(cause) => Err(cause),
        }
    }

    /// What the row of the seat finds, which can run.
    pub(crate) fn found(&self, seat: SeatId, turn: &Turn) -> WordFound
        requires seat { HasSeat self.now seat }
        requires ready { IsReady self.now seat turn.now }
        ensures { (m : CoreLayout) → IsMachineFor m self.now → (journal : List Told)
            → found_doing m (core_of self.now journal) seat (each Standing.Rest self.now.standing seat) ≡ Some result }
    {
        match turn {
            Turn::OnCounter(_, ready) => {
                on_counter(ready.caller.place, self.semaphores.read(&ready.word))
            }
            Turn::GivesUp(_) | Turn::GivesUpOnList(_, _) => WordFound::Number(0),
            Turn::OnList(list, _, ready) => {
                WordFound::Number(self.lists[list.number() as usize].read(&ready.word))
            }
            Turn::OnGroup(group, row) => on_group(*row, self.groups[group.number() as usize]),
        }
    }
}
