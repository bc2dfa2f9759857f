//! A seat of a scenario, and the row that it runs next.

ghost use Rattle.std.specs.Prelude.{◌≡◌, ◌≢◌, ◌<◌, ◌+◌, ◌^◌, ◌↔◌, ℕ, IsTrue, List, length, map, slice_get};
ghost use Rattle.std.specs.Prelude.{IfOk, IfSome};
ghost use Rattle.std.specs.List.{range_with_len};
ghost use Rattle.waiters.specs.declared.wait.WaitId.{WaitId};
ghost use Rattle.step_table.specs.World.{turn_after};
ghost use Rattle.step_table.specs.Table.{event_at};
ghost use Rattle.step_outcomes.specs.Outcomes.{HasRoom, Does};
ghost use Rattle.step_rows.specs.Stored.{Stored, HasRowsOf, HasWord, IsListed, IsQueue, IsInList, seat_of};
ghost use Rattle.step_rows.specs.Stored.{stored_words, idle};
ghost use Rattle.step_rows.specs.Stored.{row_event, row_finds, lets_through, hands_of, hand_seen, lists_seen};
ghost use Rattle.step_rows.specs.Stored.{HasGuard};
ghost use Rattle.step_table.specs.Counting.{IsWithin};

use crate::sema_store::SemaStore;
use std::alloc::{AllocError, Global};
use step_outcomes::{Outcome, RowSight, acquire, release, release_many};
use step_table::{AcquireRow, Effect, Entry, ManyRow, ParkedRow, Place, ReleaseRow, Word};
use waiters::{CounterId, SeatId, WaitId};

/// Where a seat stands on the semaphores, and how many waits it has queued there.
#[derive(Clone, Copy, Drop)]
pub struct Caller {
    pub place: Place,
    pub turn: u64,
}

/// What a row has to find before it can run.
#[derive(Clone, Copy, Drop)]
pub enum RowGuard {
    /// No row is there.
    Shut,
    /// Whatever it finds, it runs.
    Open,
    /// Nobody may hold the lock of the counter's root.
    Unlocked(CounterId),
    /// The seat's grant word must be set.
    Granted,
}

impl Caller {
    /// What the row at which the seat stands has to find. It is told by the place alone.
    pub fn guard(&self) -> RowGuard
        ensures within { (counters : ℕ) → IsWithin counters self.now.place → HasGuard counters result }
        ensures guard { (seat : ℕ) (h : Stored) (hand : List WaitId)
            → (row_event seat self.now h hand).can (row_finds seat self.now h hand) ≡ lets_through h seat result }
    {
        match self.place {
            Place::Rest => RowGuard::Shut,
            Place::Acquiring(acquire, row) => match row {
                AcquireRow::A3 | AcquireRow::Parked(_, ParkedRow::D2) => {
                    RowGuard::Unlocked(acquire.counter)
                }
                AcquireRow::Parked(_, ParkedRow::P) => RowGuard::Granted,
                _ => RowGuard::Open,
            },
            Place::Releasing(release, row) => match row {
                ReleaseRow::R3 => RowGuard::Unlocked(release.counter),
                _ => RowGuard::Open,
            },
            Place::ReleasingMany(release, row) => match row {
                ManyRow::M3 => RowGuard::Unlocked(release.counter),
                _ => RowGuard::Open,
            },
        }
    }

    /// The word of the row at which the seat stands.
    pub fn word(&self, seat: SeatId, sight: &RowSight) -> Word
        ensures stored { (h : Stored) → HasRowsOf h seat self.now.place sight.now.in_hand → HasWord h result }
        ensures word { (hand : List WaitId) (lists : ℕ → List WaitId) → slice_get hand 0 ≡ sight.now.in_hand
            → result ≡ (event_at seat (seat_of self.now hand) lists self.now.place).word }
    {
        match self.place {
            Place::Rest => Word::Grant(seat),
            Place::Acquiring(acquire, row) => acquire::word_of(seat, acquire, row),
            Place::Releasing(release, row) => release::word_of(seat, sight, release, row),
            Place::ReleasingMany(release, row) => {
                release_many::word_of(seat, sight, release, row)
            }
        }
    }

    /// What the row at which the seat stands sees. The list and the hand are looked up where that row looks
    /// at them alone, and are empty to it elsewhere.
    pub fn sight(&self, seat: SeatId, shared: &SemaStore) -> RowSight
        requires within { IsWithin (length shared.now.lists) self.now.place }
        requires hand { seat < length shared.now.hands }
        ensures listed { IsListed
            (lists_seen self.now.place (stored_words shared.now).lists) self.now.place result.listed }
        ensures queued { IsQueue
            (lists_seen self.now.place (stored_words shared.now).lists) self.now.place result.queued }
        ensures in_list { IsInList seat
            (lists_seen self.now.place (stored_words shared.now).lists) self.now.place result.in_list }
        ensures in_hand { slice_get (hand_seen self.now.place (hands_of shared.now seat)) 0 ≡ result.in_hand }
        ensures held { length (hand_seen self.now.place (hands_of shared.now seat)) ≡ result.held }
    {
        match self.place {
            Place::Acquiring(acquire, AcquireRow::Parked(_, ParkedRow::D2)) => {
                RowSight::of_own(shared.holds(acquire.counter, seat))
            }
            Place::Releasing(release, row) => match row {
                ReleaseRow::R4 | ReleaseRow::R5 => RowSight::of_list(
                    shared.first(release.counter),
                    0,
                ),
                ReleaseRow::R6 | ReleaseRow::R8(_) | ReleaseRow::R9 | ReleaseRow::R10 => {
                    RowSight::of_hand(shared.in_hand(seat), shared.held(seat))
                }
                _ => RowSight::nothing(),
            },
            Place::ReleasingMany(release, row) => match row {
                ManyRow::M4 => {
                    let counter = release.counter;
                    RowSight::of_list(shared.first(counter), shared.queued(counter))
                }
                ManyRow::M5 => RowSight {
                    listed: shared.first(release.counter),
                    queued: shared.queued(release.counter),
                    in_hand: shared.in_hand(seat),
                    held: shared.held(seat),
                    in_list: false,
                },
                ManyRow::M6 | ManyRow::M7 => {
                    RowSight::of_hand(shared.in_hand(seat), shared.held(seat))
                }
                _ => RowSight::nothing(),
            },
            _ => RowSight::nothing(),
        }
    }

    /// What that row does where its word is `found`; `None` where its condition doesn't hold.
    pub fn outcome(&self, seat: SeatId, sight: &RowSight, found: u64) -> Option<Outcome>
        requires { found + 2 ^ 32 < 2 ^ 64 }
        ensures room { (counters : ℕ) → IsWithin counters self.now.place
            → IfSome result (λ outcome. HasRoom counters outcome.effect) }
        ensures does { (hand : List WaitId) (lists : ℕ → List WaitId) → slice_get hand 0 ≡ sight.now.in_hand
            → length hand ≡ sight.now.held
            → IsListed lists self.now.place sight.now.listed
            → IsQueue lists self.now.place sight.now.queued
            → IsInList seat lists self.now.place sight.now.in_list
            → Does (event_at seat (seat_of self.now hand) lists self.now.place) found result }
    {
        let turn = self.turn;
        match self.place {
            Place::Rest => None,
            Place::Acquiring(acquire, row) => {
                acquire::outcome_of(seat, turn, sight, acquire, row, found)
            }
            Place::Releasing(release, row) => {
                release::outcome_of(seat, sight, release, row, found)
            }
            Place::ReleasingMany(release, row) => {
                release_many::outcome_of(seat, sight, release, row, found)
            }
        }
    }

    /// A seat that has queued nothing.
    pub fn idle() -> Caller
        ensures { result ≡ idle }
    {
        Caller {
            place: Place::Rest,
            turn: 0,
        }
    }

    /// So many seats that have queued nothing.
    pub fn all_idle(alloc: Global, seats: usize) -> Result<Vec<Caller>, AllocError>
        ensures { IfOk result (λ callers. callers.items ≡ map (λ k. idle) (range_with_len 0 seats)) }
    {
        (0..seats).map(|_| Caller::idle()).collect(alloc)
    }

    /// The seat after its row.
    pub fn after(&self, outcome: &Outcome) -> Caller
        requires { self.now.turn + 1 < 2 ^ 64 }
        ensures { result ≡ record {
          place = outcome.now.place;
          turn = turn_after outcome.now.effect self.now.turn;
        } }
    {
        let turn = match outcome.effect {
            Effect::Tells(Entry::Queue(_, _, _)) => self.turn + 1,
            _ => self.turn,
        };
        Caller {
            place: outcome.place,
            turn,
        }
    }
}
