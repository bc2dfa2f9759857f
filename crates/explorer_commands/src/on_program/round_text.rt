//! The text of a schedule with a round behind it.

ghost use Rattle.std.specs.Prelude.{◌≡◌, ◌<◌, ℕ, List, length, IfOk, MatchOption};
ghost use Rattle.explorer_commands.specs.RoundText.{IsFree, SpellsRound, in_parentheses, spaced, with_round};
ghost use Rattle.scenario_text.specs.ScheduleText.{SpellsSeats};

use scenario_text::read_seats;
use std::alloc::Global;
use waiters::{NoMemory, SeatId};

/// A schedule, and a round behind it.
#[derive(Drop)]
pub(crate) struct ReadRound {
    /// The seats of the schedule.
    pub schedule: Vec<SeatId>,
    /// Those of the round.
    pub round: Vec<SeatId>,
}

/// The text without the space at its end. More stands before that; or there is nothing at all.
fn unspaced(text: &str) -> Option<&str>
    ensures { MatchOption result ((front : List ℕ) → text.now ≡ spaced front → ⊥) (λ front. text.now ≡ spaced front.now) }
{
    if text.is_empty() {
        return Some(text);
    }
    match text.strip_suffix(' ') {
        Some(front) => { if front.is_empty() { None } else { Some(front) } }
        None => None,
    }
}

/// What stands before the first parenthesis, and what it has, if nothing stands behind it.
fn split_parentheses(text: &str) -> Option<(&str, &str)>
    ensures { MatchOption result
        ((before inner : List ℕ) → IsFree before → text.now ≡ in_parentheses before inner → ⊥)
        (λ parts. (text.now ≡ in_parentheses parts.0.now parts.1.now) × IsFree parts.0.now) }
{
    match text.split_once('(') {
        Some((before, behind)) => match behind.strip_suffix(')') {
            Some(inner) => Some((before, inner)),
            None => None,
        },
        None => None,
    }
}

/// The text of a schedule, and that of the round behind it.
fn split_round(text: &str) -> Option<(&str, &str)>
    ensures { MatchOption result
        ((front inner : List ℕ) → IsFree front → text.now ≡ with_round front inner → ⊥)
        (λ parts. (text.now ≡ with_round parts.0.now parts.1.now) × IsFree (spaced parts.0.now)) }
{
    match split_parentheses(text) {
        Some((before, inner)) => match unspaced(before) {
            Some(front) => Some((front, inner)),
            None => None,
        },
        None => None,
    }
}

/// The seats of a text that has some.
fn read_some(alloc: Global, text: &str) -> Result<Option<Vec<SeatId>>, NoMemory>
    ensures { IfOk result (λ read. MatchOption read
        ((seats : List ℕ) → 0 < length seats → SpellsSeats text.now seats → ⊥)
        (λ seats. (0 < length seats.items) × SpellsSeats text.now seats.items)) }
{
    match read_seats(alloc, text)? {
        Some(seats) => {
            if seats.is_empty() {
                Ok(None)
            } else {
                Ok(Some(seats))
            }
        }
        None => Ok(None),
    }
}

/// The schedule and the round of the text, or that it has no round.
pub(crate) fn read_round(alloc: Global, text: &str) -> Result<Option<ReadRound>, NoMemory>
    ensures { IfOk result (λ read. MatchOption read
        ((schedule round : List ℕ) → SpellsRound text.now schedule round → ⊥)
        (λ read. SpellsRound text.now read.schedule.items read.round.items)) }
{
    let Some((front, inner)) = split_round(text) else {
        return Ok(None);
    };
    let Some(schedule) = read_seats(alloc, front)? else {
        return Ok(None);
    };
    match read_some(alloc, inner)? {
        Some(round) => Ok(Some(ReadRound { schedule, round })),
        None => Ok(None),
    }
}
