//! One row of the step table, run over the words, the lists and the hands.

ghost use Rattle.std.specs.Prelude.{◌≡◌, ◌<◌, ◌+◌, ◌^◌, ◌↔◌, ℕ, IsTrue, List, length, slice_get, IfOk, IfErr};
ghost use Rattle.std.specs.Prelude.{IfSome};
ghost use Rattle.step_outcomes.specs.Outcomes.{HasRoom, Does};
ghost use Rattle.step_rows.specs.Stored.{hands_of, HasWord, HasSeat, Makes};
ghost use Rattle.step_rows.specs.Stored.{HasRowsOf, row_event, row_finds, IsReady, HasRun, IsRowRefusedBy};
ghost use Rattle.step_rows.specs.Stored.{refused_by};

use crate::caller::{Caller, RowGuard};
use crate::ready::Ready;
use crate::sema_store::SemaStore;
use step_outcomes::Outcome;
use step_table::{Effect, Entry, StepRefused, Word};
use waiters::SeatId;

/// Why a row can't run whose event is of this word.
pub fn refused_by(word: &Word) -> StepRefused
    ensures { result ≡ refused_by word.now }
{
    match *word {
        Word::Lock(_) => StepRefused::LockHeld,
        _ => StepRefused::Asleep,
    }
}

/// Makes an entry's change of the lists and of the seat's hand.
fn apply_entry(shared: &mut SemaStore, seat: SeatId, entry: &Entry)
    requires there { seat < length shared.old.hands }
    requires room { HasRoom (length shared.old.lists) (Effect.Tells entry.now) }
    requires fits { HasSeat shared.old (Effect.Tells entry.now) }
    ensures { Makes (Effect.Tells entry.now) seat shared.old shared.new }
{
    match *entry {
        Entry::Queue(counter, wait, lifo) => shared.queue(counter, wait, lifo),
        Entry::Leave(counter, wait, _) => {
            shared.take(seat, wait);
            shared.leave(counter);
        }
        Entry::Withdraw(counter, wait) => shared.withdraw(counter, wait),
        _ => {}
    }
}

/// Makes an effect's change of the lists and of the seat's hand.
#[inline(always)]
fn apply_effect(shared: &mut SemaStore, seat: SeatId, effect: &Effect)
    requires there { seat < length shared.old.hands }
    requires room { HasRoom (length shared.old.lists) effect.now }
    requires fits { HasSeat shared.old effect.now }
    ensures { Makes effect.now seat shared.old shared.new }
{
    match effect {
        Effect::Nothing => {}
        Effect::Wakes => shared.let_go(seat),
        Effect::Tells(entry) => apply_entry(shared, seat, entry),
    }
}

/// The word of the row at which the seat stands, and what the row does; `None` where its condition doesn't
/// hold.
// A body of its own: within its callers, what it answers would be moved once more.
#[inline(never)]
pub fn look(shared: &SemaStore, seat: SeatId, caller: &Caller) -> (Word, Option<Outcome>)
    requires rows { HasRowsOf shared.now seat caller.now.place (slice_get (hands_of shared.now seat) 0) }
    requires fits { row_finds seat caller.now shared.now (hands_of shared.now seat) + 2 ^ 32 < 2 ^ 64 }
    ensures word { result.0 ≡ (row_event seat caller.now shared.now (hands_of shared.now seat)).word }
    ensures stored { HasWord shared.now result.0 }
    ensures room { IfSome result.1 (λ outcome. HasRoom (length shared.now.lists) outcome.effect) }
    ensures fits { IfSome result.1 (λ outcome. HasSeat shared.now outcome.effect) }
    ensures does { Does (row_event seat caller.now shared.now (hands_of shared.now seat))
        (row_finds seat caller.now shared.now (hands_of shared.now seat)) result.1 }
{
    let sight = caller.sight(seat, shared);
    let word = caller.word(seat, &sight);
    let found = shared.read(&word);
    (word, caller.outcome(seat, &sight, found))
}

/// The row at which the seat stands, if it can run, or why it can't.
pub fn ready(shared: &SemaStore, seat: SeatId, caller: &Caller) -> Result<Ready, StepRefused>
    requires rows { HasRowsOf shared.now seat caller.now.place (slice_get (hands_of shared.now seat) 0) }
    requires fits { row_finds seat caller.now shared.now (hands_of shared.now seat) + 2 ^ 32 < 2 ^ 64 }
    ensures ok { IfOk result (λ ready. IsReady shared.now seat ready) }
    ensures caller { IfOk result (λ ready. ready.caller ≡ caller.now) }
    ensures why { IfErr result
        (λ cause. IsRowRefusedBy cause seat caller.now shared.now (hands_of shared.now seat)) }
{
    let (word, outcome) = look(shared, seat, caller);
    let Some(outcome) = outcome else {
        return Err(refused_by(&word));
    };
    let caller = *caller;
    Ok(Ready {
        caller,
        word,
        outcome,
    })
}

/// Whether the row can run at which the seat stands. No more is read than the one word that tells.
pub fn can_run(shared: &SemaStore, seat: SeatId, caller: &Caller) -> bool
    requires { HasRowsOf shared.now seat caller.now.place (slice_get (hands_of shared.now seat) 0) }
    ensures { IsTrue result ↔ IsTrue ((row_event seat caller.now shared.now (hands_of shared.now seat)).can
        (row_finds seat caller.now shared.now (hands_of shared.now seat))) }
{
    match caller.guard() {
        RowGuard::Shut => false,
        RowGuard::Open => true,
        RowGuard::Unlocked(counter) => shared.read(&Word::Lock(counter)) == 0,
        RowGuard::Granted => shared.grant(seat) != 0,
    }
}

/// Runs a row that can run, and says where its seat stands then.
#[inline(always)]
pub fn run_row(
    shared: &mut SemaStore,
    seat: SeatId,
    caller: &Caller,
    word: &Word,
    outcome: &Outcome,
) -> Caller
    requires ready { IsReady shared.old seat
        (record { caller = caller.now; word = word.now; outcome = outcome.now }) }
    requires turn { caller.now.turn + 1 < 2 ^ 64 }
    ensures { HasRun seat caller.now shared.old
        (hands_of shared.old seat) outcome.now.effect shared.new result }
{
    apply_effect(shared, seat, &outcome.effect);
    shared.write(*word, outcome.becomes);
    caller.after(outcome)
}
