//! Rows that can run.

ghost use Rattle.std.specs.Prelude.{◌≡◌};
ghost use Rattle.step_rows.specs.Stored.{entry_of};
ghost use Rattle.step_rows.specs.ListStored.{list_refused_by};

use crate::caller::Caller;
use step_outcomes::{ListOutcome, Outcome};
use step_table::{Effect, Entry, ListWord, StepRefused, Word};

/// A row that can run: how its seat stands, the word of its event, and what it does.
#[derive(Clone, Copy, Drop)]
pub struct Ready {
    pub caller: Caller,
    pub word: Word,
    pub outcome: Outcome,
}

/// A row of a notify list that can run: the word of its event, and what it does.
#[derive(Clone, Copy, Drop)]
pub struct ListReady {
    pub word: ListWord,
    pub outcome: ListOutcome,
}

/// The entry that the journal gets of an effect, if it gets one.
pub fn entry_of(effect: &Effect) -> Option<Entry>
    ensures { result ≡ entry_of effect.now }
{
    match *effect {
        Effect::Tells(entry) => Some(entry),
        _ => None,
    }
}

/// Why a row of a list can't run whose event is of this word.
pub fn list_refused_by(word: ListWord) -> StepRefused
    ensures { result ≡ list_refused_by word }
{
    match word {
        ListWord::Lock => StepRefused::LockHeld,
        _ => StepRefused::Asleep,
    }
}
