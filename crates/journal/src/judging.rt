//! The judge.

ghost use Rattle.std.specs.Prelude.{IfOk};
ghost use Rattle.journal.specs.JournalText.{IsSound};
ghost use Rattle.journal.specs.Judged.{IsJudgementOf, IsReplayOf};
ghost use Rattle.journal.specs.Rules.{IsVerdictOf};

use crate::journal::Journal;
use crate::judgement::{Demands, Judgement};
use crate::ledger::Ledger;
use crate::lock::judge_locks;
use crate::rule::Rule;
use crate::verdict::Verdict;
use std::alloc::Global;
use waiters::NoMemory;

/// A journal that was replayed.
#[derive(Drop)]
pub(crate) enum Replayed {
    /// It is lawful, and this is known of all its entries.
    Lawful(Ledger),
    /// This line of it isn't, for this rule.
    Unlawful { line: usize, rule: Rule },
}

/// What is known at the end of the journal, or its first line that no lawful journal can have there.
///
/// It is an `Err` only where a growth was refused.
fn replay(alloc: Global, journal: &Journal) -> Result<Replayed, NoMemory>
    requires { IsSound journal.now }
    ensures { IfOk result (IsReplayOf journal.now) }
{
    let mut ledger = Ledger::new(alloc, journal.starts.as_slice(), journal.lists)?;
    let entries = journal.entries.as_slice();
    for (place, entry) in entries.iter().enumerate() {
        if let Some(rule) = ledger.broken(entry) {
            let line = journal.heads + place + 1;
            return Ok(Replayed::Unlawful { line, rule });
        }
        ledger.enter(entry)?;
    }
    Ok(Replayed::Lawful(ledger))
}

/// Whether the journal is lawful, or its first line that no lawful journal can have there, with the first
/// rule that it breaks.
///
/// A journal that was read is sound. It is an `Err` only where a growth was refused.
pub fn judge(alloc: Global, journal: &Journal) -> Result<Verdict, NoMemory>
    requires { IsSound journal.now }
    ensures { IfOk result (IsVerdictOf journal.now) }
{
    Ok(match replay(alloc, journal)? {
        Replayed::Lawful(_) => Verdict::Lawful,
        Replayed::Unlawful { line, rule } => Verdict::Unlawful { line, rule },
    })
}

/// Whether the journal is all that is asked of it. First it is to be lawful; then each of its locks is to be
/// held by one seat at a time, which brings back what it took; and at last, where that is asked for, nobody
/// is to be left asleep beside a unit.
///
/// A journal that was read is sound. It is an `Err` only where a growth was refused.
pub fn judge_by(alloc: Global, journal: &Journal, demands: &Demands) -> Result<Judgement, NoMemory>
    requires { IsSound journal.now }
    ensures { IfOk result (IsJudgementOf journal.now demands.now) }
{
    let ledger = match replay(alloc, journal)? {
        Replayed::Lawful(ledger) => ledger,
        Replayed::Unlawful { line, rule } => return Ok(Judgement::Unlawful { line, rule }),
    };
    if let Some(breach) = judge_locks(journal, &demands.locks) {
        return Ok(Judgement::Misheld {
            line: breach.line,
            rule: breach.rule,
        });
    }
    if !demands.settled {
        return Ok(Judgement::Lawful);
    }
    Ok(match ledger.left_asleep() {
        Some(counter) => Judgement::LeftAsleep { counter },
        None => Judgement::Lawful,
    })
}
