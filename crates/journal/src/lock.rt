//! The judge of locks: each is a counter of a journal.

ghost use Rattle.std.specs.Prelude.{◌≡◌, length};
ghost use Rattle.journal.specs.JournalText.{IsSound};
ghost use Rattle.journal.specs.LawfulJournal.{entry_of};
ghost use Rattle.journal.specs.Locks.{earlier, holder_after, use_of, user_of};
ghost use Rattle.journal.specs.Locks.{IsFirstOf, IsLockVerdict, IsToldOfUse};

use crate::entry::JournalEntry;
use crate::journal::Journal;
use crate::lock_rule::LockRule;

/// What an entry does to a lock: the seat adds a unit, or takes one.
#[derive(Clone, Copy, Drop)]
pub(crate) enum LockUse {
    Adds { seat: u128 },
    Takes { seat: u128 },
}

impl LockUse {
    /// The seat that does it.
    fn seat(self) -> u128
        ensures { result ≡ user_of self }
    {
        match self {
            LockUse::Adds { seat } | LockUse::Takes { seat } => seat,
        }
    }
}

/// The first line that breaks a rule of a lock, and the rule.
#[derive(Clone, Copy, Drop)]
pub struct Breach {
    /// The line's number, head lines counted.
    pub line: usize,
    /// What it breaks.
    pub rule: LockRule,
}

/// What the entry does to the lock, if anything.
fn use_of(lock: usize, entry: &JournalEntry) -> Option<LockUse>
    ensures { result ≡ use_of lock (entry_of entry.now) }
{
    match *entry {
        JournalEntry::Add { counter, seat } => (counter == lock).then_some(LockUse::Adds { seat }),
        JournalEntry::AddMany { counter, seat, .. } => {
            (counter == lock).then_some(LockUse::Adds { seat })
        }
        JournalEntry::Take { counter, seat } => (counter == lock).then_some(LockUse::Takes {
            seat,
        }),
        _ => None,
    }
}

/// Who holds the lock after this: the seat that took last, if nothing was added since.
fn holder_after(holder: Option<u128>, used: Option<LockUse>) -> Option<u128>
    ensures { result ≡ holder_after holder used }
{
    match used {
        None => holder,
        Some(LockUse::Adds { .. }) => None,
        Some(LockUse::Takes { seat }) => Some(seat),
    }
}

/// What this breaks, where the lock is held so.
fn broken(holder: Option<u128>, used: Option<LockUse>) -> Option<LockRule>
    ensures { IsToldOfUse holder used result }
{
    let used = used?;
    match holder {
        Some(holder) if holder == used.seat() => None,
        Some(_) => Some(LockRule::HeldByAnother),
        None => match used {
            LockUse::Adds { .. } => Some(LockRule::NotHeld),
            LockUse::Takes { .. } => None,
        },
    }
}

/// The first line of the journal that breaks a rule of this lock.
fn judge_lock(journal: &Journal, lock: usize) -> Option<Breach>
    requires { IsSound journal.now }
    ensures { IsLockVerdict journal.now lock result }
{
    let mut holder = None;
    let entries = journal.entries.as_slice();
    for (place, entry) in entries.iter().enumerate() {
        let used = use_of(lock, entry);
        if let Some(rule) = broken(holder, used) {
            let line = journal.heads + place + 1;
            return Some(Breach { line, rule });
        }
        holder = holder_after(holder, used);
    }
    None
}

/// The breach of the lesser line; of one line the first.
fn earlier(first: Option<Breach>, other: Option<Breach>) -> Option<Breach>
    ensures { result ≡ earlier first other }
{
    let Some(one) = first else {
        return other;
    };
    match other {
        Some(breach) if breach.line < one.line => other,
        _ => first,
    }
}

/// The first line of the journal that breaks a rule of one of these locks.
pub(crate) fn judge_locks(journal: &Journal, locks: &[usize]) -> Option<Breach>
    requires { IsSound journal.now }
    ensures { IsFirstOf journal.now locks.now (length locks.now) result }
{
    let mut first = None;
    for lock in locks {
        first = earlier(first, judge_lock(journal, *lock));
    }
    first
}
