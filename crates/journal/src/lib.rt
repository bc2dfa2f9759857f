//! The judge of a journal: whether what an instrumented lock or runtime told is what a lawful one may tell.
//! [`read_journal`] answers the journal that a text spells, or its first faulty line. Head lines declare
//! counters and lists, and entries tell what happened to them, in the order of events.
//!
//! [`judge`] answers that a journal is lawful, or its first line that no lawful journal can have there, with
//! the first rule that it breaks. What is lawful is the laws' own definition; one more entry keeps a lawful
//! journal lawful exactly where it breaks none of the rules ([`law_of_the_rules`]). That says nothing of who
//! takes a unit and who brings it back. [`judge_by`] asks more where that is demanded: that counters are
//! locks, and that nobody is left asleep beside a unit.
#![tactic(auto)]

mod budget;
mod entry;
mod journal;
mod journal_fault;
mod judgement;
mod judging;
mod laws;
mod ledger;
mod line;
mod lock;
mod lock_rule;
mod queue;
mod reader;
mod rule;
mod tickets;
mod verdict;

pub use entry::{JournalEntry, JournalWait};
pub use journal::Journal;
pub use journal_fault::JournalFault;
pub use judgement::{Demands, Judgement};
pub use judging::{judge, judge_by};
pub use laws::law_of_the_rules;
pub use line::JournalLine;
pub use lock_rule::LockRule;
pub use reader::{lines_length, read_journal};
pub use rule::Rule;
pub use verdict::Verdict;
