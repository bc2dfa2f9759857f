//! The reader of a journal's text, line by line.

ghost use Rattle.std.specs.Prelude.{IfOk, IfErr};
ghost use Rattle.journal.specs.JournalText.{IsJournalOf, IsFaultOf, IsSound};
ghost use Rattle.journal.specs.Reading.{IsOnly, IsNone};
ghost use Rattle.journal.specs.Reader.{IsFault};

mod cutting;
mod number;
mod parts;
mod spelling;

use crate::journal::Journal;
use crate::journal_fault::JournalFault;
use crate::reader::cutting::first_line;
pub use crate::reader::cutting::lines_length;
use crate::reader::spelling::read_line;
use std::alloc::Global;

/// The journal that the text spells, or its first faulty line.
pub fn read_journal(alloc: Global, text: &[u8]) -> Result<Journal, JournalFault>
    ensures journal { IfOk result (IsOnly (IsJournalOf text.now)) }
    ensures faultless { IfOk result (λ _. IsNone (IsFaultOf text.now)) }
    ensures sound { IfOk result IsSound }
    ensures fault { IfErr result (IsFault text.now) }
{
    let mut journal = Journal::empty(alloc);
    let mut rest = text;
    while !rest.is_empty() {
        let (bytes, after) = first_line(rest);
        let Some(line) = read_line(bytes, &journal) else {
            let line = journal.heads + journal.entries.len() + 1;
            return Err(JournalFault::Form { line });
        };
        journal.add(line)?;
        rest = after;
    }
    Ok(journal)
}
