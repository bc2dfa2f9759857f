ghost use Rattle.std.specs.Prelude.{◌≡◌, ◌<◌, ◌+◌, ◌^◌, OnOk};
ghost use Rattle.journal.specs.JournalText.{no_lines, with_line};

use crate::entry::JournalEntry;
use crate::line::JournalLine;
use std::alloc::{AllocError, Global};
use step_table::Items;

/// A journal that was read.
#[derive(Drop)]
pub struct Journal {
    /// The number of each counter before the first entry.
    pub starts: Items<u128>,
    /// How many lists are declared.
    pub lists: usize,
    /// How many head lines stand before the first entry.
    pub heads: usize,
    /// The entries, in the order of the events.
    pub entries: Items<JournalEntry>,
}

impl Journal {
    /// The journal of no lines.
    pub(crate) fn empty(alloc: Global) -> Self
        ensures { result ≡ no_lines }
    {
        Journal {
            starts: Items::empty(alloc),
            lists: 0,
            heads: 0,
            entries: Items::empty(alloc),
        }
    }

    /// Takes one line more.
    ///
    /// It is an `Err` where memory is short.
    pub(crate) fn add(&mut self, line: JournalLine) -> Result<(), AllocError>
        requires lists { self.old.lists + 1 < 2 ^ 64 }
        requires heads { self.old.heads + 1 < 2 ^ 64 }
        ensures { OnOk result (self.new ≡ with_line self.old line) }
    {
        match line {
            JournalLine::Counter { start } => {
                self.heads += 1;
                self.starts.push_back(start)
            }
            JournalLine::List { .. } => {
                self.lists += 1;
                self.heads += 1;
                Ok(())
            }
            JournalLine::Entry(entry) => self.entries.push_back(entry),
        }
    }
}
