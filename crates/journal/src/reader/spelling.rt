//! What one line spells.

ghost use Rattle.journal.specs.Reading.{ReadsAs, IsEntryOf, IsHeadOf};
ghost use Rattle.journal.specs.JournalText.{Spells};

use crate::entry::{JournalEntry, JournalWait};
use crate::journal::Journal;
use crate::line::JournalLine;
use crate::reader::parts::{indexed, indexed_three, indexed_two, last};

/// The entry that the text spells.
fn read_entry(text: &[u8], counters: usize, lists: usize) -> Option<JournalEntry>
    ensures { ReadsAs (IsEntryOf counters lists text.now) result }
{
    if let Some((counter, seat)) = indexed(text, b"add ", counters, b" ", b"\n") {
        return Some(JournalEntry::Add { counter, seat });
    }
    if let Some((counter, seat)) = indexed(text, b"take ", counters, b" ", b"\n") {
        return Some(JournalEntry::Take { counter, seat });
    }
    if let Some((counter, (seat, turn))) = indexed_two(
        text, b"queue ", counters, b" ", b".", b"\n",
    ) {
        let wait = JournalWait { seat, turn };
        return Some(JournalEntry::Queue {
            counter,
            wait,
            lifo: false,
        });
    }
    if let Some((counter, (seat, (turn, releaser)))) = indexed_three(
        text, b"leave ", counters, b" ", b".", b" ", b"\n",
    ) {
        let wait = JournalWait { seat, turn };
        return Some(JournalEntry::Leave {
            counter,
            wait,
            seat: releaser,
        });
    }
    if let Some((counter, (seat, turn))) = indexed_two(
        text,
        b"withdraw ",
        counters,
        b" ",
        b".",
        b"\n",
    ) {
        let wait = JournalWait { seat, turn };
        return Some(JournalEntry::Withdraw { counter, wait });
    }
    if let Some((list, seat)) = indexed(text, b"ticket ", lists, b" ", b"\n") {
        return Some(JournalEntry::Ticket { list, seat });
    }
    if let Some((list, (upto, seat))) = indexed_two(text, b"grant ", lists, b" ", b" ", b"\n") {
        return Some(JournalEntry::Grant { list, upto, seat });
    }
    if let Some((list, (number, seat))) = indexed_two(text, b"forgo ", lists, b" ", b" ", b"\n") {
        return Some(JournalEntry::Forgo { list, number, seat });
    }
    if let Some((counter, (seat, turn))) = indexed_two(
        text, b"queue ", counters, b" ", b".", b" lifo\n",
    ) {
        let wait = JournalWait { seat, turn };
        return Some(JournalEntry::Queue {
            counter,
            wait,
            lifo: true,
        });
    }
    if let Some((counter, (seat, units))) = indexed_two(
        text, b"add ", counters, b" ", b" many ", b"\n",
    ) {
        return Some(JournalEntry::AddMany {
            counter,
            seat,
            units,
        });
    }
    None
}

/// The head line that the text spells.
fn read_head(text: &[u8]) -> Option<JournalLine>
    ensures { ReadsAs (IsHeadOf text.now) result }
{
    if let Some(start) = last(text, b"counter ", b"\n") {
        return Some(JournalLine::Counter { start });
    }
    if let Some(first) = last(text, b"list ", b"\n") {
        return Some(JournalLine::List { first });
    }
    None
}

/// The line that the text spells behind the lines of this journal.
pub(crate) fn read_line(text: &[u8], before: &Journal) -> Option<JournalLine>
    ensures { ReadsAs (Spells before.now text.now) result }
{
    if let Some(entry) = read_entry(text, before.starts.len(), before.lists) {
        return Some(JournalLine::Entry(entry));
    }
    if before.entries.len() > 0 {
        return None;
    }
    read_head(text)
}
