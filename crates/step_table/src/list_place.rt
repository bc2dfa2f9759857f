ghost use Rattle.std.specs.Prelude.{◌≡◌};
ghost use Rattle.step_table.specs.Row.{list_row_of, wait_row_name, list_parked_row_name, one_row_name, all_row_name};

use crate::row::Row;
use waiters::{SeatId, Wait};

/// A ticket of a notify list.
#[derive(Clone, Copy, Drop)]
pub struct Ticket {
    /// The wait word from which it was taken: the ticket as the rows know it. It wraps.
    pub word: u64,
    /// How many tickets the list had handed out before it. No row looks at it.
    pub number: u64,
}

/// A row of a wait. The seat's ticket stands beside it.
#[derive(Clone, Copy, Drop)]
pub enum WaitRow {
    W1,
    W2,
    W3,
    W4,
    /// It has left: its ticket is gone.
    E4,
    /// Its wait is queued, in a hand or granted.
    Parked(ListParkedRow),
}

/// A row of a seat that is parked: it looks for its grant, or gives up its sleep. `E3` carries the notify word
/// that was read.
#[derive(Clone, Copy, Drop)]
pub enum ListParkedRow {
    P,
    E1,
    E2,
    E3(u64),
    E5,
}

/// A row of a notification of one wait. `O2` carries the wait word, `O5`, `O7` and `O8` the notify word that
/// was read.
#[derive(Clone, Copy, Drop)]
pub enum OneRow {
    O1,
    O2(u64),
    O3,
    O4,
    O5(u64),
    O6,
    O7(u64),
    O8(u64),
    O9,
}

/// What a notification of all has read under the lock.
#[derive(Clone, Copy, Drop)]
pub struct Reach {
    /// The notify word.
    pub notified: u64,
    /// The wait word, which the notify word is to become.
    pub waited: u64,
    /// How many tickets were handed out when the wait word was read. No row looks at it but for the journal.
    pub handed: u64,
}

/// A row of a notification of all waits. `L2` carries the wait word, `L5` the notify word that was read,
/// `L7` how many tickets the call has granted: those that it passed but for the gone ones. The waits that it took
/// out are in the seat's hand.
#[derive(Clone, Copy, Drop)]
pub enum AllRow {
    L1,
    L2(u64),
    L3,
    L4,
    L5(u64),
    L6(Reach),
    L7(u64),
    L8,
}

/// Where a seat stands on a notify list: at rest, or before a row of its call. A notification carries how
/// many tickets were handed out at its first look, and 0 before that. No row looks at it: it tells what the
/// call may conclude.
#[derive(Clone, Copy, Drop)]
pub enum ListPlace {
    Rest,
    /// Before N1, where it takes a ticket.
    Adding,
    /// With the ticket for which it waits.
    Waiting(Ticket, WaitRow),
    NotifyingOne(u64, OneRow),
    NotifyingAll(u64, AllRow),
}

/// A word of a notify list, or of a seat.
#[derive(Clone, Copy, Drop)]
pub enum ListWord {
    /// The next ticket.
    Wait,
    /// The first ticket that is neither granted nor gone.
    Notify,
    /// The lock word: 0 is free.
    Lock,
    /// The grant word of a seat: 0 none, 1 granted.
    Grant(SeatId),
}

/// What a row of a notify list does beside its word.
#[derive(Clone, Copy, Drop)]
pub enum ListEffect {
    /// Nothing.
    Nothing,
    /// The ticket was handed out to the seat, as the journal tells.
    HandsOut(Ticket),
    /// Tickets were granted, so that this many are, as the journal tells.
    Grants(u64),
    /// The wait goes to the list's end.
    Queues(Wait),
    /// The first wait with this ticket word goes from the list into the hand.
    TakesOut(u64),
    /// All waits go from the list into the hand.
    TakesAll,
    /// The first wait in the hand was granted, and leaves the hand.
    Gives,
    /// The wait's seat has left: its wait goes out of the list, and its ticket is gone, as the journal tells.
    Forgoes(Wait),
}

impl ListPlace {
    /// The name of the row, if the seat stands before one.
    pub fn row(self) -> Option<Row>
        ensures { result ≡ list_row_of self }
    {
        match self {
            ListPlace::Rest => None,
            ListPlace::Adding => Some(Row::N1),
            ListPlace::Waiting(_, row) => Some(row.name()),
            ListPlace::NotifyingOne(_, row) => Some(row.name()),
            ListPlace::NotifyingAll(_, row) => Some(row.name()),
        }
    }
}

impl WaitRow {
    fn name(self) -> Row
        ensures { result ≡ wait_row_name self }
    {
        match self {
            WaitRow::W1 => Row::W1,
            WaitRow::W2 => Row::W2,
            WaitRow::W3 => Row::W3,
            WaitRow::W4 => Row::W4,
            WaitRow::E4 => Row::E4,
            WaitRow::Parked(row) => row.name(),
        }
    }
}

impl ListParkedRow {
    fn name(self) -> Row
        ensures { result ≡ list_parked_row_name self }
    {
        match self {
            ListParkedRow::P => Row::P,
            ListParkedRow::E1 => Row::E1,
            ListParkedRow::E2 => Row::E2,
            ListParkedRow::E3(_) => Row::E3,
            ListParkedRow::E5 => Row::E5,
        }
    }
}

impl OneRow {
    fn name(self) -> Row
        ensures { result ≡ one_row_name self }
    {
        match self {
            OneRow::O1 => Row::O1,
            OneRow::O2(_) => Row::O2,
            OneRow::O3 => Row::O3,
            OneRow::O4 => Row::O4,
            OneRow::O5(_) => Row::O5,
            OneRow::O6 => Row::O6,
            OneRow::O7(_) => Row::O7,
            OneRow::O8(_) => Row::O8,
            OneRow::O9 => Row::O9,
        }
    }
}

impl AllRow {
    fn name(self) -> Row
        ensures { result ≡ all_row_name self }
    {
        match self {
            AllRow::L1 => Row::L1,
            AllRow::L2(_) => Row::L2,
            AllRow::L3 => Row::L3,
            AllRow::L4 => Row::L4,
            AllRow::L5(_) => Row::L5,
            AllRow::L6(_) => Row::L6,
            AllRow::L7(_) => Row::L7,
            AllRow::L8 => Row::L8,
        }
    }
}
