ghost use Rattle.std.specs.Prelude.{◌≡◌};
ghost use Rattle.step_table.specs.Row.{group_row_name};

use crate::call::GivingUp;
use crate::group_id::GroupId;
use crate::group_word::GroupWord;
use crate::list_id::ListId;
use crate::misuse::Misuse;
use crate::row::Row;

/// A row of a wait group, with what the seat carries to it: an add what it adds, a wait how it ends, and each row
/// after a first look the word that was read.
#[derive(Clone, Copy, Drop)]
pub enum GroupRow {
    G1(i32),
    G2(GroupWord),
    G3(GroupWord),
    V1(Ending),
    V2(Ending, GroupWord),
    V3(Ending),
    /// It has given up, and holds the lock: its wait is queued.
    V4(GivingUp),
    V5(GivingUp, GroupWord),
}

/// What follows a row of a wait group.
#[derive(Clone, Copy, Drop)]
pub enum GroupNext {
    /// The call ends.
    Ends,
    /// Another row.
    Goes(GroupRow),
    /// The call fails, and with it the seat.
    Fails(Misuse),
    /// An acquire on the group's semaphore, by a wait that ends so.
    Acquires(Ending),
    /// So many releases on the group's semaphore, one after the other.
    Releases(u32),
    /// The sleep goes on, though the wait was given up: the group's counter is 0.
    SleepsOn(GivingUp),
    /// The wait isn't counted any more, and is withdrawn.
    Withdraws(GivingUp),
}

/// What comes when a call of a seat ends.
#[derive(Clone, Copy, Drop)]
pub enum Ending {
    /// Its next call.
    NextCall,
    /// The same, after a call that may give up so while its seat sleeps.
    MayGiveUp(GivingUp),
    /// The same, after one that has given up so.
    GaveUp(GivingUp),
    /// A call that has given up has given back what came too late: so many next calls are left out.
    GivesBack(u32),
}

/// What comes when a call on a counter ends.
#[derive(Clone, Copy, Drop)]
pub enum After {
    /// The seat's own call has ended.
    Closes(Ending),
    /// The last look of a wait of this group, which ends so.
    LooksAgain(GroupId, Ending),
    /// So many more releases on this group's semaphore.
    Releases(GroupId, u32),
}

/// What a seat is doing.
#[derive(Clone, Copy, Drop)]
pub enum Standing {
    /// Nothing: it has ended its call, and has no other.
    Rest,
    /// A call on a counter, or on the semaphore of a group.
    AtCounter(After),
    /// A call on a notify list.
    AtList(ListId, Ending),
    /// A row of a wait group.
    AtGroup(GroupId, GroupRow),
    /// Nothing: it has given up its call, and so many of its next calls are left out.
    Left(u32),
    /// It stopped at a misuse of a wait group.
    Failed(Misuse),
}

impl GroupRow {
    /// The name of the row.
    pub fn name(self) -> Row
        ensures { result ≡ group_row_name self }
    {
        match self {
            GroupRow::G1(_) => Row::G1,
            GroupRow::G2(_) => Row::G2,
            GroupRow::G3(_) => Row::G3,
            GroupRow::V1(_) => Row::V1,
            GroupRow::V2(_, _) => Row::V2,
            GroupRow::V3(_) => Row::V3,
            GroupRow::V4(_) => Row::V4,
            GroupRow::V5(_, _) => Row::V5,
        }
    }
}
