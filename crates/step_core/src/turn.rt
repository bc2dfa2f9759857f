ghost use Rattle.std.specs.Prelude.{◌≡◌};
ghost use Rattle.step_core.specs.State.{entry_of};

use step_rows::{ListReady, Ready, entry_of};
use step_table::{After, Ending, Entry, GroupId, GroupRow, ListEffect, ListId};
use waiters::SeatId;

/// A row that can run, by the part of the machine that it is on.
#[derive(Clone, Copy, Drop)]
pub(crate) enum Turn {
    /// On a counter, and what comes when the call there ends.
    OnCounter(After, Ready),
    /// The seat sleeps on a counter, and gives up.
    GivesUp(After),
    /// On a list, and how the call there ends.
    OnList(ListId, Ending, ListReady),
    /// The seat sleeps on a list, and gives up.
    GivesUpOnList(ListId, Ending),
    OnGroup(GroupId, GroupRow),
}

impl Turn {
    /// What the journal tells of it, where the seat runs it.
    pub fn entry(&self, seat: SeatId) -> Option<Entry>
        ensures { result ≡ entry_of seat self.now }
    {
        match self {
            Turn::OnCounter(_, ready) => entry_of(&ready.outcome.effect),
            Turn::OnList(list, _, ready) => match ready.outcome.effect {
                ListEffect::HandsOut(_) => Some(Entry::Ticket(*list, seat)),
                ListEffect::Grants(upto) => Some(Entry::Grant(*list, upto, seat)),
                ListEffect::Forgoes(wait) => Some(Entry::Forgo(*list, wait.id.turn, seat)),
                _ => None,
            },
            Turn::GivesUp(_) | Turn::GivesUpOnList(_, _) | Turn::OnGroup(_, _) => None,
        }
    }
}
