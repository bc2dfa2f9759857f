ghost use Rattle.std.specs.Prelude.{◌≡◌, ◌≢◌, false, [], OnOk, IsTrue, drop};
ghost use Rattle.std.specs.Prelude.{map, nat_lt};
ghost use Rattle.step_table.specs.Counting.{times};
ghost use Rattle.step_table.specs.Journal.{without_wait};
ghost use Rattle.step_table.specs.World.{insert_wait};
ghost use Rattle.journal.specs.LawfulJournal.{wait_of};
ghost use Rattle.journal.specs.Account.{begins as begins_with};

use crate::entry::JournalWait;
use std::alloc::{AllocError, Global};
use std::collections::VecDeque;
use std::marker::Model;

/// Takes out the first of these that is the wait.
fn remove_wait(waits: &mut VecDeque<JournalWait>, wait: JournalWait)
    ensures { map wait_of waits.new.items ≡ without_wait (wait_of wait) (map wait_of waits.old.items) }
{
    for place in 0..waits.len() {
        if waits[place] == wait {
            let _ = waits.remove(place);
            return;
        }
    }
}

/// The waits of a counter, in order.
#[derive(Drop)]
pub(crate) struct Queue {
    waits: VecDeque<JournalWait>,
}

impl Model for Queue {
    ghost use Rattle.std.specs.Prelude.{List, map};
    ghost use Rattle.waiters.specs.declared.wait.WaitId.{WaitId};

    ghost Value = { List WaitId };

    ghost use Rattle.journal.specs.LawfulJournal.{wait_of};

    ghost view = { λ q. map wait_of q.waits.items };
}

impl Queue {
    /// Nobody waits.
    pub(crate) fn new(alloc: Global) -> Self
        ensures { result ≡ [] }
    {
        Queue {
            waits: VecDeque::new(alloc),
        }
    }

    /// Whether nobody waits.
    pub(crate) fn is_empty(&self) -> bool
        ensures none { IsTrue result → self.now ≡ [] }
        ensures some { result ≡ false → self.now ≢ [] }
    {
        match self.waits.front() {
            Some(_) => false,
            None => true,
        }
    }

    /// Whether the wait is the first.
    pub(crate) fn begins(&self, wait: JournalWait) -> bool
        ensures { result ≡ begins_with (wait_of wait) self.now }
    {
        match self.waits.front() {
            Some(first) => first.seat == wait.seat && first.turn == wait.turn,
            None => false,
        }
    }

    /// Puts the wait at the front, if lifo, else at the end.
    pub(crate) fn insert(&mut self, wait: JournalWait, lifo: bool) -> Result<(), AllocError>
        ensures { OnOk result (self.new ≡ insert_wait lifo (wait_of wait) self.old) }
    {
        if lifo {
            self.waits.push_front(wait)?;
        } else {
            self.waits.push_back(wait)?;
        }
        Ok(())
    }

    /// Takes out the first wait, if there is one.
    pub(crate) fn remove_first(&mut self)
        ensures { self.new ≡ drop 1 self.old }
    {
        let _ = self.waits.pop_front();
    }

    /// Whether the wait is in the list.
    pub(crate) fn contains(&self, wait: JournalWait) -> bool
        ensures { result ≡ nat_lt 0 (times (wait_of wait) self.now) }
    {
        self.waits.contains(&wait)
    }

    /// Takes out the wait, wherever it stands, if it is in the list.
    pub(crate) fn remove(&mut self, wait: JournalWait)
        ensures { self.new ≡ without_wait (wait_of wait) self.old }
    {
        remove_wait(&mut self.waits, wait);
    }
}
