//! What the machine has in its words.

ghost use Rattle.std.specs.Prelude.{◌≡◌, ◌<◌, List, [], length, map, IfOk, is_some};
ghost use Rattle.step_table.specs.declared.entry.Entry.{Entry as Told};
ghost use Rattle.step_table.specs.Group.{empty_word};
ghost use Rattle.step_table.specs.ListWorld.{found};
ghost use Rattle.step_outcomes.specs.ListOutcomes.{HasListWord};
ghost use Rattle.step_core.specs.Picture.{ticket_of};
ghost use Rattle.step_core.specs.State.{core_of, no_list, HasListSeat};
ghost use Rattle.step_rows.specs.Stored.{each};

use crate::machine::WholeMachine;
use std::alloc::Global;
use step_table::{GroupId, GroupWord, ListId, ListPlace, ListWord, Ticket};
use waiters::{CounterId, NoMemory, SeatId, WaitId};

impl WholeMachine {
    /// The number of the counter.
    pub fn number(&self, counter: CounterId) -> u64
        requires { counter < length self.now.semaphores.stored.numbers }
        ensures { (journal : List Told)
            → result ≡ (core_of self.now journal).semaphores.words.numbers counter }
    {
        self.semaphores.number(counter)
    }

    /// The waits of the counter's list, in order.
    pub fn waiting(&self, alloc: Global, counter: CounterId) -> Result<Vec<WaitId>, NoMemory>
        requires { counter < length self.now.semaphores.stored.lists }
        ensures { IfOk result (λ waits. (journal : List Told)
            → waits.items ≡ (core_of self.now journal).semaphores.words.lists counter) }
    {
        self.semaphores.waiting(alloc, counter)
    }

    /// Whether the seat holds a ticket of the list with which it doesn't wait yet.
    pub fn holds_ticket(&self, list: ListId, seat: SeatId) -> bool
        requires { HasListSeat self.now list seat }
        ensures { (journal : List Told)
            → result ≡ is_some (((core_of self.now journal).lists list).seats seat).ticket }
    {
        self.lists[list.number() as usize].ticket(seat).is_some()
    }

    /// The number in a word of the list.
    pub fn list_number(&self, list: ListId, word: &ListWord) -> u64
        requires list { list < length self.now.lists }
        requires word { HasListWord (length (each no_list self.now.lists list).seats) word.now }
        ensures { (journal : List Told)
            → result ≡ found ((core_of self.now journal).lists list).words word.now }
    {
        self.lists[list.number() as usize].read(word)
    }

    /// The waits of the list, in order.
    pub fn queued(&self, alloc: Global, list: ListId) -> Result<Vec<WaitId>, NoMemory>
        requires { list < length self.now.lists }
        ensures { IfOk result (λ waits. (journal : List Told) → waits.items
            ≡ map (λ wait. wait.id) ((core_of self.now journal).lists list).words.queue) }
    {
        self.lists[list.number() as usize].waiting(alloc)
    }

    /// The ticket of the list that the seat holds or waits with.
    pub fn ticket(&self, list: ListId, seat: SeatId) -> Option<Ticket>
        requires { HasListSeat self.now list seat }
        ensures { (journal : List Told)
            → result ≡ ticket_of (((core_of self.now journal).lists list).seats seat) }
    {
        let list = &self.lists[list.number() as usize];
        match list.place(seat) {
            ListPlace::Waiting(ticket, _) => Some(ticket),
            _ => list.ticket(seat),
        }
    }

    /// How many tickets of the list were handed out.
    pub fn handed_out(&self, list: ListId) -> u64
        requires { list < length self.now.lists }
        ensures { (journal : List Told)
            → result ≡ ((core_of self.now journal).lists list).words.numbers.handed }
    {
        self.lists[list.number() as usize].handed()
    }

    /// How many tickets of the list the notify word has passed: those granted, and those gone before it.
    pub fn granted(&self, list: ListId) -> u64
        requires { list < length self.now.lists }
        ensures { (journal : List Told)
            → result ≡ ((core_of self.now journal).lists list).words.numbers.passed }
    {
        self.lists[list.number() as usize].passed()
    }

    /// The state word of the group.
    pub fn group(&self, group: GroupId) -> GroupWord
        requires { group < length self.now.groups }
        ensures { result ≡ each empty_word self.now.groups group }
    {
        self.groups[group.number() as usize]
    }
}
