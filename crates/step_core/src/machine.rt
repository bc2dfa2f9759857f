//! The whole machine: its semaphores, its notify lists and its wait groups, and what each seat is doing.
//!
//! A seat's call is on one part of the machine at a time, and in all other parts the seat is at rest. Each
//! method here is one change of the whole, and holds for every journal that may stand behind it.

ghost use Rattle.std.specs.Prelude.{◌≡◌, ◌<◌, ◌+◌, ◌^◌, ◌++◌, ℕ, [], length, IfOk, OnOk};
ghost use Rattle.step_table.specs.World.{put};
ghost use Rattle.step_table.specs.Steps.{moved};
ghost use Rattle.step_table.specs.ListSteps.{moved as moved_on_list, waiting};
ghost use Rattle.step_table.specs.Group.{empty_word};
ghost use Rattle.step_keys.specs.Key.{joined, list_words, group_words, standing_words};
ghost use Rattle.step_core.specs.Key.{core_words, HasForm};
ghost use Rattle.step_rows.specs.ListStored.{IsListReady, world_of};
ghost use Rattle.step_table.specs.Core.{CoreLayout, semaphore};
ghost use Rattle.step_table.specs.CoreSteps.{stands, at_counter, at_list, waits_on_list, releases};
ghost use Rattle.step_table.specs.CoreSteps.{counter_row, list_row};
ghost use Rattle.step_core.specs.State.{Becomes, IsMachineFor, HasSeat, HasListSeat, no_list, core_of};
ghost use Rattle.step_rows.specs.Stored.{each, IsReadyFor};

mod knowing;
mod renaming;

use std::marker::Model;
use step_keys::{write_group, write_standing};
use step_rows::{ListMachine, ListReady, Ready, SemaMachine};
use step_table::{
    After, Ending, GroupId, GroupWord, ListId, ListPlace, Parts, Place, Release, ReleaseRow,
    Standing,
};
use waiters::{CounterId, NoMemory, SeatId};

/// All that rows read and write, and what each seat is doing.
#[derive(Drop)]
pub struct WholeMachine {
    pub(crate) semaphores: SemaMachine,
    pub(crate) lists: Vec<ListMachine>,
    pub(crate) groups: Vec<GroupWord>,
    pub(crate) standing: Vec<Standing>,
}

impl Model for WholeMachine {
    ghost use Rattle.step_core.specs.State.{WholeMachine as Shown};

    ghost Value = { Shown };

    ghost view = { λ m. record {
      semaphores = m.semaphores;
      lists = m.lists.items;
      groups = m.groups.items;
      standing = m.standing.items;
    } };
}

impl WholeMachine {
    /// What the seat does now.
    pub fn doing(&self, seat: SeatId) -> Standing
        requires { seat < length self.now.standing }
        ensures { result ≡ each Standing.Rest self.now.standing seat }
    {
        self.standing[seat.number() as usize]
    }

    /// The seat does this now.
    pub(crate) fn stand(&mut self, seat: SeatId, standing: Standing)
        requires { HasSeat self.old seat }
        ensures { Becomes (λ m s. stands s seat standing) self.old self.new }
    {
        self.standing[seat.number() as usize] = standing;
    }

    /// The seat stands at this place on the semaphores.
    pub(crate) fn move_on_counters(&mut self, seat: SeatId, place: Place)
        requires { HasSeat self.old seat }
        ensures { Becomes (λ m s. record s { semaphores = moved s.semaphores seat place }) self.old self.new }
    {
        self.semaphores.begin(seat, place);
    }

    /// The seat stands at this place on the list.
    pub(crate) fn move_on_list(&mut self, seat: SeatId, list: ListId, place: ListPlace)
        requires { HasListSeat self.old list seat }
        ensures { Becomes (λ m s. record s {
          lists = put s.lists list
              (moved_on_list (s.lists list) seat place);
        })
            self.old self.new }
    {
        self.lists[list.number() as usize].begin(seat, place);
    }

    /// The seat waits with the ticket of the list that it holds.
    fn wait_with_ticket(&mut self, seat: SeatId, list: ListId)
        requires { HasListSeat self.old list seat }
        ensures { Becomes (λ m s. record s {
          lists = put s.lists list
              (waiting (s.lists list) seat);
        }) self.old self.new }
    {
        self.lists[list.number() as usize].begin_wait(seat);
    }

    /// The word of the group becomes this.
    pub(crate) fn set_group(&mut self, group: GroupId, word: GroupWord)
        requires { group < length self.old.groups }
        ensures { Becomes (λ m s. record s { groups = put s.groups group word }) self.old self.new }
    {
        self.groups[group.number() as usize] = word;
    }

    /// A row on the semaphores, which can run.
    pub(crate) fn run_on_counter(&mut self, seat: SeatId, ready: &Ready)
        requires { IsReadyFor self.old.semaphores seat ready.now }
        ensures { Becomes (λ m s. counter_row m s seat) self.old self.new }
    {
        self.semaphores.run(seat, ready);
    }

    /// A row on the list, which can run.
    pub(crate) fn run_on_list(&mut self, seat: SeatId, list: ListId, ready: &ListReady)
        requires there { list < length self.old.lists }
        requires ready { IsListReady (each no_list self.old.lists list) seat ready.now }
        ensures { Becomes (λ m s. list_row s seat list) self.old self.new }
    {
        self.lists[list.number() as usize].run(seat, ready);
    }

    /// The seat stands at this place of a call on a counter, after which this comes.
    pub(crate) fn at_counter(&mut self, seat: SeatId, place: Place, after: After)
        requires { HasSeat self.old seat }
        ensures { Becomes (λ m s. at_counter s seat place after) self.old self.new }
    {
        self.move_on_counters(seat, place);
        self.stand(seat, Standing::AtCounter(after));
    }

    /// The seat stands at this place of a call on the list.
    pub(crate) fn at_list(&mut self, seat: SeatId, list: ListId, place: ListPlace, ending: Ending)
        requires seat { HasSeat self.old seat }
        requires list { HasListSeat self.old list seat }
        ensures { Becomes (λ m s. at_list s seat list place ending) self.old self.new }
    {
        self.move_on_list(seat, list, place);
        self.stand(seat, Standing::AtList(list, ending));
    }

    /// The seat waits on the list with the ticket that it holds.
    pub(crate) fn wait_on_list(&mut self, seat: SeatId, list: ListId, ending: Ending)
        requires seat { HasSeat self.old seat }
        requires list { HasListSeat self.old list seat }
        ensures { Becomes (λ m s. waits_on_list s seat list ending) self.old self.new }
    {
        self.wait_with_ticket(seat, list);
        self.stand(seat, Standing::AtList(list, ending));
    }

    /// The counter that is the semaphore of the group.
    pub(crate) fn semaphore(&self, group: GroupId) -> CounterId
        requires { self.now.semaphores.stored.own + group < 2 ^ 32 }
        ensures { (m : CoreLayout) → IsMachineFor m self.now → result ≡ semaphore m group }
    {
        CounterId::new(self.semaphores.own() as u32 + group.number())
    }

    /// The seat makes so many releases on the semaphore of the group, one after the other.
    pub(crate) fn release(&mut self, seat: SeatId, group: GroupId, number: u32)
        requires seat { HasSeat self.old seat }
        requires group { self.old.semaphores.stored.own + group < 2 ^ 32 }
        ensures { Becomes (λ m s. releases m s seat group number) self.old self.new }
    {
        if number == 0 {
            self.stand(seat, Standing::Rest);
            return;
        }
        let release = Release {
            counter: self.semaphore(group),
            handoff: false,
        };
        let place = Place::Releasing(release, ReleaseRow::R1);
        self.at_counter(seat, place, After::Releases(group, number - 1));
    }

    /// Writes the words of each list, of which there are so many.
    fn write_lists(&self, key: &mut Vec<u64>) -> Result<(), NoMemory>
        requires { (l : ℕ) → l < length self.now.lists
            → length (each no_list self.now.lists l).seats < 2 ^ 16 }
        ensures { OnOk result (key.new.items ≡ key.old.items ++ joined (length self.now.lists)
            (λ l. list_words (length (each no_list self.now.lists l).seats) (world_of (each no_list self.now.lists l) []))) }
    {
        for list in &self.lists {
            list.write_key(key)?;
        }
        Ok(())
    }

    /// Writes the word of each group.
    fn write_groups(&self, key: &mut Vec<u64>) -> Result<(), NoMemory>
        ensures { OnOk result (key.new.items
            ≡ key.old.items ++ joined (length self.now.groups) (λ g. group_words (each empty_word self.now.groups g))) }
    {
        for word in &self.groups {
            write_group(*word, key)?;
        }
        Ok(())
    }

    /// Writes what each seat is doing.
    fn write_all_standing(&self, key: &mut Vec<u64>) -> Result<(), NoMemory>
        ensures { OnOk result (key.new.items
            ≡ key.old.items ++ joined (length self.now.standing) (λ k. standing_words (each Standing.Rest self.now.standing k))) }
    {
        for standing in &self.standing {
            write_standing(standing, key)?;
        }
        Ok(())
    }

    /// Writes all that rows look at, for so much as the parts say.
    pub fn write_key(&self, parts: &Parts, key: &mut Vec<u64>) -> Result<(), NoMemory>
        requires form { HasForm parts.now self.now }
        requires few_counters { length parts.now.starts + parts.now.groups < 2 ^ 32 }
        requires few_roots { parts.now.roots + parts.now.groups < 2 ^ 32 }
        requires few_seats { length parts.now.calls < 2 ^ 16 }
        ensures { OnOk result (key.new.items ≡ key.old.items ++ core_words parts.now (core_of self.now [])) }
    {
        self.semaphores.write_key(parts.groups, key)?;
        self.write_lists(key)?;
        self.write_groups(key)?;
        self.write_all_standing(key)
    }
}
