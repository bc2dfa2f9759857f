//! The machine at its start, and copies of it.

ghost use Rattle.std.specs.Prelude.{◌≡◌, ◌<◌, ◌+◌, ◌^◌, ℕ, [], length, map, IfOk, OnOk};
ghost use Rattle.std.specs.List.{range_with_len};
ghost use Rattle.step_table.specs.Core.{first_core};
ghost use Rattle.step_table.specs.Run.{layout};
ghost use Rattle.step_table.specs.Group.{empty_word};
ghost use Rattle.step_rows.specs.ListStored.{first_moment, moment_of};
ghost use Rattle.step_core.specs.Key.{HasForm};
ghost use Rattle.step_core.specs.State.{core_of, AreFirst};
ghost use Rattle.step_table.specs.declared.standing.Standing.TheVariants.{Rest};

use crate::group::EMPTY;
use crate::machine::WholeMachine;
use std::alloc::{AllocError, Global};
use step_rows::{ListMachine, SemaMachine, copy_items};
use step_table::{GroupWord, Parts, Standing};
use waiters::NoMemory;

/// The lists at their first tickets.
fn first_lists(alloc: Global, firsts: &[u64], seats: u16) -> Result<Vec<ListMachine>, NoMemory>
    ensures { IfOk result (λ lists. AreFirst firsts.now (length firsts.now) seats lists.items) }
{
    let mut lists = Vec::with_capacity(alloc, firsts.len())?;
    for first in firsts {
        lists.push_reserved(ListMachine::new(alloc, *first, seats)?);
    }
    Ok(lists)
}

/// So many groups on which nothing has happened.
fn first_words(alloc: Global, groups: usize) -> Result<Vec<GroupWord>, AllocError>
    ensures { IfOk result (λ words. words.items ≡ map (λ g. empty_word) (range_with_len 0 groups)) }
{
    (0..groups).map(|_| EMPTY).collect(alloc)
}

/// So many seats that do nothing.
fn all_at_rest(alloc: Global, seats: usize) -> Result<Vec<Standing>, AllocError>
    ensures { IfOk result (λ standing. standing.items ≡ map (λ k. Rest) (range_with_len 0 seats)) }
{
    (0..seats).map(|_| Standing::Rest).collect(alloc)
}

/// The same lists, with memory of their own.
fn copied(alloc: Global, lists: &[ListMachine]) -> Result<Vec<ListMachine>, NoMemory>
    ensures { IfOk result (λ copy. copy.items ≡ lists.now) }
{
    let mut copy = Vec::with_capacity(alloc, lists.len())?;
    for list in lists {
        copy.push_reserved(list.clone()?);
    }
    Ok(copy)
}

/// The lists become as the others are, of which there are as many.
fn copy_lists(lists: &mut [ListMachine], others: &[ListMachine]) -> Result<(), NoMemory>
    requires { length lists.old ≡ length others.now }
    ensures { OnOk result (lists.new ≡ others.now) }
{
    for at in 0..others.len() {
        lists[at].copy_from(&others[at])?;
    }
    Ok(())
}

/// The machine in a box, which is moved without it.
pub(crate) fn boxed(alloc: Global, machine: WholeMachine) -> Result<Box<WholeMachine>, AllocError>
    ensures { IfOk result (λ boxed. boxed.value ≡ machine) }
{
    Ok(Box::new(alloc, machine)?)
}

impl WholeMachine {
    /// The machine before any call has begun. All memory of a run is taken here.
    pub fn new(alloc: Global, parts: &Parts) -> Result<WholeMachine, NoMemory>
        requires some_root { 0 < parts.now.roots }
        requires few_counters { length parts.now.starts + parts.now.groups < 2 ^ 32 }
        requires few_seats { length parts.now.calls < 2 ^ 16 }
        ensures form { IfOk result (HasForm parts.now) }
        ensures core { IfOk result (λ h. core_of h [] ≡ first_core (layout parts.now)) }
    {
        let seats = parts.calls.len();
        let starts = parts.starts.as_slice();
        Ok(WholeMachine {
            semaphores: SemaMachine::new(alloc, starts, parts.groups, parts.roots, seats)?,
            lists: first_lists(alloc, parts.firsts.as_slice(), seats as u16)?,
            groups: first_words(alloc, parts.groups as usize)?,
            standing: all_at_rest(alloc, seats)?,
        })
    }

    /// The same, with memory of its own for the rest of the run.
    pub fn try_clone(&self, alloc: Global) -> Result<WholeMachine, NoMemory>
        ensures { IfOk result (λ other. other ≡ self.now) }
    {
        Ok(WholeMachine {
            semaphores: self.semaphores.try_clone(alloc)?,
            lists: copied(alloc, self.lists.as_slice())?,
            groups: self.groups.as_slice().to_vec(alloc)?,
            standing: self.standing.as_slice().to_vec(alloc)?,
        })
    }

    /// Becomes as the other is, in the memory that it has. Memory is taken where that has other lists, roots
    /// or seats.
    pub fn copy_from(&mut self, alloc: Global, other: &WholeMachine) -> Result<(), NoMemory>
        ensures { OnOk result (self.new ≡ other.now) }
    {
        if self.lists.len() != other.lists.len() {
            return self.become_copy(alloc, other);
        }
        copy_lists(&mut self.lists, &other.lists)?;
        copy_items(&mut self.groups, &other.groups)?;
        copy_items(&mut self.standing, &other.standing)?;
        self.semaphores.copy_from(alloc, &other.semaphores)
    }

    /// Becomes as the other is, in memory of its own.
    // A body of its own: what it has on the stack would else be cleared at each copy.
    #[inline(never)]
    fn become_copy(&mut self, alloc: Global, other: &WholeMachine) -> Result<(), NoMemory>
        ensures { OnOk result (self.new ≡ other.now) }
    {
        *self = other.try_clone(alloc)?;
        Ok(())
    }
}
