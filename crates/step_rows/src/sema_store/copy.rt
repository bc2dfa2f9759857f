//! A copy, in memory of its own or in the memory that a store has already.

ghost use Rattle.std.specs.Prelude.{◌≡◌, IfOk, OnOk};

use super::SemaStore;
use std::alloc::Global;
use waiters::NoMemory;

impl SemaStore {
    /// The same, with memory of its own for the rest of the run.
    pub fn try_clone(&self, alloc: Global) -> Result<SemaStore, NoMemory>
        ensures { IfOk result (λ copy. copy ≡ self.now) }
    {
        Ok(SemaStore {
            own: self.own,
            roots: self.roots,
            used: self.used,
            words: self.words.as_slice().to_vec(alloc)?,
            numbers: self.numbers,
            locks: self.locks,
            queues: self.queues.try_clone(alloc)?,
            seats: self.seats.try_clone(alloc)?,
        })
    }

    /// Becomes as the other is, in the memory that it has: none is taken where there is as much.
    pub fn copy_from(&mut self, alloc: Global, other: &SemaStore) -> Result<(), NoMemory>
        ensures { OnOk result (self.new ≡ other.now) }
    {
        if self.seats.count() != other.seats.count() || self.words.len() != other.words.len() {
            *self = other.try_clone(alloc)?;
            return Ok(());
        }
        self.own = other.own;
        self.roots = other.roots;
        self.used = other.used;
        self.words.copy_from_slice(&other.words);
        self.numbers = other.numbers;
        self.locks = other.locks;
        self.queues.copy_from(alloc, &other.queues)?;
        self.seats.copy_from(alloc, &other.seats)?;
        Ok(())
    }
}
