//! A copy in the memory that a list has already.

ghost use Rattle.std.specs.Prelude.{◌≡◌, OnOk};

use super::ListMachine;
use crate::copying::copy_items;
use waiters::NoMemory;

impl ListMachine {
    /// Becomes as the other list is. Memory is taken where that has other seats.
    pub fn copy_from(&mut self, other: &ListMachine) -> Result<(), NoMemory>
        ensures { OnOk result (self.new ≡ other.now) }
    {
        if self.seats.len() != other.seats.len() {
            *self = other.clone()?;
            return Ok(());
        }
        self.waits.copy_from(&other.waits)?;
        self.seats
            .as_mut_slice()
            .copy_from_slice(other.seats.as_slice());
        self.queue = other.queue;
        self.wait = other.wait;
        self.notify = other.notify;
        self.lock = other.lock;
        self.handed = other.handed;
        self.passed = other.passed;
        copy_items(&mut self.gone_numbers, &other.gone_numbers)?;
        copy_items(&mut self.gone, &other.gone)?;
        Ok(())
    }
}
