//! A copy in the memory that lists have already. All that may be refused comes first, and changes no list.
ghost use Rattle.std.specs.Prelude.{◌≡◌, OnOk, OnErr};

use super::Lists;
use crate::no_memory::NoMemory;
use crate::slabs::{copy_values, reserve_as};

impl Lists {
    /// Becomes as the other lists are. No memory is taken where there is as much as the other has. Where each seat's
    /// wait is isn't known any more, so it is found by a walk.
    pub fn copy_from(&mut self, other: &Lists) -> Result<(), NoMemory>
        ensures ok { OnOk result (self.new ≡ other.now) }
        ensures err { OnErr result (self.new ≡ self.old) }
    {
        reserve_as(&mut self.records, &other.records)?;
        reserve_as(&mut self.chains, &other.chains)?;
        copy_values(&mut self.records, &other.records);
        copy_values(&mut self.chains, &other.chains);
        self.seats.forget_all();
        self.room = other.room;
        self.list_room = other.list_room;
        Ok(())
    }
}
