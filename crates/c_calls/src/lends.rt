//! How a cell lends its place. A file of its own: the clause names the row of `Cell`, which the file that
//! declares it cannot import.
ghost use Rattle.std.specs.Prelude.{◌≡◌, [], ◌∷◌, length};
ghost use types.Logic.{sem};
ghost use denote.Follow.{follows};
ghost use Rattle.c_calls.specs.contracts.cell.Cell as cell_type;
ghost use Rattle.c_calls.specs.contracts.kept_seat.KeptSeat as kept_type;
ghost use Rattle.c_calls.specs.Lent.{with_place};

use crate::cell::Cell;
use crate::kept_seat::KeptSeat;

impl Cell {
    /// The place. When the borrow ends, the cell has what was written through it.
    pub fn place(&mut self) -> &mut KeptSeat
        requires { length self.old.places ≡ 1 }
        ensures* writes_back { sem 𝓛
            (follows cell_type.the_row kept_type.the_row self.entry.ghost_name result.ghost_name
            (with_place self.old)) }
        ensures value { self.old.places ≡ result.now ∷ [] }
    {
        // SAFETY: a cell with one place owns the whole value at its pointer, and is borrowed for as long as the
        // place is: nobody else reaches it meanwhile.
        unsafe { &mut *(self.ptr as *mut KeptSeat) }
    }
}
