//! What a caller has of a seat.
ghost use Rattle.std.specs.Prelude.{◌≡◌, length, [], ◌∷◌, true};
ghost use Rattle.c_calls.specs.Cells.{count};

use crate::box_parts::BoxParts;
use crate::cell::Cell;
use crate::kept_seat::KeptSeat;
use std::alloc::Global;
use std::mem;

/// A seat, or none: 16 bytes, which begin as zeros.
#[repr(C)]
#[derive(Drop)]
pub struct SeatHandle {
    /// Whether it has a seat.
    pub is_full: bool,
    /// Where its seat is kept.
    pub cell: Cell,
    pub ghost tied: { length cell.places ≡ count is_full },
}

impl SeatHandle {
    /// A handle with no seat, as it begins.
    pub fn empty() -> SeatHandle
        ensures { result.cell.places ≡ [] }
    {
        SeatHandle {
            is_full: false,
            cell: Cell::none(),
        }
    }

    /// The handle of the seat in this place.
    pub(crate) fn of(place: Box<KeptSeat, Global>) -> SeatHandle
        ensures { result.cell.places ≡ place.value ∷ [] }
    {
        SeatHandle {
            is_full: true,
            cell: Cell::of(BoxParts::of(place)),
        }
    }

    /// Frees the seat, and the table or list with the last of its seats.
    pub fn clear(&mut self, alloc: Global)
        requires { self.old.is_full ≡ true }
        ensures { self.new.cell.places ≡ [] }
    {
        let old = mem::replace(self, SeatHandle::empty());
        let SeatHandle { is_full: _, cell } = old;
        drop(cell.into_parts(alloc).into_box());
    }
}
