//! A place on the heap, as C holds it.
ghost use Rattle.std.specs.Prelude.{◌≡◌, List, [], ◌∷◌, length};
ghost use Rattle.c_calls.specs.declared.kept_seat.KeptSeat.{KeptSeat};
ghost use Rattle.c_calls.specs.Cells.{places_coded, cell_owns};

use crate::box_parts::BoxParts;
use crate::kept_seat::KeptSeat;
use std::alloc::Global;
use std::marker::Model;
use std::ptr;

/// What a caller outside Rattle takes a place for: a type that names nothing of the library.
#[repr(C)]
pub struct Opaque {
    /// Never read or written.
    byte: u8,
}

/// A place on the heap, or nothing.
#[repr(C)]
#[derive(Drop)]
pub struct Cell {
    pub(crate) ptr: *mut Opaque,
    pub ghost places: { List KeptSeat } by { places_coded },
}

impl Model for Cell {
    ghost also_owns = { λ c. cell_owns c.ptr c.places };
}

impl Cell {
    /// A cell that owns what the parts own.
    pub fn of(parts: BoxParts<KeptSeat, Global>) -> Cell
        ensures { result.places ≡ parts.value ∷ [] }
    {
        let BoxParts { ptr, alloc: _ } = parts;
        Cell {
            ptr: ptr as *mut Opaque,
        }
    }

    /// The parts of the place. The cell is gone then: so a place is freed once.
    pub fn into_parts(self, alloc: Global) -> BoxParts<KeptSeat, Global>
        requires { length self.places ≡ 1 }
        ensures { self.places ≡ result.value ∷ [] }
    {
        let Cell { ptr } = self;
        BoxParts {
            ptr: ptr as *mut KeptSeat,
            alloc,
        }
    }

    /// A cell with nothing in it.
    pub fn none() -> Cell
        ensures { result.places ≡ [] }
    {
        Cell {
            ptr: ptr::null_mut(),
        }
    }
}

// SAFETY: a cell owns its place and shares it with nobody, and a place may go to another thread: the table or
// list is shared behind its `Arc`, and the seat is used by one thread at a time. Proved in
// `proofs/cell/Cell/TheSendSync`.
unsafe impl Send for Cell {}
