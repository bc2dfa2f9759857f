//! How seats get places of their own on the heap, and handles those places.
ghost use Rattle.std.specs.Prelude.{◌≡◌, All, map, reverse, [], ◌∷◌, length, Some, IfOk};
ghost use Rattle.std.specs.Arc.{arc_value};
ghost use Rattle.c_calls.specs.Deals.{GivesSeats};

use crate::codes::{NO_MEMORY, OK};
use crate::handle::SeatHandle;
use crate::keeping::Keeping;
use crate::kept_seat::KeptSeat;
use std::alloc::{AllocError, Global};
use std::sync::Arc;

/// A seat in a place of its own on the heap.
fn placed<H: Drop, S: Keeping<H>>(
    alloc: Global,
    home: &Arc<H, Global>,
    seat: S,
) -> Result<Box<KeptSeat, Global>, AllocError>
    requires { S.home seat ≡ arc_value home.now }
    ensures { IfOk result (λ place. S.found place.value ≡ Some seat) }
{
    let home = Arc::try_clone(home)?;
    Ok(Box::new(alloc, S::keep(home, seat))?)
}

/// Each seat in a place, the last one first. Where memory lacks, those that stand already are freed.
fn placed_each<H: Drop, S: Keeping<H>>(
    alloc: Global,
    home: &Arc<H, Global>,
    seats: Vec<S>,
) -> Result<Vec<Box<KeptSeat, Global>>, AllocError>
    requires { All (λ s. S.home s ≡ arc_value home.now) seats.items }
    ensures { IfOk result (λ places.
        map (λ b. S.found b.value) places.items ≡ reverse (map Some seats.items)) }
{
    let mut places = Vec::with_capacity(alloc, seats.len())?;
    let mut seats = seats;
    while let Some(seat) = seats.pop() {
        places.push_reserved(placed(alloc, home, seat)?);
    }
    Ok(places)
}

/// Gives each handle the place that is last.
fn give(places: Vec<Box<KeptSeat, Global>>, handles: &mut [SeatHandle])
    requires { length places.items ≡ length handles.old }
    ensures { map (λ h. h.cell.places) handles.new ≡ reverse (map (λ b. b.value ∷ []) places.items) }
{
    let mut places = places;
    for handle in handles.iter_mut() {
        let Some(place) = places.pop() else {
            unreachable!()
        };
        *handle = SeatHandle::of(place);
    }
}

/// Gives each handle one of the seats of what was made, in their order.
pub(crate) fn give_seats<H: Drop, S: Keeping<H>>(
    alloc: Global,
    home: H,
    seats: Vec<S>,
    handles: &mut [SeatHandle],
) -> u32
    requires own { All (λ s. S.home s ≡ home) seats.items }
    requires as_many { length seats.items ≡ length handles.old }
    ensures { GivesSeats S.found seats.items handles.old result handles.new }
{
    let Ok(home) = Arc::new(alloc, home) else {
        return NO_MEMORY;
    };
    let Ok(places) = placed_each(alloc, &home, seats) else {
        return NO_MEMORY;
    };
    give(places, handles);
    OK
}
