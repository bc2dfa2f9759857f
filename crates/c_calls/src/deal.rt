//! How a table or a list is made, and its seats dealt to handles.
ghost use Rattle.std.specs.Prelude.{◌≡◌, All, Any, min, IfOk, MatchBool, true, false};
ghost use Rattle.c_calls.specs.Deals.{DealsTable, DealsList, DealsToEmpty};

use crate::codes::{FULL, NO_MEMORY};
use crate::handle::SeatHandle;
use crate::places::give_seats;
use crate::{answers, list_answers};
use notify_list::TaskList;
use sema_table::{Settings, TaskTable};
use std::alloc::{AllocError, Global};

/// The same numbers in a vector.
fn copied(alloc: Global, starts: &[u32]) -> Result<Vec<u32>, AllocError>
    ensures { IfOk result (λ copy. copy.items ≡ starts.now) }
{
    let mut copy = Vec::with_capacity(alloc, starts.len())?;
    copy.extend_from_slice(starts)?;
    Ok(copy)
}

/// Whether no handle has a seat.
fn are_empty(handles: &[SeatHandle]) -> bool
    ensures { MatchBool result
        (All (λ h. h.is_full ≡ false) handles.now) (Any (λ h. h.is_full ≡ true) handles.now) }
{
    for handle in handles {
        if handle.is_full {
            return false;
        }
    }
    true
}

/// How many seats to ask for. What is above the limit must not be cut down to a number below it.
fn seats_for(handles: usize) -> u32
    ensures { result ≡ min 65537 handles }
{
    if handles > 65_536 {
        65_537
    } else {
        handles as u32
    }
}

/// Makes a table, and gives each of `handles` one of its seats, in their order, where none has one yet.
pub fn deal_table(
    alloc: Global,
    starts: &[u32],
    roots: u32,
    seed: u64,
    release_limit: u64,
    handles: &mut [SeatHandle],
) -> u32
    ensures { DealsToEmpty (DealsTable starts.now roots seed release_limit)
        handles.old result handles.new }
{
    if !are_empty(handles) {
        return FULL;
    }
    new_table(alloc, starts, roots, seed, release_limit, handles)
}

/// Makes a table, and gives each of `handles` one of its seats, in their order.
fn new_table(
    alloc: Global,
    starts: &[u32],
    roots: u32,
    seed: u64,
    release_limit: u64,
    handles: &mut [SeatHandle],
) -> u32
    ensures { DealsTable starts.now roots seed release_limit handles.old result handles.new }
{
    let Ok(starts) = copied(alloc, starts) else {
        return NO_MEMORY;
    };
    let settings = Settings {
        starts,
        seats: seats_for(handles.len()),
        roots,
        seed,
        release_limit,
    };
    match TaskTable::new(alloc, settings) {
        Ok((table, seats)) => give_seats(alloc, table, seats, handles),
        Err(refused) => answers::of_setup(refused),
    }
}

/// Makes a list, and gives each of `handles` one of its seats, in their order, where none has one yet.
pub fn deal_list(alloc: Global, first: u64, handles: &mut [SeatHandle]) -> u32
    ensures { DealsToEmpty (DealsList first) handles.old result handles.new }
{
    if !are_empty(handles) {
        return FULL;
    }
    new_list(alloc, first, handles)
}

/// Makes a list, and gives each of `handles` one of its seats, in their order.
fn new_list(alloc: Global, first: u64, handles: &mut [SeatHandle]) -> u32
    ensures { DealsList first handles.old result handles.new }
{
    match TaskList::starting_at(alloc, first, seats_for(handles.len())) {
        Ok((list, seats)) => give_seats(alloc, list, seats, handles),
        Err(refused) => list_answers::of_setup(refused),
    }
}
