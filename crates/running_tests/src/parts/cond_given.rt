//! What the tests of a condition variable start from: one, and its seats.
//!
//! What answers want of memory is made once more.

ghost use Rattle.std.specs.Prelude.{◌≡◌, All, IfOk};

use std::alloc::Global;
use std::process::Abort;
use sync_parts::{Cond, ListSeat, ListSetupError};

/// A condition variable and its seats, asked for once more where memory was refused.
pub(crate) fn new_again(alloc: Global, seats: u32) -> Result<(Cond, Vec<ListSeat>), ListSetupError>
    ensures { IfOk result (λ t. All (λ s. s.list ≡ t.0) t.1.items) }
{
    match Cond::with_seats(alloc, seats) {
        Err(ListSetupError::NoMemory) => Cond::with_seats(alloc, seats),
        answer => answer,
    }
}

/// The same, of so many seats that there can be.
pub(crate) fn made(rt: &impl Abort, alloc: Global, seats: u32) -> (Cond, Vec<ListSeat>)
    ensures { All (λ s. s.list ≡ result.0) result.1.items }
{
    new_again(alloc, seats).expect(rt, "a condition variable")
}

/// Takes the last seat.
pub(crate) fn last_own(rt: &impl Abort, cond: &Cond, owns: &mut Vec<ListSeat>) -> ListSeat
    requires { All (λ s. s.list ≡ cond.now) owns.old.items }
    ensures own { result.list ≡ cond.now }
    ensures rest { All (λ s. s.list ≡ cond.now) owns.new.items }
{
    owns.pop().expect(rt, "a seat of the condition variable")
}
