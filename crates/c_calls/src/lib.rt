//! The calls of a seat at a semaphore table or a notify list for callers outside Rattle, after `TaskTable` of
//! `sema_table` and `TaskList` of `notify_list`, whose calls have Go's functions' rows. `parklot_c` exports them.
//!
//! The seat is kept in a cell on the heap, with its share of the table or list, and a caller has a handle of 16
//! bytes. Each call answers a code ([`codes`]): that of the table's or list's answer, that of its refusal, or
//! `NO_SEAT` where the handle has none. Making a table or a list of 1 to 65,536 seats, for one handle each,
//! takes all memory that is ever taken; `NO_MEMORY`, or the code of the limit that isn't kept, and no handle is touched.
//! A call that wakes many asks for room for 256 numbers, on a list for those of all seats (`ROOM`). No call waits.
#![tactic(auto)]

mod answers;
mod box_parts;
mod calls;
mod cell;
pub mod codes;
pub mod deal;
mod frees;
mod handle;
mod keeping;
mod kept_seat;
mod lends;
mod list_all;
mod list_answers;
mod list_calls;
mod numbers;
mod places;
mod seat_of;
mod seat_place;
mod wake_some;

pub use cell::Cell;
pub use handle::SeatHandle;
pub use kept_seat::KeptSeat;
pub use seat_of::SeatOf;
pub use seat_place::{ListSeatPlace, SeatPlace, TableSeatPlace};
