//! A seat, and its share of the table or list that it is of.
ghost use Rattle.std.specs.Prelude.{◌≡◌, Some};
ghost use Rattle.std.specs.Arc.{arc_value};
ghost use Rattle.c_calls.specs.Seated.{IsAt};

use crate::seat_of::SeatOf;
use notify_list::{TaskList, TaskListSeat};
use sema_table::{TaskSeat, TaskTable};
use std::alloc::Global;
use std::sync::Arc;

/// A seat wherever it stands, and the table or list that it is of.
#[derive(Drop)]
pub struct SeatPlace<H, S: SeatOf<H>> {
    /// The table or list, which goes with the last of its places.
    pub home: Arc<H, Global>,
    /// The seat. It is taken out for the length of a call that takes it by value.
    pub seat: Option<S>,
    /// 128 bytes behind what is used. Two seats belong to two threads, and the blocks of their places lie side
    /// by side on the heap: without this the end of one and the beginning of the next would share a cache line,
    /// or a pair of lines that is fetched together.
    pub apart: [u64; 16],
    ghost own: { IsAt S.home (arc_value home) seat },
}

impl<H, S: SeatOf<H>> SeatPlace<H, S> {
    /// The place of a seat, with this share of what it is of.
    pub(crate) fn new(home: Arc<H, Global>, seat: S) -> SeatPlace<H, S>
        requires { S.home seat ≡ arc_value home }
        ensures { result.seat ≡ Some seat }
    {
        SeatPlace {
            home,
            seat: Some(seat),
            apart: [0; 16],
        }
    }
}

/// A table's seat in its place.
pub type TableSeatPlace = SeatPlace<TaskTable, TaskSeat>;

/// A list's seat in its place.
pub type ListSeatPlace = SeatPlace<TaskList, TaskListSeat>;
