//! What a seat is of.
use notify_list::{TaskList, TaskListSeat};
use sema_table::{TaskSeat, TaskTable};

/// A seat of a table or of a list.
pub trait SeatOf<H>: Drop {
    ghost home: { Self → H };
}

impl SeatOf<TaskTable> for TaskSeat {
    ghost home = { λ s. s.seat.table };
}

impl SeatOf<TaskList> for TaskListSeat {
    ghost home = { λ s. s.seat.list };
}
