//! How a seat becomes what a cell keeps.
ghost use Rattle.std.specs.Prelude.{◌≡◌, Option, Some};
ghost use Rattle.std.specs.Arc.{arc_value};
ghost use Rattle.c_calls.specs.Places.{at_table, at_list};
ghost use Rattle.c_calls.specs.declared.kept_seat.KeptSeat.{KeptSeat};

use crate::kept_seat::KeptSeat;
use crate::seat_of::SeatOf;
use crate::seat_place::SeatPlace;
use notify_list::{TaskList, TaskListSeat};
use sema_table::{TaskSeat, TaskTable};
use std::alloc::Global;
use std::sync::Arc;

/// A seat that cells keep.
pub(crate) trait Keeping<H>: SeatOf<H> {
    ghost found: { KeptSeat → Option Self };

    /// What a cell keeps: the seat, with this share of its table or list.
    fn keep(home: Arc<H, Global>, seat: Self) -> KeptSeat
        requires { Self.home seat ≡ arc_value home }
        ensures { found result ≡ Some seat };
}

impl Keeping<TaskTable> for TaskSeat {
    ghost found = { at_table };

    fn keep(home: Arc<TaskTable, Global>, seat: TaskSeat) -> KeptSeat
        requires { seat.seat.table ≡ arc_value home }
        ensures { at_table result ≡ Some seat }
    {
        KeptSeat::OfTable(SeatPlace::new(home, seat))
    }
}

impl Keeping<TaskList> for TaskListSeat {
    ghost found = { at_list };

    fn keep(home: Arc<TaskList, Global>, seat: TaskListSeat) -> KeptSeat
        requires { seat.seat.list ≡ arc_value home }
        ensures { at_list result ≡ Some seat }
    {
        KeptSeat::OfList(SeatPlace::new(home, seat))
    }
}
