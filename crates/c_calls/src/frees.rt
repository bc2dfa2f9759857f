//! How a seat is freed, by a call of its own kind. A file of its own, as `lends.rt`: the clauses name `SeatHandle`.
ghost use Rattle.std.specs.Prelude.{◌≡◌};
ghost use Rattle.sema_table.specs.declared.task_seat.TaskStage.TheVariants as table_stage;
ghost use Rattle.notify_list.specs.declared.task_seat.TaskStage.TheVariants as list_stage;
ghost use Rattle.c_calls.specs.Handles.{table_seat, list_seat};
ghost use Rattle.c_calls.specs.Answers.{Frees};

use crate::codes::{NO_SEAT, OK};
use crate::handle::SeatHandle;
use crate::kept_seat::KeptSeat;
use std::alloc::Global;

impl SeatHandle {
    /// Frees a table's seat that rests. The table goes with the last of its seats.
    pub fn free_table_seat(&mut self, alloc: Global) -> u32
        ensures other { list_seat self.new ≡ list_seat self.old }
        ensures answer { Frees (λ s. s.stage) table_stage.Resting
            (table_seat self.old) result (table_seat self.new) }
    {
        if !self.is_full {
            return NO_SEAT;
        }
        let KeptSeat::OfTable(place) = self.cell.place() else {
            // A list's seat stays: that is for `free_list_seat`.
            return NO_SEAT;
        };
        let code = place.may_leave();
        if code == OK {
            self.clear(alloc);
        }
        code
    }

    /// Frees a list's seat that rests. The list goes with the last of its seats.
    pub fn free_list_seat(&mut self, alloc: Global) -> u32
        ensures other { table_seat self.new ≡ table_seat self.old }
        ensures answer { Frees (λ s. s.stage) list_stage.Resting
            (list_seat self.old) result (list_seat self.new) }
    {
        if !self.is_full {
            return NO_SEAT;
        }
        let KeptSeat::OfList(place) = self.cell.place() else {
            return NO_SEAT;
        };
        let code = place.may_leave();
        if code == OK {
            self.clear(alloc);
        }
        code
    }
}
