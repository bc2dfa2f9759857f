//! What a pool can lend: a seat of a table or of a list, for threads or for tasks.
ghost use Rattle.std.specs.Prelude.{ℕ};

use notify_list::{ListSeat, NotifyList, TaskList, TaskListSeat};
use sema_table::{Seat, SemaTable, TaskSeat, TaskTable};

/// A seat of some `H`, which has so many.
pub trait Lendable<H> {
    /// What it is a seat of.
    ghost home: { Self → H };

    /// Its number, counted from 0.
    ghost number: { Self → ℕ };

    /// It is between two calls.
    ghost rests: { Self → Type 0 };

    /// How many seats there are.
    ghost count: { H → ℕ };
}

impl Lendable<SemaTable> for Seat {
    ghost use Rattle.std.specs.Prelude.{⊤};

    ghost home = { λ s. s.table };

    ghost number = { λ s. s.number };

    ghost rests = { λ s. ⊤ };

    ghost count = { λ t. t.setting.seats };
}

impl Lendable<NotifyList> for ListSeat {
    ghost use Rattle.std.specs.Prelude.{⊤};

    ghost home = { λ s. s.list };

    ghost number = { λ s. s.number };

    ghost rests = { λ s. ⊤ };

    ghost count = { λ l. l.setting.seats };
}

impl Lendable<TaskTable> for TaskSeat {
    ghost use Rattle.std.specs.Prelude.{◌≡◌};
    ghost use Rattle.sema_table.specs.declared.task_seat.TaskStage.TheVariants.{Resting};

    ghost home = { λ s. s.seat.table };

    ghost number = { λ s. s.seat.number };

    ghost rests = { λ s. s.stage ≡ Resting };

    ghost count = { λ t. t.setting.seats };
}

impl Lendable<TaskList> for TaskListSeat {
    ghost use Rattle.std.specs.Prelude.{◌≡◌};
    ghost use Rattle.notify_list.specs.declared.task_seat.TaskStage.TheVariants.{Resting};

    ghost home = { λ s. s.seat.list };

    ghost number = { λ s. s.seat.number };

    ghost rests = { λ s. s.stage ≡ Resting };

    ghost count = { λ l. l.setting.seats };
}
