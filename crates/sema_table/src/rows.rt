//! The rows of a table, and where each step begins.
ghost use Rattle.sema_table.specs.Rows.{semaphore_rows};
ghost use Rattle.sema_table.specs.Starts.{at_try, at_add, at_add_many, at_stay, at_said};

use crate::settings::TableKey;
use crate::stride::Stride;
use crate::view::{Known, Record};
use running_rows::{Rows, Start};

/// The rows of a table: there is a reached world of the step table, which words and records at home show.
pub struct Semaphores;

/// A seat of the table's words.
pub type Token = running_rows::Token<Record, Known, Stride>;

impl Rows<Record, Known, Stride, TableKey> for Semaphores {
    ghost family = { semaphore_rows };
}

/// The first row of a try.
pub struct AtTry;

impl Start<Record, Known> for AtTry {
    ghost at = { at_try };
}

/// The first row of a release.
pub struct AtAdd;

impl Start<Record, Known> for AtAdd {
    ghost at = { at_add };
}

/// The first row of a release of many units.
pub struct AtAddMany;

impl Start<Record, Known> for AtAddMany {
    ghost at = { at_add_many };
}

/// The row that gives the lock back of a seat that sleeps on after all.
pub struct AtStay;

impl Start<Record, Known> for AtStay {
    ghost at = { at_stay };
}

/// The row at the place that the step is told of.
pub struct AtSaid;

impl Start<Record, Known> for AtSaid {
    ghost at = { at_said };
}
