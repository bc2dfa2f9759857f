//! The rows of the list, and where each begins.
ghost use Rattle.notify_list.specs.Rows.{list_rows};
ghost use Rattle.notify_list.specs.Plays.{at_ticket, at_one, at_all, at_leave, at_wait};

use crate::stride::Stride;
use crate::view::{Known, Record, Setting};
use running_rows::{Rows, Start};

/// The rows: there is a reached world of the step table, which words, the record at home and views show.
pub struct ListRows;

/// A seat of the list's words.
pub type Token = running_rows::Token<Record, Known, Stride>;

impl Rows<Record, Known, Stride, Setting> for ListRows {
    ghost family = { list_rows };
}

/// N1, of a seat that holds no ticket.
pub struct AtTicket;

impl Start<Record, Known> for AtTicket {
    ghost at = { λ st. at_ticket };
}

/// O1.
pub struct AtOne;

impl Start<Record, Known> for AtOne {
    ghost at = { λ st. at_one };
}

/// L1.
pub struct AtAll;

impl Start<Record, Known> for AtAll {
    ghost at = { λ st. at_all };
}

/// E1, of a parked seat.
pub struct AtLeave;

impl Start<Record, Known> for AtLeave {
    ghost at = { λ st. at_leave };
}

/// The row at which the seat stands, or W1 of a seat that holds a ticket.
pub struct AtWait;

impl Start<Record, Known> for AtWait {
    ghost at = { λ st. at_wait };
}
