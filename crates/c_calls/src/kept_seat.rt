//! What a cell keeps: one type for both kinds of seats, so that the unsafe steps stand once.
use crate::seat_place::{ListSeatPlace, TableSeatPlace};

/// A seat at a table or at a list, in its place.
#[derive(Drop)]
pub enum KeptSeat {
    /// A table's.
    OfTable(TableSeatPlace),
    /// A list's.
    OfList(ListSeatPlace),
}
