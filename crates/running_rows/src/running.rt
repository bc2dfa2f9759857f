//! Words that threads share.
use atomic_table::{Table, TableRule};
use std::alloc::Global;

/// Words and records that threads share, with the views of their seats. Those of a family of rows have its
/// views (`View`) and its rule (`OneWorld`), and change by its rows alone; others can't be made.
#[derive(Drop)]
pub struct Running<S, W, K, P: TableRule<S, W, K>> {
    pub(crate) table: Table<S, W, K, P, Global>,
}
