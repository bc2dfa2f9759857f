/// How steps are told.
#[derive(Clone, Copy, PartialEq, Eq, Debug, Drop)]
pub enum Layout {
    /// A line a step; rows of one call that no other seat parts share a line.
    Lines,
    /// A line for each row too.
    Rows,
    /// A table.
    Table,
}
