//! What a family of rows says of itself.
ghost use Rattle.atomic_table.specs.Table.{Step};
ghost use Rattle.running_rows.specs.Family.{Family};

/// A family of rows: what its words show, what a seat knows, and what a stride of it is.
pub trait Rows<S, V, T, K> {
    ghost family: { Family S V T K };
}

/// At which row a step begins: what the seat knows then, by the step and by what it knew.
pub trait Start<S, V> {
    ghost at: { Step S → V → V };
}

/// The row at which the seat stands.
pub struct Here;

impl<S, V> Start<S, V> for Here {
    ghost at = { λ st v. v };
}
