/// How two signed numbers are compared.
#[derive(Clone, Copy, Drop)]
pub enum Relation {
    /// The numbers are equal.
    Equal,
    /// They are not.
    Unequal,
    /// The first is less.
    Less,
    /// The first is at most the second.
    AtMost,
    /// The first is greater.
    Greater,
    /// The first is at least the second.
    AtLeast,
}
