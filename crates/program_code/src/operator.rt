/// How a number is made of two, modulo 2^64.
#[derive(Clone, Copy, Drop)]
pub enum Operator {
    /// The sum.
    Plus,
    /// The difference.
    Minus,
    /// The bits that both have.
    And,
    /// The bits that one of them has.
    Or,
    /// The bits that just one of them has.
    ExclusiveOr,
    /// The first's bits, moved up.
    ShiftLeft,
    /// The first's bits, moved down, its sign kept.
    ShiftRight,
}
