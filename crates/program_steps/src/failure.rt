/// Why a seat failed.
#[derive(Clone, Copy, PartialEq, Eq, Drop)]
pub enum Failure {
    /// What an `assert` asks for doesn't hold.
    Assert,
    /// The line says that it fails.
    Fail,
    /// It has run 256 lines without a step, and comes to one more.
    Endless,
    /// It asks for a member that the array doesn't have.
    Index,
    /// A release would take its counter above 4294967295.
    Overflow,
    /// A release of many isn't of 1 to 256 units.
    Many,
    /// It takes a ticket where it holds one of that list, or waits where it holds none.
    Ticket,
}
