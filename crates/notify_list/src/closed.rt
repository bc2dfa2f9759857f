/// The two words of a list that was closed. They are equal, since each ticket was granted.
#[derive(Clone, Copy, Debug, PartialEq, Eq, Drop)]
pub struct ListClosed {
    /// The wait word: the ticket that would have been the next.
    pub next: u64,
    /// The notify word: the ticket that would have been granted next.
    pub notified: u64,
}
