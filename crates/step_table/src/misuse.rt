/// How a wait group was misused, by number.
#[derive(Clone, Copy, Debug, PartialEq, Eq, Drop)]
pub enum Misuse {
    /// An add led below 0.
    Negative = 1,
    /// An add ran beside a wait, from 0 up.
    AddWithWait = 2,
    /// The group was used again before a wait had returned.
    Reused = 3,
}
