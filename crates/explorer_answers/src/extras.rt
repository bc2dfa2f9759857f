/// What a search tells beyond what it found.
#[derive(Clone, Copy, Debug)]
pub struct Extras {
    /// Behind the answer, the replay of the schedule that it found, drawn as a table.
    pub drawn: bool,
    /// Beside the answer, how far it came, and how long it took.
    pub counted: bool,
    /// While it runs, how far it has come: for who watches to see to.
    pub live: bool,
}
