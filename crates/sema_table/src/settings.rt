/// What a table is made with.
#[derive(Drop)]
pub struct Settings {
    /// The number at which each counter starts: 1 to 65,536 of them.
    pub starts: Vec<u32>,
    /// How many seats there are: 1 to 65,536.
    pub seats: u32,
    /// How many roots there are: 1 to 251. Counter `c` is at root `c` modulo that number.
    pub roots: u32,
    /// From what the roots draw their tickets: root `r` from the seed plus `r`, modulo 2^64.
    pub seed: u64,
    /// How many units each seat may spend: 1 to 2^54, and at most 2^62 for all seats together. It spends those
    /// that it adds, and one for each wait that it takes out of its queue.
    pub release_limit: u64,
}

/// What the words of a table are made with.
#[derive(Drop)]
pub struct TableKey {
    pub settings: Settings,
    /// Whether threads sleep at them: at a table for tasks none does.
    pub has_threads: bool,
}
