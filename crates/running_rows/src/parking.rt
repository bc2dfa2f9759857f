//! What a thread has to do with those that sleep in the kernel. No value of these types is made: they are what a
//! view tells of its thread.

/// A stage of a thread's dealing with one futex.
pub enum Stage {
    /// It is counted among the sleepers in this word.
    Counted(u64),
    /// Counted there, and its last look found nothing that lets it go: it is in the kernel, or on its way there or
    /// back.
    Asleep(u64),
    /// It sleeps at the lock in this word, or has slept, and owes it a try: it may be woken in place of others.
    Wants(u64),
    /// It stored in this word what lets a sleeper go, and hasn't looked yet whom to wake.
    Owes(u64),
    /// It found 2^64 - 1 others counted in this word, and goes no further.
    Overflowed(u64),
}

/// A number, told of a word.
pub struct Mark {
    pub word: u64,
    pub number: u64,
}

/// What a thread has done at all futexes.
pub struct Parking {
    /// The stages that aren't over, the last one first.
    pub stages: [Stage; 0],
    /// The words at which it called the kernel to wake a thread, one for each call.
    pub calls: [u64; 0],
    /// The words in which it stored what lets a sleeper go, each with the number of all calls there until then,
    /// and one.
    pub stored: [Mark; 0],
    /// The words in which it stored a grant, and left the wake-up to another, one for each time.
    pub passed: [u64; 0],
    /// The grants that it took, each with how many had been passed there and not taken.
    pub paid: [Mark; 0],
}
