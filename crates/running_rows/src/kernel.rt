//! Who ends the sleeps of threads.
ghost use Rattle.std.specs.Prelude.{◌≡◌, ◌<◌, Bool, false};

use crate::running::Running;
use atomic_table::TableRule;

/// What a call goes to that lets a sleeper go. Where no thread ever sleeps nobody need be there: a program in
/// another language links no call of the kernel.
pub trait Kernel {
    /// Whose sleepers it lets go: of words at which threads sleep, or none does.
    ghost serves: { Bool → Type 0 };

    /// Ends the sleep of one thread at the word, if one sleeps there.
    fn wake_one<S, W, K, P: TableRule<S, W, K>>(words: &Running<S, W, K, P>, word: usize)
        requires { word < words.now.table.shared.table_id.words };
}

/// The kernel.
pub struct Futexes;

impl Kernel for Futexes {
    ghost serves = { λ has_threads. Unit {0} };

    fn wake_one<S, W, K, P: TableRule<S, W, K>>(words: &Running<S, W, K, P>, word: usize) {
        words.table.shared.wake_one(word);
    }
}

/// Nobody: of words at which no thread ever sleeps.
pub struct NoThreads;

impl Kernel for NoThreads {
    ghost serves = { λ has_threads. has_threads ≡ false };

    fn wake_one<S, W, K, P: TableRule<S, W, K>>(_words: &Running<S, W, K, P>, _word: usize) {}
}
