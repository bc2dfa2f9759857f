//! Taking the list's lock.
ghost use Rattle.std.specs.Prelude.{MatchBool};
ghost use Rattle.notify_list.specs.Walks.{MayLock, Locked, SawHeld};

use crate::notify_list::{LOCK, NotifyList};
use crate::rows::{AtWait, Token};
use std::sync::Wait;

impl NotifyList {
    /// Takes the lock (W1, O3 or L3).
    pub(crate) fn lock<R: Wait>(&self, rt: &R, token: &mut Token)
        requires { MayLock self.now token.old }
        ensures { Locked token.old token.new }
    {
        self.words
            .take_lock::<AtWait, R>(rt, token, LOCK, self.sleepers_word());
    }

    /// The same where the lock is found free within some tries, and else a look that found it held: whether
    /// it was taken.
    pub(crate) fn try_lock(&self, token: &mut Token) -> bool
        requires { MayLock self.now token.old }
        ensures { MatchBool result (Locked token.old token.new) (SawHeld token.old token.new) }
    {
        self.words.try_lock::<AtWait>(token, LOCK)
    }
}
