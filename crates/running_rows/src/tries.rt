//! Tries for a lock: some at once, and one behind a sleep.
//!
//! Who finds the lock held looks for a short while; who sleeps then is counted, and tries once more before its
//! call ends, since it was woken in place of others.
ghost use Rattle.std.specs.Prelude.{◌≡◌, ◌==◌, ◌<◌, MatchBool};
ghost use mathlib.Core.Option.{none, some};
ghost use prog.Atomic.{either};
ghost use Rattle.atomic_table.specs.Table.{step};
ghost use Rattle.running_rows.specs.Strides.{runs_lock, Took, FoundHeld};
ghost use Rattle.running_rows.specs.Rule.{IsSomeones};
ghost use Rattle.running_rows.specs.Owing.{Owes, IsLock, IsSeen};
ghost use Rattle.running_rows.specs.Futex.{lock_at};
ghost use Rattle.running_rows.specs.declared.parking.Stage.TheVariants.{Wants};
ghost use Rattle.running_rows.specs.Parking.{at_stage, dealing};

use crate::families::{Rows, Start};
use crate::plays::{RunsLock, RunsLockOrLook, RunsTry};
use crate::rule::OneWorld;
use crate::running::Running;
use crate::view::{Token, View};
use std::hint;
use std::sync::Wait;
use std::time::Duration;

/// How often a seat looks at a held lock before it sleeps: what is done under a lock takes less, unless its
/// holder lost its processor.
const LOOKS: u32 = 100;
/// How often a seat tries for a lock that it leaves where it stays held, with as many looks between two tries.
const TRIES: u32 = 10;

impl<S, V, T, K, R: Rows<S, V, T, K>> Running<S, View<V, T>, K, OneWorld<R>> {
    /// The row that takes a lock where it is found free within some tries, and else a look that found it held:
    /// whether it was taken. It never waits: a caller that has other work leaves a lock that stays held.
    pub fn try_lock<A: Start<S, V>>(&self, token: &mut Token<S, V, T>, word: usize) -> bool
        requires own { (token.old.table_id ≡ self.now.table.shared.table_id)
            × IsSomeones R.family token.old.me.0 }
        requires word { word < self.now.table.shared.table_id.words }
        requires seen { IsSeen R.family (R.family.key self.now.table.shared.key) word }
        requires lock { IsLock R.family (R.family.key self.now.table.shared.key) word }
        requires owes { Owes R.family (R.family.key self.now.table.shared.key) token.old.me word
            (λ n. either (n == 0) 1 n)
            (runs_lock R.family A.at (step self.now.table.shared.table_id.slots word 0 1 none) token.old.me) }
        ensures own { token.new.table_id ≡ token.old.table_id }
        ensures took { MatchBool result (Took R.family
            (A.at (step self.now.table.shared.table_id.slots word 0 1 none)) token.old.me token.new.me)
            (FoundHeld R.family word token.old.me token.new.me) }
    {
        for _ in 1..TRIES {
            let found = self
                .table
                .shared
                .compare_exchange::<RunsLock<A, R, K>>(token, word, 0, 1);
            if found == 0 {
                return true;
            }
            self.is_free_soon(token, word);
        }
        let found = self
            .table
            .shared
            .compare_exchange::<RunsLockOrLook<A, R, K>>(token, word, 0, 1);
        found == 0
    }

    /// The same, at the row that is said.
    pub fn try_lock_for<A: Start<S, V>>(
        &self,
        token: &mut Token<S, V, T>,
        word: usize,
        said: &S,
    ) -> bool
        requires own { (token.old.table_id ≡ self.now.table.shared.table_id)
            × IsSomeones R.family token.old.me.0 }
        requires word { word < self.now.table.shared.table_id.words }
        requires seen { IsSeen R.family (R.family.key self.now.table.shared.key) word }
        requires lock { IsLock R.family (R.family.key self.now.table.shared.key) word }
        requires owes { Owes R.family (R.family.key self.now.table.shared.key) token.old.me word
            (λ n. either (n == 0) 1 n)
            (runs_lock R.family A.at (step self.now.table.shared.table_id.slots word 0 1 (some said.now))
            token.old.me) }
        ensures own { token.new.table_id ≡ token.old.table_id }
        ensures took { MatchBool result (Took R.family
            (A.at (step self.now.table.shared.table_id.slots word 0 1
            (some said.now))) token.old.me token.new.me)
            (FoundHeld R.family word token.old.me token.new.me) }
    {
        for _ in 1..TRIES {
            if self
                .table
                .shared
                .compare_exchange_with::<RunsLock<A, R, K>>(token, word, 0, 1, said)
                == 0
            {
                return true;
            }
            self.is_free_soon(token, word);
        }
        self.table
            .shared
            .compare_exchange_with::<RunsLockOrLook<A, R, K>>(token, word, 0, 1, said)
            == 0
    }

    /// Looks at a held lock for a while: whether it was found free. Looks are plain loads, since each
    /// exchange would take the word from its holder's processor.
    fn is_free_soon(&self, _token: &Token<S, V, T>, word: usize) -> bool
        requires { word < self.now.table.shared.table_id.words }
    {
        for _ in 0..LOOKS {
            if self.table.shared.peek(word) == 0 {
                return true;
            }
            hint::spin_loop();
        }
        false
    }

    /// Waits until the lock is free, and perhaps shorter, where a longest time is given at most so long. Who has
    /// slept tries for it then, since it may have been woken in place of others: whether it was taken.
    pub(crate) fn try_later<A: Start<S, V>, W: Wait>(
        &self,
        rt: &W,
        token: &mut Token<S, V, T>,
        word: usize,
        sleepers: usize,
        longest: Option<Duration>,
    ) -> bool
        requires own { (token.old.table_id ≡ self.now.table.shared.table_id)
            × IsSomeones R.family token.old.me.0 }
        requires words { (word < self.now.table.shared.table_id.words)
            × (sleepers < self.now.table.shared.table_id.words) }
        requires futex { R.family.IsFutex (R.family.key self.now.table.shared.key) (lock_at word sleepers) }
        requires owes { Owes R.family (R.family.key self.now.table.shared.key) token.old.me word
            (λ n. either (n == 0) 1 n)
            (runs_lock R.family A.at (step self.now.table.shared.table_id.slots word 0 1 none) token.old.me) }
        ensures own { token.new.table_id ≡ token.old.table_id }
        ensures took { MatchBool result (Took R.family
            (A.at (step self.now.table.shared.table_id.slots word 0 1 none)) token.old.me token.new.me)
            (token.new.me ≡ token.old.me) }
    {
        if self.is_free_soon(token, word) {
            return false;
        }
        self.sleep_for_lock(rt, token, word, sleepers, longest);
        self.table
            .shared
            .compare_exchange::<RunsTry<A, R, K>>(token, word, 0, 1)
            == 0
    }

    /// The same, at the row that is said, and for as long as it takes.
    pub(crate) fn try_later_for<A: Start<S, V>, W: Wait>(
        &self,
        rt: &W,
        token: &mut Token<S, V, T>,
        word: usize,
        sleepers: usize,
        said: &S,
    ) -> bool
        requires own { (token.old.table_id ≡ self.now.table.shared.table_id)
            × IsSomeones R.family token.old.me.0 }
        requires words { (word < self.now.table.shared.table_id.words)
            × (sleepers < self.now.table.shared.table_id.words) }
        requires futex { R.family.IsFutex (R.family.key self.now.table.shared.key) (lock_at word sleepers) }
        requires owes { Owes R.family (R.family.key self.now.table.shared.key) token.old.me word
            (λ n. either (n == 0) 1 n)
            (runs_lock R.family A.at (step self.now.table.shared.table_id.slots word 0 1 (some said.now))
            token.old.me) }
        ensures own { token.new.table_id ≡ token.old.table_id }
        ensures took { MatchBool result (Took R.family
            (A.at (step self.now.table.shared.table_id.slots word 0 1
            (some said.now))) token.old.me token.new.me)
            (token.new.me ≡ token.old.me) }
    {
        if self.is_free_soon(token, word) {
            return false;
        }
        self.sleep_for_lock(rt, token, word, sleepers, None);
        self.table
            .shared
            .compare_exchange_with::<RunsTry<A, R, K>>(token, word, 0, 1, said)
            == 0
    }

    /// Sleeps until the lock was given back, and perhaps shorter: the thread owes it a try.
    fn sleep_for_lock<W: Wait>(
        &self,
        rt: &W,
        token: &mut Token<S, V, T>,
        word: usize,
        sleepers: usize,
        longest: Option<Duration>,
    )
        requires own { token.old.table_id ≡ self.now.table.shared.table_id }
        requires words { (word < self.now.table.shared.table_id.words)
            × (sleepers < self.now.table.shared.table_id.words) }
        requires futex { R.family.IsFutex (R.family.key self.now.table.shared.key) (lock_at word sleepers) }
        ensures own { token.new.table_id ≡ token.old.table_id }
        ensures wants { token.new.me ≡ dealing (at_stage (Wants word) token.old.me.0.parking) token.old.me }
    {
        self.begin_sleep(rt, token, sleepers);
        self.sleep_at_lock(rt, token, word, sleepers, longest);
        self.end_sleep(token, sleepers);
    }
}
