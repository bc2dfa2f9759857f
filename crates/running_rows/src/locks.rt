//! Taking a lock, and giving it back.
//!
//! Beside each lock word lies a word that says how many threads sleep at it, or are about to. Who finds the
//! lock held looks for a short while, then counts itself there, then looks at the lock (`park` does), then
//! sleeps; who gives the lock back stores 0 in it, then looks at the count. All four are in one order, the
//! same for all threads: either the sleeper's look finds the lock free, or it was counted before the giver's
//! look, which finds it and calls the kernel. So nobody sleeps at a free lock for good, and where nobody
//! sleeps the kernel isn't called. A thread that comes meanwhile may take the lock first; who has slept tries for
//! the lock before its call ends, since it was woken in place of others.
ghost use Rattle.std.specs.Prelude.{◌≡◌, ◌==◌, ◌<◌, MatchBool};
ghost use mathlib.Core.Option.{none, some};
ghost use prog.Atomic.{either};
ghost use Rattle.atomic_table.specs.Table.{step};
ghost use Rattle.running_rows.specs.Strides.{runs_lock, Took, runs_unlock, runs_unlock_from, unlocks};
ghost use Rattle.running_rows.specs.Rule.{IsSomeones};
ghost use Rattle.running_rows.specs.Owing.{Owes, IsLock};
ghost use Rattle.running_rows.specs.Futex.{lock_at};
ghost use Rattle.running_rows.specs.Parking.{IsOwing};

use crate::breaks::{BREAKS_END, FIRST_BREAK, make_break};
use crate::deadlines::time_left;
use crate::families::{Here, Rows, Start};
use crate::kernel::Kernel;
use crate::plays::{RunsLock, RunsUnlock};
use crate::rule::OneWorld;
use crate::running::Running;
use crate::view::{Token, View};
use std::sync::Wait;
use std::time::{Clock, Duration, Instant};

impl<S, V, T, K, R: Rows<S, V, T, K>> Running<S, View<V, T>, K, OneWorld<R>> {
    /// The row that takes a lock: it is run once the lock is found free, and what finds it held is no stride.
    pub fn take_lock<A: Start<S, V>, W: Wait>(
        &self,
        rt: &W,
        token: &mut Token<S, V, T>,
        word: usize,
        sleepers: usize,
    )
        requires own { (token.old.table_id ≡ self.now.table.shared.table_id)
            × IsSomeones R.family token.old.me.0 }
        requires words { (word < self.now.table.shared.table_id.words)
            × (sleepers < self.now.table.shared.table_id.words) }
        requires futex { R.family.IsFutex (R.family.key self.now.table.shared.key) (lock_at word sleepers) }
        requires owes { Owes R.family (R.family.key self.now.table.shared.key) token.old.me word
            (λ n. either (n == 0) 1 n)
            (runs_lock R.family A.at (step self.now.table.shared.table_id.slots word 0 1 none) token.old.me) }
        ensures own { token.new.table_id ≡ token.old.table_id }
        ensures took { Took R.family
            (A.at (step self.now.table.shared.table_id.slots word 0 1 none)) token.old.me token.new.me }
    {
        for _ in rt.forever() {
            if self
                .table
                .shared
                .compare_exchange::<RunsLock<A, R, K>>(token, word, 0, 1)
                == 0
            {
                return;
            }
            if self.try_later::<A, W>(rt, token, word, sleepers, None) {
                return;
            }
        }
        unreachable!()
    }

    /// The same, at the row that is said.
    pub fn take_lock_for<A: Start<S, V>, W: Wait>(
        &self,
        rt: &W,
        token: &mut Token<S, V, T>,
        word: usize,
        sleepers: usize,
        said: &S,
    )
        requires own { (token.old.table_id ≡ self.now.table.shared.table_id)
            × IsSomeones R.family token.old.me.0 }
        requires words { (word < self.now.table.shared.table_id.words)
            × (sleepers < self.now.table.shared.table_id.words) }
        requires futex { R.family.IsFutex (R.family.key self.now.table.shared.key) (lock_at word sleepers) }
        requires owes { Owes R.family (R.family.key self.now.table.shared.key) token.old.me word
            (λ n. either (n == 0) 1 n)
            (runs_lock R.family A.at (step self.now.table.shared.table_id.slots word 0 1 (some said.now))
            token.old.me) }
        ensures own { token.new.table_id ≡ token.old.table_id }
        ensures took { Took R.family
            (A.at (step self.now.table.shared.table_id.slots word 0 1
            (some said.now))) token.old.me token.new.me }
    {
        for _ in rt.forever() {
            if self
                .table
                .shared
                .compare_exchange_with::<RunsLock<A, R, K>>(token, word, 0, 1, said)
                == 0
            {
                return;
            }
            if self.try_later_for::<A, W>(rt, token, word, sleepers, said) {
                return;
            }
        }
        unreachable!()
    }

    /// The same where the lock is held for as long as its holders like: who finds it held makes breaks, and
    /// sleeps only after some of them.
    #[inline]
    pub fn take_lock_patiently<A: Start<S, V>, W: Wait>(
        &self,
        rt: &W,
        token: &mut Token<S, V, T>,
        word: usize,
        sleepers: usize,
    )
        requires own { (token.old.table_id ≡ self.now.table.shared.table_id)
            × IsSomeones R.family token.old.me.0 }
        requires words { (word < self.now.table.shared.table_id.words)
            × (sleepers < self.now.table.shared.table_id.words) }
        requires futex { R.family.IsFutex (R.family.key self.now.table.shared.key) (lock_at word sleepers) }
        requires owes { Owes R.family (R.family.key self.now.table.shared.key) token.old.me word
            (λ n. either (n == 0) 1 n)
            (runs_lock R.family A.at (step self.now.table.shared.table_id.slots word 0 1 none) token.old.me) }
        ensures own { token.new.table_id ≡ token.old.table_id }
        ensures took { Took R.family
            (A.at (step self.now.table.shared.table_id.slots word 0 1 none)) token.old.me token.new.me }
    {
        for turn in FIRST_BREAK..BREAKS_END {
            if self.take_lock_at_sight::<A>(token, word) {
                return;
            }
            make_break(turn);
        }
        self.take_lock::<A, W>(rt, token, word, sleepers);
    }

    /// The same row where a look finds the lock free, and else nothing: whether it was taken.
    #[inline]
    fn take_lock_at_sight<A: Start<S, V>>(&self, token: &mut Token<S, V, T>, word: usize) -> bool
        requires own { (token.old.table_id ≡ self.now.table.shared.table_id)
            × IsSomeones R.family token.old.me.0 }
        requires word { word < self.now.table.shared.table_id.words }
        requires lock { IsLock R.family (R.family.key self.now.table.shared.key) word }
        requires owes { Owes R.family (R.family.key self.now.table.shared.key) token.old.me word
            (λ n. either (n == 0) 1 n)
            (runs_lock R.family A.at (step self.now.table.shared.table_id.slots word 0 1 none) token.old.me) }
        ensures own { token.new.table_id ≡ token.old.table_id }
        ensures took { MatchBool result (Took R.family
            (A.at (step self.now.table.shared.table_id.slots word 0 1 none)) token.old.me token.new.me)
            (token.new.me ≡ token.old.me) }
    {
        let shared = &self.table.shared;
        if shared.peek(word) != 0 {
            return false;
        }
        shared.compare_exchange::<RunsLock<A, R, K>>(token, word, 0, 1) == 0
    }

    /// As `take_lock`, until the deadline, or where there is none at once: whether it was taken. A clock that
    /// can't be read ends the wait.
    pub fn take_lock_until<A: Start<S, V>, W: Wait + Clock>(
        &self,
        rt: &W,
        token: &mut Token<S, V, T>,
        word: usize,
        sleepers: usize,
        deadline: Option<Instant>,
    ) -> bool
        requires own { (token.old.table_id ≡ self.now.table.shared.table_id)
            × IsSomeones R.family token.old.me.0 }
        requires words { (word < self.now.table.shared.table_id.words)
            × (sleepers < self.now.table.shared.table_id.words) }
        requires futex { R.family.IsFutex (R.family.key self.now.table.shared.key) (lock_at word sleepers) }
        requires owes { Owes R.family (R.family.key self.now.table.shared.key) token.old.me word
            (λ n. either (n == 0) 1 n)
            (runs_lock R.family A.at (step self.now.table.shared.table_id.slots word 0 1 none) token.old.me) }
        ensures own { token.new.table_id ≡ token.old.table_id }
        ensures took { MatchBool result (Took R.family
            (A.at (step self.now.table.shared.table_id.slots word 0 1 none)) token.old.me token.new.me)
            (token.new.me ≡ token.old.me) }
    {
        for _ in rt.forever() {
            if self
                .table
                .shared
                .compare_exchange::<RunsLock<A, R, K>>(token, word, 0, 1)
                == 0
            {
                return true;
            }
            let longest = match deadline {
                Some(deadline) => time_left(rt, deadline),
                None => Duration::ZERO,
            };
            if longest.is_zero() {
                return false;
            }
            if self.try_later::<A, W>(rt, token, word, sleepers, Some(longest)) {
                return true;
            }
        }
        unreachable!()
    }

    /// A row that gives a lock back, and with it the record that was taken last; one thread that sleeps at
    /// the lock is woken.
    #[inline]
    pub fn give_lock<N: Kernel>(&self, token: &mut Token<S, V, T>, word: usize, sleepers: usize)
        requires own { (token.old.table_id ≡ self.now.table.shared.table_id)
            × IsSomeones R.family token.old.me.0 }
        requires words { (word < self.now.table.shared.table_id.words)
            × (sleepers < self.now.table.shared.table_id.words) }
        requires kernel { N.serves (R.family.has_threads (R.family.key self.now.table.shared.key)) }
        requires futex { R.family.IsFutex (R.family.key self.now.table.shared.key) (lock_at word sleepers) }
        requires owes { Owes R.family (R.family.key self.now.table.shared.key) token.old.me word (λ _. 0)
            (λ _. runs_unlock R.family (step self.now.table.shared.table_id.slots word 0 0 none)
            token.old.me 0) }
        ensures own { token.new.table_id ≡ token.old.table_id }
        ensures went { runs_unlock R.family
            (step self.now.table.shared.table_id.slots word 0 0 none) token.old.me 0 token.new.me }
    {
        self.give_lock_from::<Here, N>(token, word, sleepers);
    }

    /// The same at another row than the one at which the seat stands.
    #[inline]
    pub fn give_lock_from<A: Start<S, V>, N: Kernel>(
        &self,
        token: &mut Token<S, V, T>,
        word: usize,
        sleepers: usize,
    )
        requires own { (token.old.table_id ≡ self.now.table.shared.table_id)
            × IsSomeones R.family token.old.me.0 }
        requires words { (word < self.now.table.shared.table_id.words)
            × (sleepers < self.now.table.shared.table_id.words) }
        requires kernel { N.serves (R.family.has_threads (R.family.key self.now.table.shared.key)) }
        requires futex { R.family.IsFutex (R.family.key self.now.table.shared.key) (lock_at word sleepers) }
        requires owes { Owes R.family (R.family.key self.now.table.shared.key) token.old.me word (λ _. 0)
            (λ _. runs_unlock_from R.family A.at (step self.now.table.shared.table_id.slots word 0 0 none)
            token.old.me 0) }
        ensures own { token.new.table_id ≡ token.old.table_id }
        ensures went { runs_unlock_from R.family A.at
            (step self.now.table.shared.table_id.slots word 0 0 none) token.old.me 0 token.new.me }
    {
        self.free::<A>(token, word, sleepers);
        // Looked at after the lock is free: who was counted later finds it so, and doesn't sleep.
        self.rouse_at_lock::<N>(token, word, sleepers);
    }

    /// The row alone: the thread owes a look for who sleeps there.
    #[inline]
    fn free<A: Start<S, V>>(&self, token: &mut Token<S, V, T>, word: usize, _sleepers: usize)
        requires own { (token.old.table_id ≡ self.now.table.shared.table_id)
            × IsSomeones R.family token.old.me.0 }
        requires word { word < self.now.table.shared.table_id.words }
        requires futex { R.family.IsFutex (R.family.key self.now.table.shared.key) (lock_at word _sleepers) }
        requires owes { Owes R.family (R.family.key self.now.table.shared.key) token.old.me word (λ _. 0)
            (λ _. runs_unlock_from R.family A.at (step self.now.table.shared.table_id.slots word 0 0 none)
            token.old.me 0) }
        ensures own { token.new.table_id ≡ token.old.table_id }
        ensures went { unlocks R.family A.at (step self.now.table.shared.table_id.slots word 0 0 none)
            token.old.me 0 token.new.me }
        ensures owing { IsOwing word token.new.me.0.parking }
    {
        self.table
            .shared
            .store::<RunsUnlock<A, R, K>>(token, word, 0);
    }
}
