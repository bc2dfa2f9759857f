//! The steps at a futex: a word at which threads sleep in the kernel, beside one that counts them.
//!
//! A sleeper counts itself, looks at the word, and sleeps; who lets it go stores in the word, then looks at the
//! count. Each of these steps asks for the one before, so that none can be left out, or come too early. What a reader
//! has to believe stands in two functions: [`Running::park`] sleeps, and [`Running::call_kernel`] wakes. Nothing else
//! parks; and nothing else wakes, but for [`Running::wake`], which pays no debt.
ghost use Rattle.std.specs.Prelude.{◌≡◌, ◌<◌, true};
ghost use Rattle.running_rows.specs.declared.parking.Stage.TheVariants.{Counted, Wants};
ghost use Rattle.running_rows.specs.Futex.{Futex, lock_at, grant_at};
ghost use Rattle.running_rows.specs.Parking.{at_stage, done, IsAboutToSleep, IsCountedIn, StaysCounted, OwesNoMore, IsOwing, MayPark};

use crate::families::Rows;
use crate::kernel::Kernel;
use crate::plays::{CallsKernel, ComesBack, Counts, LooksAtGrant, LooksAtLock, LooksForSleepers};
use crate::rule::OneWorld;
use crate::running::Running;
use crate::view::{Token, View};
use std::sync::Wait;
use std::time::Duration;

impl<S, V, T, K, R: Rows<S, V, T, K>> Running<S, View<V, T>, K, OneWorld<R>> {
    /// The thread is counted among those that sleep. The count can't go round: the thread that would make it so, of
    /// 2^64 at one time, goes no further.
    pub(crate) fn begin_sleep<W: Wait>(&self, rt: &W, token: &mut Token<S, V, T>, sleepers: usize)
        requires own { token.old.table_id ≡ self.now.table.shared.table_id }
        requires there { sleepers < self.now.table.shared.table_id.words }
        requires futex { (x : Futex) × R.family.IsFutex (R.family.key self.now.table.shared.key) x
            × (x.sleepers ≡ sleepers) }
        ensures own { token.new.table_id ≡ token.old.table_id }
        ensures counted { token.new.me
            ≡ (record token.old.me.0 { parking = at_stage (Counted sleepers) token.old.me.0.parking }, token.old.me.1) }
        ensures about { IsAboutToSleep sleepers token.new.me.0.parking }
    {
        let others = self.table.shared.fetch_add::<Counts>(token, sleepers, 1);
        if others != u64::MAX {
            return;
        }
        for _ in rt.forever() {}
        unreachable!()
    }

    /// Sleeps unless the lock is free, and no longer than is said. Then the thread owes the lock a try.
    pub(crate) fn sleep_at_lock<W: Wait>(
        &self,
        rt: &W,
        token: &mut Token<S, V, T>,
        word: usize,
        sleepers: usize,
        longest: Option<Duration>,
    )
        requires own { token.old.table_id ≡ self.now.table.shared.table_id }
        requires there { word < self.now.table.shared.table_id.words }
        requires futex { R.family.IsFutex (R.family.key self.now.table.shared.key) (lock_at word sleepers) }
        requires counted { IsAboutToSleep sleepers token.old.me.0.parking }
        ensures own { token.new.table_id ≡ token.old.table_id }
        ensures counted { StaysCounted sleepers (at_stage (Wants word) (done token.old.me.0.parking))
            token.old.me token.new.me }
    {
        if self.finds_lock_held(token, word, sleepers) {
            self.park(rt, token, word, 1, longest);
        }
    }

    /// The last look at a lock before the kernel's own.
    fn finds_lock_held(&self, token: &mut Token<S, V, T>, word: usize, _sleepers: usize) -> bool
        requires own { token.old.table_id ≡ self.now.table.shared.table_id }
        requires there { word < self.now.table.shared.table_id.words }
        requires futex { R.family.IsFutex (R.family.key self.now.table.shared.key) (lock_at word _sleepers) }
        requires counted { IsAboutToSleep _sleepers token.old.me.0.parking }
        ensures own { token.new.table_id ≡ token.old.table_id }
        ensures counted { StaysCounted _sleepers (at_stage (Wants word) (done token.old.me.0.parking))
            token.old.me token.new.me }
        ensures asleep { result ≡ true → MayPark (R.family.IsFutex (R.family.key self.now.table.shared.key)) word 1
            token.new.me.0.parking }
    {
        self.table.shared.load::<LooksAtLock>(token, word) != 0
    }

    /// Sleeps unless a grant is stored, and no longer than is said.
    pub(crate) fn sleep_at_grant<W: Wait>(
        &self,
        rt: &W,
        token: &mut Token<S, V, T>,
        word: usize,
        sleepers: usize,
        longest: Option<Duration>,
    )
        requires own { token.old.table_id ≡ self.now.table.shared.table_id }
        requires there { word < self.now.table.shared.table_id.words }
        requires futex { R.family.IsFutex (R.family.key self.now.table.shared.key) (grant_at word sleepers) }
        requires counted { IsAboutToSleep sleepers token.old.me.0.parking }
        ensures own { token.new.table_id ≡ token.old.table_id }
        ensures counted { StaysCounted sleepers (done token.old.me.0.parking) token.old.me token.new.me }
    {
        if self.finds_no_grant(token, word, sleepers) {
            self.park(rt, token, word, 0, longest);
        }
    }

    /// The last look at a grant before the kernel's own.
    fn finds_no_grant(&self, token: &mut Token<S, V, T>, word: usize, _sleepers: usize) -> bool
        requires own { token.old.table_id ≡ self.now.table.shared.table_id }
        requires there { word < self.now.table.shared.table_id.words }
        requires futex { R.family.IsFutex (R.family.key self.now.table.shared.key) (grant_at word _sleepers) }
        requires counted { IsAboutToSleep _sleepers token.old.me.0.parking }
        ensures own { token.new.table_id ≡ token.old.table_id }
        ensures counted { StaysCounted _sleepers (done token.old.me.0.parking) token.old.me token.new.me }
        ensures asleep { result ≡ true → MayPark (R.family.IsFutex (R.family.key self.now.table.shared.key)) word 0
            token.new.me.0.parking }
    {
        self.table.shared.load::<LooksAtGrant>(token, word) == 0
    }

    /// Sleeps in the kernel: from a moment at which the word is as expected, and no longer than is said. The thread
    /// has looked, and counts as asleep.
    fn park<W: Wait>(
        &self,
        rt: &W,
        _token: &Token<S, V, T>,
        word: usize,
        expected: u32,
        longest: Option<Duration>,
    )
        requires there { word < self.now.table.shared.table_id.words }
        requires asleep { MayPark (R.family.IsFutex (R.family.key self.now.table.shared.key)) word expected
            _token.now.me.0.parking }
    {
        match longest {
            None => self.table.shared.park(rt, word, expected),
            Some(longest) => self.table.shared.park_timeout(rt, word, expected, longest),
        }
    }

    /// The thread isn't counted any more.
    pub(crate) fn end_sleep(&self, token: &mut Token<S, V, T>, sleepers: usize)
        requires own { token.old.table_id ≡ self.now.table.shared.table_id }
        requires there { sleepers < self.now.table.shared.table_id.words }
        requires futex { (x : Futex) × R.family.IsFutex (R.family.key self.now.table.shared.key) x
            × (x.sleepers ≡ sleepers) }
        requires counted { IsCountedIn sleepers token.old.me.0.parking }
        ensures own { token.new.table_id ≡ token.old.table_id }
        ensures done { token.new.me ≡ (record token.old.me.0 { parking = done token.old.me.0.parking }, token.old.me.1) }
    {
        self.table.shared.fetch_sub::<ComesBack>(token, sleepers, 1);
    }

    /// Wakes one thread that sleeps at a lock which was given back, where one does.
    #[inline]
    pub(crate) fn rouse_at_lock<N: Kernel>(
        &self,
        token: &mut Token<S, V, T>,
        word: usize,
        sleepers: usize,
    )
        requires own { token.old.table_id ≡ self.now.table.shared.table_id }
        requires there { (word < self.now.table.shared.table_id.words)
            × (sleepers < self.now.table.shared.table_id.words) }
        requires kernel { N.serves (R.family.has_threads (R.family.key self.now.table.shared.key)) }
        requires futex { R.family.IsFutex (R.family.key self.now.table.shared.key) (lock_at word sleepers) }
        requires owes { IsOwing word token.old.me.0.parking }
        ensures own { token.new.table_id ≡ token.old.table_id }
        ensures done { OwesNoMore token.old.me token.new.me }
    {
        if self.table.shared.load::<LooksForSleepers>(token, sleepers) != 0 {
            self.call_kernel::<N>(token, word);
        }
    }

    /// Wakes the thread that sleeps at a grant which was stored, where one does and the grant is still there: a call
    /// of the kernel costs more than the rest of a release.
    #[inline]
    pub(crate) fn rouse_at_grant<N: Kernel>(
        &self,
        token: &mut Token<S, V, T>,
        word: usize,
        sleepers: usize,
    )
        requires own { token.old.table_id ≡ self.now.table.shared.table_id }
        requires there { (word < self.now.table.shared.table_id.words)
            × (sleepers < self.now.table.shared.table_id.words) }
        requires kernel { N.serves (R.family.has_threads (R.family.key self.now.table.shared.key)) }
        requires futex { R.family.IsFutex (R.family.key self.now.table.shared.key) (grant_at word sleepers) }
        requires owes { IsOwing word token.old.me.0.parking }
        ensures own { token.new.table_id ≡ token.old.table_id }
        ensures done { OwesNoMore token.old.me token.new.me }
    {
        let shared = &self.table.shared;
        if shared.load::<LooksForSleepers>(token, sleepers) == 0 {
            return;
        }
        if shared.load::<LooksForSleepers>(token, word) != 0 {
            self.call_kernel::<N>(token, word);
        }
    }

    /// Calls the kernel, which wakes one thread that sleeps at the word, if there is one, and then says so: a load
    /// more, beside a call of the kernel.
    fn call_kernel<N: Kernel>(&self, token: &mut Token<S, V, T>, word: usize)
        requires own { token.old.table_id ≡ self.now.table.shared.table_id }
        requires there { word < self.now.table.shared.table_id.words }
        requires kernel { N.serves (R.family.has_threads (R.family.key self.now.table.shared.key)) }
        requires futex { (x : Futex) × R.family.IsFutex (R.family.key self.now.table.shared.key) x × (x.word ≡ word) }
        requires owes { IsOwing word token.old.me.0.parking }
        ensures own { token.new.table_id ≡ token.old.table_id }
        ensures done { OwesNoMore token.old.me token.new.me }
    {
        N::wake_one(self, word);
        self.table.shared.load::<CallsKernel>(token, word);
    }
}
