//! What each kind of step tells its seat.
ghost use Rattle.running_rows.specs.Strides.{looks_at, runs_access, runs_store, runs_lock, unlocks, grants};
ghost use Rattle.running_rows.specs.Strides.{runs_lock_or_look, tries};
ghost use Rattle.running_rows.specs.Strides.{runs_grant, runs_take_or_look, runs_take_or_nothing};
ghost use Rattle.running_rows.specs.Strides.{sets_aside};
ghost use Rattle.running_rows.specs.Parking.{counts, comes_back, looks_at_lock, looks_at_grant};
ghost use Rattle.running_rows.specs.Parking.{looks_for_sleepers, calls_kernel};

use crate::families::{Rows, Start};
use crate::view::View;
use atomic_table::Play;
use std::marker::PhantomData;

/// A load that is no row.
pub(crate) struct Looks<R, K> {
    rows: PhantomData<(R, K)>,
}

impl<S, V, T, K, R: Rows<S, V, T, K>> Play<S, View<V, T>> for Looks<R, K> {
    ghost then = { looks_at R.family };
}

/// A row that loads, exchanges or adds.
pub(crate) struct RunsAccess<A, R, K> {
    rows: PhantomData<(A, R, K)>,
}

impl<S, V, T, K, A: Start<S, V>, R: Rows<S, V, T, K>> Play<S, View<V, T>> for RunsAccess<A, R, K> {
    ghost then = { runs_access R.family A.at };
}

/// A row that stores.
pub(crate) struct RunsStore<A, R, K> {
    rows: PhantomData<(A, R, K)>,
}

impl<S, V, T, K, A: Start<S, V>, R: Rows<S, V, T, K>> Play<S, View<V, T>> for RunsStore<A, R, K> {
    ghost then = { runs_store R.family A.at };
}

/// A row that takes a lock.
pub(crate) struct RunsLock<A, R, K> {
    rows: PhantomData<(A, R, K)>,
}

impl<S, V, T, K, A: Start<S, V>, R: Rows<S, V, T, K>> Play<S, View<V, T>> for RunsLock<A, R, K> {
    ghost then = { runs_lock R.family A.at };
}

/// The same by a thread that has slept there, and owes the lock a try.
pub(crate) struct RunsTry<A, R, K> {
    rows: PhantomData<(A, R, K)>,
}

impl<S, V, T, K, A: Start<S, V>, R: Rows<S, V, T, K>> Play<S, View<V, T>> for RunsTry<A, R, K> {
    ghost then = { tries R.family A.at };
}

/// A row that takes a lock, or a look that finds it held.
pub(crate) struct RunsLockOrLook<A, R, K> {
    rows: PhantomData<(A, R, K)>,
}

impl<S, V, T, K, A: Start<S, V>, R: Rows<S, V, T, K>> Play<S, View<V, T>>
    for RunsLockOrLook<A, R, K> {
    ghost then = { runs_lock_or_look R.family A.at };
}

/// A row that gives a lock back: the thread owes a look for who sleeps there.
pub(crate) struct RunsUnlock<A, R, K> {
    rows: PhantomData<(A, R, K)>,
}

impl<S, V, T, K, A: Start<S, V>, R: Rows<S, V, T, K>> Play<S, View<V, T>> for RunsUnlock<A, R, K> {
    ghost then = { unlocks R.family A.at };
}

/// A row that stores a grant: the thread owes a look for who sleeps there.
pub(crate) struct RunsGrant<R, K> {
    rows: PhantomData<(R, K)>,
}

impl<S, V, T, K, R: Rows<S, V, T, K>> Play<S, View<V, T>> for RunsGrant<R, K> {
    ghost then = { grants R.family };
}

/// The same, and the look is left to another.
pub(crate) struct PassesGrant<R, K> {
    rows: PhantomData<(R, K)>,
}

impl<S, V, T, K, R: Rows<S, V, T, K>> Play<S, View<V, T>> for PassesGrant<R, K> {
    ghost then = { runs_grant R.family };
}

/// A look at a grant, or the row that takes it.
pub(crate) struct RunsTakeOrLook<R, K> {
    rows: PhantomData<(R, K)>,
}

impl<S, V, T, K, R: Rows<S, V, T, K>> Play<S, View<V, T>> for RunsTakeOrLook<R, K> {
    ghost then = { runs_take_or_look R.family };
}

/// The row that takes a grant, or nothing.
pub(crate) struct RunsTakeOrNothing<R, K> {
    rows: PhantomData<(R, K)>,
}

impl<S, V, T, K, R: Rows<S, V, T, K>> Play<S, View<V, T>> for RunsTakeOrNothing<R, K> {
    ghost then = { runs_take_or_nothing R.family };
}

/// A store that is no row.
pub(crate) struct SetsAside;

impl<S, V, T> Play<S, View<V, T>> for SetsAside {
    ghost then = { sets_aside };
}

/// A thread is counted among the sleepers.
pub(crate) struct Counts;

impl<S, V, T> Play<S, View<V, T>> for Counts {
    ghost then = { counts };
}

/// It isn't counted any more.
pub(crate) struct ComesBack;

impl<S, V, T> Play<S, View<V, T>> for ComesBack {
    ghost then = { comes_back };
}

/// The last look at a lock before the kernel's own.
pub(crate) struct LooksAtLock;

impl<S, V, T> Play<S, View<V, T>> for LooksAtLock {
    ghost then = { looks_at_lock };
}

/// The last look at a grant before the kernel's own.
pub(crate) struct LooksAtGrant;

impl<S, V, T> Play<S, View<V, T>> for LooksAtGrant {
    ghost then = { looks_at_grant };
}

/// A look by a thread that owes a call: where it finds 0, nobody is left to wake.
pub(crate) struct LooksForSleepers;

impl<S, V, T> Play<S, View<V, T>> for LooksForSleepers {
    ghost then = { looks_for_sleepers };
}

/// The kernel was called.
pub(crate) struct CallsKernel;

impl<S, V, T> Play<S, View<V, T>> for CallsKernel {
    ghost then = { calls_kernel };
}
