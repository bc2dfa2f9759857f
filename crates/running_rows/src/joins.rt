//! How seats come to sit in one view, and leave it again.
ghost use Rattle.running_rows.specs.Rule.{nobody, making, made_by};
ghost use Rattle.running_rows.specs.Sitting.{alone, leaving, staying, vacant, sitting, parting, parted};
ghost use Rattle.running_rows.specs.Sitting.{meets};

use crate::families::Rows;
use crate::view::View;
use atomic_table::{Join, Play, Split};
use std::marker::PhantomData;

/// The seat 0 makes the next one.
pub(crate) struct Makes<S, R, K> {
    rows: PhantomData<(S, R, K)>,
}

impl<S, V, T, K, R: Rows<S, V, T, K>> Split<View<V, T>> for Makes<S, R, K> {
    ghost left = { making };

    ghost right = { made_by R.family };
}

/// A token of no seat is made.
pub(crate) struct Spares<S, R, K> {
    rows: PhantomData<(S, R, K)>,
}

impl<S, V, T, K, R: Rows<S, V, T, K>> Split<View<V, T>> for Spares<S, R, K> {
    ghost left = { staying };

    ghost right = { vacant R.family };
}

/// All guests leave together.
pub(crate) struct Forgets<S, R, K> {
    rows: PhantomData<(S, R, K)>,
}

impl<S, V, T, K, R: Rows<S, V, T, K>> Split<View<V, T>> for Forgets<S, R, K> {
    ghost left = { alone };

    ghost right = { leaving R.family };
}

/// The second seat sits with the first.
pub(crate) struct Sits<S, R, K> {
    rows: PhantomData<(S, R, K)>,
}

impl<S, V, T, K, R: Rows<S, V, T, K>> Join<View<V, T>> for Sits<S, R, K> {
    ghost both = { sitting };

    ghost spent = { nobody R.family };
}

/// A look at a word, by a seat and its first guest.
pub(crate) struct Meets<R, K> {
    rows: PhantomData<(R, K)>,
}

impl<S, V, T, K, R: Rows<S, V, T, K>> Play<S, View<V, T>> for Meets<R, K> {
    ghost then = { meets R.family };
}

/// The first guest leaves.
pub(crate) struct Parts<S, R, K> {
    rows: PhantomData<(S, R, K)>,
}

impl<S, V, T, K, R: Rows<S, V, T, K>> Split<View<V, T>> for Parts<S, R, K> {
    ghost left = { parting };

    ghost right = { parted R.family };
}
