//! A copy of a slab in the memory of another: each value under its key. First [`reserve_as`], which may be
//! refused, and then [`copy_values`], which takes no memory: a step for each key up to the last value's, and
//! none where there is no value.
ghost use Rattle.std.specs.Prelude.{◌≡◌, ◌≢◌, ◌<◌, ◌≤◌, ℕ, OnOk, Some};
ghost use Rattle.slab.specs.Slab.{get, SameValues};
ghost use Rattle.waiters.specs.Slabs.{HasAll};

use slab::Slab;
use std::alloc::AllocError;

/// Takes memory until there is as much as the other slab has.
#[inline]
pub fn reserve_as<T>(slab: &mut Slab<T>, other: &Slab<T>) -> Result<(), AllocError>
    ensures fits { OnOk result (other.now.capacity ≤ slab.new.capacity) }
    ensures rest_kept { slab.new ≡ record slab.old { capacity = slab.new.capacity } }
    ensures capacity { slab.old.capacity ≤ slab.new.capacity }
{
    if other.capacity() <= slab.capacity() {
        return Ok(());
    }
    slab.reserve_exact(other.capacity() - slab.len())
}

/// The slab's values become those of the other, each under its key. No memory is taken.
pub fn copy_values<T: Copy + Drop>(slab: &mut Slab<T>, other: &Slab<T>)
    requires { other.now.capacity ≤ slab.old.capacity }
    ensures values { SameValues other.now slab.new }
    ensures capacity { slab.new.capacity ≡ slab.old.capacity }
{
    if other.is_empty() {
        slab.clear();
        return;
    }
    put_all(slab, other);
    remove_others(slab, other);
}

// Puts each value of the other under its key, and goes no further than to the last.
#[inline]
fn put_all<T: Copy + Drop>(slab: &mut Slab<T>, other: &Slab<T>)
    requires { other.now.capacity ≤ slab.old.capacity }
    ensures all { HasAll slab.new other.now }
    ensures capacity { slab.new.capacity ≡ slab.old.capacity }
{
    let mut left = other.len();
    for key in 0..other.capacity() {
        if left == 0 {
            return;
        }
        if let Some(value) = other.get(key) {
            put(slab, key, *value);
            left -= 1;
        }
    }
}

// Puts a value under a key. A slab picks the key of what is inserted, so this fills vacant keys up to the one
// that is asked for.
#[inline]
fn put<T: Copy + Drop>(slab: &mut Slab<T>, key: usize, value: T)
    requires { key < slab.old.capacity }
    ensures there { get slab.new key ≡ Some value }
    ensures kept { (other : ℕ) (found : T) → other ≢ key → get slab.old other ≡ Some found
        → get slab.new other ≡ Some found }
    ensures capacity { slab.new.capacity ≡ slab.old.capacity }
{
    while !slab.contains(key) && slab.len() < slab.capacity() {
        slab.insert_reserved(value);
    }
    slab[key] = value;
}

// Removes what the other slab doesn't have.
#[inline]
fn remove_others<T: Copy + Drop>(slab: &mut Slab<T>, other: &Slab<T>)
    requires { HasAll slab.old other.now }
    ensures values { SameValues other.now slab.new }
    ensures capacity { slab.new.capacity ≡ slab.old.capacity }
{
    for key in 0..slab.capacity() {
        if slab.len() <= other.len() {
            return;
        }
        if !other.contains(key) {
            slab.try_remove(key);
        }
    }
}
