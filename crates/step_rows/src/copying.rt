//! A vector's items in the memory of another: none is taken where there is as much.

ghost use Rattle.std.specs.Prelude.{◌≡◌, ◌≤◌, vec_capacity, OnOk};

use std::alloc::AllocError;

/// The items become these. The memory does not become less.
#[inline]
pub fn copy_items<T: Copy + Drop>(items: &mut Vec<T>, others: &[T]) -> Result<(), AllocError>
    ensures items { OnOk result (items.new.items ≡ others.now) }
    ensures capacity { vec_capacity items.old ≤ vec_capacity items.new }
{
    if items.len() == others.len() {
        items.copy_from_slice(others);
        return Ok(());
    }
    items.clear();
    items.extend_from_slice(others)
}
