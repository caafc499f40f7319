//! Copies of lists.

ghost use Rattle.std.specs.Prelude.{◌≡◌, [], length, vec_len, IfOk, IsOk};

use std::alloc::{AllocError, Global};

/// Returns a copy of the items.
///
/// # Errors
///
/// `AllocError`, which can't occur if there is no item.
pub fn copied<T: Copy>(alloc: Global, items: &[T]) -> Result<Vec<T>, AllocError>
    ensures items { IfOk result (λ copy. copy.items ≡ items.now) }
    ensures len { IfOk result (λ copy. vec_len copy ≡ length items.now) }
    ensures none { items.now ≡ [] → IsOk result }
{
    let mut copy = Vec::with_capacity(alloc, items.len())?;
    // there is room for all of them
    copy.extend_from_slice(items).unwrap();
    Ok(copy)
}
