//! Lists that lie end to end in one array, divided by offsets: reading, sorting and writing.

ghost use Rattle.std.specs.Prelude.{◌≡◌, ◌+◌, ◌≤◌, ◌<◌, length, map, IfOk, IsSorted};
ghost use Rattle.i_shape.specs.Paths.{concatenated};
ghost use Rattle.i_shape_c.specs.Steps.Appended.{IsPut};
ghost use Rattle.i_shape_c.specs.Batch.{PartsPoints};
ghost use Rattle.i_shape_c.specs.Polygons.{parts, offsets_of};
ghost use Rattle.i_shape_c.specs.Steps.Sorted.{SortsRest, SortsAll, SortsEachRest, SortsEach};

use crate::batch::part;
use std::alloc::{AllocError, Global};

/// Returns the lists into which the offsets divide the items.
///
/// # Errors
///
/// `AllocError`, if an allocation fails.
pub fn slices<'a, T: Copy>(
    alloc: Global,
    items: &'a [T],
    offsets: &[usize],
) -> Result<Vec<&'a [T]>, AllocError>
    requires { PartsPoints (length items.now) offsets.now }
    ensures { IfOk result (λ lists. map (λ list. list.now) lists.items ≡ parts items.now offsets.now) }
{
    let mut lists = Vec::with_capacity(alloc, offsets.len() - 1)?;
    for place in 1..offsets.len() {
        lists.push(part(items, offsets[place - 1], offsets[place]))?;
    }
    Ok(lists)
}

/// Sorts the items of each list into which the offsets divide them, except for its first item. The items outside are
/// unchanged.
pub fn sort_each_rest<T: Ord>(items: &mut [T], offsets: &[usize])
    requires { PartsPoints (length items.old) offsets.now }
    ensures sorted { SortsEachRest (IsSorted T.cmp) items.old items.new offsets.now }
    ensures len { length items.new ≡ length items.old }
{
    for place in 1..offsets.len() {
        sort_rest(&mut items[offsets[place - 1]..offsets[place]]);
    }
}

/// Sorts all items but the first.
fn sort_rest<T: Ord>(list: &mut [T])
    ensures sorted { SortsRest (IsSorted T.cmp) list.old list.new }
    ensures len { length list.new ≡ length list.old }
{
    if !list.is_empty() {
        list[1..].sort_unstable();
    }
}

/// Sorts the items of each list into which the offsets divide them. The items outside are unchanged.
pub fn sort_each<T: Ord>(items: &mut [T], offsets: &[usize])
    requires { PartsPoints (length items.old) offsets.now }
    ensures sorted { SortsEach (IsSorted T.cmp) items.old items.new offsets.now }
    ensures len { length items.new ≡ length items.old }
{
    for place in 1..offsets.len() {
        sort_all(&mut items[offsets[place - 1]..offsets[place]]);
    }
}

/// Sorts all items.
fn sort_all<T: Ord>(list: &mut [T])
    ensures sorted { SortsAll (IsSorted T.cmp) list.old list.new }
    ensures len { length list.new ≡ length list.old }
{
    list.sort_unstable();
}

/// Writes the lists end to end to the front of `out`, and their offsets to the front of `offsets`.
pub fn write_lists<T: Copy>(lists: &[&[T]], out: &mut [T], offsets: &mut [usize])
    requires room { length (concatenated (map (λ list. list.now) lists.now)) ≤ length out.old }
    requires offsets_room { length lists.now < length offsets.old }
    ensures items { IsPut 0 (concatenated (map (λ list. list.now) lists.now)) out.old out.new }
    ensures offsets { IsPut 0 (offsets_of 0 (map (λ list. list.now) lists.now)) offsets.old offsets.new }
{
    offsets[0] = 0;
    let mut end = 0;
    for place in 0..lists.len() {
        end = write_at(lists[place], out, end);
        offsets[place + 1] = end;
    }
}

/// Writes the items from place `at` on, and returns where they end.
fn write_at<T: Copy>(items: &[T], out: &mut [T], at: usize) -> usize
    requires { at + length items.now ≤ length out.old }
    ensures put { IsPut at items.now out.old out.new }
    ensures end { result ≡ at + length items.now }
    ensures len { length out.new ≡ length out.old }
{
    let end = at + items.len();
    out[at..end].copy_from_slice(items);
    end
}
