//! Functions that fill the lists of a flat buffer over points of any type.

ghost use Rattle.std.specs.Prelude.{◌≡◌, ◌+◌, ◌<◌, ◌≤◌, ◌++◌, ◌⊎◌, List, length, map, vec_len, vec_capacity, OnOk, OnErr, IsOk, IsOkUnless, MatchOption};
ghost use Rattle.std.specs.List.{All, Contains};
ghost use Rattle.std.specs.Iterator.{Drains, IsFinite, size};
ghost use Rattle.i_shape_source.specs.Paths.{concatenated};
ghost use Rattle.i_shape.specs.Flat.{end_to_end};

use crate::ShapeError;
use crate::flat::lists::{Counts, append_contour};
use i_shape_source::float::resource::{ShapePoint, ShapeResource};
use std::ops::Range;

/// Returns the greatest end of some ranges, or 0 if there are none.
pub fn greatest_end(ranges: &[Range<usize>]) -> usize
    ensures bound { All (λ range. range.end ≤ result) ranges.now }
    ensures found { (result ≡ 0) ⊎ Contains (map (λ range. range.end) ranges.now) result }
{
    ranges.iter().map(|range| range.end).max().unwrap_or(0)
}

/// Appends all items of an iterator.
///
/// # Errors
///
/// `OutOfMemory`, which leaves the points unchanged.
pub fn append_items<P: Copy, I: Iterator<Item = P> + Drop>(
    points: &mut Vec<P>,
    iter: I,
) -> Result<(), ShapeError>
    requires can { I.can_next iter }
    requires ends { IsFinite (I.remaining iter) }
    ensures ok { OnOk result ((items : List P) × Drains I.next_gives iter items
        × (points.new.items ≡ points.old.items ++ items)) }
    ensures err { OnErr result (points.new.items ≡ points.old.items) }
    ensures room { vec_capacity points.old ≤ vec_capacity points.new }
    ensures reserved { vec_len points.old + size (I.remaining iter) ≤ vec_capacity points.old
        → IsOk result }
    ensures memory { IsOkUnless result ShapeError.OutOfMemory }
{
    points.reserve(iter.size_hint().0)?;
    let start = points.len();
    // Pushes the items one by one, since `extend` ignores a failed allocation and asks once more.
    for item in iter {
        if points.push(item).is_err() {
            points.truncate(start);
            return Err(ShapeError::OutOfMemory);
        }
    }
    Ok(())
}

/// Returns the numbers of points and paths of a resource, or `None` if one of them exceeds `usize::MAX`.
pub fn checked_path_counts<'a, P: ShapePoint + 'a, R: ShapeResource<'a, P> + Copy>(
    resource: R,
) -> Option<Counts>
    requires { R.can_read resource }
    ensures { MatchOption result ((usize.MAX < length (concatenated (R.paths resource)))
        ⊎ (usize.MAX < length (R.paths resource)))
        (λ counts. (counts.points ≡ length (concatenated (R.paths resource)))
        × (counts.contours ≡ length (R.paths resource))) }
{
    let mut points: usize = 0;
    let mut contours: usize = 0;
    for path in resource.iter_paths() {
        points = points.checked_add(path.len())?;
        contours = contours.checked_add(1)?;
    }
    Some(Counts { points, contours })
}

/// Appends the paths of a resource end to end, and their ranges. Both lists must have room.
pub fn append_paths<'a, P: ShapePoint + 'a, R: ShapeResource<'a, P> + Copy>(
    points: &mut Vec<P>,
    ranges: &mut Vec<Range<usize>>,
    resource: R,
)
    requires can { R.can_read resource }
    requires points_room { vec_len points.old + length (concatenated (R.paths resource))
        ≤ vec_capacity points.old }
    requires ranges_room { vec_len ranges.old + length (R.paths resource)
        ≤ vec_capacity ranges.old }
    ensures points { points.new.items ≡ points.old.items ++ concatenated (R.paths resource) }
    ensures ranges { ranges.new.items ≡ ranges.old.items
        ++ end_to_end (vec_len points.old) (R.paths resource) }
    ensures points_capacity { vec_capacity points.old ≤ vec_capacity points.new }
    ensures ranges_capacity { vec_capacity ranges.old ≤ vec_capacity ranges.new }
{
    for path in resource.iter_paths() {
        append_contour(points, ranges, path);
    }
}
