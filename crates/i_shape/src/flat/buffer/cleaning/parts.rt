//! Cleaning of the contours that ranges name, for both flat buffers.

ghost use Rattle.std.specs.Prelude.{◌≡◌, ◌<◌, ◌↔◌, List, Option, length, IfOk, OnOk, IsOkUnless, IsTrue, MatchOption, option_map};
ghost use Rattle.std.specs.List.{All, sum_by};
ghost use Rattle.std.specs.Option.{option_to_list, is_some};
ghost use Rattle.i_shape_core.specs.IntPoint.{contour_of, IsSafe, IsSafeContour};
ghost use Rattle.i_shape_core.specs.declared.point.IntPoint.{IntPoint};
ghost use Rattle.i_shape.specs.ShapeAnswers.{Survivors};
ghost use Rattle.i_shape.specs.Flat.{InOrder, part_of};
ghost use Rattle.i_shape.specs.Buffers.{range_len, contours_of, read_contours};
ghost use Rattle.i_shape.specs.Steps.AppendedAnswers.{Grows};

use crate::ShapeError;
use crate::int::IntPoint;
use crate::int::cleaning::ContourCleaner;
use i_shape_core::number::IntNumber;
use std::ops::Range;

/// Returns the points that a range names.
pub fn part<'a, T: IntNumber>(points: &'a [IntPoint<T>], range: &Range<usize>) -> &'a [IntPoint<T>]
    requires { InOrder (length points.now) range.now }
    ensures { result.now ≡ part_of points.now range.now }
{
    &points[range.start..range.end]
}

/// Returns whether no contour that the ranges name needs cleaning.
pub fn are_clean<T: IntNumber, C: ContourCleaner>(
    points: &[IntPoint<T>],
    ranges: &[Range<usize>],
) -> bool
    requires readable { All (InOrder (length points.now)) ranges.now }
    requires safe { All (All (IsSafe T.width)) (read_contours T.value points.now ranges.now) }
    ensures { IsTrue result ↔ All C.meaning.clean (read_contours T.value points.now ranges.now) }
{
    for range in ranges {
        if !C::is_clean(part(points, range)) {
            return false;
        }
    }
    true
}

/// Returns how many points the ranges name together, or `None` if that exceeds `usize::MAX`.
pub fn checked_total(ranges: &[Range<usize>]) -> Option<usize>
    ensures { MatchOption result (usize.MAX < sum_by range_len ranges.now)
        (λ n. n ≡ sum_by range_len ranges.now) }
{
    let mut total: usize = 0;
    for range in ranges {
        total = total.checked_add(range.end.saturating_sub(range.start))?;
    }
    Some(total)
}

/// Appends the cleaned contour, written over its copy at the end of `points`, or nothing if it collapses. Returns
/// whether anything is left of it.
///
/// # Errors
///
/// `OutOfMemory`, after which both lists may have grown; the callers drop them.
pub fn append_cleaned<T: IntNumber, C: ContourCleaner>(
    cleaner: &mut C,
    points: &mut Vec<IntPoint<T>>,
    ranges: &mut Vec<Range<usize>>,
    contour: &[IntPoint<T>],
) -> Result<bool, ShapeError>
    requires { IsSafeContour T.width (contour_of T.value contour.now) }
    ensures ok { IfOk result (λ left. (answer : Option (List (IntPoint T)))
        × C.meaning.answers (contour_of T.value contour.now) (option_map (contour_of T.value) answer)
        × Grows points.old.items points.new.items ranges.old.items
        ranges.new.items (option_to_list answer) × (left ≡ is_some answer)) }
    ensures memory { IsOkUnless result ShapeError.OutOfMemory }
{
    let start = points.len();
    points.extend_from_slice(contour)?;
    let count = cleaner.try_clean_into(contour, &mut points.as_mut_slice()[start..])?;
    let end = start + count;
    points.truncate(end);
    if count == 0 {
        return Ok(false);
    }
    ranges.push(start..end)?;
    Ok(true)
}

/// Appends the cleaned contours that ranges name, without those that collapse.
///
/// # Errors
///
/// `OutOfMemory`, after which both lists may have grown; the callers drop them.
pub fn append_parts<T: IntNumber, C: ContourCleaner>(
    cleaner: &mut C,
    points: &mut Vec<IntPoint<T>>,
    ranges: &mut Vec<Range<usize>>,
    source: &[IntPoint<T>],
    named: &[Range<usize>],
) -> Result<(), ShapeError>
    requires readable { All (InOrder (length source.now)) named.now }
    requires safe { All (All (IsSafe T.width)) (read_contours T.value source.now named.now) }
    ensures ok { OnOk result ((more : List (List (IntPoint T)))
        × Survivors C.meaning.answers (read_contours T.value source.now named.now)
        (contours_of T.value more) × Grows points.old.items
        points.new.items ranges.old.items ranges.new.items more) }
    ensures memory { IsOkUnless result ShapeError.OutOfMemory }
{
    for range in named {
        append_cleaned(cleaner, points, ranges, part(source, range))?;
    }
    Ok(())
}
