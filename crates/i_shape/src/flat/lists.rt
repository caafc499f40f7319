//! Operations on the lists of every flat buffer: points, and ranges into them.

ghost use Rattle.std.specs.Prelude.{◌≡◌, ◌+◌, ◌<◌, ◌≤◌, ◌++◌, ◌∷◌, ◌⊎◌, ◌↔◌, IsTrue, [], length, vec_len, vec_capacity, OnOk, IfOk, IsOkUnless, MatchOption, IsOk};
ghost use Rattle.std.specs.List.{All};
ghost use Rattle.i_shape_source.specs.Paths.{paths_of_shape, shape_lists, concatenated, paths_of_shapes};
ghost use Rattle.i_shape.specs.Flat.{InOrder, IsReadableShape, end_to_end, slices, shapes, behind};

use crate::ShapeError;
use std::alloc::{AllocError, Global};
use std::ops::Range;

/// Returns the total number of points of some contours, or `None` if it exceeds `usize::MAX`.
pub fn checked_points_count<P>(contours: &[Vec<P>]) -> Option<usize>
    ensures { MatchOption result (usize.MAX < length (concatenated (paths_of_shape contours.now)))
        (λ n. n ≡ length (concatenated (paths_of_shape contours.now))) }
{
    let mut total: usize = 0;
    for contour in contours {
        total = total.checked_add(contour.len())?;
    }
    Some(total)
}

/// Reserves capacity for `total` members in all. The members are unchanged, also after an error.
///
/// # Errors
///
/// `OutOfMemory`, if an allocation fails.
pub fn reserve_total<T>(list: &mut Vec<T>, total: usize) -> Result<(), ShapeError>
    ensures items { list.new.items ≡ list.old.items }
    ensures len { vec_len list.new ≡ vec_len list.old }
    ensures room { OnOk result (total ≤ vec_capacity list.new) }
    ensures reserved { total ≤ vec_capacity list.old → IsOk result }
    ensures capacity { vec_capacity list.old ≤ vec_capacity list.new }
    ensures memory { IsOkUnless result ShapeError.OutOfMemory }
{
    let additional = total.saturating_sub(list.len());
    list.reserve(additional)?;
    Ok(())
}

/// Appends a contour and its range. Both lists must have room.
pub fn append_contour<P: Copy>(points: &mut Vec<P>, ranges: &mut Vec<Range<usize>>, contour: &[P])
    requires points_room { vec_len points.old + length contour.now ≤ vec_capacity points.old }
    requires ranges_room { vec_len ranges.old < vec_capacity ranges.old }
    ensures points { points.new.items ≡ points.old.items ++ contour.now }
    ensures ranges { ranges.new.items ≡ ranges.old.items
        ++ behind (vec_len points.old) (length contour.now) ∷ [] }
    ensures points_len { vec_len points.new ≡ vec_len points.old + length contour.now }
    ensures ranges_len { vec_len ranges.new ≡ vec_len ranges.old + 1 }
    ensures points_capacity { vec_capacity points.old ≤ vec_capacity points.new }
    ensures ranges_capacity { vec_capacity ranges.old ≤ vec_capacity ranges.new }
{
    let start = points.len();
    // there is room, as the call requires
    points.extend_from_slice(contour).unwrap();
    ranges.push_reserved(start..points.len());
}

/// Appends contours end to end, and their ranges. Both lists must have room.
pub fn append_contours<P: Copy>(
    points: &mut Vec<P>,
    ranges: &mut Vec<Range<usize>>,
    contours: &[Vec<P>],
)
    requires points_room { vec_len points.old + length (concatenated (paths_of_shape contours.now))
        ≤ vec_capacity points.old }
    requires ranges_room { vec_len ranges.old + length contours.now ≤ vec_capacity ranges.old }
    ensures points { points.new.items ≡ points.old.items
        ++ concatenated (paths_of_shape contours.now) }
    ensures ranges { ranges.new.items ≡ ranges.old.items
        ++ end_to_end (vec_len points.old) (paths_of_shape contours.now) }
    ensures points_len { vec_len points.new ≡ vec_len points.old
        + length (concatenated (paths_of_shape contours.now)) }
    ensures ranges_len { vec_len ranges.new ≡ vec_len ranges.old + length contours.now }
    ensures points_capacity { vec_capacity points.old ≤ vec_capacity points.new }
    ensures ranges_capacity { vec_capacity ranges.old ≤ vec_capacity ranges.new }
{
    for contour in contours {
        append_contour(points, ranges, contour.as_slice());
    }
}

/// Appends ranges. The list must have room.
pub fn append_ranges(list: &mut Vec<Range<usize>>, ranges: &[Range<usize>])
    requires { vec_len list.old + length ranges.now ≤ vec_capacity list.old }
    ensures items { list.new.items ≡ list.old.items ++ ranges.now }
    ensures capacity { vec_capacity list.old ≤ vec_capacity list.new }
{
    for range in ranges {
        list.push_reserved(range.start..range.end);
    }
}

/// Returns a copy of some ranges.
///
/// # Errors
///
/// `AllocError`, which can't occur if there is no range.
pub fn copied_ranges(
    alloc: Global,
    ranges: &[Range<usize>],
) -> Result<Vec<Range<usize>>, AllocError>
    ensures items { IfOk result (λ copy. copy.items ≡ ranges.now) }
    ensures none { ranges.now ≡ [] → IsOk result }
{
    let mut copy = Vec::with_capacity(alloc, ranges.len())?;
    append_ranges(&mut copy, ranges);
    Ok(copy)
}

/// The numbers of points and contours of some shapes.
#[derive(Clone, Copy)]
pub struct Counts {
    pub points: usize,
    pub contours: usize,
}

/// Returns the counts of some shapes, or `None` if one of them exceeds `usize::MAX`.
pub fn checked_counts<P>(shapes: &[Vec<Vec<P>>]) -> Option<Counts>
    ensures { MatchOption result ((usize.MAX < length (concatenated (paths_of_shapes shapes.now)))
        ⊎ (usize.MAX < length (paths_of_shapes shapes.now)))
        (λ counts. (counts.points ≡ length (concatenated (paths_of_shapes shapes.now)))
        × (counts.contours ≡ length (paths_of_shapes shapes.now))) }
{
    let mut points: usize = 0;
    let mut contours: usize = 0;
    for shape in shapes {
        points = points.checked_add(checked_points_count(shape.as_slice())?)?;
        contours = contours.checked_add(shape.len())?;
    }
    Some(Counts { points, contours })
}

/// Appends the contours of shapes end to end, and their ranges. Both lists must have room.
pub fn append_all_contours<P: Copy>(
    points: &mut Vec<P>,
    ranges: &mut Vec<Range<usize>>,
    shapes: &[Vec<Vec<P>>],
)
    requires points_room { vec_len points.old + length (concatenated (paths_of_shapes shapes.now))
        ≤ vec_capacity points.old }
    requires ranges_room { vec_len ranges.old + length (paths_of_shapes shapes.now)
        ≤ vec_capacity ranges.old }
    ensures points { points.new.items ≡ points.old.items
        ++ concatenated (paths_of_shapes shapes.now) }
    ensures ranges { ranges.new.items ≡ ranges.old.items
        ++ end_to_end (vec_len points.old) (paths_of_shapes shapes.now) }
    ensures points_capacity { vec_capacity points.old ≤ vec_capacity points.new }
    ensures ranges_capacity { vec_capacity ranges.old ≤ vec_capacity ranges.new }
{
    for shape in shapes {
        append_contours(points, ranges, shape.as_slice());
    }
}

/// Returns copies of the parts that some ranges name.
///
/// # Errors
///
/// `OutOfMemory`, if an allocation fails.
pub fn copied_parts<P: Copy>(
    alloc: Global,
    points: &[P],
    ranges: &[Range<usize>],
) -> Result<Vec<Vec<P>>, ShapeError>
    requires { All (InOrder (length points.now)) ranges.now }
    ensures ok { IfOk result (λ parts. paths_of_shape parts.items ≡ slices points.now ranges.now) }
    ensures none { ranges.now ≡ [] → IsOk result }
    ensures memory { IsOkUnless result ShapeError.OutOfMemory }
{
    let mut parts = Vec::with_capacity(alloc, ranges.len())?;
    for range in ranges {
        parts.push(Vec::from_slice(alloc, &points[range.start..range.end])?)?;
    }
    Ok(parts)
}

/// Returns whether a range is in order and ends within a list of `len` members.
pub fn is_in_order(range: &Range<usize>, len: usize) -> bool
    ensures { IsTrue result ↔ InOrder len range.now }
{
    range.start <= range.end && range.end <= len
}

/// Returns whether each range is in order and ends within a list of `len` members.
pub fn all_in_order(ranges: &[Range<usize>], len: usize) -> bool
    ensures { IsTrue result ↔ All (InOrder len) ranges.now }
{
    ranges.iter().all(|range| is_in_order(range, len))
}

/// Appends a shape: its contours end to end, their ranges, and the range of these ranges. All lists must have room.
pub fn append_shape<P: Copy>(
    points: &mut Vec<P>,
    contour_ranges: &mut Vec<Range<usize>>,
    shape_ranges: &mut Vec<Range<usize>>,
    shape: &[Vec<P>],
)
    requires points_room { vec_len points.old + length (concatenated (paths_of_shape shape.now))
        ≤ vec_capacity points.old }
    requires contours_room { vec_len contour_ranges.old + length shape.now
        ≤ vec_capacity contour_ranges.old }
    requires shapes_room { vec_len shape_ranges.old < vec_capacity shape_ranges.old }
    ensures points { points.new.items ≡ points.old.items
        ++ concatenated (paths_of_shape shape.now) }
    ensures contour_ranges { contour_ranges.new.items ≡ contour_ranges.old.items
        ++ end_to_end (vec_len points.old) (paths_of_shape shape.now) }
    ensures shape_ranges { shape_ranges.new.items ≡ shape_ranges.old.items
        ++ behind (vec_len contour_ranges.old) (length shape.now) ∷ [] }
    ensures points_len { vec_len points.new ≡ vec_len points.old
        + length (concatenated (paths_of_shape shape.now)) }
    ensures contours_len { vec_len contour_ranges.new
        ≡ vec_len contour_ranges.old + length shape.now }
    ensures shapes_len { vec_len shape_ranges.new ≡ vec_len shape_ranges.old + 1 }
    ensures points_capacity { vec_capacity points.old ≤ vec_capacity points.new }
    ensures contours_capacity { vec_capacity contour_ranges.old ≤ vec_capacity contour_ranges.new }
    ensures shapes_capacity { vec_capacity shape_ranges.old ≤ vec_capacity shape_ranges.new }
{
    let start = contour_ranges.len();
    append_contours(points, contour_ranges, shape);
    shape_ranges.push_reserved(start..contour_ranges.len());
}

/// Appends shapes. All lists must have room.
pub fn append_shapes<P: Copy>(
    points: &mut Vec<P>,
    contour_ranges: &mut Vec<Range<usize>>,
    shape_ranges: &mut Vec<Range<usize>>,
    shapes: &[Vec<Vec<P>>],
)
    requires points_room { vec_len points.old + length (concatenated (paths_of_shapes shapes.now))
        ≤ vec_capacity points.old }
    requires contours_room { vec_len contour_ranges.old + length (paths_of_shapes shapes.now)
        ≤ vec_capacity contour_ranges.old }
    requires shapes_room { vec_len shape_ranges.old + length shapes.now
        ≤ vec_capacity shape_ranges.old }
    ensures points { points.new.items ≡ points.old.items
        ++ concatenated (paths_of_shapes shapes.now) }
    ensures contour_ranges { contour_ranges.new.items ≡ contour_ranges.old.items
        ++ end_to_end (vec_len points.old) (paths_of_shapes shapes.now) }
    ensures shape_ranges { shape_ranges.new.items ≡ shape_ranges.old.items
        ++ end_to_end (vec_len contour_ranges.old) (shape_lists shapes.now) }
    ensures points_capacity { vec_capacity points.old ≤ vec_capacity points.new }
    ensures contours_capacity { vec_capacity contour_ranges.old ≤ vec_capacity contour_ranges.new }
    ensures shapes_capacity { vec_capacity shape_ranges.old ≤ vec_capacity shape_ranges.new }
{
    for shape in shapes {
        append_shape(points, contour_ranges, shape_ranges, shape.as_slice());
    }
}

/// Returns whether the contour ranges that a shape range names exist, and each is in order and ends within a list of
/// `len` points. An empty or reversed shape range names none.
pub fn shape_in_order(range: &Range<usize>, contour_ranges: &[Range<usize>], len: usize) -> bool
    ensures { IsTrue result ↔ IsReadableShape len contour_ranges.now range.now }
{
    if range.end <= range.start {
        return true;
    }
    range.end <= contour_ranges.len() && all_in_order(&contour_ranges[range.start..range.end], len)
}

/// Returns copies of the shapes that some shape ranges name.
///
/// # Errors
///
/// `OutOfMemory`, if an allocation fails.
pub fn copied_shapes<P: Copy>(
    alloc: Global,
    points: &[P],
    contour_ranges: &[Range<usize>],
    shape_ranges: &[Range<usize>],
) -> Result<Vec<Vec<Vec<P>>>, ShapeError>
    requires { All (IsReadableShape (length points.now) contour_ranges.now) shape_ranges.now }
    ensures ok { IfOk result (λ list. shape_lists list.items
        ≡ shapes points.now contour_ranges.now shape_ranges.now) }
    ensures none { shape_ranges.now ≡ [] → IsOk result }
    ensures memory { IsOkUnless result ShapeError.OutOfMemory }
{
    let mut list = Vec::with_capacity(alloc, shape_ranges.len())?;
    for range in shape_ranges {
        let shape = if range.start < range.end {
            copied_parts(alloc, points, &contour_ranges[range.start..range.end])?
        } else {
            Vec::new(alloc)
        };
        list.push(shape)?;
    }
    Ok(list)
}
