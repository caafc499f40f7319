//! Test data read from texts: points by their coordinates, x and y in turn, each contour of a shape ended by a
//! semicolon, each shape of a list by a slash, and ranges as `0..3`.

ghost use Rattle.std.specs.Prelude.{IfOk};
ghost use Rattle.std.specs.Int.{w32};
ghost use Rattle.i_shape_core.specs.IntPoint.{contour_of, IsSafeContour};
ghost use Rattle.i_shape_source.specs.ShapeLists.{shape_of, shapes_of, IsSafeShape, IsSafeList};

use crate::given;
use crate::row::Row;
use i_shape_core::point::{IntContour, IntPoint};
use i_shape_source::int::safe_range::IntSafeRange;
use std::alloc::Global;
use std::ops::Range;
use std::test::Fail;

/// These points, as pairs.
pub fn points(alloc: Global, text: &str) -> Result<Vec<[i32; 2]>, Fail> {
    let mut points = Vec::new(alloc);
    let mut x = None;
    for word in text.split_whitespace() {
        let number = word.parse::<i32>()?;
        match x.take() {
            Some(first) => points.push([first, number])?,
            None => x = Some(number),
        }
    }
    Ok(points)
}

/// These offsets.
pub fn offsets(alloc: Global, text: &str) -> Result<Vec<usize>, Fail> {
    let mut offsets = Vec::new(alloc);
    for word in text.split_whitespace() {
        offsets.push(word.parse::<usize>()?)?;
    }
    Ok(offsets)
}

/// The contour of these points. Fails if one isn't safe.
pub fn contour(alloc: Global, text: &str) -> Result<IntContour<i32>, Fail>
    ensures { IfOk result (λ c. IsSafeContour w32 (contour_of (λ z. z) c.items)) }
{
    let points = points(alloc, text)?;
    given::contour(alloc, points.as_slice())
}

/// The shape of these contours. Fails if a point isn't safe.
pub fn shape(alloc: Global, text: &str) -> Result<Vec<IntContour<i32>>, Fail>
    ensures { IfOk result (λ s. IsSafeShape w32 (shape_of (λ z. z) s.items)) }
{
    let mut shape = Vec::new(alloc);
    for points in text.split_terminator(';') {
        shape.push(contour(alloc, points)?)?;
    }
    if !shape.is_in_safe_range() {
        return Err(Fail::new("a point isn't safe"));
    }
    Ok(shape)
}

/// The list of these shapes. Fails if a point isn't safe.
pub fn shapes(alloc: Global, text: &str) -> Result<Vec<Vec<IntContour<i32>>>, Fail>
    ensures { IfOk result (λ s. IsSafeList w32 (shapes_of (λ z. z) s.items)) }
{
    let mut shapes = Vec::new(alloc);
    for contours in text.split_terminator('/') {
        shapes.push(shape(alloc, contours)?)?;
    }
    if !shapes.is_in_safe_range() {
        return Err(Fail::new("a point isn't safe"));
    }
    Ok(shapes)
}

/// These ranges.
pub fn ranges(alloc: Global, text: &str) -> Result<Vec<Range<usize>>, Fail> {
    let mut ranges = Vec::new(alloc);
    for range in text.split_whitespace() {
        let (start, end) = range.split_once("..").ok_or("a range has two ends")?;
        ranges.push(start.parse::<usize>()?..end.parse::<usize>()?)?;
    }
    Ok(ranges)
}

/// A contour is left as the text has it; an empty text means no contour.
pub fn leaves(
    row: &Row<'_>,
    left: Option<IntContour<i32>>,
    wanted: &str,
    what: &str,
) -> Result<(), Fail> {
    let left = left.unwrap_or(Vec::new(row.alloc));
    row.holds(left == contour(row.alloc, wanted)?, what)
}
