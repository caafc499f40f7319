//! The flat buffers under test.

ghost use Rattle.std.specs.Prelude.{length};
ghost use Rattle.std.specs.List.{All};
ghost use Rattle.i_shape.specs.ShapeLists.{IsSafeShape, IsSafeList};
ghost use Rattle.i_shape.specs.Flat.{InOrder};
ghost use Rattle.i_shape.specs.Buffers.{CanReadShapes, contours_in, named_shapes};

use crate::spots::Spot;
use i_shape::IntNumber;
use i_shape::flat::buffer::{FlatContoursBuffer, FlatShapesBuffer};
use i_shape::flat::float::{FloatFlatContoursBuffer, FloatFlatShapesBuffer};
use i_shape::int::IntPoint;
use i_shape::int::safe_range::IntSafeRange;
use std::alloc::{AllocError, Global};
use std::ops::Range;
use std::process::Abort;

/// A buffer of these lists with no room left.
pub fn contours(
    alloc: Global,
    points: &[IntPoint<i32>],
    ranges: &[Range<usize>],
) -> Result<FlatContoursBuffer<i32>, AllocError> {
    Ok(FlatContoursBuffer {
        points: Vec::from_slice(alloc, points)?,
        ranges: Vec::from_clones(alloc, ranges)?,
    })
}

/// A buffer of these lists with no room left; if there are contours, they are one shape.
pub fn shapes(
    alloc: Global,
    points: &[IntPoint<i32>],
    ranges: &[Range<usize>],
) -> Result<FlatShapesBuffer<i32>, AllocError> {
    let one = [0..ranges.len()];
    Ok(FlatShapesBuffer {
        points: Vec::from_slice(alloc, points)?,
        contour_ranges: Vec::from_clones(alloc, ranges)?,
        shape_ranges: Vec::from_clones(alloc, &one[..ranges.len().min(1)])?,
    })
}

/// The same over points of the tests' own.
pub fn spot_contours(
    alloc: Global,
    points: &[Spot],
    ranges: &[Range<usize>],
) -> Result<FloatFlatContoursBuffer<Spot>, AllocError> {
    Ok(FloatFlatContoursBuffer {
        points: Vec::from_slice(alloc, points)?,
        ranges: Vec::from_clones(alloc, ranges)?,
    })
}

/// The same of shapes over points of the tests' own.
pub fn spot_shapes(
    alloc: Global,
    points: &[Spot],
    ranges: &[Range<usize>],
) -> Result<FloatFlatShapesBuffer<Spot>, AllocError> {
    let one = [0..ranges.len()];
    Ok(FloatFlatShapesBuffer {
        points: Vec::from_slice(alloc, points)?,
        contour_ranges: Vec::from_clones(alloc, ranges)?,
        shape_ranges: Vec::from_clones(alloc, &one[..ranges.len().min(1)])?,
    })
}

/// The test stops if a range can't be read, or a point isn't safe.
pub fn test_contours<I: IntNumber>(rt: &impl Abort, buffer: &FlatContoursBuffer<I>)
    ensures readable { All (InOrder (length buffer.now.points.items)) buffer.now.ranges.items }
    ensures safe { IsSafeShape I.width (contours_in I.value buffer.now) }
{
    assert!(rt; buffer.can_read_contours());
    assert!(rt; buffer.is_in_safe_range());
}

/// The same of a buffer of shapes.
pub fn test_shapes<I: IntNumber>(rt: &impl Abort, buffer: &FlatShapesBuffer<I>)
    ensures readable { CanReadShapes buffer.now }
    ensures safe { IsSafeList I.width (named_shapes I.value buffer.now) }
{
    assert!(rt; buffer.can_read_contours() && buffer.can_read_shapes());
    assert!(rt; buffer.is_in_safe_range());
}
