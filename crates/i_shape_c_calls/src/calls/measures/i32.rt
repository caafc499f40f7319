//! Tests and areas of many contours at 32 bits.

ghost use Rattle.std.specs.Int.{w32, w64};
ghost use Rattle.i_shape.specs.Contour.{IsSimple};
ghost use Rattle.i_shape.specs.Convex.{Convex, NoSpikes};
ghost use Rattle.i_shape_contacts.specs.Contacts.{IsSimplePolygon};
ghost use Rattle.i_shape_c.specs.Batch.{contour_arrays};
ghost use Rattle.i_shape_c.specs.Points.{point_i32};
ghost use Rattle.i_shape_c.specs.Areas.{IsDoubleArea};
ghost use Rattle.i_shape_c.specs.Measures.{IsByteOf, MeasuresEach, TestsEach};
ghost use Rattle.i_shape.specs.IntPoint.{IsSafeContour};

use i_shape_c::measures::{DoubleArea, SafeRange, Tested, measure_contours};
use i_shape_c::point::PointI32;
use i_shape_c::predicates::{Bulging, Simple, SimplePolygon, Spikeless};
use std::alloc::Global;

/// Writes the result of `i_shape_is_simple_i32` for each contour, one byte each. Returns 0, or a code below 0.
#[unsafe(no_mangle)]
pub extern "C" fn i_shape_is_simple_contours_i32(
    points: &[PointI32],
    offsets: &[usize],
    out: &mut [u8],
) -> i32
    ensures { TestsEach IsSimple w32 point_i32 (contour_arrays points.now offsets.now) out.old
        out.new result }
{
    measure_contours(points, offsets, Tested { test: Simple {} }, out)
}

/// Writes the result of `i_shape_has_no_spikes_i32` for each contour, one byte each. Returns 0, or a code below 0.
#[unsafe(no_mangle)]
pub extern "C" fn i_shape_has_no_spikes_contours_i32(
    points: &[PointI32],
    offsets: &[usize],
    out: &mut [u8],
) -> i32
    ensures { TestsEach NoSpikes w32 point_i32 (contour_arrays points.now offsets.now) out.old
        out.new result }
{
    measure_contours(points, offsets, Tested { test: Spikeless {} }, out)
}

/// Writes the result of `i_shape_is_convex_i32` for each contour, one byte each. Returns 0, or a code below 0.
#[unsafe(no_mangle)]
pub extern "C" fn i_shape_is_convex_contours_i32(
    points: &[PointI32],
    offsets: &[usize],
    out: &mut [u8],
) -> i32
    ensures { TestsEach Convex w32 point_i32 (contour_arrays points.now offsets.now) out.old out.new
        result }
{
    measure_contours(points, offsets, Tested { test: Bulging {} }, out)
}

/// Writes the result of `i_shape_is_simple_polygon_i32` for each contour, one byte each. Returns 0, or a code below 0.
#[unsafe(no_mangle)]
pub extern "C" fn i_shape_are_simple_polygons_i32(
    alloc: Global,
    points: &[PointI32],
    offsets: &[usize],
    out: &mut [u8],
) -> i32
    ensures { TestsEach IsSimplePolygon w32 point_i32 (contour_arrays points.now offsets.now)
        out.old out.new result }
{
    let test = SimplePolygon { alloc };
    measure_contours(points, offsets, Tested { test }, out)
}

/// Writes the result of `i_shape_is_safe_i32` for each contour, one byte each. Returns 0, or a code below 0.
#[unsafe(no_mangle)]
pub extern "C" fn i_shape_is_safe_contours_i32(
    points: &[PointI32],
    offsets: &[usize],
    out: &mut [u8],
) -> i32
    ensures { MeasuresEach (IsByteOf (IsSafeContour w32)) point_i32
        (contour_arrays points.now offsets.now) out.old out.new result }
{
    measure_contours(points, offsets, SafeRange {}, out)
}

/// Writes twice the signed area of each contour, 0 for a contour without points. The points needn't be safe; a sum that
/// doesn't fit wraps. Returns 0, or a code below 0.
#[unsafe(no_mangle)]
pub extern "C" fn i_shape_area_two_contours_i32(
    points: &[PointI32],
    offsets: &[usize],
    out: &mut [i64],
) -> i32
    ensures { MeasuresEach (IsDoubleArea w64) point_i32 (contour_arrays points.now offsets.now)
        out.old out.new result }
{
    measure_contours(points, offsets, DoubleArea {}, out)
}
