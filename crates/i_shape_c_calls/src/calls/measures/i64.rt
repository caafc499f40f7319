//! Tests and areas of many contours at 64 bits, made by scripts/widths.sh from those at 32 bits.

ghost use Rattle.std.specs.Int.{w64};
ghost use Rattle.i_shape.specs.Contour.{IsSimple};
ghost use Rattle.i_shape.specs.Convex.{Convex, NoSpikes};
ghost use Rattle.i_shape_contacts.specs.Contacts.{IsSimplePolygon};
ghost use Rattle.i_shape_c.specs.Batch.{contour_arrays};
ghost use Rattle.i_shape_c.specs.Points.{point_i64};
ghost use Rattle.i_shape_c.specs.Areas.{AreDoubleAreaHalves};
ghost use Rattle.i_shape_c.specs.Measures.{IsByteOf, MeasuresEach, TestsEach};
ghost use Rattle.i_shape.specs.IntPoint.{IsSafeContour};

use i_shape_c::area::Halves;
use i_shape_c::measures::{DoubleArea, SafeRange, Tested, measure_contours};
use i_shape_c::point::PointI64;
use i_shape_c::predicates::{Bulging, Simple, SimplePolygon, Spikeless};
use std::alloc::Global;

/// Writes the result of `i_shape_is_simple_i64` for each contour, one byte each. Returns 0, or a code below 0.
#[unsafe(no_mangle)]
pub extern "C" fn i_shape_is_simple_contours_i64(
    points: &[PointI64],
    offsets: &[usize],
    out: &mut [u8],
) -> i32
    ensures { TestsEach IsSimple w64 point_i64 (contour_arrays points.now offsets.now) out.old
        out.new result }
{
    measure_contours(points, offsets, Tested { test: Simple {} }, out)
}

/// Writes the result of `i_shape_has_no_spikes_i64` for each contour, one byte each. Returns 0, or a code below 0.
#[unsafe(no_mangle)]
pub extern "C" fn i_shape_has_no_spikes_contours_i64(
    points: &[PointI64],
    offsets: &[usize],
    out: &mut [u8],
) -> i32
    ensures { TestsEach NoSpikes w64 point_i64 (contour_arrays points.now offsets.now) out.old
        out.new result }
{
    measure_contours(points, offsets, Tested { test: Spikeless {} }, out)
}

/// Writes the result of `i_shape_is_convex_i64` for each contour, one byte each. Returns 0, or a code below 0.
#[unsafe(no_mangle)]
pub extern "C" fn i_shape_is_convex_contours_i64(
    points: &[PointI64],
    offsets: &[usize],
    out: &mut [u8],
) -> i32
    ensures { TestsEach Convex w64 point_i64 (contour_arrays points.now offsets.now) out.old out.new
        result }
{
    measure_contours(points, offsets, Tested { test: Bulging {} }, out)
}

/// Writes the result of `i_shape_is_simple_polygon_i64` for each contour, one byte each. Returns 0, or a code below 0.
#[unsafe(no_mangle)]
pub extern "C" fn i_shape_are_simple_polygons_i64(
    alloc: Global,
    points: &[PointI64],
    offsets: &[usize],
    out: &mut [u8],
) -> i32
    ensures { TestsEach IsSimplePolygon w64 point_i64 (contour_arrays points.now offsets.now)
        out.old out.new result }
{
    let test = SimplePolygon { alloc };
    measure_contours(points, offsets, Tested { test }, out)
}

/// Writes the result of `i_shape_is_safe_i64` for each contour, one byte each. Returns 0, or a code below 0.
#[unsafe(no_mangle)]
pub extern "C" fn i_shape_is_safe_contours_i64(
    points: &[PointI64],
    offsets: &[usize],
    out: &mut [u8],
) -> i32
    ensures { MeasuresEach (IsByteOf (IsSafeContour w64)) point_i64
        (contour_arrays points.now offsets.now) out.old out.new result }
{
    measure_contours(points, offsets, SafeRange {}, out)
}

/// Writes twice the signed area of each contour, 0 for a contour without points. The points needn't be safe; a sum that
/// doesn't fit wraps. Returns 0, or a code below 0.
#[unsafe(no_mangle)]
pub extern "C" fn i_shape_area_two_contours_i64(
    points: &[PointI64],
    offsets: &[usize],
    out: &mut [Halves],
) -> i32
    ensures { MeasuresEach AreDoubleAreaHalves point_i64 (contour_arrays points.now offsets.now)
        out.old out.new result }
{
    measure_contours(points, offsets, DoubleArea {}, out)
}
