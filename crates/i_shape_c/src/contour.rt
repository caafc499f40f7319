//! Cleaning of one contour, at any width and by any cleaner.

ghost use Rattle.std.specs.Prelude.{◌^◌, ◌<◌, length};
ghost use Rattle.i_shape_c.specs.Cleaned.{CleansContour};
ghost use Rattle.i_shape_c.specs.Points.{point_by};

use crate::codes::Refusal;
use crate::point::CPoint;
use i_shape::int::cleaner::ContourCleaner;
use i_shape_core::safe_range::are_safe;
use std::alloc::Global;

/// Writes the cleaned contour to the front of `out`. Returns how many points it has, 0 if the contour collapses, or a
/// code below 0.
pub fn clean_contour<P: CPoint, C: ContourCleaner>(
    alloc: Global,
    points: &[P],
    out: &mut [P],
) -> isize
    requires { length out.old < 2 ^ 63 }
    ensures { CleansContour C.meaning P.Coordinate.width
        (point_by P.Coordinate.value P.point) points.now out.old out.new result }
{
    if out.len() < points.len() {
        return Refusal::NoRoom.code() as isize;
    }
    if !are_safe(points) {
        return Refusal::Unsafe.code() as isize;
    }
    match C::new(alloc).try_clean_into(points, out) {
        Ok(count) => count as isize,
        Err(_) => Refusal::NoMemory.code() as isize,
    }
}
