//! Tests and areas of many contours. Only the test for simple polygons allocates.

ghost use Rattle.std.specs.Prelude.{◌≡◌, ◌↔◌, ◌-◌, List, length, map, slice_range, IsTrue};
ghost use Rattle.std.specs.Int.{int_wrap, w32, w64, w128};
ghost use Rattle.std.specs.List.{All};
ghost use Rattle.i_shape.specs.Edges.{shoelace};
ghost use Rattle.i_shape.specs.IntPoint.{point_of, IsSafe};
ghost use Rattle.i_shape.specs.Point.{Point};
ghost use Rattle.i_shape_c.specs.Areas.{AreHalves};
ghost use Rattle.i_shape_c.specs.Batch.{contour_arrays, offset};
ghost use Rattle.i_shape_c.specs.Measures.{AnswersEach, IsByteOf};
ghost use Rattle.i_shape_c.specs.Points.{point_by};

use crate::area::{Halves, area_two};
use crate::batch::{are_parted, part};
use crate::codes::Refusal;
use crate::point::{CPoint, PointI16, PointI32, PointI64};
use crate::predicates::ContourTest;
use i_shape_core::safe_range::are_safe;

/// What a call reports about a contour: the result of a test, or the area.
pub trait ContourMeasure<P: CPoint>: Copy {
    type Answer: Copy;

    /// The precondition on the measure.
    ghost can_measure: { Self → Type 0 };

    /// The precondition on each point.
    ghost asked: { Self → P → Type 0 };

    /// Relates a contour to the result.
    ghost gives: { Self → List Point → Self.Answer → Type 0 };

    /// Returns whether each point meets its precondition.
    fn admits(self, points: &[P]) -> bool
        ensures { IsTrue result ↔ All (asked self) points.now };

    /// Returns the result for a contour whose points `admits` accepts.
    fn measure(self, contour: &[P]) -> Self::Answer
        requires can { can_measure self }
        requires points { All (asked self) contour.now }
        ensures { gives self (map (point_by P.Coordinate.value P.point) contour.now) result };
}

/// The result of a test of safe points: 1 or 0.
#[derive(Clone, Copy)]
pub struct Tested<T> {
    pub test: T,
}

impl<P: CPoint, T: ContourTest<P::Coordinate>> ContourMeasure<P> for Tested<T> {
    type Answer = u8;

    ghost can_measure = { λ measure. T.can_test measure.test };

    ghost asked = { λ measure p. IsSafe P.Coordinate.width (point_of P.Coordinate.value (P.point p)) };

    ghost gives = { λ measure. IsByteOf (T.holds measure.test) };

    fn admits(self, points: &[P]) -> bool {
        are_safe(points)
    }

    fn measure(self, contour: &[P]) -> u8 {
        if self.test.test(contour) { 1 } else { 0 }
    }
}

/// Whether each point is safe: 1 or 0.
#[derive(Clone, Copy)]
pub struct SafeRange {}

impl<P: CPoint> ContourMeasure<P> for SafeRange {
    type Answer = u8;

    ghost can_measure = { λ measure. Unit {0} };

    ghost asked = { λ measure p. Unit {0} };

    ghost gives = { λ measure. IsByteOf (All (IsSafe P.Coordinate.width)) };

    fn admits(self, _points: &[P]) -> bool {
        true
    }

    fn measure(self, contour: &[P]) -> u8 {
        if are_safe(contour) { 1 } else { 0 }
    }
}

/// Twice the signed area, 0 for a contour without points. A sum that doesn't fit wraps.
#[derive(Clone, Copy)]
pub struct DoubleArea {}

impl ContourMeasure<PointI16> for DoubleArea {
    type Answer = i32;

    ghost can_measure = { λ measure. Unit {0} };

    ghost asked = { λ measure p. Unit {0} };

    ghost gives = { λ measure contour area. area ≡ int_wrap w32 (shoelace contour) };

    fn admits(self, _points: &[PointI16]) -> bool {
        true
    }

    fn measure(self, contour: &[PointI16]) -> i32 {
        area_two(contour).unwrap_or(0)
    }
}

impl ContourMeasure<PointI32> for DoubleArea {
    type Answer = i64;

    ghost can_measure = { λ measure. Unit {0} };

    ghost asked = { λ measure p. Unit {0} };

    ghost gives = { λ measure contour area. area ≡ int_wrap w64 (shoelace contour) };

    fn admits(self, _points: &[PointI32]) -> bool {
        true
    }

    fn measure(self, contour: &[PointI32]) -> i64 {
        area_two(contour).unwrap_or(0)
    }
}

impl ContourMeasure<PointI64> for DoubleArea {
    type Answer = Halves;

    ghost can_measure = { λ measure. Unit {0} };

    ghost asked = { λ measure p. Unit {0} };

    ghost gives = { λ measure contour area. AreHalves (int_wrap w128 (shoelace contour)) area };

    fn admits(self, _points: &[PointI64]) -> bool {
        true
    }

    fn measure(self, contour: &[PointI64]) -> Halves {
        Halves::of(area_two(contour).unwrap_or(0))
    }
}

/// Writes the measure of each contour, in order, to the front of `out`. Returns 0, or a code below 0. A point that the
/// measure doesn't admit counts as unsafe.
pub fn measure_contours<P: CPoint, M: ContourMeasure<P>>(
    points: &[P],
    offsets: &[usize],
    measure: M,
    out: &mut [M::Answer],
) -> i32
    requires { M.can_measure measure }
    ensures { AnswersEach (M.gives measure)
        (All (M.asked measure) (slice_range points.now (offset offsets.now 0)
        (offset offsets.now (length offsets.now - 1)))) (point_by P.Coordinate.value P.point)
        (contour_arrays points.now offsets.now) out.old out.new result }
{
    if !are_parted(points.len(), offsets) {
        return Refusal::BadOffsets.code();
    }
    if out.len() < offsets.len() - 1 {
        return Refusal::NoRoom.code();
    }
    if !measure.admits(part(points, offsets[0], offsets[offsets.len() - 1])) {
        return Refusal::Unsafe.code();
    }
    for place in 1..offsets.len() {
        out[place - 1] = measure.measure(part(points, offsets[place - 1], offsets[place]));
    }
    0
}
