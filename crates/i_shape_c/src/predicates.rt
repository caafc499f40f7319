//! Tests of a contour, at any width. Each returns 1 or 0, or a code below 0. Only that for a simple polygon allocates.

ghost use Rattle.std.specs.Prelude.{◌↔◌, List, IsTrue};
ghost use Rattle.std.specs.List.{All};
ghost use Rattle.i_shape.specs.Contour.{IsSimple};
ghost use Rattle.i_shape.specs.Convex.{Convex, NoSpikes};
ghost use Rattle.i_shape.specs.Edges.{Inside};
ghost use Rattle.i_shape.specs.IntPoint.{point_of, IsSafe};
ghost use Rattle.i_shape.specs.Reading.{read};
ghost use Rattle.i_shape.specs.Point.{Point};
ghost use Rattle.i_shape_contacts.specs.Contacts.{IsSimplePolygon};
ghost use Rattle.i_shape_c.specs.Cleaned.{AreSafe};
ghost use Rattle.i_shape_c.specs.Tests.{IsTold, TestsContour, TestsPoint};
ghost use Rattle.i_shape_c.specs.Points.{point_by};

use crate::codes::Refusal;
use crate::point::CPoint;
use i_shape::IntNumber;
use i_shape::int::{ContourPoint, IntPoint};
use i_shape_contacts::is_simple_polygon;
use i_shape_core::contour::{contains_point, is_convex};
use i_shape_core::despike::has_no_spikes;
use i_shape_core::safe_range::are_safe;
use i_shape_core::simple::is_simple;
use std::alloc::Global;

/// A test of a contour of safe points.
pub trait ContourTest<I: IntNumber>: Copy {
    /// The precondition on the test.
    ghost can_test: { Self → Type 0 };

    /// What the test establishes of a contour.
    ghost holds: { Self → List Point → Type 0 };

    fn test<P: ContourPoint<Coordinate = I>>(self, contour: &[P]) -> bool
        requires can { can_test self }
        requires points_safe { All (IsSafe I.width) (read I.value P.points contour.now) }
        ensures { IsTrue result ↔ holds self (read I.value P.points contour.now) };
}

/// Whether there are at least three points, and none of them is a zero turn.
#[derive(Clone, Copy)]
pub struct Simple {}

impl<I: IntNumber> ContourTest<I> for Simple {
    ghost can_test = { λ test. Unit {0} };

    ghost holds = { λ test. IsSimple };

    fn test<P: ContourPoint<Coordinate = I>>(self, contour: &[P]) -> bool {
        is_simple(contour)
    }
}

/// Whether there are at least three points, consecutive duplicates counted once, and the contour never turns back.
#[derive(Clone, Copy)]
pub struct Spikeless {}

impl<I: IntNumber> ContourTest<I> for Spikeless {
    ghost can_test = { λ test. Unit {0} };

    ghost holds = { λ test. NoSpikes };

    fn test<P: ContourPoint<Coordinate = I>>(self, contour: &[P]) -> bool {
        has_no_spikes(contour)
    }
}

/// Whether there are at most two points, consecutive duplicates counted once, or the contour never turns back and
/// doesn't turn both left and right.
#[derive(Clone, Copy)]
pub struct Bulging {}

impl<I: IntNumber> ContourTest<I> for Bulging {
    ghost can_test = { λ test. Unit {0} };

    ghost holds = { λ test. Convex };

    fn test<P: ContourPoint<Coordinate = I>>(self, contour: &[P]) -> bool {
        is_convex(contour)
    }
}

/// Whether there are at least three points, not all equal, and no two edges are in contact. If memory runs out, the
/// result is the same.
#[derive(Clone, Copy)]
pub struct SimplePolygon {
    pub alloc: Global,
}

impl<I: IntNumber> ContourTest<I> for SimplePolygon {
    ghost can_test = { λ test. Unit {0} };

    ghost holds = { λ test. IsSimplePolygon };

    fn test<P: ContourPoint<Coordinate = I>>(self, contour: &[P]) -> bool {
        is_simple_polygon(self.alloc, contour)
    }
}

/// Whether a safe point is inside by the even-odd rule.
#[derive(Clone, Copy)]
pub struct Around<I> {
    point: IntPoint<I>,
}

impl<I: IntNumber> ContourTest<I> for Around<I> {
    ghost can_test = { λ test. IsSafe I.width (point_of I.value test.point) };

    ghost holds = { λ test c. Inside c (point_of I.value test.point) };

    fn test<P: ContourPoint<Coordinate = I>>(self, contour: &[P]) -> bool {
        contains_point(contour, self.point)
    }
}

/// Returns the result of a test of the points: 1 or 0, or a code below 0.
pub fn test_contour<P: CPoint, T: ContourTest<P::Coordinate>>(points: &[P], test: T) -> i32
    requires { T.can_test test }
    ensures { TestsContour (T.holds test) P.Coordinate.width (point_by P.Coordinate.value P.point)
        points.now result }
{
    if !are_safe(points) {
        return Refusal::Unsafe.code();
    }
    if test.test(points) { 1 } else { 0 }
}

/// Returns whether the point is inside the contour: 1 or 0, or a code below 0.
pub fn contains<P: CPoint>(points: &[P], given: P) -> i32
    ensures { TestsPoint P.Coordinate.width (point_by P.Coordinate.value P.point)
        points.now (point_by P.Coordinate.value P.point given) result }
{
    let point = given.to_point();
    if !point.is_in_safe_range() {
        return Refusal::Unsafe.code();
    }
    test_contour(points, Around { point })
}

/// Returns whether each point is safe: 1 or 0. Allocates nothing.
pub fn is_safe<P: CPoint>(points: &[P]) -> i32
    ensures { IsTold (AreSafe P.Coordinate.width (point_by P.Coordinate.value P.point) points.now)
        result }
{
    if are_safe(points) { 1 } else { 0 }
}
