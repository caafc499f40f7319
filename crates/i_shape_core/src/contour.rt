//! Tests of a contour as a whole: its orientation, its convexity, and which points it contains.

ghost use Rattle.std.specs.Prelude.{◌≡◌, ◌<◌, ◌↔◌, ◌≤◌, ◌≤ℤ◌, ◌++◌, pos, false, List, length, map, drop, IsTrue};
ghost use Rattle.std.specs.Int.{int_wrap};
ghost use Rattle.i_shape_core.specs.IntPoint.{point_of, contour_of, IsSafe, IsSafeContour};
ghost use Rattle.i_shape_core.specs.Reading.{read};
ghost use Rattle.i_shape_core.specs.Point.{Point};
ghost use Rattle.i_shape_core.specs.Edges.{shoelace, Inside};
ghost use Rattle.i_shape_core.specs.Winding.{winding};
ghost use Rattle.i_shape_core.specs.Filling.{IsFilled};
ghost use Rattle.i_shape_core.specs.Boundary.{IsOnEdge};
ghost use Rattle.i_shape_core.specs.Convex.{Convex};

use crate::measure::area::area_of;
use crate::measure::boundary::is_on_boundary;
use crate::measure::fill_rule::FillRule;
use crate::measure::winding::{passes_right, winding_about, windings_about};
use crate::number::{IntNumber, WideIntNumber};
use crate::point::{ContourPoint, IntPoint};
use crate::turn::bend::{Bend, bend_of};
use crate::turn::repeats::{are_same, last_other};

/// Tests of a contour as a whole. Each allocates nothing, and takes time linear in the points; `winding_numbers_into`
/// takes it for each point asked about.
pub trait ContourExtension<I: IntNumber> {
    /// The contour in unbounded integers.
    ghost contour: { Self → List Point };

    /// Returns whether the contour is convex: it has at most two points, or it never turns back on itself and doesn't
    /// turn left at one point and right at another. Consecutive duplicates count once, also across the closing edge.
    fn is_convex(&self) -> bool
        requires { IsSafeContour I.width (contour self.now) }
        ensures { IsTrue result ↔ Convex (contour self.now) };

    /// Returns whether the double area, wrapped as by `UnsafeArea::unsafe_area`, is at most zero. Requires a point.
    fn is_clockwise_ordered(&self) -> bool
        requires { 0 < length (contour self.now) }
        ensures { IsTrue result ↔ (int_wrap I.Wide.width (shoelace (contour self.now)) ≤ℤ pos 0) };

    /// Returns whether `point` is inside by the even-odd rule: an odd number of edges pass its height strictly to the
    /// right of it. A contour without points contains none.
    fn contains_point(&self, point: IntPoint<I>) -> bool
        requires points_safe { IsSafeContour I.width (contour self.now) }
        requires point_safe { IsSafe I.width (point_of I.value point) }
        ensures { IsTrue result ↔ Inside (contour self.now) (point_of I.value point) };

    /// Returns whether `point` lies on an edge, ends included. A contour without points has no edge.
    fn is_on_boundary(&self, point: IntPoint<I>) -> bool
        requires points_safe { IsSafeContour I.width (contour self.now) }
        requires point_safe { IsSafe I.width (point_of I.value point) }
        ensures { IsTrue result ↔ IsOnEdge (contour self.now) (point_of I.value point) };

    /// Returns the winding number about `point`, counterclockwise positive: how many edges pass its height upward and
    /// strictly to the right of it, less those that do so downward. For a contour without points it is 0.
    fn winding_number(&self, point: IntPoint<I>) -> isize
        requires points_safe { IsSafeContour I.width (contour self.now) }
        requires point_safe { IsSafe I.width (point_of I.value point) }
        ensures { result ≡ winding (contour self.now) (point_of I.value point) };

    /// Returns whether a fill rule fills `point`, by the winding number about it. For `EvenOdd` this is
    /// `contains_point`.
    fn contains_by(&self, point: IntPoint<I>, rule: FillRule) -> bool
        requires points_safe { IsSafeContour I.width (contour self.now) }
        requires point_safe { IsSafe I.width (point_of I.value point) }
        ensures { IsTrue result
            ↔ IsFilled rule (winding (contour self.now) (point_of I.value point)) };

    /// Writes the winding number about each of the points, which may be of any type, to the front of `out`. Requires an
    /// `out` at least as long as `points`. The rest of it is unchanged.
    fn winding_numbers_into<P: ContourPoint<Coordinate = I>>(&self, points: &[P], out: &mut [isize])
        requires contour_safe { IsSafeContour I.width (contour self.now) }
        requires points_safe { IsSafeContour I.width (read I.value P.points points.now) }
        requires room { length points.now ≤ length out.old }
        ensures { out.new ≡ map (winding (contour self.now))
            (read I.value P.points points.now) ++ drop (length points.now) out.old };
}

impl<I: IntNumber> ContourExtension<I> for &[IntPoint<I>] {
    ghost contour = { λ points. contour_of I.value points.now };

    fn is_convex(&self) -> bool {
        is_convex(*self)
    }

    fn is_clockwise_ordered(&self) -> bool {
        let points: &[IntPoint<I>] = *self;
        area_of(points) <= I::Wide::ZERO
    }

    fn contains_point(&self, point: IntPoint<I>) -> bool
        requires points_safe { IsSafeContour I.width (contour_of I.value self.now.now) }
        requires point_safe { IsSafe I.width (point_of I.value point) }
        ensures { IsTrue result ↔ Inside (contour_of I.value self.now.now)
            (point_of I.value point) }
    {
        contains_point(*self, point)
    }

    fn is_on_boundary(&self, point: IntPoint<I>) -> bool
        requires points_safe { IsSafeContour I.width (contour_of I.value self.now.now) }
        requires point_safe { IsSafe I.width (point_of I.value point) }
        ensures { IsTrue result ↔ IsOnEdge (contour_of I.value self.now.now)
            (point_of I.value point) }
    {
        is_on_boundary(*self, point)
    }

    fn winding_number(&self, point: IntPoint<I>) -> isize
        requires points_safe { IsSafeContour I.width (contour_of I.value self.now.now) }
        requires point_safe { IsSafe I.width (point_of I.value point) }
        ensures { result ≡ winding (contour_of I.value self.now.now) (point_of I.value point) }
    {
        winding_about(*self, point)
    }

    fn contains_by(&self, point: IntPoint<I>, rule: FillRule) -> bool
        requires points_safe { IsSafeContour I.width (contour_of I.value self.now.now) }
        requires point_safe { IsSafe I.width (point_of I.value point) }
        ensures { IsTrue result
            ↔ IsFilled rule (winding (contour_of I.value self.now.now) (point_of I.value point)) }
    {
        rule.fills(winding_about(*self, point) as i128)
    }

    fn winding_numbers_into<P: ContourPoint<Coordinate = I>>(&self, points: &[P], out: &mut [isize])
        requires contour_safe { IsSafeContour I.width (contour_of I.value self.now.now) }
        requires points_safe { IsSafeContour I.width (read I.value P.points points.now) }
        requires room { length points.now ≤ length out.old }
        ensures { out.new ≡ map (winding (contour_of I.value self.now.now))
            (read I.value P.points points.now) ++ drop (length points.now) out.old }
    {
        windings_about(*self, points, out);
    }
}

/// Returns whether the contour is convex: it has at most two points, or it never turns back on itself and doesn't turn
/// left at one point and right at another. Consecutive duplicates count once, also across the closing edge.
pub fn is_convex<P: ContourPoint>(points: &[P]) -> bool
    requires { IsSafeContour P.Coordinate.width (read P.Coordinate.value P.points points.now) }
    ensures { IsTrue result ↔ Convex (read P.Coordinate.value P.points points.now) }
{
    let Some(last) = points.last() else {
        return true;
    };
    let mut here = last.to_point();
    let Some(behind) = last_other(points, here) else {
        return true;
    };
    let mut edge = here - behind;
    let mut bend = Bend::Straight;
    let mut repeats: usize = 0;
    for given in points {
        let point = given.to_point();
        let next = point - here;
        let bent = bend_of(edge, next);
        if bent == Bend::Straight && are_same(here, point) {
            repeats += 1;
            continue;
        }
        let Some(both) = bend.followed_by(bent) else {
            return false;
        };
        bend = both;
        here = point;
        edge = next;
    }
    bend != Bend::Reversal || points.len() - repeats <= 2
}

/// Returns whether `point` is inside by the even-odd rule: an odd number of edges pass its height strictly to the right
/// of it. A contour without points contains none.
pub fn contains_point<P: ContourPoint>(contour: &[P], point: IntPoint<P::Coordinate>) -> bool
    requires points_safe { IsSafeContour P.Coordinate.width
        (read P.Coordinate.value P.points contour.now) }
    requires point_safe { IsSafe P.Coordinate.width (point_of P.Coordinate.value point) }
    ensures { IsTrue result ↔ Inside (read P.Coordinate.value P.points contour.now)
        (point_of P.Coordinate.value point) }
{
    let Some(last) = contour.last() else {
        return false;
    };
    let mut start = last.to_point();
    let mut is_inside = false;
    for given in contour {
        let end = given.to_point();
        if passes_right(point, start, end) {
            is_inside = !is_inside;
        }
        start = end;
    }
    is_inside
}
