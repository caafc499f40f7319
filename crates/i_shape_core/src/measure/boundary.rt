//! Whether a point lies on an edge of a contour, over points of any type.

ghost use Rattle.std.specs.Prelude.{◌↔◌, IsTrue};
ghost use Rattle.i_shape_core.specs.IntPoint.{point_of, IsSafe, IsSafeContour};
ghost use Rattle.i_shape_core.specs.Reading.{read};
ghost use Rattle.i_shape_core.specs.Boundary.{IsBetween, IsOnEdge};

use crate::number::{IntNumber, WideIntNumber};
use crate::point::{ContourPoint, IntPoint};

/// Returns whether `point` lies on an edge of the contour, ends included. A contour without points has no edge.
pub fn is_on_boundary<P: ContourPoint>(contour: &[P], point: IntPoint<P::Coordinate>) -> bool
    requires points_safe { IsSafeContour P.Coordinate.width
        (read P.Coordinate.value P.points contour.now) }
    requires point_safe { IsSafe P.Coordinate.width (point_of P.Coordinate.value point) }
    ensures { IsTrue result ↔ IsOnEdge (read P.Coordinate.value P.points contour.now)
        (point_of P.Coordinate.value point) }
{
    let Some(last) = contour.last() else {
        return false;
    };
    let mut start = last.to_point();
    for given in contour {
        let end = given.to_point();
        if is_between(start, point, end) {
            return true;
        }
        start = end;
    }
    false
}

/// Returns whether `point` lies on the segment from `start` to `end`, ends included.
#[tactic(auto, unfolding(crate::specs::Point::cross, crate::specs::Point::dot))]
fn is_between<I: IntNumber>(start: IntPoint<I>, point: IntPoint<I>, end: IntPoint<I>) -> bool
    requires start_safe { IsSafe I.width (point_of I.value start) }
    requires point_safe { IsSafe I.width (point_of I.value point) }
    requires end_safe { IsSafe I.width (point_of I.value end) }
    ensures { IsTrue result
        ↔ IsBetween (point_of I.value start) (point_of I.value point) (point_of I.value end) }
{
    let before = point - start;
    let after = end - point;
    before.is_parallel_to(after) && before.dot_product(after) >= I::Wide::ZERO
}
