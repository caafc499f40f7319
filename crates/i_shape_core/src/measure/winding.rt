//! Winding numbers of a contour, over points of any type.

ghost use Rattle.std.specs.Prelude.{◌≡◌, ◌≤◌, ◌++◌, length, map, drop};
ghost use Rattle.i_shape_core.specs.IntPoint.{point_of, IsSafe, IsSafeContour};
ghost use Rattle.i_shape_core.specs.Reading.{read};
ghost use Rattle.i_shape_core.specs.Edges.{is_right};
ghost use Rattle.i_shape_core.specs.Winding.{winding, winding_of_edge, IsWithinHalf};

use crate::number::IntNumber;
use crate::point::{ContourPoint, IntPoint};
use crate::turn::triangle::Triangle;

/// Returns the winding number of the contour about `point`, counterclockwise positive: how many edges pass its height
/// upward and strictly to the right of it, less those that do so downward. Its absolute value is at most half the
/// number of points. For a contour without points it is 0.
pub fn winding_about<P: ContourPoint>(contour: &[P], point: IntPoint<P::Coordinate>) -> isize
    requires points_safe { IsSafeContour P.Coordinate.width
        (read P.Coordinate.value P.points contour.now) }
    requires point_safe { IsSafe P.Coordinate.width (point_of P.Coordinate.value point) }
    ensures answer { result ≡ winding (read P.Coordinate.value P.points contour.now)
        (point_of P.Coordinate.value point) }
    ensures half { IsWithinHalf (length contour.now) result }
{
    let Some(last) = contour.last() else {
        return 0;
    };
    let mut before = last.to_point();
    let mut total: isize = 0;
    for given in contour {
        let end = given.to_point();
        total += edge_winding(point, before, end);
        before = end;
    }
    total
}

/// Writes the winding number about each of the points, as `winding_about` returns it, to the front of `out`. Requires
/// an `out` at least as long as `points`. The rest of it is unchanged. Each point takes one pass over the contour.
pub fn windings_about<P: ContourPoint, Q: ContourPoint<Coordinate = P::Coordinate>>(
    contour: &[P],
    points: &[Q],
    out: &mut [isize],
)
    requires contour_safe { IsSafeContour P.Coordinate.width
        (read P.Coordinate.value P.points contour.now) }
    requires points_safe { IsSafeContour P.Coordinate.width
        (read P.Coordinate.value Q.points points.now) }
    requires room { length points.now ≤ length out.old }
    ensures { out.new ≡ map (winding (read P.Coordinate.value P.points contour.now))
        (read P.Coordinate.value Q.points points.now) ++ drop (length points.now) out.old }
{
    for (place, point) in points.iter().enumerate() {
        out[place] = winding_about(contour, point.to_point());
    }
}

/// Returns what the edge from `start` to `end` adds to the winding number about `point`.
fn edge_winding<I: IntNumber>(point: IntPoint<I>, start: IntPoint<I>, end: IntPoint<I>) -> isize
    requires point_safe { IsSafe I.width (point_of I.value point) }
    requires start_safe { IsSafe I.width (point_of I.value start) }
    requires end_safe { IsSafe I.width (point_of I.value end) }
    ensures { result ≡ winding_of_edge (point_of I.value point)
        (record { start = point_of I.value start; end = point_of I.value end }) }
{
    if !passes_right(point, start, end) {
        0
    } else if end.y > point.y {
        1
    } else {
        -1
    }
}

/// Returns whether the edge from `start` to `end` passes the height of `point` strictly to the right of it.
pub(crate) fn passes_right<I: IntNumber>(
    point: IntPoint<I>,
    start: IntPoint<I>,
    end: IntPoint<I>,
) -> bool
    requires point_safe { IsSafe I.width (point_of I.value point) }
    requires start_safe { IsSafe I.width (point_of I.value start) }
    requires end_safe { IsSafe I.width (point_of I.value end) }
    ensures { result ≡ is_right (point_of I.value point)
        (record { start = point_of I.value start; end = point_of I.value end }) }
{
    let is_start_above = start.y > point.y;
    let is_end_above = end.y > point.y;
    let (low, high) = if is_start_above {
        (end, start)
    } else {
        (start, end)
    };
    is_start_above != is_end_above && Triangle::is_clockwise(low, point, high)
}
