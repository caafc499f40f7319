//! Winding numbers about the middle between two points, which needn't have whole coordinates.

ghost use Rattle.std.specs.Prelude.{◌≡◌, ◌↔◌, ◌<ℤ◌, pos, IsTrue};
ghost use Rattle.i_shape_core.specs.IntPoint.{point_of, IsSafe, IsSafeContour};
ghost use Rattle.i_shape_core.specs.Point.{cross};
ghost use Rattle.i_shape_core.specs.Edges.{is_above};
ghost use Rattle.i_shape_core.specs.Reading.{read};
ghost use Rattle.i_shape_core.specs.Winding.{winding_of_edge};
ghost use Rattle.i_shape_touching.specs.Places.{winding_at, sum_of_points};
ghost use Rattle.i_shape_touching.specs.Steps.Middles.{twice_point, twice_middle, twice_edge};

use i_shape_core::number::{IntNumber, WideIntNumber};
use i_shape_core::point::{ContourPoint, IntPoint};

/// The middle between two points.
#[derive(Clone, Copy)]
pub(crate) struct Middle<I> {
    pub first: IntPoint<I>,
    pub second: IntPoint<I>,
}

/// Returns the winding number of a ring about a middle.
pub(crate) fn winding_about_middle<P: ContourPoint>(
    ring: &[P],
    middle: Middle<P::Coordinate>,
) -> isize
    requires ring_safe { IsSafeContour P.Coordinate.width
        (read P.Coordinate.value P.points ring.now) }
    requires first_safe { IsSafe P.Coordinate.width (point_of P.Coordinate.value middle.first) }
    requires second_safe { IsSafe P.Coordinate.width (point_of P.Coordinate.value middle.second) }
    ensures { result ≡ winding_at (read P.Coordinate.value P.points ring.now) (pos 2)
        (sum_of_points (point_of P.Coordinate.value middle.first)
        (point_of P.Coordinate.value middle.second)) }
{
    let Some(last) = ring.last() else {
        return 0;
    };
    let mut before = last.to_point();
    let mut total: isize = 0;
    for given in ring {
        let end = given.to_point();
        total += edge_winding(middle, before, end);
        before = end;
    }
    total
}

/// Returns what the edge from `start` to `end` adds to the winding number about a middle.
fn edge_winding<I: IntNumber>(middle: Middle<I>, start: IntPoint<I>, end: IntPoint<I>) -> isize
    requires first_safe { IsSafe I.width (point_of I.value middle.first) }
    requires second_safe { IsSafe I.width (point_of I.value middle.second) }
    requires start_safe { IsSafe I.width (point_of I.value start) }
    requires end_safe { IsSafe I.width (point_of I.value end) }
    ensures { result ≡ winding_of_edge (twice_middle I.value middle) (twice_edge I.value start end) }
{
    let is_end_above = lies_above(middle, end);
    if lies_above(middle, start) {
        if is_end_above {
            0
        } else if is_left(middle, end, start) {
            -1
        } else {
            0
        }
    } else if is_end_above {
        if is_left(middle, start, end) { 1 } else { 0 }
    } else {
        0
    }
}

/// Returns whether a point is above a middle.
fn lies_above<I: IntNumber>(middle: Middle<I>, point: IntPoint<I>) -> bool
    ensures { result ≡ is_above (twice_middle I.value middle) (twice_point I.value point) }
{
    let first = middle.first.y.to_wide();
    let second = middle.second.y.to_wide();
    let y = point.y.to_wide();
    first.wrapping_add(second) < y.wrapping_add(y)
}

/// Returns whether a middle is strictly left of the line from `low` to `high`.
fn is_left<I: IntNumber>(middle: Middle<I>, low: IntPoint<I>, high: IntPoint<I>) -> bool
    requires first_safe { IsSafe I.width (point_of I.value middle.first) }
    requires second_safe { IsSafe I.width (point_of I.value middle.second) }
    requires low_safe { IsSafe I.width (point_of I.value low) }
    requires high_safe { IsSafe I.width (point_of I.value high) }
    ensures { IsTrue result ↔ (cross (twice_point I.value low) (twice_middle I.value middle)
        (twice_point I.value high) <ℤ pos 0) }
{
    let way = high - low;
    let first = way.cross_product(middle.first - low);
    let second = way.cross_product(middle.second - low);
    let zero = I::Wide::ZERO;
    zero.wrapping_sub(second) < first
}
