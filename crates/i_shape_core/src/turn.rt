//! The kinds of turn at a vertex.

ghost use Rattle.std.specs.Prelude.{◌≡◌, ◌<◌, length};
ghost use Rattle.i_shape_core.specs.IntPoint.{point_of, IsSafe, IsSafeContour};
ghost use Rattle.i_shape_core.specs.Reading.{read};
ghost use Rattle.i_shape_core.specs.Contour.{point_at};
ghost use Rattle.i_shape_core.specs.Turn.{IsTurn};

use crate::number::{IntNumber, WideIntNumber};
use crate::point::{ContourPoint, IntPoint};

pub(crate) mod bend;
pub(crate) mod repeats;
pub mod triangle;
pub(crate) mod turning;

/// How a path turns at a vertex.
#[derive(Clone, Copy, PartialEq, Eq, Debug)]
pub enum Turn {
    /// It turns.
    Turning,
    /// It goes straight on.
    Straight,
    /// It goes back, or the vertex equals a neighbour.
    Back,
}

/// Returns how the path from `a` over `b` to `c` turns.
#[inline(always)]
#[tactic(auto, unfolding(crate::specs::Point::cross, crate::specs::Point::dot))]
pub fn turn_of<I: IntNumber>(a: IntPoint<I>, b: IntPoint<I>, c: IntPoint<I>) -> Turn
    requires a_safe { IsSafe I.width (point_of I.value a) }
    requires b_safe { IsSafe I.width (point_of I.value b) }
    requires c_safe { IsSafe I.width (point_of I.value c) }
    ensures { IsTurn (point_of I.value a) (point_of I.value b) (point_of I.value c) result }
{
    let first = b - a;
    let second = c - b;
    if !first.is_parallel_to(second) {
        Turn::Turning
    } else if first.dot_product(second) > I::Wide::ZERO {
        Turn::Straight
    } else {
        Turn::Back
    }
}

/// Returns how a contour turns at `place` between these neighbours, which may be any places.
#[inline(always)]
pub(crate) fn turn_at<P: ContourPoint>(
    points: &[P],
    previous: usize,
    place: usize,
    next: usize,
) -> Turn
    requires safe { IsSafeContour P.Coordinate.width (read P.Coordinate.value P.points points.now) }
    requires previous_within { previous < length points.now }
    requires place_within { place < length points.now }
    requires next_within { next < length points.now }
    ensures { let c = read P.Coordinate.value P.points points.now in
        IsTurn (point_at c previous) (point_at c place) (point_at c next) result }
{
    turn_of(
        points[previous].to_point(),
        points[place].to_point(),
        points[next].to_point(),
    )
}
