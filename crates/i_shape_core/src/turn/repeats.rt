//! Comparisons of points, for walks that skip repeated points.

ghost use Rattle.std.specs.Prelude.{◌≡◌, reverse, not};
ghost use Rattle.std.specs.List.{find};
ghost use Rattle.i_shape_core.specs.IntPoint.{point_of};
ghost use Rattle.i_shape_core.specs.Convex.{is_same};

use crate::number::IntNumber;
use crate::point::{ContourPoint, IntPoint};

/// Returns whether the points are equal.
pub fn are_same<I: IntNumber>(a: IntPoint<I>, b: IntPoint<I>) -> bool
    ensures { result ≡ is_same (point_of I.value a) (point_of I.value b) }
{
    a == b
}

/// Returns the last of the points that isn't `point`, if there is one.
pub fn last_other<P: ContourPoint>(
    points: &[P],
    point: IntPoint<P::Coordinate>,
) -> Option<IntPoint<P::Coordinate>>
    ensures { result
        ≡ find
        (λ other. not (is_same (point_of P.Coordinate.value point)
        (point_of P.Coordinate.value other))) (reverse (P.points points.now)) }
{
    match last_given(points, point) {
        Some(other) => Some(other.to_point()),
        None => None,
    }
}

/// Returns the same point as the caller gave it.
fn last_given<P: ContourPoint>(points: &[P], point: IntPoint<P::Coordinate>) -> Option<P>
    ensures { result
        ≡ find
        (λ other. not (is_same (point_of P.Coordinate.value point)
        (point_of P.Coordinate.value (P.point other)))) (reverse points.now) }
{
    points
        .iter()
        .rev()
        .copied()
        .find(|other| !are_same(point, other.to_point()))
}
