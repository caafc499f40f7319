//! The safe-range test of many points.

ghost use Rattle.std.specs.Prelude.{◌↔◌, IsTrue};
ghost use Rattle.std.specs.List.{All};
ghost use Rattle.i_shape_core.specs.IntPoint.{point_of, IsSafe};

use crate::point::ContourPoint;

/// Returns whether each point is safe: both its coordinates lie strictly between -2^(BITS-2) and 2^(BITS-2). Makes one
/// pass without a branch between points, and allocates nothing.
pub fn are_safe<P: ContourPoint>(points: &[P]) -> bool
    ensures { IsTrue result
        ↔ All (λ p. IsSafe P.Coordinate.width (point_of P.Coordinate.value (P.point p)))
        points.now }
{
    let mut are_safe = true;
    for given in points {
        are_safe = are_safe & given.to_point().is_in_safe_range();
    }
    are_safe
}
