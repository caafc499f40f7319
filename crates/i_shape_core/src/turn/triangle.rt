//! Tests of three points.

ghost use Rattle.std.specs.Prelude.{◌↔◌, ◌<ℤ◌, pos, IsTrue};
ghost use Rattle.i_shape_core.specs.IntPoint.{point_of, IsSafe};
ghost use Rattle.i_shape_core.specs.Point.{cross};

use crate::number::{IntNumber, WideIntNumber};
use crate::point::IntPoint;

/// Tests of three points.
pub struct Triangle;

impl Triangle {
    /// Returns whether the path from `a` over `b` to `c` turns clockwise.
    #[tactic(auto, unfolding(crate::specs::Point::cross))]
    pub fn is_clockwise<I: IntNumber>(a: IntPoint<I>, b: IntPoint<I>, c: IntPoint<I>) -> bool
        requires a_safe { IsSafe I.width (point_of I.value a) }
        requires b_safe { IsSafe I.width (point_of I.value b) }
        requires c_safe { IsSafe I.width (point_of I.value c) }
        ensures { IsTrue result
            ↔ (cross (point_of I.value a) (point_of I.value b) (point_of I.value c) <ℤ pos 0) }
    {
        (b - a).cross_product(c - b) < I::Wide::ZERO
    }
}
