//! The winding number of a shape about a point, the points that a fill rule fills, and the points on an edge.

ghost use Rattle.std.specs.Prelude.{◌≡◌, ◌↔◌, List, IsTrue};
ghost use Rattle.i_shape.specs.IntPoint.{point_of, IsSafe};
ghost use Rattle.i_shape.specs.Point.{Point};
ghost use Rattle.i_shape.specs.ShapeLists.{shape_of, IsSafeShape};
ghost use Rattle.i_shape.specs.ShapeAnswers.{shape_winding, IsOnBoundary};
ghost use Rattle.i_shape.specs.Filling.{IsFilled};

use crate::int::IntPoint;
use crate::int::shape::IntContour;
pub use i_shape_core::boundary::is_on_boundary;
use i_shape_core::fill_rule::FillRule;
pub use i_shape_core::heights::windings_by_height;
use i_shape_core::number::IntNumber;
pub use i_shape_core::winding::{winding_about, windings_about};

/// Queries on a shape as a whole. Each takes linear time and allocates nothing.
pub trait ShapeExtension<I: IntNumber> {
    /// The contours of the shape in unbounded integers.
    ghost shape: { Self → List (List Point) };

    /// Returns the sum of the contours' winding numbers about `point`. Counterclockwise is positive. The sum can't
    /// overflow.
    fn winding_number(&self, point: IntPoint<I>) -> i128
        requires points_safe { IsSafeShape I.width (shape self.now) }
        requires point_safe { IsSafe I.width (point_of I.value point) }
        ensures { result ≡ shape_winding (shape self.now) (point_of I.value point) };

    /// Returns whether `rule` fills `point`, given the shape's winding number about it.
    fn contains_by(&self, point: IntPoint<I>, rule: FillRule) -> bool
        requires points_safe { IsSafeShape I.width (shape self.now) }
        requires point_safe { IsSafe I.width (point_of I.value point) }
        ensures { IsTrue result
            ↔ IsFilled rule (shape_winding (shape self.now) (point_of I.value point)) };

    /// Returns whether `point` lies on an edge of one of the contours. An edge includes its ends.
    fn is_on_boundary(&self, point: IntPoint<I>) -> bool
        requires points_safe { IsSafeShape I.width (shape self.now) }
        requires point_safe { IsSafe I.width (point_of I.value point) }
        ensures { IsTrue result ↔ IsOnBoundary (shape self.now) (point_of I.value point) };
}

impl<I: IntNumber> ShapeExtension<I> for &[IntContour<I>] {
    ghost shape = { λ contours. shape_of I.value contours.now };

    fn winding_number(&self, point: IntPoint<I>) -> i128
        requires points_safe { IsSafeShape I.width (shape_of I.value self.now.now) }
        requires point_safe { IsSafe I.width (point_of I.value point) }
        ensures { result ≡ shape_winding (shape_of I.value self.now.now) (point_of I.value point) }
    {
        let contours: &[IntContour<I>] = *self;
        let mut sum: i128 = 0;
        for contour in contours {
            sum += winding_about(contour.as_slice(), point) as i128;
        }
        sum
    }

    fn contains_by(&self, point: IntPoint<I>, rule: FillRule) -> bool
        requires points_safe { IsSafeShape I.width (shape_of I.value self.now.now) }
        requires point_safe { IsSafe I.width (point_of I.value point) }
        ensures { IsTrue result
            ↔ IsFilled rule
            (shape_winding (shape_of I.value self.now.now) (point_of I.value point)) }
    {
        rule.fills(self.winding_number(point))
    }

    fn is_on_boundary(&self, point: IntPoint<I>) -> bool
        requires points_safe { IsSafeShape I.width (shape_of I.value self.now.now) }
        requires point_safe { IsSafe I.width (point_of I.value point) }
        ensures { IsTrue result ↔ IsOnBoundary (shape_of I.value self.now.now)
            (point_of I.value point) }
    {
        let contours: &[IntContour<I>] = *self;
        for contour in contours {
            if is_on_boundary(contour.as_slice(), point) {
                return true;
            }
        }
        false
    }
}
