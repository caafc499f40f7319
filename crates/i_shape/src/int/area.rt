//! The area of contours, shapes and shape lists.

ghost use Rattle.std.specs.Prelude.{◌≡◌, pos, ℤ, int_div};
ghost use Rattle.std.specs.Int.{int_wrap};
ghost use Rattle.std.specs.List.{All};
ghost use Rattle.i_shape.specs.IntPoint.{contour_of};
ghost use Rattle.i_shape.specs.Edges.{shoelace};
ghost use Rattle.i_shape.specs.ShapeLists.{shape_of, shapes_of};
ghost use Rattle.i_shape.specs.ShapeAnswers.{HasPoints, shape_shoelace, shapes_shoelace};

use crate::int::IntPoint;
use crate::int::shape::{IntContour, IntShape};
use i_shape_core::area::area_of;
pub use i_shape_core::area::{IteratorArea, UnsafeArea};
use i_shape_core::number::{IntNumber, WideIntNumber};

/// The signed area of a contour, or its sum over the contours of a shape or a list of shapes. Each contour must have at
/// least one point; a shape or a list may be empty. Each call makes one pass and allocates nothing.
pub trait Area<I: IntNumber> {
    /// Twice the signed area in unbounded integers, positive if the contours run counterclockwise.
    ghost double_area: { Self → ℤ };

    /// Each contour has at least one point.
    ghost has_points: { Self → Type 0 };

    /// Returns twice the signed area, wrapped to the wide type. The points needn't be safe.
    fn area_two(&self) -> I::Wide
        requires { has_points self.now }
        ensures { I.Wide.value result ≡ int_wrap I.Wide.width (double_area self.now) };

    /// Returns half of `area_two`, rounded toward zero. The total is halved, not each contour's area.
    fn area(&self) -> I::Wide
        requires { has_points self.now }
        ensures { I.Wide.value result
            ≡ int_div (int_wrap I.Wide.width (double_area self.now)) (pos 2) }
    {
        self.area_two().divide(I::Wide::TWO)
    }
}

impl<I: IntNumber> Area<I> for &[IntPoint<I>] {
    ghost double_area = { λ points. shoelace (contour_of I.value points.now) };

    ghost has_points = { λ points. HasPoints (contour_of I.value points.now) };

    fn area_two(&self) -> I::Wide {
        area_of(*self)
    }
}

impl<I: IntNumber> Area<I> for &[IntContour<I>] {
    ghost double_area = { λ contours. shape_shoelace (shape_of I.value contours.now) };

    ghost has_points = { λ contours. All HasPoints (shape_of I.value contours.now) };

    fn area_two(&self) -> I::Wide {
        let contours: &[IntContour<I>] = *self;
        let mut sum = I::Wide::ZERO;
        for contour in contours {
            sum = sum.wrapping_add(contour.as_slice().area_two());
        }
        sum
    }
}

impl<I: IntNumber> Area<I> for &[IntShape<I>] {
    ghost double_area = { λ shapes. shapes_shoelace (shapes_of I.value shapes.now) };

    ghost has_points = { λ shapes. All (All HasPoints) (shapes_of I.value shapes.now) };

    fn area_two(&self) -> I::Wide {
        let shapes: &[IntShape<I>] = *self;
        let mut sum = I::Wide::ZERO;
        for shape in shapes {
            sum = sum.wrapping_add(shape.as_slice().area_two());
        }
        sum
    }
}
