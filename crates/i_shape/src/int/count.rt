//! The number of points of paths and shapes.

ghost use Rattle.std.specs.Prelude.{◌≡◌, ◌≤◌, ℕ, vec_len};
ghost use Rattle.std.specs.List.{sum_by};

use crate::base::data::Shapes;
use crate::int::IntPoint;
use crate::int::path::IntPath;
use crate::int::shape::IntShape;
use i_shape_core::number::IntNumber;

/// A list of shapes with integer coordinates.
pub type IntShapes<I> = Shapes<IntPoint<I>>;

/// The total number of points of a list of paths or shapes. The call makes one pass over the paths and allocates
/// nothing.
pub trait PointsCount {
    /// The sum of the paths' lengths.
    ghost count: { Self → ℕ };

    /// Returns the total number of points, which must fit `usize`.
    fn points_count(&self) -> usize
        requires { count self.now ≤ usize.MAX }
        ensures { result ≡ count self.now };
}

impl<I: IntNumber> PointsCount for &[IntPath<I>] {
    ghost count = { λ paths. sum_by (λ path. vec_len path) paths.now };

    fn points_count(&self) -> usize {
        let paths: &[IntPath<I>] = *self;
        paths.iter().map(|path| path.len()).sum()
    }
}

impl<I: IntNumber> PointsCount for &[IntShape<I>] {
    ghost count = { λ shapes. sum_by (λ shape. sum_by (λ contour. vec_len contour) shape.items) shapes.now };

    fn points_count(&self) -> usize {
        let shapes: &[IntShape<I>] = *self;
        let mut count = 0;
        for shape in shapes {
            count += shape.as_slice().points_count();
        }
        count
    }
}
