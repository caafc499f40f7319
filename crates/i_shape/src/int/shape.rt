//! Contours, shapes and shape lists of integer points.

use crate::base::data::{Shape, Shapes};
pub use i_shape_core::point::IntContour;
use i_shape_core::point::IntPoint;

/// An outer contour and its holes.
pub type IntShape<I> = Shape<IntPoint<I>>;

pub type IntShapes<I> = Shapes<IntPoint<I>>;
