//! Paths of integer points.

use crate::base::data::{Path, Paths};
pub use i_shape_core::contour::ContourExtension;
use i_shape_core::point::IntPoint;

/// Points in order.
pub type IntPath<I> = Path<IntPoint<I>>;

/// A list of paths with integer coordinates.
pub type IntPaths<I> = Paths<IntPoint<I>>;
