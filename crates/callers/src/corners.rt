//! A first caller of the cleaner.

use i_shape::ShapeError;
use i_shape::int::IntPoint;
use i_shape::int::simple::ContourSimplifier;
use std::alloc::Global;

/// Returns the number of corners of a triangle with an extra point on its first edge.
pub fn corners(alloc: Global) -> Result<usize, ShapeError> {
    let contour = [
        IntPoint::<i32>::new(0, 0),
        IntPoint::new(2, 0),
        IntPoint::new(4, 0),
        IntPoint::new(4, 4),
    ];
    let kept = ContourSimplifier::new(alloc).simplify_contour(contour.as_slice())?;
    Ok(kept.map_or(0, |kept| kept.len()))
}
