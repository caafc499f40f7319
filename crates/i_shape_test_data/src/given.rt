//! Contours of listed points.

ghost use Rattle.std.specs.Prelude.{◌≤◌, length, IfOk};
ghost use Rattle.i_shape_core.specs.IntPoint.{contour_of, IsSafeContour};

use i_shape_core::number::IntNumber;
use i_shape_core::point::{IntContour, IntPoint};
use i_shape_source::float::resource::ShapePoint;
use i_shape_source::int::safe_range::IntSafeRange;
use std::alloc::{AllocError, Global};
use std::test::Fail;

/// A point of the tests' own.
#[derive(Clone, Copy, PartialEq, Eq, Debug)]
pub struct WholePoint {
    pub x: i32,
    pub y: i32,
}

impl ShapePoint for WholePoint {}

/// The contour of these points. Fails if one isn't safe.
pub fn contour<I: IntNumber>(alloc: Global, points: &[[I; 2]]) -> Result<IntContour<I>, Fail>
    ensures { IfOk result (λ c. IsSafeContour I.width (contour_of I.value c.items)) }
{
    let mut contour = Vec::new(alloc);
    for [x, y] in points {
        contour.push(IntPoint::new(*x, *y))?;
    }
    if !contour.is_in_safe_range() {
        return Err(Fail::new("a point isn't safe"));
    }
    Ok(contour)
}

/// The points of a contour as pairs.
pub fn pairs<I: IntNumber>(
    alloc: Global,
    points: &[IntPoint<I>],
) -> Result<Vec<[I; 2]>, AllocError> {
    let mut pairs = Vec::new(alloc);
    for point in points {
        pairs.push([point.x, point.y])?;
    }
    Ok(pairs)
}

/// The list from another start.
pub fn rotated(alloc: Global, list: &[[i32; 2]], start: usize) -> Result<Vec<[i32; 2]>, AllocError>
    requires { start ≤ length list.now }
{
    let mut turned = Vec::from_slice(alloc, &list[start..])?;
    turned.extend_from_slice(&list[..start])?;
    Ok(turned)
}

/// The list read backwards.
pub fn reversed(alloc: Global, list: &[[i32; 2]]) -> Result<Vec<[i32; 2]>, AllocError> {
    let mut turned = Vec::from_slice(alloc, list)?;
    turned.reverse();
    Ok(turned)
}
