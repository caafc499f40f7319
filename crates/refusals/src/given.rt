//! What the calls under test are given.

ghost use Rattle.std.specs.Prelude.{IfOk};
ghost use Rattle.std.specs.List.{All};
ghost use Rattle.i_shape.specs.IntPoint.{contour_of, IsSafe};
ghost use Rattle.i_shape.specs.ShapeLists.{shape_of, shapes_of, IsSafeShape, IsSafeList};

use i_shape::IntNumber;
use i_shape::int::IntPoint;
use i_shape::int::safe_range::IntSafeRange;
use i_shape::int::shape::{IntContour, IntShape, IntShapes};
use std::alloc::{AllocError, Global};
use std::process::Abort;

macro_rules! points {
    ($([$x:expr, $y:expr]),*) => {
        [$(IntPoint { x: $x, y: $y }),*]
    };
}

pub(crate) use points;

/// A square with a spike on its first edge.
pub const SPIKED: [IntPoint<i32>; 6] = points![[0, 0], [2, 0], [4, 0], [2, 0], [2, 2], [0, 2]];

/// That square without the spike.
pub const SQUARE: [IntPoint<i32>; 4] = points![[0, 0], [2, 0], [2, 2], [0, 2]];

/// Three points on a line.
pub const FLAT: [IntPoint<i32>; 3] = points![[0, 0], [2, 0], [1, 0]];

/// A triangle.
pub const TRIANGLE: [IntPoint<i32>; 3] = points![[0, 0], [1, 0], [0, 1]];

/// A contour with a spike, and a canonical form that starts elsewhere.
pub const TURNED: [IntPoint<i32>; 5] = points![[6, 0], [0, 0], [2, 0], [1, 0], [1, 5]];

/// What a buffer holds before a call.
pub const MARK: [IntPoint<i32>; 1] = points![[9, 9]];

/// These points. The test stops if one isn't safe.
pub fn safe<'a, I: IntNumber>(rt: &impl Abort, points: &'a [IntPoint<I>]) -> &'a [IntPoint<I>]
    ensures { All (IsSafe I.width) (contour_of I.value result.now) }
{
    assert!(rt; points.is_in_safe_range(), "a point isn't safe");
    points
}

/// The contour of these points. The test stops if one isn't safe.
pub fn contour<I: IntNumber>(
    rt: &impl Abort,
    alloc: Global,
    points: &[IntPoint<I>],
) -> Result<IntContour<I>, AllocError>
    ensures { IfOk result (λ c. All (IsSafe I.width) (contour_of I.value c.items)) }
{
    Vec::from_slice(alloc, safe(rt, points))
}

/// The shape of these contours. The test stops if a point isn't safe.
pub fn shape<I: IntNumber>(
    rt: &impl Abort,
    alloc: Global,
    contours: &[&[IntPoint<I>]],
) -> Result<IntShape<I>, AllocError>
    ensures { IfOk result (λ s. IsSafeShape I.width (shape_of I.value s.items)) }
{
    let mut shape = Vec::new(alloc);
    for points in contours {
        shape.push(Vec::from_slice(alloc, *points)?)?;
    }
    assert!(rt; shape.is_in_safe_range(), "a point isn't safe");
    Ok(shape)
}

/// The list of one shape of these contours. The test stops if a point isn't safe.
pub fn one_shape<I: IntNumber>(
    rt: &impl Abort,
    alloc: Global,
    contours: &[&[IntPoint<I>]],
) -> Result<IntShapes<I>, AllocError>
    ensures { IfOk result (λ s. IsSafeList I.width (shapes_of I.value s.items)) }
{
    Ok(Vec::from_array(alloc, [shape(rt, alloc, contours)?])?)
}
