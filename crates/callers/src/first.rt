//! A first call, as a program of one's own would make it.

ghost use Rattle.std.specs.Prelude.{◌≡◌, ◌<◌, Ok, None, length, IfOk, IfSome};
ghost use Rattle.std.specs.List.{All};
ghost use Rattle.i_shape.specs.IntPoint.{contour_of, answered, IsSafe};
ghost use Rattle.i_shape.specs.Cleaners.{SimpleAnswer};
ghost use Rattle.i_shape.specs.Edges.{shoelace};
ghost use Rattle.i_shape.specs.Refusals.{OkUnlessMemory};

use i_shape::int::IntPoint;
use i_shape::int::safe_range::IntSafeRange;
use i_shape::int::shape::IntContour;
use i_shape::int::simple::SimpleContour;
use i_shape::{IntNumber, ShapeError};
use std::alloc::Global;

/// Returns the contour without its zero turns, or `None` if the contour collapses or a point isn't safe. The only error
/// is `OutOfMemory`, which can't occur if a point isn't safe or there are fewer than three.
pub fn cleaned<I: IntNumber>(
    alloc: Global,
    contour: &[IntPoint<I>],
) -> Result<Option<IntContour<I>>, ShapeError>
    ensures answer { All (IsSafe I.width) (contour_of I.value contour.now)
        → OkUnlessMemory result (λ r. SimpleAnswer (contour_of I.value contour.now)
        (answered (contour_of I.value) r)) }
    ensures unsafe_points { (All (IsSafe I.width) (contour_of I.value contour.now) → ⊥)
        → result ≡ Ok None }
    ensures short { length contour.now < 3 → result ≡ Ok None }
    ensures area { IfOk result
        (λ r. IfSome r (λ kept. shoelace (contour_of I.value kept.items)
        ≡ shoelace (contour_of I.value contour.now))) }
{
    if !contour.is_in_safe_range() {
        return Ok(None);
    }
    contour.simplified(alloc)
}
