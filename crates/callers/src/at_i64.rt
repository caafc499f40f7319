//! A straight-line program at one width. A coordinate is its own value, and an area has the width `w128`.

ghost use Rattle.std.specs.Prelude.{◌≡◌, ◌↔◌, ◌⊎◌, IfOk, IfErr, IfSome, IsErrOf, None};
ghost use Rattle.std.specs.Int.{int_wrap, w64, w128};
ghost use Rattle.std.specs.List.{All};
ghost use Rattle.i_shape.specs.IntPoint.{contour_of, IsSafe};
ghost use Rattle.i_shape.specs.Edges.{shoelace};
ghost use Rattle.i_shape.specs.Cleaners.{EachEndCollapses};
ghost use Rattle.callers.specs.Refusals.{no_memory};

use crate::refusal::Refusal;
use i_shape::int::IntPoint;
use i_shape::int::area::Area;
use i_shape::int::safe_range::IntSafeRange;
use i_shape::int::simple::SimpleContour;
use std::alloc::Global;

/// Returns twice the signed area of a contour, computed from its copy without zero turns, or `None` if the contour
/// collapses. `OutOfRange` exactly if a point isn't safe; otherwise the only error is `OutOfMemory`.
pub fn cleaned_area(alloc: Global, contour: &[IntPoint<i64>]) -> Result<Option<i128>, Refusal>
    ensures range { IsErrOf result Refusal.OutOfRange
        ↔ (All (IsSafe w64) (contour_of (λ z. z) contour.now) → ⊥) }
    ensures errors { IfErr result (λ e. (e ≡ Refusal.OutOfRange) ⊎ (e ≡ no_memory)) }
    ensures none { IfOk result (λ r. (r ≡ None)
        ↔ EachEndCollapses (contour_of (λ z. z) contour.now)) }
    ensures area { IfOk result
        (λ r. IfSome r
        (λ area. area ≡ int_wrap w128 (shoelace (contour_of (λ z. z) contour.now)))) }
{
    if !contour.is_in_safe_range() {
        return Err(Refusal::OutOfRange);
    }
    match contour.simplified(alloc)? {
        Some(kept) => Ok(Some(kept.as_slice().area_two())),
        None => Ok(None),
    }
}
