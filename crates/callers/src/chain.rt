//! Straight-line programs. Each tests the points, cleans, and continues with the result. The double area stays the
//! same.

ghost use Rattle.std.specs.Prelude.{◌≡◌, ◌<◌, ◌↔◌, ◌⊎◌, length, IfOk, IfErr, OnOk, OnErr, IsErrOf, Ok, false};
ghost use Rattle.std.specs.List.{All};
ghost use Rattle.std.specs.Int.{int_wrap};
ghost use Rattle.i_shape.specs.Point.{Point};
ghost use Rattle.i_shape.specs.IntPoint.{contour_of, IsSafe};
ghost use Rattle.i_shape.specs.Contour.{IsSimple};
ghost use Rattle.i_shape.specs.Edges.{shoelace, Inside};
ghost use Rattle.i_shape.specs.Cleaners.{SimpleAnswer};
ghost use Rattle.i_shape.specs.ShapeLists.{shape_of, shapes_of, IsSafeShape, IsSafeList};
ghost use Rattle.i_shape.specs.ShapeAnswers.{ListKept, EachShape, shape_shoelace, shapes_shoelace};
ghost use Rattle.i_shape.specs.InPlace.{Leaves};
ghost use Rattle.callers.specs.Refusals.{no_memory};

use crate::refusal::Refusal;
use i_shape::IntNumber;
use i_shape::flat::buffer::FlatContoursBuffer;
use i_shape::int::area::Area;
use i_shape::int::despike::DeSpike;
use i_shape::int::safe_range::IntSafeRange;
use i_shape::int::shape::{IntContour, IntShapes};
use i_shape::int::simple::Simplify;

/// Removes zero turns from a contour in place, and then spikes, of which none remains by then. Returns the result of
/// the first call. `OutOfRange` exactly if a point isn't safe; otherwise the only error is `OutOfMemory`.
#[tactic(auto, using(i_shape::proofs::CallerLemmas::contour_cleaned, i_shape::proofs::CallerLemmas::contour_never_refused))]
pub fn clean_contour<I: IntNumber>(contour: &mut IntContour<I>) -> Result<bool, Refusal>
    ensures range { IsErrOf result Refusal.OutOfRange
        ↔ (All (IsSafe I.width) (contour_of I.value contour.old.items) → ⊥) }
    ensures errors { IfErr result (λ e. (e ≡ Refusal.OutOfRange) ⊎ (e ≡ no_memory)) }
    ensures cleaned { OnOk result
        (Leaves SimpleAnswer (contour_of I.value contour.old.items)
        (contour_of I.value contour.new.items)) }
    ensures err { OnErr result (contour_of I.value contour.new.items
        ≡ contour_of I.value contour.old.items) }
    ensures area { shoelace (contour_of I.value contour.new.items)
        ≡ shoelace (contour_of I.value contour.old.items) }
    ensures inside { (p : Point) → Inside (contour_of I.value contour.new.items) p
        ↔ Inside (contour_of I.value contour.old.items) p }
    ensures flag { result ≡ Ok false
        ↔ (All (IsSafe I.width) (contour_of I.value contour.old.items)
        × IsSimple (contour_of I.value contour.old.items)) }
{
    if !contour.is_in_safe_range() {
        return Err(Refusal::OutOfRange);
    }
    let simplified = contour.simplify_contour()?;
    contour.remove_spikes()?;
    Ok(simplified)
}

/// Removes zero turns from each shape in place, and then spikes. The double area stays the same if no shape is removed.
/// The errors are those of `clean_contour`.
#[tactic(auto, using(i_shape::proofs::CallerLemmas::list_cleaned, i_shape::proofs::CallerLemmas::list_never_refused, i_shape::proofs::CallerLemmas::list_cleaned_area))]
pub fn clean_list<I: IntNumber>(shapes: &mut IntShapes<I>) -> Result<bool, Refusal>
    ensures range { IsErrOf result Refusal.OutOfRange
        ↔ (IsSafeList I.width (shapes_of I.value shapes.old.items) → ⊥) }
    ensures errors { IfErr result (λ e. (e ≡ Refusal.OutOfRange) ⊎ (e ≡ no_memory)) }
    ensures kept { OnOk result
        (ListKept SimpleAnswer (shapes_of I.value shapes.old.items)
        (shapes_of I.value shapes.new.items)) }
    ensures err { OnErr result (shapes_of I.value shapes.new.items
        ≡ shapes_of I.value shapes.old.items) }
    ensures area { length (shapes_of I.value shapes.new.items)
        ≡ length (shapes_of I.value shapes.old.items)
        → shapes_shoelace (shapes_of I.value shapes.new.items)
        ≡ shapes_shoelace (shapes_of I.value shapes.old.items) }
    ensures flag { result ≡ Ok false
        ↔ (IsSafeList I.width (shapes_of I.value shapes.old.items)
        × EachShape IsSimple (shapes_of I.value shapes.old.items)) }
{
    if !shapes.is_in_safe_range() {
        return Err(Refusal::OutOfRange);
    }
    let simplified = shapes.simplify_contour()?;
    shapes.remove_spikes()?;
    Ok(simplified)
}

/// Returns twice the signed area of a shape, computed from its contours without zero turns in a buffer.
#[tactic(auto, using(i_shape::proofs::CallerLemmas::contours_held))]
pub fn area_by_buffer<I: IntNumber>(
    buffer: &mut FlatContoursBuffer<I>,
    shape: &[IntContour<I>],
) -> Result<I::Wide, Refusal>
    ensures range { IsErrOf result Refusal.OutOfRange
        ↔ (IsSafeShape I.width (shape_of I.value shape.now) → ⊥) }
    ensures area { IfOk result (λ area. I.Wide.value area
        ≡ int_wrap I.Wide.width (shape_shoelace (shape_of I.value shape.now))) }
{
    if !shape.is_in_safe_range() {
        return Err(Refusal::OutOfRange);
    }
    buffer.set_with_shape(shape)?;
    buffer.simplify_contours()?;
    let kept = buffer.to_contours()?;
    Ok(kept.as_slice().area_two())
}
