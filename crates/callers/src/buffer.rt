//! Flat buffers that are tested and then cleaned.

ghost use Rattle.std.specs.Prelude.{◌≡◌, OnOk, OnErr, IfOk, IsErrOf, Ok, false, ◌↔◌};
ghost use Rattle.i_shape.specs.Contour.{IsSimple};
ghost use Rattle.i_shape.specs.IntPoint.{IsSafeContour};
ghost use Rattle.i_shape.specs.Paths.{concatenated};
ghost use Rattle.i_shape.specs.ShapeLists.{shapes_of, IsSafeList};
ghost use Rattle.i_shape.specs.Buffers.{Compact, contours_in, CanReadContours};
ghost use Rattle.std.specs.List.{All};

use crate::refusal::Refusal;
use i_shape::IntNumber;
use i_shape::flat::buffer::FlatContoursBuffer;
use i_shape::int::safe_range::IntSafeRange;
use i_shape::int::shape::IntShape;

/// Removes zero turns within the buffer, whatever its ranges.
pub fn simplify<I: IntNumber>(buffer: &mut FlatContoursBuffer<I>) -> Result<bool, Refusal>
    ensures compact { OnOk result
        (Compact (contours_in I.value buffer.old) (contours_in I.value buffer.new)) }
    ensures err { OnErr result (buffer.new ≡ buffer.old) }
    ensures unreadable { IsErrOf result Refusal.Unreadable ↔ (CanReadContours buffer.old → ⊥) }
    ensures range { IsErrOf result Refusal.OutOfRange
        ↔ (CanReadContours buffer.old
        × (All (IsSafeContour I.width) (contours_in I.value buffer.old) → ⊥)) }
    ensures flag { result ≡ Ok false
        ↔ (CanReadContours buffer.old × All (IsSafeContour I.width) (contours_in I.value buffer.old)
        × All IsSimple (contours_in I.value buffer.old)) }
{
    if !buffer.can_read_contours() {
        return Err(Refusal::Unreadable);
    }
    if !buffer.is_in_safe_range() {
        return Err(Refusal::OutOfRange);
    }
    Ok(buffer.simplify_contours()?)
}

/// Fills the buffer with the contours of the shapes and removes zero turns there. Returns whether any contour had to be
/// cleaned.
#[tactic(auto, using(i_shape::proofs::CallerLemmas::shapes_held))]
pub fn set_shapes<I: IntNumber>(
    buffer: &mut FlatContoursBuffer<I>,
    shapes: &[IntShape<I>],
) -> Result<bool, Refusal>
    ensures range { IsErrOf result Refusal.OutOfRange
        ↔ (IsSafeList I.width (shapes_of I.value shapes.now) → ⊥) }
    ensures untouched { IsErrOf result Refusal.OutOfRange → buffer.new ≡ buffer.old }
    ensures compact { OnOk result
        (Compact (concatenated (shapes_of I.value shapes.now)) (contours_in I.value buffer.new)) }
    ensures flag { IfOk result
        (λ changed. changed ≡ false ↔ All IsSimple (concatenated (shapes_of I.value shapes.now))) }
{
    if !shapes.is_in_safe_range() {
        return Err(Refusal::OutOfRange);
    }
    buffer.set_with_shapes(shapes)?;
    Ok(buffer.simplify_contours()?)
}
