//! The canonical form of a contour without regard to direction: the lesser of its canonical form and that of the
//! contour reversed.

ghost use Rattle.std.specs.Prelude.{◌≡◌, ◌⊎◌, ◌<◌, false, length, reverse, IsTrue, OnOk};
ghost use Rattle.i_shape_core.specs.IntPoint.{contour_of, IsSafeContour};
ghost use Rattle.i_shape_core.specs.Reading.{read};
ghost use Rattle.i_shape_core.specs.Contour.{IsSimple, Rotation};
ghost use Rattle.i_shape_core.specs.Canonical.{IsAtMost, IsLesserWay, started_at};
ghost use Rattle.i_shape_core.specs.Refusals.{OkUnlessMemory};
ghost use Rattle.i_shape_core.specs.Cleaning.{canonicalizing_unoriented};
ghost use Rattle.i_shape_core.specs.Written.{CleansTo};
ghost use Rattle.i_shape_core.specs.Room.{HasRoomToSimplify, KeepsRoomToSimplify};

use crate::clean::simplifier::ContourSimplifier;
use crate::error::ShapeError;
use crate::form::canonical::{least_start, place_at_step};
use crate::form::comparer::Comparer;
use crate::number::IntNumber;
use crate::point::{ContourPoint, IntContour, IntPoint};
use std::cmp::Ordering;

impl ContourSimplifier {
    /// Returns the unoriented form of a contour, as `SimpleContour::canonical_unoriented` does. Earlier calls don't
    /// affect the result, even if they failed. Makes room for a contour with zero turns, and keeps it.
    ///
    /// # Errors
    ///
    /// `OutOfMemory`, which can't occur below three points.
    pub fn canonical_unoriented<I: IntNumber>(
        &mut self,
        contour: &[IntPoint<I>],
    ) -> Result<Option<IntContour<I>>, ShapeError>
        requires { IsSafeContour I.width (contour_of I.value contour.now) }
        ensures answer { let c = contour_of I.value contour.now in
            OkUnlessMemory result (CleansTo canonicalizing_unoriented I.width I.value c) }
        ensures short { length contour.now < 3 → result ≡ Ok None }
        ensures keeps_room { KeepsRoomToSimplify self.old self.new }
        ensures takes_room { OnOk result ((IsSimple (contour_of I.value contour.now) → ⊥)
            → HasRoomToSimplify self.new (length contour.now)) }
    {
        let Some(mut kept) = self.canonical(contour)? else {
            return Ok(None);
        };
        rotate_to_lesser(kept.as_mut_slice());
        Ok(Some(kept))
    }
}

/// Replaces a contour in place with the least rotation of the contour reversed, if that comes first; otherwise leaves
/// it as it is.
pub(crate) fn rotate_to_lesser<P: ContourPoint>(contour: &mut [P])
    requires { 0 < length contour.old }
    ensures lesser { IsLesserWay (read P.Coordinate.value P.points contour.old)
        (read P.Coordinate.value P.points contour.new) }
    ensures picked { (contour.new ≡ contour.old) ⊎ Rotation (reverse contour.old) contour.new }
    ensures len { length contour.new ≡ length contour.old }
{
    contour.reverse();
    let start = least_start(contour);
    if comes_before_reversed(contour, start) {
        contour.rotate_left(start);
    } else {
        contour.reverse();
    }
}

/// Returns whether the rotation of a contour that starts at `start` comes strictly before the contour reversed.
fn comes_before_reversed<P: ContourPoint>(contour: &[P], start: usize) -> bool
    requires { start < length contour.now }
    ensures before { let c = read P.Coordinate.value P.points contour.now in IsTrue result
        → IsAtMost (reverse c) (started_at c start) → ⊥ }
    ensures not_before { let c = read P.Coordinate.value P.points contour.now in result
        ≡ false → IsAtMost (reverse c) (started_at c start) }
{
    let mut comparer = Comparer::new(contour);
    let count = comparer.len();
    for step in 0..count {
        match comparer.compare(place_at_step(count, start, step), count - 1 - step) {
            Ordering::Less => return true,
            Ordering::Equal => {}
            Ordering::Greater => return false,
        }
    }
    false
}
