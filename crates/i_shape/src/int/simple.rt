//! Removal of zero turns. A zero turn is a degenerate vertex: its two edges lie on one line, or one of them has no
//! length.

ghost use Rattle.std.specs.Prelude.{◌≡◌, Bool, true, Result, Ok};
ghost use Rattle.i_shape_core.specs.IntPoint.{contour_of, IsSafeContour};
ghost use Rattle.i_shape_core.specs.Contour.{IsSimple};
ghost use Rattle.i_shape_core.specs.Cleaners.{SimpleAnswer};
ghost use Rattle.i_shape_core.specs.declared.error.ShapeError.{ShapeError};
ghost use Rattle.i_shape.specs.ShapeLists.{shape_of, shapes_of, IsSafeShape, IsSafeList};
ghost use Rattle.i_shape.specs.InPlace.{CleansContour, CleansShape, CleansList};

mod shape;

use crate::int::in_place::{clean_list_in_place, clean_shape_in_place};
use crate::int::shape::{IntContour, IntShape, IntShapes};
use i_shape_core::error::ShapeError;
use i_shape_core::number::IntNumber;
pub use i_shape_core::simple::SimpleContour;
pub use i_shape_core::simplifier::ContourSimplifier;
pub use shape::{SimpleShape, SimpleShapes};

/// Removal of zero turns in place.
pub trait Simplify {
    /// The precondition: the value's points are safe.
    ghost can_simplify: { Self → Type 0 };

    /// Relates the value before the call, the result, and the value after the call.
    ghost simplify_gives: { Self → Result Bool ShapeError → Self → Type 0 };

    /// Removes zero turns in place. Returns false exactly if `is_simple` holds of the value; the call then changes
    /// nothing and allocates nothing. All memory is allocated before the value changes. The points are safe after every
    /// call.
    ///
    /// # Errors
    ///
    /// `OutOfMemory`, which leaves the value unchanged.
    fn simplify_contour(&mut self) -> Result<bool, ShapeError>
        requires { can_simplify self.old }
        ensures gives { simplify_gives self.old result self.new }
        ensures unchanged { (result ≡ Ok true → ⊥) → self.new ≡ self.old }
        ensures safe { can_simplify self.new };
}

/// A contour that collapses, that is, keeps fewer than three points, becomes empty. A contour that has fewer than three
/// points before the call collapses without allocation.
impl<I: IntNumber> Simplify for IntContour<I> {
    ghost can_simplify = { λ contour. IsSafeContour I.width (contour_of I.value contour.items) };

    ghost simplify_gives = { λ old r new. CleansContour IsSimple SimpleAnswer (contour_of I.value old.items) (contour_of I.value new.items) r };

    fn simplify_contour(&mut self) -> Result<bool, ShapeError> {
        if self.as_slice().is_simple() {
            return Ok(false);
        }
        match self.as_slice().simplified(*self.allocator())? {
            Some(contour) => *self = contour,
            None => self.clear(),
        }
        Ok(true)
    }
}

/// A shape whose first contour collapses becomes empty. Later contours that collapse are removed. For an empty shape
/// the call returns false.
impl<I: IntNumber> Simplify for IntShape<I> {
    ghost can_simplify = { λ shape. IsSafeShape I.width (shape_of I.value shape.items) };

    ghost simplify_gives = { λ old r new. CleansShape IsSimple SimpleAnswer (shape_of I.value old.items) (shape_of I.value new.items) r };

    fn simplify_contour(&mut self) -> Result<bool, ShapeError> {
        clean_shape_in_place::<I, ContourSimplifier>(self)
    }
}

/// A shape whose first contour collapses is removed. An empty shape stays empty.
impl<I: IntNumber> Simplify for IntShapes<I> {
    ghost can_simplify = { λ shapes. IsSafeList I.width (shapes_of I.value shapes.items) };

    ghost simplify_gives = { λ old r new. CleansList IsSimple SimpleAnswer (shapes_of I.value old.items) (shapes_of I.value new.items) r };

    fn simplify_contour(&mut self) -> Result<bool, ShapeError> {
        clean_list_in_place::<I, ContourSimplifier>(self)
    }
}
