//! Removal of spikes. At the tip of a spike the contour turns back on itself.

ghost use Rattle.std.specs.Prelude.{◌≡◌, Bool, true, Result, Ok};
ghost use Rattle.i_shape_core.specs.IntPoint.{contour_of, IsSafeContour};
ghost use Rattle.i_shape_core.specs.Convex.{NoSpikes};
ghost use Rattle.i_shape_core.specs.Cleaners.{DespikeAnswer};
ghost use Rattle.i_shape_core.specs.declared.error.ShapeError.{ShapeError};
ghost use Rattle.i_shape.specs.ShapeLists.{shape_of, shapes_of, IsSafeShape, IsSafeList};
ghost use Rattle.i_shape.specs.InPlace.{DespikesContour, CleansShape, CleansList};

mod shape;

use crate::int::in_place::{clean_list_in_place, clean_shape_in_place};
use crate::int::shape::{IntContour, IntShape, IntShapes};
use i_shape_core::cleaner::SpikeRemover;
pub use i_shape_core::despike::{ContourDeSpiker, DeSpikeContour};
use i_shape_core::error::ShapeError;
use i_shape_core::number::IntNumber;
pub use shape::{DeSpikeShape, DeSpikeShapes};

/// Removal of spikes in place.
pub trait DeSpike {
    /// The precondition: the value's points are safe.
    ghost can_despike: { Self → Type 0 };

    /// Relates the value before the call, the result, and the value after the call.
    ghost despike_gives: { Self → Result Bool ShapeError → Self → Type 0 };

    /// Removes spikes in place. Returns false exactly if `has_no_spikes` holds of the value; the call then changes
    /// nothing and allocates nothing. All memory is allocated before the value changes. The points are safe after every
    /// call.
    ///
    /// # Errors
    ///
    /// `OutOfMemory`, which leaves the value unchanged.
    fn remove_spikes(&mut self) -> Result<bool, ShapeError>
        requires { can_despike self.old }
        ensures gives { despike_gives self.old result self.new }
        ensures unchanged { (result ≡ Ok true → ⊥) → self.new ≡ self.old }
        ensures safe { can_despike self.new };
}

/// A contour that collapses becomes empty. A contour of fewer than four points needs no allocation. After a call
/// without an error, a second call returns false exactly if the contour isn't empty.
impl<I: IntNumber> DeSpike for IntContour<I> {
    ghost can_despike = { λ contour. IsSafeContour I.width (contour_of I.value contour.items) };

    ghost despike_gives = { λ old r new. DespikesContour (contour_of I.value old.items) (contour_of I.value new.items) r };

    fn remove_spikes(&mut self) -> Result<bool, ShapeError> {
        if self.has_no_spikes() {
            return Ok(false);
        }
        match self.despiked_contour(*self.allocator())? {
            Some(contour) => *self = contour,
            None => self.clear(),
        }
        Ok(true)
    }
}

/// A shape whose first contour collapses becomes empty. Later contours that collapse are removed. For an empty shape
/// the call returns false.
impl<I: IntNumber> DeSpike for IntShape<I> {
    ghost can_despike = { λ shape. IsSafeShape I.width (shape_of I.value shape.items) };

    ghost despike_gives = { λ old r new. CleansShape NoSpikes DespikeAnswer (shape_of I.value old.items) (shape_of I.value new.items) r };

    fn remove_spikes(&mut self) -> Result<bool, ShapeError> {
        clean_shape_in_place::<I, SpikeRemover>(self)
    }
}

/// A shape whose first contour collapses is removed. An empty shape stays empty.
impl<I: IntNumber> DeSpike for IntShapes<I> {
    ghost can_despike = { λ shapes. IsSafeList I.width (shapes_of I.value shapes.items) };

    ghost despike_gives = { λ old r new. CleansList NoSpikes DespikeAnswer (shapes_of I.value old.items) (shapes_of I.value new.items) r };

    fn remove_spikes(&mut self) -> Result<bool, ShapeError> {
        clean_list_in_place::<I, SpikeRemover>(self)
    }
}
