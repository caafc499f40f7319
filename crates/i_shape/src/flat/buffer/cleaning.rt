//! Cleaning within a flat buffer of contours.

ghost use Rattle.std.specs.Prelude.{◌<◌, ◌↔◌, length, IfOk, IsErrOf};
ghost use Rattle.std.specs.List.{All, sum_by};
ghost use Rattle.i_shape_core.specs.IntPoint.{IsSafe};
ghost use Rattle.i_shape_core.specs.Contour.{IsSimple};
ghost use Rattle.i_shape_core.specs.Convex.{NoSpikes};
ghost use Rattle.i_shape_core.specs.Cleaners.{DespikeAnswer, SimpleAnswer};
ghost use Rattle.i_shape.specs.ShapeAnswers.{Survivors};
ghost use Rattle.i_shape.specs.Flat.{InOrder, slices};
ghost use Rattle.i_shape.specs.Buffers.{HoldsContours, contours_in, range_len, CanReadContours, read_contours};
ghost use Rattle.i_shape.specs.CleanedBuffers.{CleansBuffer};

mod parts;
mod shapes;

use crate::ShapeError;
use crate::flat::buffer::FlatContoursBuffer;
use crate::flat::buffer::cleaning::parts::{append_parts, are_clean, checked_total};
use crate::int::IntPoint;
use crate::int::cleaning::{ContourCleaner, InPlaceCleaner, SpikeRemover};
use crate::int::simple::ContourSimplifier;
use i_shape_core::number::IntNumber;
use std::alloc::Global;
use std::ops::Range;

impl<T: IntNumber> FlatContoursBuffer<T> {
    /// Removes zero turns from each contour, and the contours that collapse. Returns whether a contour had to be
    /// cleaned. If none had to, the call changes nothing and allocates nothing. Otherwise the buffer holds the cleaned
    /// contours end to end, in order, and nothing else. Requires what `can_read_contours` tests, and safe points. After
    /// every call the contours can be read and have safe points. Together they keep their double area, containment and
    /// winding numbers.
    ///
    /// # Errors
    ///
    /// `TooManyPoints` if a contour has to be cleaned and the ranges name more than `usize::MAX` points together,
    /// checked before any allocation; otherwise `OutOfMemory`. An error leaves the buffer unchanged.
    pub fn simplify_contours(&mut self) -> Result<bool, ShapeError>
        requires readable { CanReadContours self.old }
        requires safe { All (All (IsSafe T.width)) (contours_in T.value self.old) }
        ensures gives { CleansBuffer IsSimple SimpleAnswer
            T.width T.value self.old self.new result }
        ensures too_many { IsErrOf result ShapeError.TooManyPoints
            ↔ ((usize.MAX < sum_by range_len self.old.ranges.items)
            × (All IsSimple (contours_in T.value self.old) → ⊥)) }
    {
        clean_contours::<T, ContourSimplifier>(self)
    }

    /// Removes spikes from each contour that has any, and the contours that collapse. Otherwise like
    /// `simplify_contours`. Returns whether a contour had to be cleaned.
    ///
    /// # Errors
    ///
    /// Those of `simplify_contours`. An error leaves the buffer unchanged.
    pub fn remove_spikes(&mut self) -> Result<bool, ShapeError>
        requires readable { CanReadContours self.old }
        requires safe { All (All (IsSafe T.width)) (contours_in T.value self.old) }
        ensures gives { CleansBuffer NoSpikes DespikeAnswer
            T.width T.value self.old self.new result }
        ensures too_many { IsErrOf result ShapeError.TooManyPoints
            ↔ ((usize.MAX < sum_by range_len self.old.ranges.items)
            × (All NoSpikes (contours_in T.value self.old) → ⊥)) }
    {
        clean_contours::<T, SpikeRemover>(self)
    }
}

/// Cleans each contour of a buffer.
fn clean_contours<T: IntNumber, C: InPlaceCleaner>(
    buffer: &mut FlatContoursBuffer<T>,
) -> Result<bool, ShapeError>
    requires readable { CanReadContours buffer.old }
    requires safe { All (All (IsSafe T.width)) (contours_in T.value buffer.old) }
    ensures gives { CleansBuffer C.meaning.clean C.meaning.answers T.width T.value buffer.old buffer.new result }
    ensures too_many { IsErrOf result ShapeError.TooManyPoints
        ↔ ((usize.MAX < sum_by range_len buffer.old.ranges.items)
        × (All C.meaning.clean (contours_in T.value buffer.old) → ⊥)) }
{
    if are_clean::<T, C>(buffer.points.as_slice(), buffer.ranges.as_slice()) {
        return Ok(false);
    }
    let alloc = *buffer.points.allocator();
    *buffer = cleaned_parts::<T, C>(alloc, buffer.points.as_slice(), buffer.ranges.as_slice())?;
    Ok(true)
}

/// A buffer of the cleaned contours. `TooManyPoints` if the ranges name more than `usize::MAX` points together.
fn cleaned_parts<T: IntNumber, C: ContourCleaner>(
    alloc: Global,
    points: &[IntPoint<T>],
    ranges: &[Range<usize>],
) -> Result<FlatContoursBuffer<T>, ShapeError>
    requires readable { All (InOrder (length points.now)) ranges.now }
    requires safe { All (All (IsSafe T.width)) (read_contours T.value points.now ranges.now) }
    ensures cleaned { IfOk result
        (λ kept. Survivors C.meaning.answers (read_contours T.value points.now ranges.now)
        (contours_in T.value kept)) }
    ensures end_to_end { IfOk result
        (λ kept. HoldsContours kept (slices kept.points.items kept.ranges.items)) }
    ensures too_many { IsErrOf result ShapeError.TooManyPoints
        ↔ (usize.MAX < sum_by range_len ranges.now) }
{
    let count = checked_total(ranges).ok_or(ShapeError::TooManyPoints)?;
    let mut kept = FlatContoursBuffer::new(alloc);
    kept.clear_and_reserve(count, ranges.len())?;
    append_parts(
        &mut C::new(alloc),
        &mut kept.points,
        &mut kept.ranges,
        points,
        ranges,
    )?;
    Ok(kept)
}
