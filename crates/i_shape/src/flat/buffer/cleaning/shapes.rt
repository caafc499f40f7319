//! Cleaning within a flat buffer of shapes.

ghost use Rattle.std.specs.Prelude.{◌≡◌, ◌⊎◌, ◌<◌, ◌≤◌, ◌↔◌, length, IfOk, OnOk, IsOkUnless, IsErrOf, IsTrue, MatchOption};
ghost use Rattle.std.specs.List.{All};
ghost use Rattle.i_shape_core.specs.Contour.{IsSimple};
ghost use Rattle.i_shape_core.specs.Convex.{NoSpikes};
ghost use Rattle.i_shape_core.specs.Cleaners.{SimpleAnswer, DespikeAnswer};
ghost use Rattle.i_shape.specs.ShapeLists.{IsSafeShape, IsSafeList};
ghost use Rattle.i_shape.specs.ShapeAnswers.{ListClean, EachShape};
ghost use Rattle.i_shape.specs.Flat.{InOrder, IsReadableShape, part_of, slices};
ghost use Rattle.i_shape.specs.Buffers.{CanReadShapes, HoldsShapes, shapes_in, contours_of, named_shapes, named_points, named_contours, read_shapes};
ghost use Rattle.i_shape.specs.Steps.AppendedAnswers.{AppendsShapeAnswer};
ghost use Rattle.i_shape.specs.CleanedBuffers.{CleansShapesBuffer};

use crate::ShapeError;
use crate::flat::buffer::FlatShapesBuffer;
use crate::flat::buffer::cleaning::parts::{
    append_cleaned, append_parts, are_clean, checked_total, part,
};
use crate::flat::lists::Counts;
use crate::int::IntPoint;
use crate::int::cleaning::{ContourCleaner, InPlaceCleaner, SpikeRemover};
use crate::int::simple::ContourSimplifier;
use i_shape_core::number::IntNumber;
use std::alloc::Global;
use std::ops::Range;

impl<T: IntNumber> FlatShapesBuffer<T> {
    /// Removes zero turns from each contour, the contours that collapse, and the shapes whose first contour collapses.
    /// An empty shape stays. Returns whether a contour had to be cleaned. If none had to, the call changes nothing and
    /// allocates nothing. Otherwise the buffer holds the cleaned shapes end to end, in order, and nothing else.
    /// Requires what `can_read_shapes` tests, and safe points. After every call the shapes can be read and have safe
    /// points.
    ///
    /// # Errors
    ///
    /// `TooManyPoints` if a contour has to be cleaned and the shapes have more than `usize::MAX` points or contours
    /// together, each counted as often as it is named, checked before any allocation; otherwise `OutOfMemory`. An error
    /// leaves the buffer unchanged.
    pub fn simplify_shapes(&mut self) -> Result<bool, ShapeError>
        requires readable { CanReadShapes self.old }
        requires safe { IsSafeList T.width (named_shapes T.value self.old) }
        ensures gives { CleansShapesBuffer IsSimple SimpleAnswer
            T.width T.value self.old self.new result }
        ensures too_many { IsErrOf result ShapeError.TooManyPoints
            ↔ (((usize.MAX
            < named_points self.old.contour_ranges.items self.old.shape_ranges.items)
            ⊎ (usize.MAX
            < named_contours self.old.contour_ranges.items self.old.shape_ranges.items))
            × (EachShape IsSimple (named_shapes T.value self.old) → ⊥)) }
    {
        clean_shapes::<T, ContourSimplifier>(self)
    }

    /// Removes spikes from each contour that has any, the contours that collapse, and the shapes whose first contour
    /// collapses. Otherwise like `simplify_shapes`. Returns whether a contour had to be cleaned.
    ///
    /// # Errors
    ///
    /// Those of `simplify_shapes`. An error leaves the buffer unchanged.
    pub fn remove_spikes(&mut self) -> Result<bool, ShapeError>
        requires readable { CanReadShapes self.old }
        requires safe { IsSafeList T.width (named_shapes T.value self.old) }
        ensures gives { CleansShapesBuffer NoSpikes DespikeAnswer
            T.width T.value self.old self.new result }
        ensures too_many { IsErrOf result ShapeError.TooManyPoints
            ↔ (((usize.MAX
            < named_points self.old.contour_ranges.items self.old.shape_ranges.items)
            ⊎ (usize.MAX
            < named_contours self.old.contour_ranges.items self.old.shape_ranges.items))
            × (EachShape NoSpikes (named_shapes T.value self.old) → ⊥)) }
    {
        clean_shapes::<T, SpikeRemover>(self)
    }
}

/// Cleans each shape of a buffer.
fn clean_shapes<T: IntNumber, C: InPlaceCleaner>(
    buffer: &mut FlatShapesBuffer<T>,
) -> Result<bool, ShapeError>
    requires readable { CanReadShapes buffer.old }
    requires safe { IsSafeList T.width (named_shapes T.value buffer.old) }
    ensures gives { CleansShapesBuffer C.meaning.clean C.meaning.answers
        T.width T.value buffer.old buffer.new result }
    ensures too_many { IsErrOf result ShapeError.TooManyPoints
        ↔ (((usize.MAX
        < named_points buffer.old.contour_ranges.items buffer.old.shape_ranges.items)
        ⊎ (usize.MAX
        < named_contours buffer.old.contour_ranges.items buffer.old.shape_ranges.items))
        × (EachShape C.meaning.clean (named_shapes T.value buffer.old) → ⊥)) }
{
    if are_clean_shapes::<T, C>(
        buffer.points.as_slice(),
        buffer.contour_ranges.as_slice(),
        buffer.shape_ranges.as_slice(),
    ) {
        return Ok(false);
    }
    let alloc = *buffer.points.allocator();
    *buffer = cleaned_shapes::<T, C>(
        alloc,
        buffer.points.as_slice(),
        buffer.contour_ranges.as_slice(),
        buffer.shape_ranges.as_slice(),
    )?;
    Ok(true)
}

/// Returns the contour ranges that a shape range names, none if it is empty or reversed.
fn named_ranges<'a>(contour_ranges: &'a [Range<usize>], range: &Range<usize>) -> &'a [Range<usize>]
    requires { range.now.start < range.now.end → range.now.end ≤ length contour_ranges.now }
    ensures { result.now ≡ part_of contour_ranges.now range.now }
{
    if range.start < range.end {
        &contour_ranges[range.start..range.end]
    } else {
        &contour_ranges[..0]
    }
}

/// Returns whether no contour of any shape needs cleaning.
fn are_clean_shapes<T: IntNumber, C: ContourCleaner>(
    points: &[IntPoint<T>],
    contour_ranges: &[Range<usize>],
    shape_ranges: &[Range<usize>],
) -> bool
    requires readable { All (IsReadableShape (length points.now) contour_ranges.now)
        shape_ranges.now }
    requires safe { IsSafeList T.width
        (read_shapes T.value points.now contour_ranges.now shape_ranges.now) }
    ensures { IsTrue result
        ↔ EachShape C.meaning.clean (read_shapes T.value points.now contour_ranges.now shape_ranges.now) }
{
    for range in shape_ranges {
        if !are_clean::<T, C>(points, named_ranges(contour_ranges, range)) {
            return false;
        }
    }
    true
}

/// Returns how many points and contours the shapes have together, or `None` if one of the numbers exceeds `usize::MAX`.
fn checked_named(contour_ranges: &[Range<usize>], shape_ranges: &[Range<usize>]) -> Option<Counts>
    requires { All (λ range. range.start < range.end → range.end ≤ length contour_ranges.now)
        shape_ranges.now }
    ensures { MatchOption result ((usize.MAX < named_points contour_ranges.now shape_ranges.now)
        ⊎ (usize.MAX < named_contours contour_ranges.now shape_ranges.now))
        (λ counts. (counts.points ≡ named_points contour_ranges.now shape_ranges.now)
        × (counts.contours ≡ named_contours contour_ranges.now shape_ranges.now)) }
{
    let mut points: usize = 0;
    let mut contours: usize = 0;
    for range in shape_ranges {
        let named = named_ranges(contour_ranges, range);
        points = points.checked_add(checked_total(named)?)?;
        contours = contours.checked_add(named.len())?;
    }
    Some(Counts { points, contours })
}

/// Appends the cleaned shape that contour ranges name, or nothing if its first contour collapses.
fn append_cleaned_shape<T: IntNumber, C: ContourCleaner>(
    cleaner: &mut C,
    kept: &mut FlatShapesBuffer<T>,
    source: &[IntPoint<T>],
    named: &[Range<usize>],
) -> Result<(), ShapeError>
    requires readable { All (InOrder (length source.now)) named.now }
    requires safe { IsSafeShape T.width (contours_of T.value (slices source.now named.now)) }
    ensures ok { OnOk result
        (AppendsShapeAnswer C.meaning.answers T.value (slices source.now named.now) kept.old kept.new) }
    ensures memory { IsOkUnless result ShapeError.OutOfMemory }
{
    let start = kept.contour_ranges.len();
    let Some((outer, holes)) = named.split_first() else {
        kept.shape_ranges.push(start..start)?;
        return Ok(());
    };
    let left = append_cleaned(
        cleaner,
        &mut kept.points,
        &mut kept.contour_ranges,
        part(source, outer),
    )?;
    if !left {
        return Ok(());
    }
    append_parts(
        cleaner,
        &mut kept.points,
        &mut kept.contour_ranges,
        source,
        holes,
    )?;
    let end = kept.contour_ranges.len();
    kept.shape_ranges.push(start..end)?;
    Ok(())
}

/// Returns a buffer of the cleaned shapes. `TooManyPoints` if they have more than `usize::MAX` points or contours
/// together.
fn cleaned_shapes<T: IntNumber, C: ContourCleaner>(
    alloc: Global,
    points: &[IntPoint<T>],
    contour_ranges: &[Range<usize>],
    shape_ranges: &[Range<usize>],
) -> Result<FlatShapesBuffer<T>, ShapeError>
    requires readable { All (IsReadableShape (length points.now) contour_ranges.now)
        shape_ranges.now }
    requires safe { IsSafeList T.width
        (read_shapes T.value points.now contour_ranges.now shape_ranges.now) }
    ensures cleaned { IfOk result
        (λ kept. ListClean C.meaning.answers
        (read_shapes T.value points.now contour_ranges.now shape_ranges.now)
        (named_shapes T.value kept)) }
    ensures end_to_end { IfOk result (λ kept. HoldsShapes kept (shapes_in kept)) }
    ensures too_many { IsErrOf result ShapeError.TooManyPoints
        ↔ ((usize.MAX < named_points contour_ranges.now shape_ranges.now)
        ⊎ (usize.MAX < named_contours contour_ranges.now shape_ranges.now)) }
{
    let counts = checked_named(contour_ranges, shape_ranges).ok_or(ShapeError::TooManyPoints)?;
    let mut kept = FlatShapesBuffer::with_capacity(
        alloc,
        counts.points,
        counts.contours,
        shape_ranges.len(),
    )?;
    let mut cleaner = C::new(alloc);
    for range in shape_ranges {
        append_cleaned_shape(
            &mut cleaner,
            &mut kept,
            points,
            named_ranges(contour_ranges, range),
        )?;
    }
    Ok(kept)
}
