//! The flat buffer of contours over integer points.

ghost use Rattle.std.specs.Prelude.{◌≡◌, ◌+◌, ◌<◌, ◌≤◌, ◌++◌, ◌∷◌, ◌↔◌, ◌⊎◌, [], length, vec_len, vec_capacity, IfOk, OnOk, OnErr, IsOkUnless, IsErrOf, IsTrue, IsOk};
ghost use Rattle.std.specs.Borrow.{sem};
ghost use Rattle.i_shape_source.specs.Paths.{paths_of_shape, concatenated, paths_of_shapes};
ghost use Rattle.i_shape.specs.Flat.{InOrder, part_of, slices};
ghost use Rattle.i_shape.specs.Buffers.{HoldsContours, SameLists, CanReadFirst, first_contour, CanReadContours, HasRoom, KeepsRoom};
ghost use Rattle.i_shape.specs.Lending.{LendsFirst, first_start};

use crate::ShapeError;
use crate::flat::lists::{
    all_in_order, append_all_contours, append_contour, append_contours, checked_counts,
    checked_points_count, copied_parts, copied_ranges, is_in_order, reserve_total,
};
use crate::int::IntPoint;
use crate::int::shape::{IntContour, IntShape};
use i_shape_core::copies::copied;
use i_shape_core::number::IntNumber;
use std::alloc::Global;
use std::ops::Range;

/// Contours in one list of points. Each range names the points of one contour. The ranges may be anything;
/// `can_read_first` and `can_read_contours` test those that a reader needs.
#[derive(PartialEq, Eq, Debug, Drop)]
pub struct FlatContoursBuffer<T> {
    /// The points of all contours.
    pub points: Vec<IntPoint<T>>,
    /// The index range of each contour's points.
    pub ranges: Vec<Range<usize>>,
}

/// Constructors and tests.
impl<T: IntNumber> FlatContoursBuffer<T> {
    /// Returns an empty buffer that allocates from `alloc`.
    pub fn new(alloc: Global) -> Self
        ensures { HoldsContours result [] }
    {
        FlatContoursBuffer {
            points: Vec::new(alloc),
            ranges: Vec::new(alloc),
        }
    }

    /// Returns an empty buffer with room for at least `capacity` points.
    ///
    /// # Errors
    ///
    /// `OutOfMemory`, which can't occur at capacity 0.
    pub fn with_capacity(alloc: Global, capacity: usize) -> Result<Self, ShapeError>
        ensures ok { IfOk result (λ buffer. HoldsContours buffer []) }
        ensures room { IfOk result (λ buffer. capacity ≤ vec_capacity buffer.points) }
        ensures none { capacity ≡ 0 → IsOk result }
        ensures memory { IsOkUnless result ShapeError.OutOfMemory }
    {
        Ok(FlatContoursBuffer {
            points: Vec::with_capacity(alloc, capacity)?,
            ranges: Vec::new(alloc),
        })
    }

    /// Returns a buffer with the same points and ranges.
    ///
    /// # Errors
    ///
    /// `OutOfMemory`, which can't occur if there are none.
    pub fn clone(&self) -> Result<Self, ShapeError>
        ensures ok { IfOk result (λ copy. SameLists self.now copy) }
        ensures none { HoldsContours self.now [] → IsOk result }
        ensures memory { IsOkUnless result ShapeError.OutOfMemory }
    {
        let alloc = *self.points.allocator();
        Ok(FlatContoursBuffer {
            points: copied(alloc, self.points.as_slice())?,
            ranges: copied_ranges(alloc, self.ranges.as_slice())?,
        })
    }

    /// Returns whether there are no points. Ignores the ranges.
    pub fn is_empty(&self) -> bool
        ensures { IsTrue result ↔ (self.now.points.items ≡ []) }
    {
        self.points.is_empty()
    }

    /// Returns whether there is exactly one range.
    pub fn is_single_contour(&self) -> bool
        ensures { IsTrue result ↔ (length self.now.ranges.items ≡ 1) }
    {
        self.ranges.len() == 1
    }

    /// Returns whether `as_first_contour` may be called: there is no range, or the first is in order and ends within
    /// the points.
    pub fn can_read_first(&self) -> bool
        ensures { IsTrue result ↔ CanReadFirst self.now.ranges.items
            (length self.now.points.items) }
    {
        let first = self.ranges.first();
        first.is_none_or(|range| is_in_order(range, self.points.len()))
    }

    /// Returns whether `to_contours` may be called: each range is in order and ends within the points.
    pub fn can_read_contours(&self) -> bool
        ensures { IsTrue result ↔ CanReadContours self.now }
    {
        all_in_order(self.ranges.as_slice(), self.points.len())
    }
}

/// Setters. Each makes room before it changes a list, so an error leaves the lists unchanged.
impl<T: IntNumber> FlatContoursBuffer<T> {
    /// Empties the buffer and makes room for `points` points and `contours` contours.
    ///
    /// # Errors
    ///
    /// `OutOfMemory`, which leaves the lists unchanged.
    pub fn clear_and_reserve(&mut self, points: usize, contours: usize) -> Result<(), ShapeError>
        ensures ok { OnOk result (HoldsContours self.new []) }
        ensures err { OnErr result (SameLists self.old self.new) }
        ensures room { OnOk result (HasRoom self.new points contours) }
        ensures reserved { HasRoom self.old points contours → IsOk result }
        ensures keeps_room { KeepsRoom self.old self.new }
        ensures memory { IsOkUnless result ShapeError.OutOfMemory }
    {
        reserve_total(&mut self.points, points)?;
        reserve_total(&mut self.ranges, contours)?;
        self.points.clear();
        self.ranges.clear();
        Ok(())
    }

    /// Replaces the contents by this one contour.
    ///
    /// # Errors
    ///
    /// `OutOfMemory`, which leaves the lists unchanged.
    pub fn set_with_contour(&mut self, contour: &[IntPoint<T>]) -> Result<(), ShapeError>
        ensures ok { OnOk result (HoldsContours self.new (contour.now ∷ [])) }
        ensures err { OnErr result (SameLists self.old self.new) }
        ensures reserved { HasRoom self.old (length contour.now) 1 → IsOk result }
        ensures keeps_room { KeepsRoom self.old self.new }
        ensures memory { IsOkUnless result ShapeError.OutOfMemory }
    {
        self.clear_and_reserve(contour.len(), 1)?;
        append_contour(&mut self.points, &mut self.ranges, contour);
        Ok(())
    }

    /// Replaces the contents by the contours of this shape.
    ///
    /// # Errors
    ///
    /// `TooManyPoints` if they have more than `usize::MAX` points together, checked first; otherwise `OutOfMemory`. An
    /// error leaves the lists unchanged.
    pub fn set_with_shape(&mut self, shape: &[IntContour<T>]) -> Result<(), ShapeError>
        ensures ok { OnOk result (HoldsContours self.new (paths_of_shape shape.now)) }
        ensures err { OnErr result (SameLists self.old self.new) }
        ensures too_many { IsErrOf result ShapeError.TooManyPoints
            ↔ (usize.MAX < length (concatenated (paths_of_shape shape.now))) }
        ensures reserved { HasRoom self.old (length (concatenated (paths_of_shape shape.now)))
            (length shape.now) → IsOk result }
        ensures keeps_room { KeepsRoom self.old self.new }
    {
        let count = checked_points_count(shape).ok_or(ShapeError::TooManyPoints)?;
        self.clear_and_reserve(count, shape.len())?;
        append_contours(&mut self.points, &mut self.ranges, shape);
        Ok(())
    }

    /// Replaces the contents by all contours of these shapes.
    ///
    /// # Errors
    ///
    /// `TooManyPoints` if there are more than `usize::MAX` contours, or if they have more than `usize::MAX` points
    /// together, checked first; otherwise `OutOfMemory`. An error leaves the lists unchanged.
    pub fn set_with_shapes(&mut self, shapes: &[IntShape<T>]) -> Result<(), ShapeError>
        ensures ok { OnOk result (HoldsContours self.new (paths_of_shapes shapes.now)) }
        ensures err { OnErr result (SameLists self.old self.new) }
        ensures too_many { IsErrOf result ShapeError.TooManyPoints
            ↔ ((usize.MAX < length (concatenated (paths_of_shapes shapes.now)))
            ⊎ (usize.MAX < length (paths_of_shapes shapes.now))) }
        ensures reserved { HasRoom self.old (length (concatenated (paths_of_shapes shapes.now)))
            (length (paths_of_shapes shapes.now)) → IsOk result }
        ensures keeps_room { KeepsRoom self.old self.new }
    {
        let counts = checked_counts(shapes).ok_or(ShapeError::TooManyPoints)?;
        self.clear_and_reserve(counts.points, counts.contours)?;
        append_all_contours(&mut self.points, &mut self.ranges, shapes);
        Ok(())
    }

    /// Appends the points of a contour and their range.
    ///
    /// # Errors
    ///
    /// `TooManyPoints` if the buffer would have more than `usize::MAX` points, checked first; otherwise `OutOfMemory`.
    /// An error leaves the lists unchanged.
    pub fn add_contour(&mut self, contour: &[IntPoint<T>]) -> Result<(), ShapeError>
        ensures points { OnOk result (self.new.points.items
            ≡ self.old.points.items ++ contour.now) }
        ensures ranges { let start = vec_len self.old.points in
            OnOk result (self.new.ranges.items
            ≡ self.old.ranges.items ++ record { start = start; end = start + length contour.now } ∷ []) }
        ensures err { OnErr result (SameLists self.old self.new) }
        ensures too_many { IsErrOf result ShapeError.TooManyPoints
            ↔ (usize.MAX < vec_len self.old.points + length contour.now) }
        ensures reserved { HasRoom self.old (vec_len self.old.points + length contour.now)
            (vec_len self.old.ranges + 1) → IsOk result }
        ensures keeps_room { KeepsRoom self.old self.new }
    {
        if contour.len() > usize::MAX - self.points.len() {
            return Err(ShapeError::TooManyPoints);
        }
        self.points.reserve(contour.len())?;
        self.ranges.reserve(1)?;
        append_contour(&mut self.points, &mut self.ranges, contour);
        Ok(())
    }
}

/// Readers.
impl<T: IntNumber> FlatContoursBuffer<T> {
    /// Returns a copy of each contour, in the order of the ranges. Requires what `can_read_contours` tests.
    ///
    /// # Errors
    ///
    /// `OutOfMemory`, which can't occur if there is no range.
    pub fn to_contours(&self) -> Result<IntShape<T>, ShapeError>
        requires { CanReadContours self.now }
        ensures ok { IfOk result (λ contours. paths_of_shape contours.items
            ≡ slices self.now.points.items self.now.ranges.items) }
        ensures none { self.now.ranges.items ≡ [] → IsOk result }
        ensures memory { IsOkUnless result ShapeError.OutOfMemory }
    {
        copied_parts(
            *self.points.allocator(),
            self.points.as_slice(),
            self.ranges.as_slice(),
        )
    }

    /// Returns the points that the first range names, or all points if there is no range. Requires what
    /// `can_read_first` tests.
    pub fn as_first_contour(&self) -> &[IntPoint<T>]
        requires { CanReadFirst self.now.ranges.items (length self.now.points.items) }
        ensures { result.now ≡ first_contour self.now.points.items self.now.ranges.items }
    {
        let range = self.first_range();
        &self.points[range.start..range.end]
    }

    /// Returns the same points as `as_first_contour`, mutably. Requires what `can_read_first` tests.
    pub fn as_first_contour_mut(&mut self) -> &mut [IntPoint<T>]
        requires { CanReadFirst self.old.ranges.items (length self.old.points.items) }
        ensures* writes_back { sem 𝓛 (LendsFirst T.row self.entry result) }
        ensures value { result.now ≡ first_contour self.old.points.items self.old.ranges.items }
    {
        let range = self.first_range();
        self.points.slice_mut(range)
    }

    /// Returns the first range, or the range of all points if there is none.
    fn first_range(&self) -> Range<usize>
        requires { CanReadFirst self.now.ranges.items (length self.now.points.items) }
        ensures in_order { InOrder (length self.now.points.items) result }
        ensures start { result.start ≡ first_start self.now.ranges.items }
        ensures part { part_of self.now.points.items result
            ≡ first_contour self.now.points.items self.now.ranges.items }
    {
        match self.ranges.first() {
            None => 0..self.points.len(),
            Some(range) => range.start..range.end,
        }
    }
}
