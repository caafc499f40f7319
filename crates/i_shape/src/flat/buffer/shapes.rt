//! The flat buffer of shapes over integer points.

ghost use Rattle.std.specs.Prelude.{◌≡◌, ◌+◌, ◌<◌, ◌∷◌, ◌↔◌, ◌⊎◌, [], length, vec_len, IfOk, OnOk, OnErr, IsOkUnless, IsErrOf, IsTrue, IsOk};
ghost use Rattle.std.specs.List.{All};
ghost use Rattle.i_shape_source.specs.Paths.{paths_of_shape, shape_lists, concatenated, paths_of_shapes};
ghost use Rattle.i_shape.specs.Flat.{InOrder, slices, shapes};
ghost use Rattle.i_shape.specs.Buffers.{HoldsShapes, SameShapeLists, AddsShape, CanReadShapes, shapes_in, HasShapesRoom, KeepsShapesRoom};

use crate::ShapeError;
use crate::flat::lists::{
    all_in_order, append_contour, append_shape, append_shapes, checked_counts,
    checked_points_count, copied_parts, copied_ranges, copied_shapes, reserve_total,
    shape_in_order,
};
use crate::int::IntPoint;
use crate::int::shape::{IntContour, IntShape, IntShapes};
use i_shape_core::copies::copied;
use i_shape_core::number::IntNumber;
use std::alloc::Global;
use std::ops::Range;

/// Shapes in one list of points. Each contour range names the points of one contour, and each shape range the contour
/// ranges of one shape. The ranges may be anything; `can_read_contours` and `can_read_shapes` test those that a reader
/// needs.
#[derive(PartialEq, Eq, Debug, Drop)]
pub struct FlatShapesBuffer<T> {
    /// The points of all contours.
    pub points: Vec<IntPoint<T>>,
    /// The index range of each contour's points.
    pub contour_ranges: Vec<Range<usize>>,
    /// The index range of each shape's contour ranges.
    pub shape_ranges: Vec<Range<usize>>,
}

/// Constructors and tests.
impl<T: IntNumber> FlatShapesBuffer<T> {
    /// Returns an empty buffer that allocates from `alloc`.
    pub fn new(alloc: Global) -> Self
        ensures { HoldsShapes result [] }
    {
        FlatShapesBuffer {
            points: Vec::new(alloc),
            contour_ranges: Vec::new(alloc),
            shape_ranges: Vec::new(alloc),
        }
    }

    /// Returns an empty buffer with room for at least `points` points, `contours` contours and `shapes` shapes.
    ///
    /// # Errors
    ///
    /// `OutOfMemory`, which can't occur if all three are 0.
    pub fn with_capacity(
        alloc: Global,
        points: usize,
        contours: usize,
        shapes: usize,
    ) -> Result<Self, ShapeError>
        ensures ok { IfOk result (λ buffer. HoldsShapes buffer []) }
        ensures room { IfOk result (λ buffer. HasShapesRoom buffer points contours shapes) }
        ensures none { points ≡ 0 → contours ≡ 0 → shapes ≡ 0 → IsOk result }
        ensures memory { IsOkUnless result ShapeError.OutOfMemory }
    {
        Ok(FlatShapesBuffer {
            points: Vec::with_capacity(alloc, points)?,
            contour_ranges: Vec::with_capacity(alloc, contours)?,
            shape_ranges: Vec::with_capacity(alloc, shapes)?,
        })
    }

    /// Returns a buffer with the same points and ranges.
    ///
    /// # Errors
    ///
    /// `OutOfMemory`, which can't occur if there are none.
    pub fn clone(&self) -> Result<Self, ShapeError>
        ensures ok { IfOk result (λ copy. SameShapeLists self.now copy) }
        ensures none { HoldsShapes self.now [] → IsOk result }
        ensures memory { IsOkUnless result ShapeError.OutOfMemory }
    {
        let alloc = *self.points.allocator();
        Ok(FlatShapesBuffer {
            points: copied(alloc, self.points.as_slice())?,
            contour_ranges: copied_ranges(alloc, self.contour_ranges.as_slice())?,
            shape_ranges: copied_ranges(alloc, self.shape_ranges.as_slice())?,
        })
    }

    /// Returns whether there are no points. Ignores the ranges.
    pub fn is_empty(&self) -> bool
        ensures { IsTrue result ↔ (self.now.points.items ≡ []) }
    {
        self.points.is_empty()
    }

    /// Returns whether `to_contours` may be called: each contour range is in order and ends within the points.
    pub fn can_read_contours(&self) -> bool
        ensures { IsTrue result ↔ All (InOrder (length self.now.points.items))
            self.now.contour_ranges.items }
    {
        all_in_order(self.contour_ranges.as_slice(), self.points.len())
    }

    /// Returns whether `to_shapes` may be called. Each shape range that isn't empty or reversed must end within the
    /// contour ranges, and the contour ranges that it names must be in order and end within the points.
    pub fn can_read_shapes(&self) -> bool
        ensures { IsTrue result ↔ CanReadShapes self.now }
    {
        self.shape_ranges.iter().all(|range| {
            shape_in_order(range, self.contour_ranges.as_slice(), self.points.len())
        })
    }
}

/// Setters. Each makes room before it changes a list, so an error leaves the lists unchanged.
impl<T: IntNumber> FlatShapesBuffer<T> {
    /// Empties the buffer and makes room for `points` points, `contours` contours and `shapes` shapes.
    ///
    /// # Errors
    ///
    /// `OutOfMemory`, which leaves the lists unchanged.
    pub fn clear_and_reserve(
        &mut self,
        points: usize,
        contours: usize,
        shapes: usize,
    ) -> Result<(), ShapeError>
        ensures ok { OnOk result (HoldsShapes self.new []) }
        ensures err { OnErr result (SameShapeLists self.old self.new) }
        ensures room { OnOk result (HasShapesRoom self.new points contours shapes) }
        ensures reserved { HasShapesRoom self.old points contours shapes → IsOk result }
        ensures keeps_room { KeepsShapesRoom self.old self.new }
        ensures memory { IsOkUnless result ShapeError.OutOfMemory }
    {
        reserve_total(&mut self.points, points)?;
        reserve_total(&mut self.contour_ranges, contours)?;
        reserve_total(&mut self.shape_ranges, shapes)?;
        self.points.clear();
        self.contour_ranges.clear();
        self.shape_ranges.clear();
        Ok(())
    }

    /// Replaces the contents by a shape of this one contour.
    ///
    /// # Errors
    ///
    /// `OutOfMemory`, which leaves the lists unchanged.
    pub fn set_with_contour(&mut self, contour: &[IntPoint<T>]) -> Result<(), ShapeError>
        ensures ok { OnOk result (HoldsShapes self.new ((contour.now ∷ []) ∷ [])) }
        ensures err { OnErr result (SameShapeLists self.old self.new) }
        ensures reserved { HasShapesRoom self.old (length contour.now) 1 1 → IsOk result }
        ensures keeps_room { KeepsShapesRoom self.old self.new }
        ensures memory { IsOkUnless result ShapeError.OutOfMemory }
    {
        self.clear_and_reserve(contour.len(), 1, 1)?;
        append_contour(&mut self.points, &mut self.contour_ranges, contour);
        self.shape_ranges.push_reserved(0..1);
        Ok(())
    }

    /// Replaces the contents by this one shape.
    ///
    /// # Errors
    ///
    /// `TooManyPoints` if its contours have more than `usize::MAX` points together, checked first; otherwise
    /// `OutOfMemory`. An error leaves the lists unchanged.
    pub fn set_with_shape(&mut self, shape: &[IntContour<T>]) -> Result<(), ShapeError>
        ensures ok { OnOk result (HoldsShapes self.new (paths_of_shape shape.now ∷ [])) }
        ensures err { OnErr result (SameShapeLists self.old self.new) }
        ensures too_many { IsErrOf result ShapeError.TooManyPoints
            ↔ (usize.MAX < length (concatenated (paths_of_shape shape.now))) }
        ensures reserved { HasShapesRoom self.old (length (concatenated (paths_of_shape shape.now)))
            (length shape.now) 1 → IsOk result }
        ensures keeps_room { KeepsShapesRoom self.old self.new }
    {
        let count = checked_points_count(shape).ok_or(ShapeError::TooManyPoints)?;
        self.clear_and_reserve(count, shape.len(), 1)?;
        append_shape(
            &mut self.points,
            &mut self.contour_ranges,
            &mut self.shape_ranges,
            shape,
        );
        Ok(())
    }

    /// Replaces the contents by these shapes, including empty ones.
    ///
    /// # Errors
    ///
    /// `TooManyPoints` if there are more than `usize::MAX` contours, or if they have more than `usize::MAX` points
    /// together, checked first; otherwise `OutOfMemory`. An error leaves the lists unchanged.
    pub fn set_with_shapes(&mut self, shapes: &[IntShape<T>]) -> Result<(), ShapeError>
        ensures ok { OnOk result (HoldsShapes self.new (shape_lists shapes.now)) }
        ensures err { OnErr result (SameShapeLists self.old self.new) }
        ensures too_many { IsErrOf result ShapeError.TooManyPoints
            ↔ ((usize.MAX < length (concatenated (paths_of_shapes shapes.now)))
            ⊎ (usize.MAX < length (paths_of_shapes shapes.now))) }
        ensures reserved { HasShapesRoom self.old
            (length (concatenated (paths_of_shapes shapes.now)))
            (length (paths_of_shapes shapes.now)) (length shapes.now) → IsOk result }
        ensures keeps_room { KeepsShapesRoom self.old self.new }
    {
        let counts = checked_counts(shapes).ok_or(ShapeError::TooManyPoints)?;
        self.clear_and_reserve(counts.points, counts.contours, shapes.len())?;
        append_shapes(
            &mut self.points,
            &mut self.contour_ranges,
            &mut self.shape_ranges,
            shapes,
        );
        Ok(())
    }

    /// Appends a shape, which may be empty.
    ///
    /// # Errors
    ///
    /// `TooManyPoints` if the buffer would have more than `usize::MAX` points or contour ranges, checked first;
    /// otherwise `OutOfMemory`. An error leaves the lists unchanged.
    pub fn add_shape(&mut self, shape: &[IntContour<T>]) -> Result<(), ShapeError>
        ensures ok { OnOk result (AddsShape self.old self.new (paths_of_shape shape.now)) }
        ensures err { OnErr result (SameShapeLists self.old self.new) }
        ensures too_many { IsErrOf result ShapeError.TooManyPoints
            ↔ ((usize.MAX
            < vec_len self.old.points + length (concatenated (paths_of_shape shape.now)))
            ⊎ (usize.MAX < vec_len self.old.contour_ranges + length shape.now)) }
        ensures reserved { HasShapesRoom self.old
            (vec_len self.old.points + length (concatenated (paths_of_shape shape.now)))
            (vec_len self.old.contour_ranges + length shape.now)
            (vec_len self.old.shape_ranges + 1) → IsOk result }
        ensures keeps_room { KeepsShapesRoom self.old self.new }
    {
        let count = checked_points_count(shape).ok_or(ShapeError::TooManyPoints)?;
        if count > usize::MAX - self.points.len()
            || shape.len() > usize::MAX - self.contour_ranges.len()
        {
            return Err(ShapeError::TooManyPoints);
        }
        self.points.reserve(count)?;
        self.contour_ranges.reserve(shape.len())?;
        self.shape_ranges.reserve(1)?;
        append_shape(
            &mut self.points,
            &mut self.contour_ranges,
            &mut self.shape_ranges,
            shape,
        );
        Ok(())
    }
}

/// Readers.
impl<T: IntNumber> FlatShapesBuffer<T> {
    /// Returns a copy of each contour, in the order of the contour ranges. Requires what `can_read_contours` tests.
    ///
    /// # Errors
    ///
    /// `OutOfMemory`, which can't occur if there is no contour range.
    pub fn to_contours(&self) -> Result<IntShape<T>, ShapeError>
        requires { All (InOrder (length self.now.points.items)) self.now.contour_ranges.items }
        ensures ok { IfOk result (λ contours. paths_of_shape contours.items
            ≡ slices self.now.points.items self.now.contour_ranges.items) }
        ensures none { self.now.contour_ranges.items ≡ [] → IsOk result }
        ensures memory { IsOkUnless result ShapeError.OutOfMemory }
    {
        copied_parts(
            *self.points.allocator(),
            self.points.as_slice(),
            self.contour_ranges.as_slice(),
        )
    }

    /// Returns a copy of each shape, in the order of the shape ranges. An empty or reversed range gives an empty shape.
    /// Requires what `can_read_shapes` tests.
    ///
    /// # Errors
    ///
    /// `OutOfMemory`, which can't occur if there is no shape range.
    pub fn to_shapes(&self) -> Result<IntShapes<T>, ShapeError>
        requires { CanReadShapes self.now }
        ensures ok { IfOk result (λ list. shape_lists list.items ≡ shapes_in self.now) }
        ensures none { self.now.shape_ranges.items ≡ [] → IsOk result }
        ensures memory { IsOkUnless result ShapeError.OutOfMemory }
    {
        copied_shapes(
            *self.points.allocator(),
            self.points.as_slice(),
            self.contour_ranges.as_slice(),
            self.shape_ranges.as_slice(),
        )
    }
}
