//! The flat buffer of shapes over points of any type.

ghost use Rattle.std.specs.Prelude.{◌≡◌, ◌+◌, ◌<◌, ◌≤◌, ◌++◌, ◌∷◌, ◌↔◌, ◌⊎◌, [], List, length, vec_capacity, IfOk, OnOk, OnErr, IsOk, IsOkUnless, IsErrOf, IsTrue};
ghost use Rattle.std.specs.List.{All};
ghost use Rattle.std.specs.Iterator.{Drains, IsFinite, size};
ghost use Rattle.i_shape_source.specs.Paths.{paths_of_shape, shape_lists, concatenated};
ghost use Rattle.i_shape.specs.Flat.{InOrder, IsReadableShape, slices, shapes, behind};
ghost use Rattle.i_shape.specs.FloatBuffers.{HasShapeLists, LieEndToEnd, FormOneShape, SameGroups, HasGroupsRoom, KeepsGroupsRoom};

use super::fill::{append_items, append_paths, checked_path_counts, greatest_end};
use crate::ShapeError;
use crate::base::data::{Contour, Shapes};
use crate::flat::lists::{
    all_in_order, append_contour, append_ranges, copied_parts, copied_ranges, copied_shapes,
    reserve_total, shape_in_order,
};
use i_shape_core::copies::copied;
use i_shape_source::float::resource::{ShapePoint, ShapeResource};
use std::alloc::Global;
use std::ops::Range;

/// Shapes in one list of points. Each contour range names the points of one contour, and each shape range the contour
/// ranges of one shape. The ranges may be anything; `can_read_contours` and `can_read_shapes` test those that a reader
/// needs.
#[derive(PartialEq, Eq, Debug, Drop)]
pub struct FloatFlatShapesBuffer<P: Copy> {
    /// The points of all contours.
    pub points: Vec<P>,
    /// The index range of each contour's points.
    pub contour_ranges: Vec<Range<usize>>,
    /// The index range of each shape's contour ranges.
    pub shape_ranges: Vec<Range<usize>>,
}

/// Constructors and tests.
impl<P: Copy> FloatFlatShapesBuffer<P> {
    /// Returns an empty buffer that allocates from `alloc`.
    pub fn new(alloc: Global) -> Self
        ensures { HasShapeLists result [] [] [] }
    {
        FloatFlatShapesBuffer {
            points: Vec::new(alloc),
            contour_ranges: Vec::new(alloc),
            shape_ranges: Vec::new(alloc),
        }
    }

    /// Returns an empty buffer with room for at least `points` points, `contours` contours and `shapes` shapes.
    ///
    /// # Errors
    ///
    /// `OutOfMemory`, which can't occur if all three are 0.
    pub fn with_capacity(
        alloc: Global,
        points: usize,
        contours: usize,
        shapes: usize,
    ) -> Result<Self, ShapeError>
        ensures ok { IfOk result (λ buffer. HasShapeLists buffer [] [] []) }
        ensures room { IfOk result (λ buffer. HasGroupsRoom buffer points contours shapes) }
        ensures none { points ≡ 0 → contours ≡ 0 → shapes ≡ 0 → IsOk result }
        ensures memory { IsOkUnless result ShapeError.OutOfMemory }
    {
        Ok(FloatFlatShapesBuffer {
            points: Vec::with_capacity(alloc, points)?,
            contour_ranges: Vec::with_capacity(alloc, contours)?,
            shape_ranges: Vec::with_capacity(alloc, shapes)?,
        })
    }

    /// Returns a buffer with the same points and ranges.
    ///
    /// # Errors
    ///
    /// `OutOfMemory`, which can't occur if there are none.
    pub fn clone(&self) -> Result<Self, ShapeError>
        ensures ok { IfOk result (λ copy. SameGroups self.now copy) }
        ensures none { HasShapeLists self.now [] [] [] → IsOk result }
        ensures memory { IsOkUnless result ShapeError.OutOfMemory }
    {
        let alloc = *self.points.allocator();
        Ok(FloatFlatShapesBuffer {
            points: copied(alloc, self.points.as_slice())?,
            contour_ranges: copied_ranges(alloc, self.contour_ranges.as_slice())?,
            shape_ranges: copied_ranges(alloc, self.shape_ranges.as_slice())?,
        })
    }

    /// Returns whether there are no points. Ignores the ranges.
    pub fn is_empty(&self) -> bool
        ensures { IsTrue result ↔ (self.now.points.items ≡ []) }
    {
        self.points.is_empty()
    }

    /// Returns whether `to_contours` may be called: each contour range is in order and ends within the points.
    pub fn can_read_contours(&self) -> bool
        ensures { IsTrue result ↔ All (InOrder (length self.now.points.items))
            self.now.contour_ranges.items }
    {
        all_in_order(self.contour_ranges.as_slice(), self.points.len())
    }

    /// Returns whether `to_shapes` may be called. Each shape range that isn't empty or reversed must end within the
    /// contour ranges, and the contour ranges that it names must be in order and end within the points.
    pub fn can_read_shapes(&self) -> bool
        ensures { IsTrue result
            ↔ All (IsReadableShape (length self.now.points.items) self.now.contour_ranges.items)
            self.now.shape_ranges.items }
    {
        self.shape_ranges.iter().all(|range| {
            shape_in_order(range, self.contour_ranges.as_slice(), self.points.len())
        })
    }

    /// Returns a copy of each contour range's points. Requires what `can_read_contours` tests.
    ///
    /// # Errors
    ///
    /// `OutOfMemory`, which can't occur if there is no contour range.
    pub fn to_contours(&self) -> Result<Vec<Contour<P>>, ShapeError>
        requires { All (InOrder (length self.now.points.items)) self.now.contour_ranges.items }
        ensures ok { IfOk result (λ contours. paths_of_shape contours.items
            ≡ slices self.now.points.items self.now.contour_ranges.items) }
        ensures none { self.now.contour_ranges.items ≡ [] → IsOk result }
        ensures memory { IsOkUnless result ShapeError.OutOfMemory }
    {
        let alloc = *self.points.allocator();
        let ranges = self.contour_ranges.as_slice();
        copied_parts(alloc, self.points.as_slice(), ranges)
    }

    /// Returns a copy of each shape, in the order of the shape ranges. An empty or reversed range gives an empty shape.
    /// Requires what `can_read_shapes` tests.
    ///
    /// # Errors
    ///
    /// `OutOfMemory`, which can't occur if there is no shape range.
    pub fn to_shapes(&self) -> Result<Shapes<P>, ShapeError>
        requires { All
            (IsReadableShape (length self.now.points.items) self.now.contour_ranges.items)
            self.now.shape_ranges.items }
        ensures ok { IfOk result (λ list. shape_lists list.items
            ≡ shapes self.now.points.items self.now.contour_ranges.items
            self.now.shape_ranges.items) }
        ensures none { self.now.shape_ranges.items ≡ [] → IsOk result }
        ensures memory { IsOkUnless result ShapeError.OutOfMemory }
    {
        copied_shapes(
            *self.points.allocator(),
            self.points.as_slice(),
            self.contour_ranges.as_slice(),
            self.shape_ranges.as_slice(),
        )
    }
}

/// Setters and adders.
impl<P: Copy> FloatFlatShapesBuffer<P> {
    fn clear(&mut self)
        ensures lists { HasShapeLists self.new [] [] [] }
        ensures points_room { vec_capacity self.new.points ≡ vec_capacity self.old.points }
        ensures contours_room { vec_capacity self.new.contour_ranges
            ≡ vec_capacity self.old.contour_ranges }
        ensures shapes_room { vec_capacity self.new.shape_ranges
            ≡ vec_capacity self.old.shape_ranges }
    {
        self.points.clear();
        self.contour_ranges.clear();
        self.shape_ranges.clear();
    }

    /// Empties the buffer and makes room for `points` points, `contours` contours and `shapes` shapes.
    ///
    /// # Errors
    ///
    /// `OutOfMemory`, which leaves the lists unchanged.
    pub fn clear_and_reserve(
        &mut self,
        points: usize,
        contours: usize,
        shapes: usize,
    ) -> Result<(), ShapeError>
        ensures ok { OnOk result (HasShapeLists self.new [] [] []) }
        ensures err { OnErr result (SameGroups self.old self.new) }
        ensures room { OnOk result (HasGroupsRoom self.new points contours shapes) }
        ensures reserved { HasGroupsRoom self.old points contours shapes → IsOk result }
        ensures keeps_room { KeepsGroupsRoom self.old self.new }
        ensures memory { IsOkUnless result ShapeError.OutOfMemory }
    {
        reserve_total(&mut self.points, points)?;
        reserve_total(&mut self.contour_ranges, contours)?;
        reserve_total(&mut self.shape_ranges, shapes)?;
        self.clear();
        Ok(())
    }

    /// Appends a shape of this one contour.
    ///
    /// # Errors
    ///
    /// `TooManyPoints` if the buffer would have more than `usize::MAX` points, checked first; otherwise `OutOfMemory`.
    /// An error leaves the lists unchanged.
    pub fn add_contour(&mut self, contour: &[P]) -> Result<(), ShapeError>
        ensures ok { OnOk result
            (HasShapeLists self.new (self.old.points.items ++ contour.now)
            (self.old.contour_ranges.items
            ++ behind (length self.old.points.items) (length contour.now) ∷ [])
            (self.old.shape_ranges.items ++ behind (length self.old.contour_ranges.items) 1 ∷ [])) }
        ensures err { OnErr result (SameGroups self.old self.new) }
        ensures too_many { IsErrOf result ShapeError.TooManyPoints
            ↔ (usize.MAX < length self.old.points.items + length contour.now) }
        ensures reserved { HasGroupsRoom self.old
            (length self.old.points.items + length contour.now)
            (length self.old.contour_ranges.items + 1) (length self.old.shape_ranges.items + 1)
            → IsOk result }
        ensures keeps_room { KeepsGroupsRoom self.old self.new }
    {
        if self.points.len().checked_add(contour.len()).is_none() {
            return Err(ShapeError::TooManyPoints);
        }
        self.points.reserve(contour.len())?;
        self.contour_ranges.reserve(1)?;
        self.shape_ranges.reserve(1)?;
        let first = self.contour_ranges.len();
        append_contour(&mut self.points, &mut self.contour_ranges, contour);
        self.shape_ranges
            .push_reserved(first..self.contour_ranges.len());
        Ok(())
    }

    /// Appends a shape of one contour, which has all items of an iterator.
    ///
    /// # Errors
    ///
    /// `OutOfMemory`, which leaves the lists unchanged.
    pub fn add_contour_iter<I: Iterator<Item = P> + Drop>(
        &mut self,
        iter: I,
    ) -> Result<(), ShapeError>
        requires can { I.can_next iter }
        requires ends { IsFinite (I.remaining iter) }
        ensures ok { OnOk result ((items : List P) × Drains I.next_gives iter items
            × HasShapeLists self.new (self.old.points.items ++ items)
            (self.old.contour_ranges.items ++ behind (length self.old.points.items) (length items)
            ∷ []) (self.old.shape_ranges.items ++ behind (length self.old.contour_ranges.items) 1
            ∷ [])) }
        ensures err { OnErr result (SameGroups self.old self.new) }
        ensures reserved { HasGroupsRoom self.old
            (length self.old.points.items + size (I.remaining iter))
            (length self.old.contour_ranges.items + 1) (length self.old.shape_ranges.items + 1)
            → IsOk result }
        ensures keeps_room { KeepsGroupsRoom self.old self.new }
        ensures memory { IsOkUnless result ShapeError.OutOfMemory }
    {
        let start = self.points.len();
        let first = self.contour_ranges.len();
        self.contour_ranges.reserve(1)?;
        self.shape_ranges.reserve(1)?;
        append_items(&mut self.points, iter)?;
        self.contour_ranges.push_reserved(start..self.points.len());
        self.shape_ranges
            .push_reserved(first..self.contour_ranges.len());
        Ok(())
    }

    /// Replaces the contents by copies of these points and ranges. The ranges aren't checked.
    ///
    /// # Errors
    ///
    /// `OutOfMemory`, which leaves the lists unchanged.
    pub fn set_flat(
        &mut self,
        points: &[P],
        contour_ranges: &[Range<usize>],
        shape_ranges: &[Range<usize>],
    ) -> Result<(), ShapeError>
        ensures ok { OnOk result
            (HasShapeLists self.new points.now contour_ranges.now shape_ranges.now) }
        ensures err { OnErr result (SameGroups self.old self.new) }
        ensures reserved { HasGroupsRoom self.old (length points.now) (length contour_ranges.now)
            (length shape_ranges.now) → IsOk result }
        ensures keeps_room { KeepsGroupsRoom self.old self.new }
        ensures memory { IsOkUnless result ShapeError.OutOfMemory }
    {
        self.clear_and_reserve(points.len(), contour_ranges.len(), shape_ranges.len())?;
        // there is room now
        self.points.extend_from_slice(points).unwrap();
        append_ranges(&mut self.contour_ranges, contour_ranges);
        append_ranges(&mut self.shape_ranges, shape_ranges);
        Ok(())
    }

    /// Replaces the contents by all items of an iterator and copies of these ranges. The ranges aren't checked.
    ///
    /// Before it takes the first item, the call makes room for as many points as the upper size hint says, or the lower
    /// one if there is no upper one, and for no fewer than the greatest end of the contour ranges.
    ///
    /// # Errors
    ///
    /// `OutOfMemory`, which leaves the buffer empty.
    pub fn set_with_iter<I: Iterator<Item = P> + Drop>(
        &mut self,
        iter: I,
        contour_ranges: &[Range<usize>],
        shape_ranges: &[Range<usize>],
    ) -> Result<(), ShapeError>
        requires can { I.can_next iter }
        requires ends { IsFinite (I.remaining iter) }
        ensures ok { OnOk result ((items : List P) × Drains I.next_gives iter items
            × HasShapeLists self.new items contour_ranges.now shape_ranges.now) }
        ensures err { OnErr result (HasShapeLists self.new [] [] []) }
        ensures room { OnOk result
            (All (λ range. range.end ≤ vec_capacity self.new.points) contour_ranges.now) }
        ensures keeps_room { KeepsGroupsRoom self.old self.new }
        ensures memory { IsOkUnless result ShapeError.OutOfMemory }
    {
        self.clear();
        let (lower, upper) = iter.size_hint();
        let room = upper.unwrap_or(lower).max(greatest_end(contour_ranges));
        self.points.reserve(room)?;
        self.contour_ranges.reserve(contour_ranges.len())?;
        self.shape_ranges.reserve(shape_ranges.len())?;
        append_items(&mut self.points, iter)?;
        append_ranges(&mut self.contour_ranges, contour_ranges);
        append_ranges(&mut self.shape_ranges, shape_ranges);
        Ok(())
    }
}

impl<P: ShapePoint> FloatFlatShapesBuffer<P> {
    /// Replaces the contents by the paths of a resource, end to end, as one shape. A resource without paths gives no
    /// shape and needs no allocation.
    ///
    /// # Errors
    ///
    /// `TooManyPoints` if there are more than `usize::MAX` paths or points, checked first; otherwise `OutOfMemory`. An
    /// error leaves the lists unchanged.
    pub fn set_with_resource<'a, R: ShapeResource<'a, P> + Copy>(
        &mut self,
        resource: R,
    ) -> Result<(), ShapeError>
    where
        P: 'a,
        requires { R.can_read resource }
        ensures ok { OnOk result
            (LieEndToEnd self.new.points.items self.new.contour_ranges.items (R.paths resource)) }
        ensures one_shape { OnOk result (FormOneShape self.new (R.paths resource)) }
        ensures no_paths { R.paths resource ≡ [] → IsOk result }
        ensures err { OnErr result (SameGroups self.old self.new) }
        ensures too_many { IsErrOf result ShapeError.TooManyPoints
            ↔ ((usize.MAX < length (concatenated (R.paths resource)))
            ⊎ (usize.MAX < length (R.paths resource))) }
        ensures reserved { HasGroupsRoom self.old (length (concatenated (R.paths resource)))
            (length (R.paths resource)) 1 → IsOk result }
        ensures keeps_room { KeepsGroupsRoom self.old self.new }
    {
        let counts = checked_path_counts(resource).ok_or(ShapeError::TooManyPoints)?;
        if counts.contours == 0 {
            self.clear();
            return Ok(());
        }
        self.clear_and_reserve(counts.points, counts.contours, 1)?;
        append_paths(&mut self.points, &mut self.contour_ranges, resource);
        self.shape_ranges.push_reserved(0..counts.contours);
        Ok(())
    }
}
