//! The flat buffer of contours over points of any type.

ghost use Rattle.std.specs.Prelude.{◌≡◌, ◌+◌, ◌<◌, ◌≤◌, ◌++◌, ◌∷◌, ◌↔◌, ◌⊎◌, [], List, length, vec_capacity, IfOk, OnOk, OnErr, IsOkUnless, IsErrOf, IsTrue, IsOk};
ghost use Rattle.std.specs.List.{All};
ghost use Rattle.std.specs.Iterator.{Drains, IsFinite, size};
ghost use Rattle.i_shape_source.specs.Paths.{paths_of_shape, concatenated};
ghost use Rattle.i_shape.specs.Flat.{InOrder, slices, behind};
ghost use Rattle.i_shape.specs.FloatBuffers.{HasLists, LieEndToEnd, HasListsRoom, KeepsListsRoom};

use super::fill::{append_items, append_paths, checked_path_counts, greatest_end};
use crate::ShapeError;
use crate::base::data::Contour;
use crate::flat::lists::{
    all_in_order, append_contour, append_ranges, copied_parts, copied_ranges, reserve_total,
};
use i_shape_core::copies::copied;
use i_shape_source::float::resource::{ShapePoint, ShapeResource};
use std::alloc::Global;
use std::ops::Range;

/// Contours in one list of points. Each range names the points of one contour. The ranges may be anything;
/// `can_read_contours` tests those that a reader needs.
#[derive(PartialEq, Eq, Debug, Drop)]
pub struct FloatFlatContoursBuffer<P: Copy> {
    /// The points of all contours.
    pub points: Vec<P>,
    /// The index range of each contour's points.
    pub ranges: Vec<Range<usize>>,
}

/// Constructors and tests.
impl<P: Copy> FloatFlatContoursBuffer<P> {
    /// Returns an empty buffer that allocates from `alloc`.
    pub fn new(alloc: Global) -> Self
        ensures { HasLists result [] [] }
    {
        FloatFlatContoursBuffer {
            points: Vec::new(alloc),
            ranges: Vec::new(alloc),
        }
    }

    /// Returns an empty buffer with room for at least `points` points and `contours` contours.
    ///
    /// # Errors
    ///
    /// `OutOfMemory`, which can't occur if both are 0.
    pub fn with_capacity(alloc: Global, points: usize, contours: usize) -> Result<Self, ShapeError>
        ensures ok { IfOk result (λ buffer. HasLists buffer [] []) }
        ensures room { IfOk result (λ buffer. HasListsRoom buffer points contours) }
        ensures none { points ≡ 0 → contours ≡ 0 → IsOk result }
        ensures memory { IsOkUnless result ShapeError.OutOfMemory }
    {
        Ok(FloatFlatContoursBuffer {
            points: Vec::with_capacity(alloc, points)?,
            ranges: Vec::with_capacity(alloc, contours)?,
        })
    }

    /// Returns a buffer with the same points and ranges.
    ///
    /// # Errors
    ///
    /// `OutOfMemory`, which can't occur if there are none.
    pub fn clone(&self) -> Result<Self, ShapeError>
        ensures ok { IfOk result
            (λ copy. HasLists copy self.now.points.items self.now.ranges.items) }
        ensures none { HasLists self.now [] [] → IsOk result }
        ensures memory { IsOkUnless result ShapeError.OutOfMemory }
    {
        let alloc = *self.points.allocator();
        Ok(FloatFlatContoursBuffer {
            points: copied(alloc, self.points.as_slice())?,
            ranges: copied_ranges(alloc, self.ranges.as_slice())?,
        })
    }

    /// Returns whether there are no points. Ignores the ranges.
    pub fn is_empty(&self) -> bool
        ensures { IsTrue result ↔ (self.now.points.items ≡ []) }
    {
        self.points.is_empty()
    }

    /// Returns whether `to_contours` may be called: each range is in order and ends within the points.
    pub fn can_read_contours(&self) -> bool
        ensures { IsTrue result ↔ All (InOrder (length self.now.points.items))
            self.now.ranges.items }
    {
        all_in_order(self.ranges.as_slice(), self.points.len())
    }

    /// Returns a copy of each range's points. Requires what `can_read_contours` tests.
    ///
    /// # Errors
    ///
    /// `OutOfMemory`, which can't occur if there is no range.
    pub fn to_contours(&self) -> Result<Vec<Contour<P>>, ShapeError>
        requires { All (InOrder (length self.now.points.items)) self.now.ranges.items }
        ensures ok { IfOk result (λ contours. paths_of_shape contours.items
            ≡ slices self.now.points.items self.now.ranges.items) }
        ensures none { self.now.ranges.items ≡ [] → IsOk result }
        ensures memory { IsOkUnless result ShapeError.OutOfMemory }
    {
        let alloc = *self.points.allocator();
        copied_parts(alloc, self.points.as_slice(), self.ranges.as_slice())
    }
}

/// Setters and adders.
impl<P: Copy> FloatFlatContoursBuffer<P> {
    fn clear(&mut self)
        ensures lists { HasLists self.new [] [] }
        ensures points_room { vec_capacity self.new.points ≡ vec_capacity self.old.points }
        ensures ranges_room { vec_capacity self.new.ranges ≡ vec_capacity self.old.ranges }
    {
        self.points.clear();
        self.ranges.clear();
    }

    /// Empties the buffer and makes room for `points` points and `contours` contours.
    ///
    /// # Errors
    ///
    /// `OutOfMemory`, which leaves the lists unchanged.
    pub fn clear_and_reserve(&mut self, points: usize, contours: usize) -> Result<(), ShapeError>
        ensures ok { OnOk result (HasLists self.new [] []) }
        ensures err { OnErr result (HasLists self.new self.old.points.items self.old.ranges.items) }
        ensures room { OnOk result (HasListsRoom self.new points contours) }
        ensures reserved { HasListsRoom self.old points contours → IsOk result }
        ensures keeps_room { KeepsListsRoom self.old self.new }
        ensures memory { IsOkUnless result ShapeError.OutOfMemory }
    {
        reserve_total(&mut self.points, points)?;
        reserve_total(&mut self.ranges, contours)?;
        self.clear();
        Ok(())
    }

    /// Appends a contour.
    ///
    /// # Errors
    ///
    /// `TooManyPoints` if the buffer would have more than `usize::MAX` points, checked first; otherwise `OutOfMemory`.
    /// An error leaves the lists unchanged.
    pub fn add_contour(&mut self, contour: &[P]) -> Result<(), ShapeError>
        ensures ok { OnOk result
            (HasLists self.new (self.old.points.items ++ contour.now)
            (self.old.ranges.items ++ behind (length self.old.points.items) (length contour.now)
            ∷ [])) }
        ensures err { OnErr result (HasLists self.new self.old.points.items self.old.ranges.items) }
        ensures too_many { IsErrOf result ShapeError.TooManyPoints
            ↔ (usize.MAX < length self.old.points.items + length contour.now) }
        ensures reserved { HasListsRoom self.old (length self.old.points.items + length contour.now)
            (length self.old.ranges.items + 1) → IsOk result }
        ensures keeps_room { KeepsListsRoom self.old self.new }
    {
        if self.points.len().checked_add(contour.len()).is_none() {
            return Err(ShapeError::TooManyPoints);
        }
        self.points.reserve(contour.len())?;
        self.ranges.reserve(1)?;
        append_contour(&mut self.points, &mut self.ranges, contour);
        Ok(())
    }

    /// Appends all items of an iterator as one contour.
    ///
    /// # Errors
    ///
    /// `OutOfMemory`, which leaves the lists unchanged.
    pub fn add_contour_iter<I: Iterator<Item = P> + Drop>(
        &mut self,
        iter: I,
    ) -> Result<(), ShapeError>
        requires can { I.can_next iter }
        requires ends { IsFinite (I.remaining iter) }
        ensures ok { OnOk result ((items : List P) × Drains I.next_gives iter items
            × HasLists self.new (self.old.points.items ++ items)
            (self.old.ranges.items ++ behind (length self.old.points.items) (length items) ∷ [])) }
        ensures err { OnErr result (HasLists self.new self.old.points.items self.old.ranges.items) }
        ensures reserved { HasListsRoom self.old
            (length self.old.points.items + size (I.remaining iter))
            (length self.old.ranges.items + 1) → IsOk result }
        ensures keeps_room { KeepsListsRoom self.old self.new }
        ensures memory { IsOkUnless result ShapeError.OutOfMemory }
    {
        let start = self.points.len();
        self.ranges.reserve(1)?;
        append_items(&mut self.points, iter)?;
        self.ranges.push_reserved(start..self.points.len());
        Ok(())
    }

    /// Replaces the contents by copies of these points and ranges. The ranges aren't checked.
    ///
    /// # Errors
    ///
    /// `OutOfMemory`, which leaves the lists unchanged.
    pub fn set_flat(&mut self, points: &[P], ranges: &[Range<usize>]) -> Result<(), ShapeError>
        ensures ok { OnOk result (HasLists self.new points.now ranges.now) }
        ensures reserved { HasListsRoom self.old (length points.now) (length ranges.now)
            → IsOk result }
        ensures err { OnErr result (HasLists self.new self.old.points.items self.old.ranges.items) }
        ensures keeps_room { KeepsListsRoom self.old self.new }
        ensures memory { IsOkUnless result ShapeError.OutOfMemory }
    {
        self.clear_and_reserve(points.len(), ranges.len())?;
        // there is room now
        self.points.extend_from_slice(points).unwrap();
        append_ranges(&mut self.ranges, ranges);
        Ok(())
    }

    /// Replaces the contents by all items of an iterator and copies of these ranges. The ranges aren't checked.
    ///
    /// Before it takes the first item, the call makes room for as many points as the upper size hint says, or the lower
    /// one if there is no upper one, and for no fewer than the greatest end of the ranges.
    ///
    /// # Errors
    ///
    /// `OutOfMemory`, which leaves the buffer empty.
    pub fn set_with_iter<I: Iterator<Item = P> + Drop>(
        &mut self,
        iter: I,
        ranges: &[Range<usize>],
    ) -> Result<(), ShapeError>
        requires can { I.can_next iter }
        requires ends { IsFinite (I.remaining iter) }
        ensures ok { OnOk result ((items : List P) × Drains I.next_gives iter items
            × HasLists self.new items ranges.now) }
        ensures err { OnErr result (HasLists self.new [] []) }
        ensures room { OnOk result
            (All (λ range. range.end ≤ vec_capacity self.new.points) ranges.now) }
        ensures keeps_room { KeepsListsRoom self.old self.new }
        ensures memory { IsOkUnless result ShapeError.OutOfMemory }
    {
        self.clear();
        let (lower, upper) = iter.size_hint();
        let room = upper.unwrap_or(lower).max(greatest_end(ranges));
        self.points.reserve(room)?;
        self.ranges.reserve(ranges.len())?;
        append_items(&mut self.points, iter)?;
        append_ranges(&mut self.ranges, ranges);
        Ok(())
    }
}

impl<P: ShapePoint> FloatFlatContoursBuffer<P> {
    /// Replaces the contents by the paths of a resource, end to end.
    ///
    /// # Errors
    ///
    /// `TooManyPoints` if there are more than `usize::MAX` paths or points, checked first; otherwise `OutOfMemory`. An
    /// error leaves the lists unchanged.
    pub fn set_with_resource<'a, R: ShapeResource<'a, P> + Copy>(
        &mut self,
        resource: R,
    ) -> Result<(), ShapeError>
    where
        P: 'a,
        requires { R.can_read resource }
        ensures ok { OnOk result
            (LieEndToEnd self.new.points.items self.new.ranges.items (R.paths resource)) }
        ensures err { OnErr result (HasLists self.new self.old.points.items self.old.ranges.items) }
        ensures too_many { IsErrOf result ShapeError.TooManyPoints
            ↔ ((usize.MAX < length (concatenated (R.paths resource)))
            ⊎ (usize.MAX < length (R.paths resource))) }
        ensures reserved { HasListsRoom self.old (length (concatenated (R.paths resource)))
            (length (R.paths resource)) → IsOk result }
        ensures keeps_room { KeepsListsRoom self.old self.new }
    {
        let counts = checked_path_counts(resource).ok_or(ShapeError::TooManyPoints)?;
        self.clear_and_reserve(counts.points, counts.contours)?;
        append_paths(&mut self.points, &mut self.ranges, resource);
        Ok(())
    }
}
