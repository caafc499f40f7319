//! The integer buffers as resources.

ghost use Rattle.std.specs.Prelude.{◌≡◌, List, length, Some, IfSome};
ghost use Rattle.std.specs.List.{All};
ghost use Rattle.std.specs.Iterator.{at_most, UpTo};
ghost use Rattle.std.specs.Iterator.SizeHint.{IsWithinCount};
ghost use Rattle.std.specs.Map.Iter.{TakesFirst, deref};
ghost use Rattle.i_shape_source.specs.Paths.{LendsExactly, RunsThrough};
ghost use Rattle.i_shape.specs.ShapeLists.{IsSafeShape, AreSafePaths};
ghost use Rattle.i_shape.specs.Flat.{InOrder, slices};
ghost use Rattle.i_shape.specs.Buffers.{contours_in};

use crate::flat::buffer::{FlatContoursBuffer, FlatShapesBuffer};
use i_shape_core::number::IntNumber;
use i_shape_core::point::IntPoint;
use i_shape_source::int::resource::IntShapeResource;
use std::marker::Model;
use std::ops::Range;

/// Iterates over the points of each range, and yields an empty path for an empty range.
#[derive(Drop)]
pub struct IntBufferResourceIterator<'a, I> {
    points: &'a [IntPoint<I>],
    ranges: &'a [Range<usize>],
}

impl<'a, I> Model for IntBufferResourceIterator<'a, I> {
    ghost use Rattle.std.specs.Prelude.{List, length};
    ghost use Rattle.std.specs.List.{All};
    ghost use Rattle.i_shape.specs.Flat.{InOrder, slices};
    ghost use Rattle.i_shape_core.specs.declared.point.IntPoint.{IntPoint};

    ghost Value = { List (List (IntPoint I)) };

    ghost view = { λ s. slices s.points.now s.ranges.now };

    ghost invariant = { λ s. All (InOrder (length s.points.now)) s.ranges.now };
}

impl<'a, I> IntBufferResourceIterator<'a, I> {
    #[tactic(auto, using(i_shape_source::proofs::Lent::lends_from_list))]
    pub(crate) fn with_ranges(points: &'a [IntPoint<I>], ranges: &'a [Range<usize>]) -> Self
        requires { All (InOrder (length points.now)) ranges.now }
        ensures left { result ≡ slices points.now ranges.now }
        ensures lends { LendsExactly (TakesFirst deref) result (slices points.now ranges.now) }
        ensures runs { RunsThrough (TakesFirst deref) result (slices points.now ranges.now) }
    {
        IntBufferResourceIterator { points, ranges }
    }

    /// Returns the number of paths left.
    pub fn len(&self) -> usize
        ensures { result ≡ length self.now }
    {
        self.ranges.len()
    }
}

impl<'a, I> Iterator for IntBufferResourceIterator<'a, I> {
    type Item = &'a [IntPoint<I>];

    ghost next_gives = { TakesFirst deref };

    ghost remaining = { λ s. at_most (length s) };

    fn next(&mut self) -> Option<&'a [IntPoint<I>]> {
        let (range, rest) = self.ranges.split_first()?;
        self.ranges = rest;
        Some(&self.points[range.start..range.end])
    }

    /// Returns the number of paths left, as both bounds.
    fn size_hint(&self) -> (usize, Option<usize>)
        ensures lower { IsWithinCount result.0 (at_most (length self.now)) }
        ensures upper { IfSome result.1 (UpTo (at_most (length self.now))) }
        ensures exact { result ≡ (length self.now, Some (length self.now)) }
    {
        let len = self.len();
        (len, Some(len))
    }
}

impl<'a, I: IntNumber + 'a> IntShapeResource<'a, I> for &'a FlatContoursBuffer<I> {
    type ResourceIter = IntBufferResourceIterator<'a, I>;

    ghost paths = { λ buffer. slices buffer.now.points.items buffer.now.ranges.items };

    ghost safe = { λ buffer. IsSafeShape I.width (contours_in I.value buffer.now) };

    ghost begins = { λ buffer iter. iter ≡ slices buffer.now.points.items buffer.now.ranges.items };

    ghost can_read = { λ buffer. All (InOrder (length buffer.now.points.items)) buffer.now.ranges.items };

    #[tactic(auto, using(i_shape_source::proofs::Lent::runs_from_lends))]
    fn iter_paths(self) -> IntBufferResourceIterator<'a, I> {
        IntBufferResourceIterator::with_ranges(self.points.as_slice(), self.ranges.as_slice())
    }
}

impl<'a, I: IntNumber + 'a> IntShapeResource<'a, I> for &'a FlatShapesBuffer<I> {
    type ResourceIter = IntBufferResourceIterator<'a, I>;

    ghost paths = { λ buffer. slices buffer.now.points.items buffer.now.contour_ranges.items };

    ghost safe = { λ buffer. AreSafePaths I.width I.value (slices buffer.now.points.items buffer.now.contour_ranges.items) };

    ghost begins = { λ buffer iter. iter ≡ slices buffer.now.points.items buffer.now.contour_ranges.items };

    ghost can_read = { λ buffer. All (InOrder (length buffer.now.points.items)) buffer.now.contour_ranges.items };

    #[tactic(auto, using(i_shape_source::proofs::Lent::runs_from_lends))]
    fn iter_paths(self) -> IntBufferResourceIterator<'a, I> {
        let ranges = self.contour_ranges.as_slice();
        IntBufferResourceIterator::with_ranges(self.points.as_slice(), ranges)
    }
}
