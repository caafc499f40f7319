//! The generic buffers as resources.

ghost use Rattle.std.specs.Prelude.{◌≡◌, ◌∷◌, [], length, MatchOption};
ghost use Rattle.std.specs.Iterator.{at_most};
ghost use Rattle.std.specs.Map.Iter.{TakesFirst, deref};
ghost use Rattle.i_shape_source.specs.Paths.{LendsExactly, RunsThrough};
ghost use Rattle.i_shape.specs.FloatBuffers.{readable_slices};

use crate::flat::float::{FloatFlatContoursBuffer, FloatFlatShapesBuffer};
use crate::flat::lists::is_in_order;
use i_shape_source::float::resource::{ShapePoint, ShapeResource};
use std::marker::Model;
use std::ops::Range;

/// Returns the points that the first readable range names, and the ranges after it.
fn first_readable<'a, P>(
    points: &'a [P],
    ranges: &'a [Range<usize>],
) -> Option<(&'a [P], &'a [Range<usize>])>
    ensures { MatchOption result (readable_slices points.now ranges.now ≡ [])
        (λ found. readable_slices points.now ranges.now
        ≡ found.0.now ∷ readable_slices points.now found.1.now) }
{
    let mut left = ranges;
    while let Some((range, rest)) = left.split_first() {
        if is_in_order(range, points.len()) {
            return Some((&points[range.start..range.end], rest));
        }
        left = rest;
    }
    None
}

/// Iterates over the points of each range of a contours buffer. Skips ranges that are reversed or reach beyond the
/// points.
#[derive(Drop)]
pub struct FloatContoursBufferResourceIterator<'a, P> {
    points: &'a [P],
    ranges: &'a [Range<usize>],
}

impl<'a, P> Model for FloatContoursBufferResourceIterator<'a, P> {
    ghost use Rattle.std.specs.Prelude.{List};
    ghost use Rattle.i_shape.specs.FloatBuffers.{readable_slices};

    ghost Value = { List (List P) };

    ghost view = { λ s. readable_slices s.points.now s.ranges.now };
}

impl<'a, P> FloatContoursBufferResourceIterator<'a, P> {
    #[tactic(auto, using(i_shape_source::proofs::Lent::lends_from_list))]
    pub(crate) fn with_ranges(points: &'a [P], ranges: &'a [Range<usize>]) -> Self
        ensures left { result ≡ readable_slices points.now ranges.now }
        ensures lends { LendsExactly (TakesFirst deref)
            result (readable_slices points.now ranges.now) }
        ensures runs { RunsThrough (TakesFirst deref) result
            (readable_slices points.now ranges.now) }
    {
        FloatContoursBufferResourceIterator { points, ranges }
    }
}

impl<'a, P> Iterator for FloatContoursBufferResourceIterator<'a, P> {
    type Item = &'a [P];

    ghost next_gives = { TakesFirst deref };

    ghost remaining = { λ s. at_most (length s) };

    fn next(&mut self) -> Option<&'a [P]> {
        let (path, rest) = first_readable(self.points, self.ranges)?;
        self.ranges = rest;
        Some(path)
    }
}

/// Iterates over the points of each contour range of a shapes buffer. Skips ranges that are reversed or reach beyond
/// the points.
#[derive(Drop)]
pub struct FloatShapesBufferResourceIterator<'a, P> {
    contours: FloatContoursBufferResourceIterator<'a, P>,
}

impl<'a, P> Model for FloatShapesBufferResourceIterator<'a, P> {
    ghost use Rattle.std.specs.Prelude.{List};

    ghost Value = { List (List P) };

    ghost view = { λ s. s.contours };
}

impl<'a, P> FloatShapesBufferResourceIterator<'a, P> {
    #[tactic(auto, using(i_shape_source::proofs::Lent::lends_from_list))]
    pub(crate) fn with_ranges(points: &'a [P], ranges: &'a [Range<usize>]) -> Self
        ensures left { result ≡ readable_slices points.now ranges.now }
        ensures lends { LendsExactly (TakesFirst deref)
            result (readable_slices points.now ranges.now) }
        ensures runs { RunsThrough (TakesFirst deref) result
            (readable_slices points.now ranges.now) }
    {
        let contours = FloatContoursBufferResourceIterator::with_ranges(points, ranges);
        FloatShapesBufferResourceIterator { contours }
    }
}

impl<'a, P> Iterator for FloatShapesBufferResourceIterator<'a, P> {
    type Item = &'a [P];

    ghost next_gives = { TakesFirst deref };

    ghost remaining = { λ s. at_most (length s) };

    fn next(&mut self) -> Option<&'a [P]> {
        self.contours.next()
    }
}

impl<'a, P: ShapePoint + 'a> ShapeResource<'a, P> for &'a FloatFlatContoursBuffer<P> {
    type ResourceIter = FloatContoursBufferResourceIterator<'a, P>;

    ghost paths = { λ buffer. readable_slices buffer.now.points.items buffer.now.ranges.items };

    ghost begins = { λ buffer iter. iter ≡ readable_slices buffer.now.points.items buffer.now.ranges.items };

    #[tactic(auto, using(i_shape_source::proofs::Lent::runs_from_lends))]
    fn iter_paths(self) -> FloatContoursBufferResourceIterator<'a, P> {
        let points = self.points.as_slice();
        FloatContoursBufferResourceIterator::with_ranges(points, self.ranges.as_slice())
    }
}

impl<'a, P: ShapePoint + 'a> ShapeResource<'a, P> for &'a FloatFlatShapesBuffer<P> {
    type ResourceIter = FloatShapesBufferResourceIterator<'a, P>;

    ghost paths = { λ buffer. readable_slices buffer.now.points.items buffer.now.contour_ranges.items };

    ghost begins = { λ buffer iter. iter ≡ readable_slices buffer.now.points.items buffer.now.contour_ranges.items };

    #[tactic(auto, using(i_shape_source::proofs::Lent::runs_from_lends))]
    fn iter_paths(self) -> FloatShapesBufferResourceIterator<'a, P> {
        let ranges = self.contour_ranges.as_slice();
        FloatShapesBufferResourceIterator::with_ranges(self.points.as_slice(), ranges)
    }
}
