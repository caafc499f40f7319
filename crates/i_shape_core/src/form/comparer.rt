//! A view of a contour for the search for its least rotation, which counts its comparisons.

ghost use Rattle.std.specs.Prelude.{◌≡◌, ◌+◌, ◌<◌, length, get_or};
ghost use Rattle.std.specs.Ordering.{MatchOrdering};
ghost use Rattle.i_shape_core.specs.IntPoint.{point_of, contour_of};
ghost use Rattle.i_shape_core.specs.Canonical.{IsBefore};
ghost use Rattle.i_shape_core.specs.Steps.Walks.{Compared, IsOrder};

use crate::number::IntNumber;
use crate::point::{ContourPoint, IntPoint};
use std::cmp::Ordering;
use std::marker::Model;

/// The only view of a contour that the search for its least rotation gets. It counts the pairs of points compared.
#[derive(Drop)]
pub(crate) struct Comparer<'a, P: ContourPoint> {
    points: &'a [P],
    count: u128,
}

impl<'a, P: ContourPoint> Model for Comparer<'a, P> {
    ghost Value = { Compared P.Coordinate };

    ghost view = { λ p. record { contour = P.points p.points.now; comparisons = p.count } };
}

impl<'a, P: ContourPoint> Comparer<'a, P> {
    /// Returns a comparer of a contour, with nothing compared.
    pub(crate) fn new(contour: &'a [P]) -> Comparer<'a, P>
        ensures contour { result.contour ≡ P.points contour.now }
        ensures comparisons { result.comparisons ≡ 0 }
    {
        Comparer {
            points: contour,
            count: 0,
        }
    }

    /// Returns the number of points.
    pub(crate) fn len(&self) -> usize
        ensures { result ≡ length self.now.contour }
    {
        self.points.len()
    }

    /// Returns how the points at two places are ordered: by x, then by y. Counts one comparison.
    pub(crate) fn compare(&mut self, first: usize, second: usize) -> Ordering
        requires first_within { first < length self.old.contour }
        requires second_within { second < length self.old.contour }
        requires room { self.old.comparisons < u128.MAX }
        ensures order { IsOrder (contour_of P.Coordinate.value self.old.contour)
            first second result }
        ensures contour { self.new.contour ≡ self.old.contour }
        ensures comparisons { self.new.comparisons ≡ self.old.comparisons + 1 }
    {
        self.count += 1;
        compare_points(self.point(first), self.point(second))
    }

    /// Returns the point at a place.
    fn point(&self, place: usize) -> IntPoint<P::Coordinate>
        requires { place < length self.now.contour }
        ensures { result ≡ get_or self.now.contour place result }
    {
        let points = self.points;
        points[place].to_point()
    }

    /// Returns the number of comparisons so far.
    pub(crate) fn comparisons(&self) -> u128
        ensures { result ≡ self.now.comparisons }
    {
        self.count
    }
}

/// Returns how two points are ordered: by x, then by y.
fn compare_points<I: IntNumber>(a: IntPoint<I>, b: IntPoint<I>) -> Ordering
    ensures { let p = point_of I.value a in let q = point_of
        I.value b in MatchOrdering result (IsBefore p q) (p ≡ q) (IsBefore q p) }
{
    a.cmp(&b)
}
