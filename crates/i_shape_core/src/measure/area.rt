//! The double area of a slice, and the area and double area of the points that an iterator has left.

ghost use Rattle.std.specs.Prelude.{◌≡◌, ◌+◌, ◌*◌, ◌<◌, ◌≤◌, ◌+ℤ◌, pos, None, List, length, int_div};
ghost use Rattle.std.specs.Int.{int_wrap};
ghost use Rattle.std.specs.Iterator.{Drains, IsFinite};
ghost use Rattle.i_shape_core.specs.IntPoint.{contour_of};
ghost use Rattle.i_shape_core.specs.Reading.{read};
ghost use Rattle.i_shape_core.specs.Edges.{shoelace};

use crate::number::{IntNumber, WideIntNumber};
use crate::point::{ContourPoint, IntPoint};

/// The double area of the points that an iterator has left.
pub trait UnsafeArea<I: IntNumber>: Iterator<Item = IntPoint<I>> + Sized {
    /// Returns the double area of the contour of the points left, positive if it is counterclockwise. The points
    /// needn't be safe: a sum that doesn't fit wraps. Requires an iterator that ends and has a point left. Makes one
    /// pass and allocates nothing.
    fn unsafe_area(self) -> I::Wide
        requires can { Self.can_next self }
        requires ends { IsFinite (Self.remaining self) }
        requires more { (rest : Self) → ¬ (Self.next_gives self None rest) }
        ensures { (points : List (IntPoint I)) × Drains Self.next_gives self points
            × (I.Wide.value result ≡ int_wrap I.Wide.width (shoelace (contour_of I.value points))) };
}

impl<I: IntNumber, T: Iterator<Item = IntPoint<I>>> UnsafeArea<I> for T {
    fn unsafe_area(mut self) -> I::Wide {
        let Some(first) = self.next() else {
            // a point is left, as the call requires
            unreachable!()
        };
        let mut area = I::Wide::ZERO;
        let mut previous = first;
        for point in self {
            area = area.wrapping_add(previous.cross_product(point));
            previous = point;
        }
        area.wrapping_add(previous.cross_product(first))
    }
}

/// The area of the points that an iterator has left.
pub trait IteratorArea<I: IntNumber>: Iterator<Item = IntPoint<I>> + Sized {
    /// Returns the double area, as `UnsafeArea::unsafe_area` does.
    fn area_two(self) -> I::Wide
        requires can { Self.can_next self }
        requires ends { IsFinite (Self.remaining self) }
        requires more { (rest : Self) → ¬ (Self.next_gives self None rest) }
        ensures { (points : List (IntPoint I)) × Drains Self.next_gives self points
            × (I.Wide.value result ≡ int_wrap I.Wide.width (shoelace (contour_of I.value points))) };

    /// Returns half of `area_two`, rounded toward zero.
    fn area(self) -> I::Wide
        requires can { Self.can_next self }
        requires ends { IsFinite (Self.remaining self) }
        requires more { (rest : Self) → ¬ (Self.next_gives self None rest) }
        ensures { (points : List (IntPoint I)) × Drains Self.next_gives self points
            × (I.Wide.value result
            ≡ int_div (int_wrap I.Wide.width (shoelace (contour_of I.value points))) (pos 2)) };
}

impl<I: IntNumber, T: Iterator<Item = IntPoint<I>>> IteratorArea<I> for T {
    fn area_two(self) -> I::Wide {
        self.unsafe_area()
    }

    fn area(self) -> I::Wide {
        self.area_two().divide(I::Wide::TWO)
    }
}

/// Returns the double area of the contour of the points, positive if it is counterclockwise, and zero without points.
/// The points needn't be safe: a sum that doesn't fit wraps. Makes one pass and allocates nothing.
pub fn area_of<P: ContourPoint>(points: &[P]) -> <P::Coordinate as IntNumber>::Wide
    ensures { P.Coordinate.Wide.value result
        ≡ int_wrap P.Coordinate.Wide.width
        (shoelace (read P.Coordinate.value P.points points.now)) }
{
    if points.len() < 2 {
        return <P::Coordinate as IntNumber>::Wide::ZERO;
    }
    let last = points.len() - 1;
    // A slice of its own, by which compilers read each point once for two edges.
    let ends = &points[1..];
    let mut sum = <P::Coordinate as IntNumber>::Wide::ZERO;
    for place in 0..last {
        let start = points[place].to_point();
        let end = ends[place].to_point();
        sum = sum.wrapping_add(start.cross_product(end));
    }
    let end = points[last].to_point();
    sum.wrapping_add(end.cross_product(points[0].to_point()))
}
