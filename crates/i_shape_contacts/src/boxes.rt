//! Boxes around edges of a contour.

ghost use Rattle.std.specs.Prelude.{◌↔◌, ◌≤ℤ◌, IsTrue};
ghost use Rattle.i_shape_core.specs.IntPoint.{point_of};
ghost use Rattle.i_shape_core.specs.Point.{Point};
ghost use Rattle.i_shape_contacts.specs.Steps.Boxes.{Holds, AreApart};

use i_shape_core::number::IntNumber;
use i_shape_core::point::IntPoint;

/// A box: its lower left corner and its upper right one.
#[derive(Clone, Copy)]
pub struct Bounds<I> {
    pub low: IntPoint<I>,
    pub high: IntPoint<I>,
}

/// Some chunks of edges, or rings, that follow one another: the box of the first, the box of all, and the index of the one
/// after them.
#[derive(Clone, Copy)]
pub struct Block<I> {
    pub own: Bounds<I>,
    pub bounds: Bounds<I>,
    pub next: usize,
}

fn lesser<I: IntNumber>(a: I, b: I) -> I
    ensures first { I.value result ≤ℤ I.value a }
    ensures second { I.value result ≤ℤ I.value b }
{
    if b < a { b } else { a }
}

fn greater<I: IntNumber>(a: I, b: I) -> I
    ensures first { I.value a ≤ℤ I.value result }
    ensures second { I.value b ≤ℤ I.value result }
{
    if a < b { b } else { a }
}

/// Returns a box that holds both points.
pub fn bounds_between<I: IntNumber>(a: IntPoint<I>, b: IntPoint<I>) -> Bounds<I>
    ensures first { Holds I.value result (point_of I.value a) }
    ensures second { Holds I.value result (point_of I.value b) }
{
    Bounds {
        low: IntPoint {
            x: lesser(a.x, b.x),
            y: lesser(a.y, b.y),
        },
        high: IntPoint {
            x: greater(a.x, b.x),
            y: greater(a.y, b.y),
        },
    }
}

/// Returns a box that holds what either box holds.
pub fn joined<I: IntNumber>(a: Bounds<I>, b: Bounds<I>) -> Bounds<I>
    ensures first { (p : Point) → Holds I.value a p → Holds I.value result p }
    ensures second { (p : Point) → Holds I.value b p → Holds I.value result p }
{
    Bounds {
        low: IntPoint {
            x: lesser(a.low.x, b.low.x),
            y: lesser(a.low.y, b.low.y),
        },
        high: IntPoint {
            x: greater(a.high.x, b.high.x),
            y: greater(a.high.y, b.high.y),
        },
    }
}

/// Returns whether the boxes share no point.
pub fn are_apart<I: IntNumber>(a: Bounds<I>, b: Bounds<I>) -> bool
    ensures { IsTrue result ↔ AreApart I.value a b }
{
    a.high.x < b.low.x || b.high.x < a.low.x || a.high.y < b.low.y || b.high.y < a.low.y
}
