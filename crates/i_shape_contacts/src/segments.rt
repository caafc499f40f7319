//! Tests of two segments.

ghost use Rattle.std.specs.Prelude.{◌≡◌, ◌↔◌, IsTrue};
ghost use Rattle.i_shape_core.specs.IntPoint.{point_of, IsSafe};
ghost use Rattle.i_shape_contacts.specs.Meeting.{Meet, MeetAgain};
ghost use Rattle.i_shape_contacts.specs.Steps.Deciding.{AreLess, Overlap, Straddle, IsReversal};

use i_shape_core::number::{IntNumber, WideIntNumber};
use i_shape_core::point::IntPoint;

/// Returns whether the segments from `a` to `b` and from `c` to `e` share a point, ends included.
pub fn do_meet<I: IntNumber>(a: IntPoint<I>, b: IntPoint<I>, c: IntPoint<I>, e: IntPoint<I>) -> bool
    requires a_safe { IsSafe I.width (point_of I.value a) }
    requires b_safe { IsSafe I.width (point_of I.value b) }
    requires c_safe { IsSafe I.width (point_of I.value c) }
    requires e_safe { IsSafe I.width (point_of I.value e) }
    ensures { IsTrue result
        ↔ Meet (point_of I.value a) (point_of I.value b) (point_of I.value c) (point_of I.value e) }
{
    share_box(a, b, c, e) && are_astride(a, b, c, e)
}

/// Returns whether the segments from `a` to `b` and from `b` to `c` share a point other than `b`.
pub fn do_meet_again<I: IntNumber>(a: IntPoint<I>, b: IntPoint<I>, c: IntPoint<I>) -> bool
    requires a_safe { IsSafe I.width (point_of I.value a) }
    requires b_safe { IsSafe I.width (point_of I.value b) }
    requires c_safe { IsSafe I.width (point_of I.value c) }
    ensures { IsTrue result
        ↔ MeetAgain (point_of I.value a) (point_of I.value b) (point_of I.value c) }
{
    does_reverse(a, b, c)
}

/// Returns whether the path over `a`, `b` and `c` turns straight back at `b`.
#[tactic(auto, unfolding(i_shape_core::specs::Point::cross, i_shape_core::specs::Point::dot))]
fn does_reverse<I: IntNumber>(a: IntPoint<I>, b: IntPoint<I>, c: IntPoint<I>) -> bool
    requires a_safe { IsSafe I.width (point_of I.value a) }
    requires b_safe { IsSafe I.width (point_of I.value b) }
    requires c_safe { IsSafe I.width (point_of I.value c) }
    ensures { IsTrue result
        ↔ IsReversal (point_of I.value a) (point_of I.value b) (point_of I.value c) }
{
    let first = b - a;
    let second = c - b;
    first.is_parallel_to(second) && first.dot_product(second) < I::Wide::ZERO
}

/// Returns whether the segments from `a` to `b` and from `c` to `e` overlap in both coordinates.
fn share_box<I: IntNumber>(a: IntPoint<I>, b: IntPoint<I>, c: IntPoint<I>, e: IntPoint<I>) -> bool
    ensures { IsTrue result
        ↔ (Overlap (I.value a.x) (I.value b.x) (I.value c.x) (I.value e.x)
        × Overlap (I.value a.y) (I.value b.y) (I.value c.y) (I.value e.y)) }
{
    do_overlap(a.x, b.x, c.x, e.x) && do_overlap(a.y, b.y, c.y, e.y)
}

/// Returns whether neither segment lies strictly on one side of the other's line.
fn are_astride<I: IntNumber>(a: IntPoint<I>, b: IntPoint<I>, c: IntPoint<I>, e: IntPoint<I>) -> bool
    requires a_safe { IsSafe I.width (point_of I.value a) }
    requires b_safe { IsSafe I.width (point_of I.value b) }
    requires c_safe { IsSafe I.width (point_of I.value c) }
    requires e_safe { IsSafe I.width (point_of I.value e) }
    ensures { IsTrue result
        ↔ (Straddle (point_of I.value a) (point_of I.value b) (point_of I.value c) (point_of I.value e)
        × Straddle (point_of I.value c) (point_of I.value e) (point_of I.value a) (point_of I.value b)) }
{
    is_astride(a, b, c, e) && is_astride(c, e, a, b)
}

/// Returns whether the ranges between `a` and `b` and between `c` and `e` share a number.
fn do_overlap<I: IntNumber>(a: I, b: I, c: I, e: I) -> bool
    ensures { IsTrue result ↔ Overlap (I.value a) (I.value b) (I.value c) (I.value e) }
{
    !are_less(a, b, c, e) && !are_less(c, e, a, b)
}

/// Returns whether both `a` and `b` are less than `c` and `e`.
fn are_less<I: IntNumber>(a: I, b: I, c: I, e: I) -> bool
    ensures { IsTrue result ↔ AreLess (I.value a) (I.value b) (I.value c) (I.value e) }
{
    (a < c) & (b < c) & (a < e) & (b < e)
}

/// Returns whether `c` and `e` don't lie strictly on one side of the line over `a` and `b`.
#[tactic(auto, unfolding(i_shape_core::specs::Point::cross))]
fn is_astride<I: IntNumber>(a: IntPoint<I>, b: IntPoint<I>, c: IntPoint<I>, e: IntPoint<I>) -> bool
    requires a_safe { IsSafe I.width (point_of I.value a) }
    requires b_safe { IsSafe I.width (point_of I.value b) }
    requires c_safe { IsSafe I.width (point_of I.value c) }
    requires e_safe { IsSafe I.width (point_of I.value e) }
    ensures { IsTrue result
        ↔ Straddle (point_of I.value a) (point_of I.value b) (point_of I.value c)
        (point_of I.value e) }
{
    let way = b - a;
    let first = way.cross_product(c - b);
    let second = way.cross_product(e - b);
    let zero = I::Wide::ZERO;
    (first <= zero || second <= zero) && (first >= zero || second >= zero)
}

/// Returns whether the points are equal.
pub fn are_equal<I: IntNumber>(a: IntPoint<I>, b: IntPoint<I>) -> bool
    ensures { IsTrue result ↔ (point_of I.value a ≡ point_of I.value b) }
{
    a == b
}
