//! How many turns of a path come before its first zero turn, found by a test of several turns at a time.

ghost use Rattle.std.specs.Prelude.{◌≡◌, ◌↔◌, ◌+◌, ◌<◌, ◌≤◌, ◌⊎◌, length, IsTrue};
ghost use Rattle.i_shape_core.specs.IntPoint.{point_of, IsSafe, IsSafeContour};
ghost use Rattle.i_shape_core.specs.Point.{IsZeroTurn};
ghost use Rattle.i_shape_core.specs.Reading.{read};
ghost use Rattle.i_shape_core.specs.Turning.{IsTurning, IsZeroTurnFrom};

use crate::number::IntNumber;
use crate::point::{ContourPoint, IntPoint};
use crate::turn::{Turn, turn_at};

/// Returns how many turns come before the first zero turn of the path over the points: all of them, if it has none. The
/// closing turns aren't tested. Requires at least two points.
#[inline(always)]
pub(crate) fn count_turning<P: ContourPoint>(points: &[P]) -> usize
    requires safe { IsSafeContour P.Coordinate.width
        (read P.Coordinate.value P.points points.now) }
    requires some { 2 ≤ length points.now }
    ensures turning { IsTurning (read P.Coordinate.value P.points points.now) 0 result }
    ensures within { result + 2 ≤ length points.now }
    ensures stopped { (result + 2 ≡ length points.now)
        ⊎ IsZeroTurnFrom (read P.Coordinate.value P.points points.now) result }
{
    let block = turns_at_a_time::<P::Coordinate>();
    let turns = points.len() - 2;
    let mut tested = 0;
    while turns - tested >= block {
        let place = first_zero_turn(points, tested, block);
        if place < tested + block {
            return place;
        }
        tested += block;
    }
    search_zero_turn(points, tested, turns)
}

/// Whether one instruction of the target multiplies several numbers of 32 bits into numbers of 64.
const HAS_WIDE_PRODUCTS: bool = true;

/// How many turns are tested at a time: so many that a compiler makes lanes of them, or so few that it writes them out.
#[inline(always)]
fn turns_at_a_time<I: IntNumber>() -> usize
    ensures { 0 < result }
{
    if I::BITS < 64 && HAS_WIDE_PRODUCTS {
        16
    } else {
        8
    }
}

/// Returns the place of the first zero turn among `count` turns from `first` on, or the place after them. It tests all
/// of them at once first.
#[inline(always)]
fn first_zero_turn<P: ContourPoint>(points: &[P], first: usize, count: usize) -> usize
    requires safe { IsSafeContour P.Coordinate.width
        (read P.Coordinate.value P.points points.now) }
    requires within { first + count + 2 ≤ length points.now }
    ensures from { first ≤ result }
    ensures within { result ≤ first + count }
    ensures turning { IsTurning (read P.Coordinate.value P.points points.now) first result }
    ensures stopped { (result ≡ first + count)
        ⊎ IsZeroTurnFrom (read P.Coordinate.value P.points points.now) result }
{
    if !may_have_zero_turn(points, first, count) {
        return first + count;
    }
    search_zero_turn(points, first, first + count)
}

/// Returns the place of the first zero turn from `first` on and before `end`, or `end`. It tests one after another.
fn search_zero_turn<P: ContourPoint>(points: &[P], first: usize, end: usize) -> usize
    requires safe { IsSafeContour P.Coordinate.width
        (read P.Coordinate.value P.points points.now) }
    requires order { first ≤ end }
    requires within { end + 2 ≤ length points.now }
    ensures from { first ≤ result }
    ensures within { result ≤ end }
    ensures turning { IsTurning (read P.Coordinate.value P.points points.now) first result }
    ensures stopped { (result ≡ end)
        ⊎ IsZeroTurnFrom (read P.Coordinate.value P.points points.now) result }
{
    for place in first..end {
        if is_zero_turn(points, place) {
            return place;
        }
    }
    end
}

/// Returns whether the turn from the point at `place` over the next to the one after that is a zero turn.
fn is_zero_turn<P: ContourPoint>(points: &[P], place: usize) -> bool
    requires safe { IsSafeContour P.Coordinate.width
        (read P.Coordinate.value P.points points.now) }
    requires within { place + 2 < length points.now }
    ensures { IsTrue result
        ↔ IsZeroTurnFrom (read P.Coordinate.value P.points points.now) place }
{
    turn_at(points, place, place + 1, place + 2) != Turn::Turning
}

/// Returns true if one of `count` turns from `first` on is a zero turn, and mostly false otherwise. It counts them
/// without a branch, in a number as wide as most products, so that compilers test several turns by one instruction.
#[inline(always)]
fn may_have_zero_turn<P: ContourPoint>(points: &[P], first: usize, count: usize) -> bool
    requires safe { IsSafeContour P.Coordinate.width
        (read P.Coordinate.value P.points points.now) }
    requires within { first + count + 2 ≤ length points.now }
    ensures { IsTrue result
        ⊎ IsTurning (read P.Coordinate.value P.points points.now) first (first + count) }
{
    let from = &points[first..first + count];
    let over = &points[first + 1..first + 1 + count];
    let to = &points[first + 2..first + 2 + count];
    let mut zero_turns = 0u64;
    for at in 0..count {
        let may_be_zero = may_be_zero_turn(
            from[at].to_point(),
            over[at].to_point(),
            to[at].to_point(),
        );
        zero_turns += may_be_zero as u64;
    }
    zero_turns != 0
}

/// Returns true if the turn from `a` over `b` to `c` is a zero turn, and mostly false otherwise.
#[inline(always)]
fn may_be_zero_turn<I: IntNumber>(a: IntPoint<I>, b: IntPoint<I>, c: IntPoint<I>) -> bool
    requires a_safe { IsSafe I.width (point_of I.value a) }
    requires b_safe { IsSafe I.width (point_of I.value b) }
    requires c_safe { IsSafe I.width (point_of I.value c) }
    ensures { IsZeroTurn (point_of I.value a) (point_of I.value b) (point_of I.value c) → IsTrue result }
{
    let first = b - a;
    let second = c - b;
    I::may_products_be_equal(first.x, second.y, first.y, second.x)
}
