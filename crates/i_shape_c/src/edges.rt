//! Marks of the points on edges of contours, at any width. Many points are sorted by height first, if there is memory.

ghost use Rattle.std.specs.Prelude.{◌≡◌, ◌<◌, ◌≤◌, ◌<ℤ◌, ◌≤ℤ◌, ◌↔◌, ℕ, length, map, IsTrue, OnOk, OnErr};
ghost use Rattle.std.specs.List.{All};
ghost use Rattle.i_shape.specs.Boundary.{IsBetween, IsOnEdge};
ghost use Rattle.i_shape.specs.Contour.{point_at};
ghost use Rattle.i_shape.specs.Heights.{asked_points, IsRising};
ghost use Rattle.i_shape.specs.IntPoint.{point_of, IsSafe, IsSafeContour};
ghost use Rattle.i_shape.specs.Reading.{read};
ghost use Rattle.i_shape_c.specs.Batch.{PartsPoints, AreSafeContours};
ghost use Rattle.i_shape_c.specs.Cleaned.{AreSafe};
ghost use Rattle.i_shape_c.specs.Locations.{IsOnContours};
ghost use Rattle.i_shape_c.specs.Marked.{IsMarked, IsThere};
ghost use Rattle.i_shape_c.specs.Points.{point_by};
ghost use Rattle.i_shape_c.specs.Steps.AskedFor.{IsAskedFor};

use crate::batch::part;
use crate::point::CPoint;
use crate::winding::{FEWEST_EDGES, FEWEST_SORTED};
use i_shape::IntNumber;
use i_shape::int::{ContourPoint, IntPoint};
use i_shape_core::boundary::is_on_boundary;
use i_shape_core::heights::{Asked, by_height};
use i_shape_core::number::WideIntNumber;
use std::alloc::{AllocError, Global};

/// Writes `mark` for each point of `about` on an edge of a contour. Sorts the points by height if that saves time.
pub fn mark_edges<P: CPoint, X: Copy>(
    alloc: Global,
    points: &[P],
    offsets: &[usize],
    about: &[P],
    mark: X,
    out: &mut [X],
)
    requires parted { PartsPoints (length points.now) offsets.now }
    requires points_safe { AreSafeContours P.Coordinate.width
        (point_by P.Coordinate.value P.point) points.now offsets.now }
    requires about_safe { AreSafe P.Coordinate.width (point_by P.Coordinate.value P.point) about.now }
    requires room { length about.now ≤ length out.old }
    ensures { IsMarked (IsThere (IsOnContours (point_by P.Coordinate.value P.point) points.now offsets.now)
        (map (point_by P.Coordinate.value P.point) about.now)) mark out.old out.new }
{
    if about.len() >= FEWEST_SORTED && points.len() >= FEWEST_EDGES {
        if mark_by_height(alloc, points, offsets, about, mark, out).is_ok() {
            return;
        }
    }
    mark_one_by_one(points, offsets, about, mark, out);
}

/// Writes `mark` for each point of `about` on an edge of a contour. Tries only edges that pass the point's height. An
/// error leaves `out` unchanged.
fn mark_by_height<P: CPoint, X: Copy>(
    alloc: Global,
    points: &[P],
    offsets: &[usize],
    about: &[P],
    mark: X,
    out: &mut [X],
) -> Result<(), AllocError>
    requires parted { PartsPoints (length points.now) offsets.now }
    requires points_safe { AreSafeContours P.Coordinate.width
        (point_by P.Coordinate.value P.point) points.now offsets.now }
    requires about_safe { AreSafe P.Coordinate.width (point_by P.Coordinate.value P.point) about.now }
    requires room { length about.now ≤ length out.old }
    ensures answer { OnOk result (IsMarked
        (IsThere (IsOnContours (point_by P.Coordinate.value P.point) points.now offsets.now)
        (map (point_by P.Coordinate.value P.point) about.now)) mark out.old out.new) }
    ensures refused { OnErr result (out.new ≡ out.old) }
{
    let asked = by_height(alloc, about)?;
    mark_contours(&asked, points, offsets, mark, out);
    Ok(())
}

/// Writes `mark` at the place of each of the points on an edge of a contour.
fn mark_contours<P: CPoint, X: Copy>(
    asked: &[Asked<P::Coordinate>],
    points: &[P],
    offsets: &[usize],
    mark: X,
    out: &mut [X],
)
    requires parted { PartsPoints (length points.now) offsets.now }
    requires points_safe { AreSafeContours P.Coordinate.width
        (point_by P.Coordinate.value P.point) points.now offsets.now }
    requires asked_safe { All (IsSafe P.Coordinate.width)
        (asked_points P.Coordinate.value asked.now) }
    requires rising { IsRising (asked_points P.Coordinate.value asked.now) }
    requires within { All (λ q. q.place < length out.old) asked.now }
    ensures { IsMarked (IsAskedFor P.Coordinate.value
        (IsOnContours (point_by P.Coordinate.value P.point) points.now offsets.now) asked.now)
        mark out.old out.new }
{
    for place in 1..offsets.len() {
        mark_contour(
            asked,
            part(points, offsets[place - 1], offsets[place]),
            mark,
            out,
        );
    }
}

/// Writes `mark` at the place of each of the points on an edge of the contour.
fn mark_contour<P: ContourPoint, X: Copy>(
    asked: &[Asked<P::Coordinate>],
    contour: &[P],
    mark: X,
    out: &mut [X],
)
    requires asked_safe { All (IsSafe P.Coordinate.width)
        (asked_points P.Coordinate.value asked.now) }
    requires contour_safe { IsSafeContour P.Coordinate.width
        (read P.Coordinate.value P.points contour.now) }
    requires rising { IsRising (asked_points P.Coordinate.value asked.now) }
    requires within { All (λ q. q.place < length out.old) asked.now }
    ensures { IsMarked (IsAskedFor P.Coordinate.value
        (IsOnEdge (read P.Coordinate.value P.points contour.now)) asked.now) mark out.old out.new }
{
    let Some(last) = contour.last() else {
        return;
    };
    let mut start = last.to_point();
    for given in contour {
        let end = given.to_point();
        mark_edge(asked, start, end, mark, out);
        start = end;
    }
}

/// Writes `mark` at the place of each of the points on the edge from `start` to `end`. Requires points sorted by
/// height.
fn mark_edge<I: IntNumber, X: Copy>(
    asked: &[Asked<I>],
    start: IntPoint<I>,
    end: IntPoint<I>,
    mark: X,
    out: &mut [X],
)
    requires asked_safe { All (IsSafe I.width) (asked_points I.value asked.now) }
    requires start_safe { IsSafe I.width (point_of I.value start) }
    requires end_safe { IsSafe I.width (point_of I.value end) }
    requires rising { IsRising (asked_points I.value asked.now) }
    requires within { All (λ q. q.place < length out.old) asked.now }
    ensures { IsMarked (IsAskedFor I.value
        (λ p. IsBetween (point_of I.value start) p (point_of I.value end)) asked.now)
        mark out.old out.new }
{
    let low = lower(start.y, end.y);
    let high = higher(start.y, end.y);
    let mut at = first_from(asked, low);
    while at < asked.len() && asked[at].point.y <= high {
        if is_between(start, asked[at].point, end) {
            out[asked[at].place] = mark;
        }
        at += 1;
    }
}

/// Returns the number of points below the height, which are the first ones. Requires points sorted by height.
fn first_from<I: IntNumber>(asked: &[Asked<I>], height: I) -> usize
    requires { IsRising (asked_points I.value asked.now) }
    ensures { (k : ℕ) → k < result → (point_at (asked_points I.value asked.now) k).y <ℤ I.value height }
{
    let mut low = 0;
    let mut high = asked.len();
    while low < high {
        let middle = low + (high - low) / 2;
        if height > asked[middle].point.y {
            low = middle + 1;
        } else {
            high = middle;
        }
    }
    low
}

/// Returns the lower of two heights.
fn lower<I: IntNumber>(height: I, other: I) -> I
    ensures height { I.value result ≤ℤ I.value height }
    ensures other { I.value result ≤ℤ I.value other }
{
    if height <= other { height } else { other }
}

/// Returns the higher of two heights.
fn higher<I: IntNumber>(height: I, other: I) -> I
    ensures height { I.value height ≤ℤ I.value result }
    ensures other { I.value other ≤ℤ I.value result }
{
    if height <= other { other } else { height }
}

/// Returns whether `point` lies on the edge from `start` to `end`, ends included.
#[tactic(auto, unfolding(i_shape_core::specs::Point::cross, i_shape_core::specs::Point::dot))]
fn is_between<I: IntNumber>(start: IntPoint<I>, point: IntPoint<I>, end: IntPoint<I>) -> bool
    requires start_safe { IsSafe I.width (point_of I.value start) }
    requires point_safe { IsSafe I.width (point_of I.value point) }
    requires end_safe { IsSafe I.width (point_of I.value end) }
    ensures { IsTrue result
        ↔ IsBetween (point_of I.value start) (point_of I.value point) (point_of I.value end) }
{
    let before = point - start;
    let after = end - point;
    before.is_parallel_to(after) && before.dot_product(after) >= I::Wide::ZERO
}

/// Writes `mark` for each point of `about` on an edge of a contour, edge after edge for each point.
fn mark_one_by_one<P: CPoint, X: Copy>(
    points: &[P],
    offsets: &[usize],
    about: &[P],
    mark: X,
    out: &mut [X],
)
    requires parted { PartsPoints (length points.now) offsets.now }
    requires points_safe { AreSafeContours P.Coordinate.width
        (point_by P.Coordinate.value P.point) points.now offsets.now }
    requires about_safe { AreSafe P.Coordinate.width (point_by P.Coordinate.value P.point) about.now }
    requires room { length about.now ≤ length out.old }
    ensures { IsMarked (IsThere (IsOnContours (point_by P.Coordinate.value P.point) points.now offsets.now)
        (map (point_by P.Coordinate.value P.point) about.now)) mark out.old out.new }
{
    for place in 0..about.len() {
        if is_on_contours(points, offsets, about[place].to_point()) {
            out[place] = mark;
        }
    }
}

/// Returns whether the point lies on an edge of one of the contours.
fn is_on_contours<P: CPoint>(
    points: &[P],
    offsets: &[usize],
    point: IntPoint<P::Coordinate>,
) -> bool
    requires parted { PartsPoints (length points.now) offsets.now }
    requires points_safe { AreSafeContours P.Coordinate.width
        (point_by P.Coordinate.value P.point) points.now offsets.now }
    requires point_safe { IsSafe P.Coordinate.width (point_of P.Coordinate.value point) }
    ensures { IsTrue result ↔ IsOnContours (point_by P.Coordinate.value P.point)
        points.now offsets.now (point_of P.Coordinate.value point) }
{
    for place in 1..offsets.len() {
        if is_on_boundary(part(points, offsets[place - 1], offsets[place]), point) {
            return true;
        }
    }
    false
}
