//! Points sorted by height, and the winding numbers of contours about them.

ghost use Rattle.std.specs.Prelude.{◌≡◌, ◌<◌, ◌≤◌, ◌≤ℤ◌, ◌+ℤ◌, ◌++◌, true, false, ℤ, List, length, map, drop, IfOk, IsOk, OnOk, OnErr, []};
ghost use Rattle.std.specs.Int.{int_wrap, w64};
ghost use Rattle.std.specs.List.{All};
ghost use Rattle.std.specs.List.Sorted.{IsPermutation};
ghost use Rattle.i_shape_core.specs.Point.{Point};
ghost use Rattle.i_shape_core.specs.IntPoint.{point_of, contour_of, IsSafe, IsSafeContour};
ghost use Rattle.i_shape_core.specs.Reading.{read};
ghost use Rattle.i_shape_core.specs.Edges.{is_above};
ghost use Rattle.i_shape_core.specs.Winding.{winding, winding_of_edge};
ghost use Rattle.i_shape_core.specs.Heights.{asked_points, IsRising, IsPlaceOf, IsAdded, IsPassed, AllFit, asks};

use crate::number::IntNumber;
use crate::point::{ContourPoint, IntPoint};
use crate::turn::triangle::Triangle;
use std::alloc::{AllocError, Global};

/// A point to find the winding number about, and its place in the caller's list.
#[derive(Drop)]
pub struct Asked<I> {
    pub point: IntPoint<I>,
    pub place: usize,
}

/// Adds to the total of each point what the edge from `start` up to `end` adds to the winding number about it. Returns
/// the number of points that `end` is above, which are the first ones. Requires points sorted by height, of which
/// `start` is above the first `from` alone, and a total for each.
#[inline(always)]
fn rise<I: IntNumber>(
    asked: &[Asked<I>],
    totals: &mut [isize],
    from: usize,
    start: IntPoint<I>,
    end: IntPoint<I>,
) -> usize
    requires asked_safe { All (IsSafe I.width) (asked_points I.value asked.now) }
    requires start_safe { IsSafe I.width (point_of I.value start) }
    requires end_safe { IsSafe I.width (point_of I.value end) }
    requires rising { IsRising (asked_points I.value asked.now) }
    requires room { length totals.old ≡ length asked.now }
    requires fit { AllFit totals.old }
    requires here { IsPlaceOf (asked_points I.value asked.now) (point_of I.value start) from }
    requires up { I.value start.y ≤ℤ I.value end.y }
    ensures { IsPassed (asked_points I.value asked.now) (point_of I.value start)
        (point_of I.value end) result totals.old totals.new }
{
    let mut place = from;
    while place < asked.len() && end.y > asked[place].point.y {
        let turn = turn_of_rise(asked[place].point, start, end);
        totals[place] = plus(totals[place], turn);
        place += 1;
    }
    place
}

/// Adds to the total of each point what the edge from `start` down to `end` adds to the winding number about it.
/// Returns and requires what `rise` does.
#[inline(always)]
fn fall<I: IntNumber>(
    asked: &[Asked<I>],
    totals: &mut [isize],
    from: usize,
    start: IntPoint<I>,
    end: IntPoint<I>,
) -> usize
    requires asked_safe { All (IsSafe I.width) (asked_points I.value asked.now) }
    requires start_safe { IsSafe I.width (point_of I.value start) }
    requires end_safe { IsSafe I.width (point_of I.value end) }
    requires rising { IsRising (asked_points I.value asked.now) }
    requires room { length totals.old ≡ length asked.now }
    requires fit { AllFit totals.old }
    requires here { IsPlaceOf (asked_points I.value asked.now) (point_of I.value start) from }
    requires down { I.value end.y ≤ℤ I.value start.y }
    ensures { IsPassed (asked_points I.value asked.now) (point_of I.value start)
        (point_of I.value end) result totals.old totals.new }
{
    let mut place = from;
    while place > 0 && end.y <= asked[place - 1].point.y {
        place -= 1;
        let turn = turn_of_fall(asked[place].point, start, end);
        totals[place] = plus(totals[place], turn);
    }
    place
}

/// Returns what an edge that rises from `start` to `end` past the height of `point` adds to the winding number about
/// it.
#[inline(always)]
fn turn_of_rise<I: IntNumber>(point: IntPoint<I>, start: IntPoint<I>, end: IntPoint<I>) -> isize
    requires point_safe { IsSafe I.width (point_of I.value point) }
    requires start_safe { IsSafe I.width (point_of I.value start) }
    requires end_safe { IsSafe I.width (point_of I.value end) }
    requires starts { is_above (point_of I.value point) (point_of I.value start) ≡ false }
    requires ends { is_above (point_of I.value point) (point_of I.value end) ≡ true }
    ensures { result ≡ winding_of_edge (point_of I.value point)
        (record { start = point_of I.value start; end = point_of I.value end }) }
{
    if Triangle::is_clockwise(start, point, end) {
        1
    } else {
        0
    }
}

/// Returns what an edge that falls from `start` to `end` past the height of `point` adds to the winding number about
/// it.
#[inline(always)]
fn turn_of_fall<I: IntNumber>(point: IntPoint<I>, start: IntPoint<I>, end: IntPoint<I>) -> isize
    requires point_safe { IsSafe I.width (point_of I.value point) }
    requires start_safe { IsSafe I.width (point_of I.value start) }
    requires end_safe { IsSafe I.width (point_of I.value end) }
    requires starts { is_above (point_of I.value point) (point_of I.value start) ≡ true }
    requires ends { is_above (point_of I.value point) (point_of I.value end) ≡ false }
    ensures { result ≡ winding_of_edge (point_of I.value point)
        (record { start = point_of I.value start; end = point_of I.value end }) }
{
    if Triangle::is_clockwise(end, point, start) {
        -1
    } else {
        0
    }
}

/// Returns the sum of a total and what an edge adds to it, wrapped to the width of `isize`.
#[inline(always)]
#[tactic(auto, using(std::proofs::lemmas::Int::wrapping_add_is))]
fn plus(total: isize, turn: isize) -> isize
    ensures { result ≡ int_wrap w64 (total +ℤ turn) }
{
    total.wrapping_add(turn)
}

/// Returns the number of points that `start` is above. Requires points sorted by height, so these are the first ones.
fn place_of<I: IntNumber>(asked: &[Asked<I>], start: IntPoint<I>) -> usize
    requires { IsRising (asked_points I.value asked.now) }
    ensures { IsPlaceOf (asked_points I.value asked.now) (point_of I.value start) result }
{
    let mut low = 0;
    let mut high = asked.len();
    while low < high {
        let middle = low + (high - low) / 2;
        if start.y > asked[middle].point.y {
            low = middle + 1;
        } else {
            high = middle;
        }
    }
    low
}

/// Adds the winding number of the contour about each point to its total, wrapped to the width of `isize`. Requires
/// points sorted by height, and a total for each.
pub fn add_contour<P: ContourPoint>(
    asked: &[Asked<P::Coordinate>],
    totals: &mut [isize],
    contour: &[P],
)
    requires asked_safe { All (IsSafe P.Coordinate.width)
        (asked_points P.Coordinate.value asked.now) }
    requires contour_safe { IsSafeContour P.Coordinate.width
        (read P.Coordinate.value P.points contour.now) }
    requires rising { IsRising (asked_points P.Coordinate.value asked.now) }
    requires room { length totals.old ≡ length asked.now }
    requires fit { AllFit totals.old }
    ensures room { length totals.new ≡ length totals.old }
    ensures fit { AllFit totals.new }
    ensures added { IsAdded (asked_points P.Coordinate.value asked.now)
        (winding (read P.Coordinate.value P.points contour.now)) totals.old totals.new }
{
    let Some(last) = contour.last() else {
        return;
    };
    let mut start = last.to_point();
    let mut place = place_of(asked, start);
    for given in contour {
        let end = given.to_point();
        place = if end.y > start.y {
            rise(asked, totals, place, start, end)
        } else {
            fall(asked, totals, place, start, end)
        };
        start = end;
    }
}

/// Returns the points with their places, sorted by height.
///
/// # Errors
///
/// `AllocError`, which can't occur if there is no point.
pub fn by_height<Q: ContourPoint>(
    alloc: Global,
    points: &[Q],
) -> Result<Vec<Asked<Q::Coordinate>>, AllocError>
    ensures all { IfOk result (λ v. IsPermutation (asks 0 (Q.points points.now)) v.items) }
    ensures rising { IfOk result (λ v. IsRising (asked_points Q.Coordinate.value v.items)) }
    ensures none { points.now ≡ [] → IsOk result }
{
    let mut asked = Vec::with_capacity(alloc, points.len())?;
    for (place, given) in points.iter().enumerate() {
        let point = given.to_point();
        asked.push_reserved(Asked { point, place });
    }
    asked.sort_unstable_by_key(|it| it.point.y);
    Ok(asked)
}

/// Writes the total of each point to its place in `out`. Requires a total for each, and places within `out`.
pub fn write_totals<I: IntNumber>(asked: &[Asked<I>], totals: &[isize], out: &mut [isize])
    requires room { length totals.now ≡ length asked.now }
    requires fit { AllFit totals.now }
    requires within { All (λ q. q.place < length out.old) asked.now }
    ensures written { (points : List (IntPoint I)) (f : Point → ℤ) → IsPermutation (asks 0 points) asked.now
        → totals.now ≡ map f (asked_points I.value asked.now)
        → out.new ≡ map f (contour_of I.value points) ++ drop (length points) out.old }
{
    for (at, it) in asked.iter().enumerate() {
        out[it.place] = totals[at];
    }
}

/// Writes the winding number about each of the points to the front of `out`, as `windings_about` does. Requires an
/// `out` at least as long as `points`. The rest of it is unchanged. It takes the time to sort the points, and time
/// linear in the points, the edges, and how many of the points' heights each edge passes. It allocates a copy of the
/// points and a total for each.
///
/// # Errors
///
/// `AllocError`, which can't occur if there is no point, and leaves `out` unchanged.
pub fn windings_by_height<P: ContourPoint, Q: ContourPoint<Coordinate = P::Coordinate>>(
    alloc: Global,
    contour: &[P],
    points: &[Q],
    out: &mut [isize],
) -> Result<(), AllocError>
    requires contour_safe { IsSafeContour P.Coordinate.width
        (read P.Coordinate.value P.points contour.now) }
    requires points_safe { IsSafeContour P.Coordinate.width
        (read P.Coordinate.value Q.points points.now) }
    requires room { length points.now ≤ length out.old }
    ensures answer { OnOk result (out.new ≡ map (winding (read P.Coordinate.value P.points contour.now))
        (read P.Coordinate.value Q.points points.now) ++ drop (length points.now) out.old) }
    ensures refused { OnErr result (out.new ≡ out.old) }
    ensures none { points.now ≡ [] → IsOk result }
{
    if points.is_empty() {
        return Ok(());
    }
    let asked = by_height(alloc, points)?;
    let mut totals = vec![in alloc; 0isize; asked.len()]?;
    add_contour(&asked, &mut totals, contour);
    write_totals(&asked, &totals, out);
    Ok(())
}
