//! Areas of shapes, of lists and of what is left of an iterator, and contours at the bounds of each width.

ghost use Rattle.std.specs.Prelude.{◌<◌, length};
ghost use Rattle.i_shape.specs.IntPoint.{contour_of, IsSafeContour};

use i_shape::int::IntPoint;
use i_shape::int::area::{Area, IteratorArea, UnsafeArea};
use i_shape::int::count::PointsCount;
use i_shape::int::despike::DeSpikeContour;
use i_shape::int::path::ContourExtension;
use i_shape::int::shape::{IntContour, IntShapes};
use i_shape::int::simple::SimpleContour;
use i_shape::{IntNumber, int_shape, int_shapes};
use i_shape_test_data::given::contour;
use i_shape_test_data::row::Row;
use std::alloc::Global;
use std::test::Fail;

#[test]
fn an_advanced_iterator_sums_what_is_left(rt: HostRuntime) -> Result<(), Fail> {
    let row = Row::new(rt.alloc(), "a square without its first point");
    let square: [IntPoint<i32>; 4] = [
        IntPoint::new(0, 0),
        IntPoint::new(10, 0),
        IntPoint::new(10, 10),
        IntPoint::new(0, 10),
    ];
    let mut points = square.as_slice().iter().copied();
    let _first = points.next();
    let double = IteratorArea::area_two(points);
    let mut points = square.as_slice().iter().copied();
    let _first = points.next();
    let area = IteratorArea::area(points);
    let mut points = square.as_slice().iter().copied();
    let _first = points.next();
    row.equal(
        (double, area, points.unsafe_area()),
        (100, 50, 100),
        "areas",
    )
}

#[test]
fn a_hole_is_subtracted(rt: HostRuntime) -> Result<(), Fail> {
    let row = Row::new(rt.alloc(), "a square with a hole");
    let holed = int_shape![
        row.alloc; [[0, 0], [10, 0], [10, 10], [0, 10]], [[2, 2], [2, 4], [4, 4], [4, 2]]
    ]?;
    let holed = holed.as_slice();
    let areas = [holed.area_two(), holed.area()];
    row.equal(
        (areas, holed.points_count()),
        ([192_i64, 96], 8),
        "areas, points",
    )
}

#[test]
fn contours_are_added_up_before_they_are_halved(rt: HostRuntime) -> Result<(), Fail> {
    let row = Row::new(rt.alloc(), "two triangles");
    let shape = int_shape![row.alloc; [[0, 0], [1, 0], [0, 1]], [[0, 0], [1, 0], [0, 1]]]?;
    let shape = shape.as_slice();
    let areas = [shape.area_two(), shape.area()];
    row.equal(
        (areas, shape.points_count()),
        ([2_i64, 1], 6),
        "areas, points",
    )
}

#[test]
fn shapes_are_added_up_before_they_are_halved(rt: HostRuntime) -> Result<(), Fail> {
    let row = Row::new(rt.alloc(), "a list of two triangles");
    let list: IntShapes<i32> =
        int_shapes![row.alloc; [[[0, 0], [1, 0], [0, 1]]], [[[0, 0], [1, 0], [0, 1]]]]?;
    let list = list.as_slice();
    let areas = [list.area_two(), list.area()];
    row.equal(
        (areas, list.points_count()),
        ([2_i64, 1], 6),
        "areas, points",
    )
}

/// The contour, a square about zero that is wound so often, has these areas, and is its own end and form. Wound twice,
/// its area wraps to that of a clockwise one, and it contains nothing.
fn winds<I: IntNumber>(
    row: &Row<'_>,
    (times, points): (isize, &[[I; 2]]),
    areas: [I::Wide; 2],
) -> Result<(), Fail> {
    let given = contour(row.alloc, points)?;
    let points = given.as_slice();
    row.holds(!points.is_empty(), "no point")?;
    row.holds([points.area_two(), points.area()] == areas, "areas")?;
    winds_about_zero(row, points, times)?;
    row.holds(points.is_simple(), "simple")?;
    row.equal(
        are_left(row.alloc, points)?,
        [true; 3],
        "its own end, its own form, no spike",
    )
}

/// The contour winds so often about zero, contains it if it winds once, and is clockwise if it winds twice.
fn winds_about_zero<I: IntNumber>(
    row: &Row<'_>,
    points: &[IntPoint<I>],
    times: isize,
) -> Result<(), Fail>
    requires safe { IsSafeContour I.width (contour_of I.value points.now) }
    requires some { 0 < length points.now }
{
    let zero = IntPoint::new(I::ZERO, I::ZERO);
    row.holds(zero.is_in_safe_range(), "zero is safe")?;
    let found = (
        points.is_clockwise_ordered(),
        points.contains_point(zero),
        points.winding_number(zero),
    );
    row.equal(
        found,
        (times == 2, times == 1, times),
        "clockwise, contains, winds",
    )
}

/// Whether the simplified contour, the canonical one and the despiked one are the contour itself.
fn are_left<I: IntNumber>(alloc: Global, points: &[IntPoint<I>]) -> Result<[bool; 3], Fail>
    requires { IsSafeContour I.width (contour_of I.value points.now) }
{
    Ok([
        is_same(points.simplified(alloc)?, points),
        is_same(points.canonical(alloc)?, points),
        is_same(points.despiked_contour(alloc)?, points),
    ])
}

/// Whether a cleaner has left these points.
fn is_same<I: IntNumber>(left: Option<IntContour<I>>, points: &[IntPoint<I>]) -> bool {
    let Some(contour) = left else {
        return false;
    };
    contour.as_slice() == points
}

/// The square from `-high` to `high` has these areas, once and twice round.
fn wraps<I: IntNumber>(
    row: &Row<'_>,
    [low, high]: [I; 2],
    once: [I::Wide; 2],
    twice: [I::Wide; 2],
) -> Result<(), Fail> {
    let mut square = Vec::new(row.alloc);
    square.push([low, low])?;
    square.push([high, low])?;
    square.push([high, high])?;
    square.push([low, high])?;
    winds(row, (1, square.as_slice()), once)?;
    let again = Vec::from_slice(row.alloc, square.as_slice())?;
    square.extend_from_slice(again.as_slice())?;
    winds(row, (2, square.as_slice()), twice)
}

#[test]
fn at_the_safe_bounds_one_winding_fits_and_two_wrap(rt: HostRuntime) -> Result<(), Fail> {
    let row = Row::new(rt.alloc(), "16 bits");
    let m: i16 = 16383;
    wraps::<i16>(&row, [-m, m], [2147221512, 1073610756], [-524272, -262136])?;
    let row = Row::new(rt.alloc(), "32 bits");
    let m: i32 = 1073741823;
    let once = [9223372019674906632, 4611686009837453316];
    wraps::<i32>(&row, [-m, m], once, [-34359738352, -17179869176])?;
    let row = Row::new(rt.alloc(), "64 bits");
    let m: i64 = 4611686018427387903;
    let once = [
        170141183460469231657900327421045899272,
        85070591730234615828950163710522949636,
    ];
    let twice = [-147573952589676412912, -73786976294838206456];
    wraps::<i64>(&row, [-m, m], once, twice)
}

#[test]
fn the_longest_edge_of_16_bits_there_and_back(rt: HostRuntime) -> Result<(), Fail> {
    let row = Row::new(rt.alloc(), "an edge there and back");
    let m: i16 = 16383;
    let list = [[-m, -m], [m, m], [m, -m], [0, 0]];
    let given = contour::<i16>(row.alloc, &list)?;
    let left = contour::<i16>(row.alloc, &list[1..])?;
    let kept = given.as_slice().simplified(row.alloc)?;
    let blunt = given.despiked_contour(row.alloc)?;
    let wanted = Some(&left);
    let is_left = [kept.as_ref() == wanted, blunt.as_ref() == wanted];
    row.equal(is_left, [true; 2], "what is left, by both cleaners")?;
    row.holds(!given.is_empty() && !left.is_empty(), "points")?;
    let areas = [given.as_slice().area_two(), left.as_slice().area_two()];
    row.equal(areas, [-536805378, -536805378], "double areas")
}
