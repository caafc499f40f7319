//! Whether contours are convex, and contain points.

use i_shape_core::contour::ContourExtension;
use i_shape_core::point::IntPoint;
use i_shape_test_data::given::{contour, reversed, rotated};
use i_shape_test_data::row::Row;
use i_shape_test_data::texts;
use std::test::Fail;

/// The contour is convex, or isn't, and so is its reversal.
fn is_convex(row: &Row<'_>, points: &[[i32; 2]], wanted: bool) -> Result<(), Fail> {
    let backwards = reversed(row.alloc, points)?;
    for points in [points, backwards.as_slice()] {
        let given = contour::<i32>(row.alloc, points)?;
        row.equal(given.as_slice().is_convex(), wanted, "convex")?;
    }
    Ok(())
}

/// Contours, and whether they are convex.
const CONVEX: [(&str, bool); 17] = [
    ("", true),
    ("1 2", true),
    ("1 2 3 4", true),
    ("0 0 0 0 0 0", true),
    ("0 0 0 0 1 0 1 0", true),
    ("0 0 0 0 1 0 1 0 0 0", true),
    ("0 0 10 0 10 10 0 10", true),
    ("-10 -10 -10 10 10 10 10 -10", true),
    ("-10 -10 -10 0 -10 10 0 10 10 10 10 0 10 -10 0 -10", true),
    ("0 0 1 2 3 3 4 1 2 0", true),
    ("0 0 1 2 2 3 3 2 4 1 2 0", true),
    ("-10 -10 0 10 10 -10 0 -5", false),
    ("0 0 4 0 2 0 2 2 0 2", false),
    ("0 0 1 0 2 0", false),
    ("2 2 0 4 0 0 4 0 4 4 2 2", false),
    ("0 0 1 2 0 4 4 2 2 0", false),
    ("-10 -10 -9 0 -10 10 0 10 10 10 10 0 10 -10 0 -10", false),
];

#[test]
fn convex_or_not_in_both_directions(rt: HostRuntime) -> Result<(), Fail> {
    for (list, wanted) in &CONVEX {
        let row = Row::new(rt.alloc(), *list);
        let points = texts::points(row.alloc, *list)?;
        is_convex(&row, points.as_slice(), *wanted)?;
    }
    Ok(())
}

/// With any vertex three times, and then with the first twice more at the end, the contour stays convex or not.
fn stays_convex(row: &Row<'_>, list: &[[i32; 2]], wanted: bool) -> Result<(), Fail> {
    for place in 0..list.len() {
        let mut listed = Vec::from_slice(row.alloc, &list[..place])?;
        listed.extend_from_slice(&[list[place], list[place]])?;
        listed.extend_from_slice(&list[place..])?;
        is_convex(row, listed.as_slice(), wanted)?;
        listed.extend_from_slice(&[list[0], list[0]])?;
        is_convex(row, listed.as_slice(), wanted)?;
    }
    Ok(())
}

/// Contours that are convex or not, whichever point is repeated.
const REPEATED: [(&str, bool); 3] = [
    ("0 0 4 0 4 4 0 4", true),
    ("0 0 4 0 4 4 2 2 0 4", false),
    ("0 0 4 0 2 0 2 2 0 2", false),
];

#[test]
fn repeated_points_and_rotations_keep_convexity(rt: HostRuntime) -> Result<(), Fail> {
    for (name, wanted) in &REPEATED {
        let row = Row::new(rt.alloc(), *name);
        let list = texts::points(row.alloc, *name)?;
        for start in 0..list.len() {
            let turned = rotated(row.alloc, list.as_slice(), start)?;
            stays_convex(&row, turned.as_slice(), *wanted)?;
        }
    }
    Ok(())
}

/// A contour, a point, whether the contour contains it, and how often it winds about it.
const PLACES: [(&str, [i32; 2], bool, isize); 14] = [
    ("0 0 10 0 10 10 0 10", [5, 5], true, 1),
    ("0 0 100000 100000 200000 0", [100000, 50000], true, -1),
    ("0 0 100000 100000 200000 0", [100000, 150000], false, 0),
    ("0 0 2 0 4 0 4 4 0 4", [0, 2], true, 1),
    ("0 0 2 0 4 0 4 4 0 4", [4, 2], false, 0),
    ("0 0 2 0 4 0 4 4 0 4", [2, 0], true, 1),
    ("0 0 4 0 4 4 0 4", [0, 2], true, 1),
    ("0 0 4 0 4 4 0 4", [4, 2], false, 0),
    ("0 0 4 0 4 4 0 4", [2, 0], true, 1),
    ("0 0 2 0 1 2", [0, 1], false, 0),
    ("1 2 2 0 0 0", [0, 1], false, 0),
    ("5 5 5 5 5 5", [5, 5], false, 0),
    ("", [0, 0], false, 0),
    ("0 8 -5 -7 8 2 -8 2 5 -7", [0, 0], false, 2),
];

/// Whether the contour contains the point, and how often it winds about it.
fn is_told(row: &Row<'_>, list: &str, [x, y]: [i32; 2], wanted: (bool, isize)) -> Result<(), Fail> {
    let given = texts::contour(row.alloc, list)?;
    let point = IntPoint::new(x, y);
    row.holds(point.is_in_safe_range(), "a safe point")?;
    let is_inside = given.as_slice().contains_point(point);
    let times = given.as_slice().winding_number(point);
    row.equal((is_inside, times), wanted, "contains, and winds")
}

#[test]
fn contains_the_points_with_an_odd_number_of_edges_to_the_right(
    rt: HostRuntime,
) -> Result<(), Fail> {
    for (list, point, is_inside, times) in &PLACES {
        let row = Row::new(rt.alloc(), *list);
        is_told(&row, *list, *point, (*is_inside, *times))?;
    }
    Ok(())
}
