//! The flat buffers over points of any kind.

ghost use Rattle.std.specs.Prelude.{IfSome};
ghost use Rattle.std.specs.Iterator.{at_most, UpTo};
ghost use Rattle.std.specs.Iterator.SizeHint.{IsWithinCount};

use crate::resource::lends_points;
use i_shape::ShapeError;
use i_shape::flat::float::{FloatFlatContoursBuffer, FloatFlatShapesBuffer};
use i_shape_test_data::given::WholePoint;
use i_shape_test_data::row::Row;
use i_shape_test_data::texts;
use std::alloc::Global;
use std::test::Fail;

/// The same point, as often as is left, with a size hint of its own.
#[derive(Drop)]
struct Hinted {
    left: usize,
    lower: usize,
    upper: Option<usize>,
}

impl Iterator for Hinted {
    type Item = WholePoint;

    ghost remaining = { λ s. at_most s.left };

    fn next(&mut self) -> Option<WholePoint> {
        self.left = self.left.checked_sub(1)?;
        Some(WholePoint { x: 7, y: 7 })
    }

    fn size_hint(&self) -> (usize, Option<usize>)
        ensures lower { IsWithinCount result.0 (at_most self.now.left) }
        ensures upper { IfSome result.1 (UpTo (at_most self.now.left)) }
    {
        let lower = self.lower.min(self.left);
        match self.upper {
            Some(upper) => (lower, Some(upper.max(self.left))),
            None => (lower, None),
        }
    }
}

/// So many items, and what a hint says of them: so many at least, and at most.
fn items(left: usize, lower: usize, upper: Option<usize>) -> Hinted {
    Hinted { left, lower, upper }
}

/// These points.
fn whole(alloc: Global, text: &str) -> Result<Vec<WholePoint>, Fail> {
    let mut points = Vec::new(alloc);
    for [x, y] in &texts::points(alloc, text)? {
        points.push(WholePoint { x: *x, y: *y })?;
    }
    Ok(points)
}

/// These paths, each ended by a semicolon.
fn paths(alloc: Global, text: &str) -> Result<Vec<Vec<WholePoint>>, Fail> {
    let mut paths = Vec::new(alloc);
    for path in text.split_terminator(';') {
        paths.push(whole(alloc, path)?)?;
    }
    Ok(paths)
}

/// The buffer has these points and ranges, and lends these paths.
fn has_contours(
    row: &Row<'_>,
    buffer: &FloatFlatContoursBuffer<WholePoint>,
    [points, ranges, lent]: [&str; 3],
) -> Result<(), Fail> {
    let wanted = FloatFlatContoursBuffer {
        points: whole(row.alloc, points)?,
        ranges: texts::ranges(row.alloc, ranges)?,
    };
    row.holds(*buffer == wanted && buffer.clone()? == wanted, ranges)?;
    row.equal(buffer.is_empty(), points.is_empty(), "empty")?;
    let wanted = paths(row.alloc, lent)?;
    let wanted = wanted.as_slice();
    let are_lent = lends_points(buffer, wanted) & lends_points(&buffer, wanted);
    row.holds(are_lent, lent)
}

/// The same of a buffer of shapes.
fn has_shapes(
    row: &Row<'_>,
    buffer: &FloatFlatShapesBuffer<WholePoint>,
    [points, contours, shapes, lent]: [&str; 4],
) -> Result<(), Fail> {
    let wanted = FloatFlatShapesBuffer {
        points: whole(row.alloc, points)?,
        contour_ranges: texts::ranges(row.alloc, contours)?,
        shape_ranges: texts::ranges(row.alloc, shapes)?,
    };
    row.holds(*buffer == wanted && buffer.clone()? == wanted, contours)?;
    row.equal(buffer.is_empty(), points.is_empty(), "empty")?;
    let wanted = paths(row.alloc, lent)?;
    let wanted = wanted.as_slice();
    let are_lent = lends_points(buffer, wanted) & lends_points(&buffer, wanted);
    row.holds(are_lent, lent)
}

const SIX: &str = "0 0 4 0 4 4 20 20 22 20 22 22";

const HALVES: &str = "0 0 4 0 4 4;20 20 22 20 22 22;";

#[test]
fn contours_are_stored_as_handed_in(rt: HostRuntime) -> Result<(), Fail> {
    let row = Row::new(rt.alloc(), "contours");
    let points = whole(row.alloc, SIX)?;
    let mut contours = FloatFlatContoursBuffer::new(row.alloc);
    contours.set_flat(points.as_slice(), &[0..3, 3..6])?;
    has_contours(&row, &contours, [SIX, "0..3 3..6", HALVES])?;
    contours.set_with_iter(points.iter().copied(), &[0..3, 3..6])?;
    has_contours(&row, &contours, [SIX, "0..3 3..6", HALVES])?;
    contours.set_flat(&[], &[0..0])?;
    has_contours(&row, &contours, ["", "0..0", ";"])
}

#[test]
fn shapes_are_stored_as_handed_in(rt: HostRuntime) -> Result<(), Fail> {
    let row = Row::new(rt.alloc(), "shapes");
    let points = whole(row.alloc, SIX)?;
    let mut shapes = FloatFlatShapesBuffer::new(row.alloc);
    shapes.set_flat(points.as_slice(), &[0..3, 3..6], &[0..2])?;
    has_shapes(&row, &shapes, [SIX, "0..3 3..6", "0..2", HALVES])?;
    shapes.set_with_iter(points.iter().copied(), &[0..3, 3..6], &[0..1, 1..2])?;
    has_shapes(&row, &shapes, [SIX, "0..3 3..6", "0..1 1..2", HALVES])?;
    shapes.set_flat(&[], &[0..0], &[])?;
    has_shapes(&row, &shapes, ["", "0..0", "", ";"])
}

const JOINED: &str = "0 0 4 0 4 4 2 2 3 2";

const LISTED: &str = "0 0 4 0 4 4;2 2 3 2;";

#[test]
fn contours_are_set_with_a_resource(rt: HostRuntime) -> Result<(), Fail> {
    let row = Row::new(rt.alloc(), "contours of a resource");
    let shape = paths(row.alloc, LISTED)?;
    let mut contours = FloatFlatContoursBuffer::new(row.alloc);
    contours.set_with_resource(&shape)?;
    has_contours(&row, &contours, [JOINED, "0..3 3..5", LISTED])?;
    row.holds(contours.can_read_contours(), "ranges that can be read")?;
    row.holds(contours.to_contours()? == shape, "read back")
}

#[test]
fn a_shape_is_set_with_a_resource(rt: HostRuntime) -> Result<(), Fail> {
    let row = Row::new(rt.alloc(), "a shape of a resource");
    let shape = paths(row.alloc, LISTED)?;
    let mut shapes = FloatFlatShapesBuffer::new(row.alloc);
    shapes.set_with_resource(&shape)?;
    has_shapes(&row, &shapes, [JOINED, "0..3 3..5", "0..2", LISTED])?;
    row.holds(
        shapes.can_read_contours() && shapes.can_read_shapes(),
        "ranges that can be read",
    )?;
    row.holds(shapes.to_contours()? == shape, "read back as contours")?;
    let list = shapes.to_shapes()?;
    row.holds(list.len() == 1 && list[0] == shape, "read back as a shape")
}

#[test]
fn a_resource_takes_the_place_of_what_was_held(rt: HostRuntime) -> Result<(), Fail> {
    let row = Row::new(rt.alloc(), "resources");
    let mut shapes = FloatFlatShapesBuffer::new(row.alloc);
    shapes.add_contour(whole(row.alloc, SIX)?.as_slice())?;
    shapes.set_with_resource(&paths(row.alloc, LISTED)?)?;
    has_shapes(&row, &shapes, [JOINED, "0..3 3..5", "0..2", LISTED])?;
    let no_paths: [Vec<WholePoint>; 0] = [];
    shapes.set_with_resource(&no_paths)?;
    has_shapes(&row, &shapes, ["", "", "", ""])?;
    let no_points: [WholePoint; 0] = [];
    shapes.set_with_resource(&no_points)?;
    has_shapes(&row, &shapes, ["", "0..0", "0..1", ";"])
}

#[test]
fn contours_are_added_at_the_end(rt: HostRuntime) -> Result<(), Fail> {
    let row = Row::new(rt.alloc(), "contours one by one");
    let three = whole(row.alloc, "0 0 4 0 4 4")?;
    let two = whole(row.alloc, "2 2 3 2")?;
    let mut contours = FloatFlatContoursBuffer::with_capacity(row.alloc, 4, 4)?;
    contours.add_contour(three.as_slice())?;
    contours.add_contour_iter(two.iter().copied())?;
    has_contours(&row, &contours, [JOINED, "0..3 3..5", LISTED])?;
    contours.clear_and_reserve(4, 4)?;
    has_contours(&row, &contours, ["", "", ""])?;
    contours.add_contour(two.as_slice())?;
    contours.add_contour_iter(items(0, 0, None))?;
    has_contours(&row, &contours, ["2 2 3 2", "0..2 2..2", "2 2 3 2;;"])
}

#[test]
fn shapes_of_one_contour_are_added_at_the_end(rt: HostRuntime) -> Result<(), Fail> {
    let row = Row::new(rt.alloc(), "shapes one by one");
    let three = whole(row.alloc, "0 0 4 0 4 4")?;
    let two = whole(row.alloc, "2 2 3 2")?;
    let mut shapes = FloatFlatShapesBuffer::with_capacity(row.alloc, 4, 4, 4)?;
    shapes.add_contour(three.as_slice())?;
    shapes.add_contour_iter(two.iter().copied())?;
    has_shapes(&row, &shapes, [JOINED, "0..3 3..5", "0..1 1..2", LISTED])?;
    shapes.clear_and_reserve(4, 4, 4)?;
    has_shapes(&row, &shapes, ["", "", "", ""])?;
    shapes.add_contour(three.as_slice())?;
    shapes.add_contour(two.as_slice())?;
    has_shapes(&row, &shapes, [JOINED, "0..3 3..5", "0..1 1..2", LISTED])
}

/// Ranges of two points, whether each can be read, and the paths that are lent: ranges that can't be read are skipped.
const RANGES: [(&str, bool, &str); 3] = [
    ("0..1 5..6 2..1 0..2", false, "1 2;1 2 3 4;"),
    (
        "18446744073709551615..18446744073709551615 1..2 0..18446744073709551615 0..2",
        false,
        "3 4;1 2 3 4;",
    ),
    ("1..2 0..0 0..2", true, "3 4;;1 2 3 4;"),
];

#[test]
fn bad_ranges_are_passed_over(rt: HostRuntime) -> Result<(), Fail> {
    for (name, readable, lent) in &RANGES {
        let row = Row::new(rt.alloc(), *name);
        let points = whole(row.alloc, "1 2 3 4")?;
        let ranges = texts::ranges(row.alloc, *name)?;
        let mut contours = FloatFlatContoursBuffer::new(row.alloc);
        contours.set_flat(points.as_slice(), ranges.as_slice())?;
        row.equal(contours.can_read_contours(), *readable, "contours")?;
        has_contours(&row, &contours, ["1 2 3 4", *name, *lent])?;
        let mut shapes = FloatFlatShapesBuffer::new(row.alloc);
        shapes.set_flat(points.as_slice(), ranges.as_slice(), &[])?;
        row.equal(shapes.can_read_contours(), *readable, "shapes")?;
        has_shapes(&row, &shapes, ["1 2 3 4", *name, "", *lent])?;
    }
    Ok(())
}

/// A hint or a range that is too far runs out of memory, and leaves the buffer empty.
#[test]
fn size_hints_need_not_be_exact(rt: HostRuntime) -> Result<(), Fail> {
    let row = Row::new(rt.alloc(), "size hints");
    let far = usize::MAX;
    let mut contours = FloatFlatContoursBuffer::new(row.alloc);
    contours.set_with_iter(items(3, 1, Some(10)), &[0..3])?;
    has_contours(&row, &contours, ["7 7 7 7 7 7", "0..3", "7 7 7 7 7 7;"])?;
    contours.set_with_iter(items(5, 0, None), &[])?;
    has_contours(&row, &contours, ["7 7 7 7 7 7 7 7 7 7", "", ""])?;
    let answer = contours.set_with_iter(items(2, 2, Some(2)), &[0..far]);
    row.holds(matches!(answer, Err(ShapeError::OutOfMemory)), "too far")?;
    has_contours(&row, &contours, ["", "", ""])?;
    contours.add_contour(&[WholePoint { x: 1, y: 1 }])?;
    let answer = contours.set_with_iter(items(2, 0, Some(far)), &[]);
    row.holds(matches!(answer, Err(ShapeError::OutOfMemory)), "a far hint")?;
    has_contours(&row, &contours, ["", "", ""])?;
    let mut shapes = FloatFlatShapesBuffer::new(row.alloc);
    shapes.add_contour(&[WholePoint { x: 1, y: 1 }])?;
    let answer = shapes.set_with_iter(items(2, 0, Some(far)), &[], &[]);
    row.holds(matches!(answer, Err(ShapeError::OutOfMemory)), "far shapes")?;
    has_shapes(&row, &shapes, ["", "", "", ""])
}
