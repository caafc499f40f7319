//! The flat buffers of whole-number contours.

ghost use Rattle.std.specs.Prelude.{◌<◌};

use i_shape::ShapeError;
use i_shape::flat::buffer::{FlatContoursBuffer, FlatShapesBuffer};
use i_shape::int::IntPoint;
use i_shape::int::safe_range::IntSafeRange;
use i_shape::int::shape::{IntContour, IntShapes};
use i_shape_test_data::row::Row;
use i_shape_test_data::texts;
use std::alloc::Global;
use std::test::Fail;

/// A buffer of these points and ranges.
fn flat(row: &Row<'_>, points: &str, ranges: &str) -> Result<FlatContoursBuffer<i32>, Fail> {
    let points = texts::contour(row.alloc, points)?;
    Ok(FlatContoursBuffer {
        points,
        ranges: texts::ranges(row.alloc, ranges)?,
    })
}

/// A buffer of these points, and ranges of contours and of shapes.
fn flat_shapes(
    row: &Row<'_>,
    points: &str,
    [contours, shapes]: [&str; 2],
) -> Result<FlatShapesBuffer<i32>, Fail> {
    let points = texts::contour(row.alloc, points)?;
    let contour_ranges = texts::ranges(row.alloc, contours)?;
    let shape_ranges = texts::ranges(row.alloc, shapes)?;
    Ok(FlatShapesBuffer {
        points,
        contour_ranges,
        shape_ranges,
    })
}

/// The buffer has these points and ranges, and reads as these contours.
fn has_contours(
    row: &Row<'_>,
    buffer: &FlatContoursBuffer<i32>,
    [points, ranges, contours]: [&str; 3],
) -> Result<(), Fail> {
    row.holds(*buffer == flat(row, points, ranges)?, contours)?;
    row.holds(buffer.can_read_contours(), "a range can't be read")?;
    let wanted = texts::shape(row.alloc, contours)?;
    row.holds(buffer.to_contours()? == wanted, contours)
}

/// The buffer has these points and ranges, and reads as these shapes.
fn has_shapes(
    row: &Row<'_>,
    buffer: &FlatShapesBuffer<i32>,
    [points, contours, ranges, shapes]: [&str; 4],
) -> Result<(), Fail> {
    let wanted = flat_shapes(row, points, [contours, ranges])?;
    row.holds(*buffer == wanted, shapes)?;
    row.holds(buffer.can_read_shapes(), "a range can't be read")?;
    row.holds(
        buffer.to_shapes()? == texts::shapes(row.alloc, shapes)?,
        shapes,
    )
}

const TWO_SHAPES: &str = "0 0 1 0 1 1;/5 5 6 5 6 6;7 7 8 7 8 8;/";

const THREE_CONTOURS: &str = "0 0 1 0 1 1;5 5 6 5 6 6;7 7 8 7 8 8;";

const POINTS: &str = "0 0 1 0 1 1 5 5 6 5 6 6 7 7 8 7 8 8";

const RANGES: &str = "0..3 3..6 6..9";

#[test]
fn shapes_are_set_and_added_one_by_one(rt: HostRuntime) -> Result<(), Fail> {
    let row = Row::new(rt.alloc(), "two shapes");
    let given = texts::shapes(row.alloc, TWO_SHAPES)?;
    let mut buffer = FlatShapesBuffer::with_capacity(row.alloc, 4, 4, 4)?;
    row.holds(buffer.is_empty(), "a new buffer of shapes")?;
    buffer.set_with_shapes(given.as_slice())?;
    has_shapes(&row, &buffer, [POINTS, RANGES, "0..1 1..3", TWO_SHAPES])?;
    let mut one_by_one = FlatShapesBuffer::new(row.alloc);
    for shape in &given {
        one_by_one.add_shape(shape.as_slice())?;
    }
    row.holds(one_by_one == buffer.clone()?, "added one by one")
}

#[test]
fn a_shape_without_contours_is_added(rt: HostRuntime) -> Result<(), Fail> {
    let row = Row::new(rt.alloc(), "no contour");
    let mut buffer = flat_shapes(&row, POINTS, [RANGES, "0..1 1..3"])?;
    buffer.clear_and_reserve(4, 4, 4)?;
    has_shapes(&row, &buffer, ["", "", "", ""])?;
    buffer.add_shape(&[])?;
    has_shapes(&row, &buffer, ["", "", "0..0", "/"])
}

#[test]
fn contours_of_shapes_are_set(rt: HostRuntime) -> Result<(), Fail> {
    let row = Row::new(rt.alloc(), "contours of two shapes");
    let given = texts::shapes(row.alloc, TWO_SHAPES)?;
    let mut contours = FlatContoursBuffer::with_capacity(row.alloc, 4)?;
    row.holds(contours.is_empty(), "a new buffer of contours")?;
    contours.set_with_shapes(given.as_slice())?;
    row.holds(contours.clone()? == contours, "a copy")?;
    has_contours(&row, &contours, [POINTS, RANGES, THREE_CONTOURS])?;
    contours.clear_and_reserve(4, 4)?;
    has_contours(&row, &contours, ["", "", ""])
}

const HOLED: &str = "0 0 9 0 9 9 0 9;3 3 3 6 6 6 6 3;";

const POINTS_OF_HOLED: &str = "0 0 9 0 9 9 0 9 3 3 3 6 6 6 6 3";

#[test]
fn one_contour_is_set_or_added(rt: HostRuntime) -> Result<(), Fail> {
    let row = Row::new(rt.alloc(), "one contour");
    let mut contours = FlatContoursBuffer::new(row.alloc);
    let three = "1 2 3 4 5 6";
    contours.set_with_contour(texts::contour(row.alloc, three)?.as_slice())?;
    has_contours(&row, &contours, [three, "0..3", "1 2 3 4 5 6;"])?;
    contours.set_with_contour(&[])?;
    row.holds(contours.is_empty(), "no point")?;
    row.holds(contours.is_single_contour(), "one contour")?;
    has_contours(&row, &contours, ["", "0..0", ";"])?;
    let square = "0 0 4 0 4 4 0 4";
    let mut contours = FlatContoursBuffer::new(row.alloc);
    contours.add_contour(texts::contour(row.alloc, square)?.as_slice())?;
    has_contours(&row, &contours, [square, "0..4", "0 0 4 0 4 4 0 4;"])
}

#[test]
fn a_shape_of_one_contour_is_set(rt: HostRuntime) -> Result<(), Fail> {
    let row = Row::new(rt.alloc(), "a shape of one contour");
    let mut shapes = FlatShapesBuffer::new(row.alloc);
    let three = "1 2 3 4 5 6";
    shapes.set_with_contour(texts::contour(row.alloc, three)?.as_slice())?;
    has_shapes(&row, &shapes, [three, "0..3", "0..1", "1 2 3 4 5 6;/"])
}

#[test]
fn one_shape_is_set(rt: HostRuntime) -> Result<(), Fail> {
    let row = Row::new(rt.alloc(), "one shape");
    let given = texts::shape(row.alloc, HOLED)?;
    let mut contours = flat(&row, "1 2 3 4 5 6", "0..3")?;
    contours.set_with_shape(given.as_slice())?;
    has_contours(&row, &contours, [POINTS_OF_HOLED, "0..4 4..8", HOLED])?;
    let mut shapes = flat_shapes(&row, "1 2 3 4 5 6", ["0..3", "0..1"])?;
    shapes.set_with_shape(given.as_slice())?;
    let wanted = flat_shapes(&row, POINTS_OF_HOLED, ["0..4 4..8", "0..2"])?;
    row.holds(shapes == wanted, "a shape")?;
    row.holds(shapes.can_read_contours(), "ranges that can be read")?;
    row.holds(shapes.to_contours()? == given, "contours of a shape")
}

#[test]
fn the_first_contour_is_lent(rt: HostRuntime) -> Result<(), Fail> {
    let row = Row::new(rt.alloc(), "the first contour");
    let whole = flat(&row, "1 1 2 2", "")?;
    row.holds(whole.can_read_first(), "ranges that can be read")?;
    let first = whole.as_first_contour();
    row.holds(first == whole.points.as_slice(), "no ranges")?;
    let mut buffer = flat(&row, "1 1 2 2 3 3", "1..2 0..3")?;
    row.holds(buffer.can_read_first(), "ranges that can be read")?;
    let first = buffer.as_first_contour_mut();
    row.holds(first.len() == 1, "one point")?;
    first[0] = IntPoint::new(9, 9);
    let wanted = flat(&row, "1 1 9 9 3 3", "1..2 0..3")?;
    row.holds(buffer == wanted, "a changed point")
}

/// Points, ranges, whether the first can be read, and the contours if all can.
const READABLE: [(&str, &str, bool, Option<&str>); 4] = [
    ("1 1 2 2 3 3", "2..1", false, None),
    (
        "1 1",
        "18446744073709551615..18446744073709551615",
        false,
        None,
    ),
    ("1 1", "0..18446744073709551615", false, None),
    ("1 2 3 4", "0..2 1..2 2..2", true, Some("1 2 3 4;3 4;;")),
];

/// Points, ranges of contours and of shapes, and the shapes if all ranges can be read, including reversed shape ranges.
const READABLE_SHAPES: [(&str, [&str; 2], Option<&str>); 5] = [
    ("1 1", ["0..1", "2..1"], Some("/")),
    ("", ["", "5..5"], Some("/")),
    ("1 1", ["0..1", "18446744073709551615..0"], Some("/")),
    ("", ["", "0..1"], None),
    ("1 1", ["0..1", "0..18446744073709551615"], None),
];

#[test]
fn ranges_can_be_read_or_not(rt: HostRuntime) -> Result<(), Fail> {
    for (points, ranges, reads_first, contours) in &READABLE {
        let row = Row::new(rt.alloc(), *ranges);
        let buffer = flat(&row, *points, *ranges)?;
        row.equal(buffer.can_read_first(), *reads_first, "the first")?;
        row.equal(buffer.can_read_contours(), contours.is_some(), "all")?;
        if let Some(contours) = contours {
            has_contours(&row, &buffer, [*points, *ranges, *contours])?;
        }
    }
    Ok(())
}

#[test]
fn ranges_of_shapes_can_be_read_or_not(rt: HostRuntime) -> Result<(), Fail> {
    for (points, [contours, ranges], shapes) in &READABLE_SHAPES {
        let row = Row::new(rt.alloc(), *ranges);
        let buffer = flat_shapes(&row, *points, [*contours, *ranges])?;
        row.holds(buffer.can_read_contours(), "the contours")?;
        row.equal(buffer.can_read_shapes(), shapes.is_some(), "the shapes")?;
        if let Some(shapes) = shapes {
            has_shapes(&row, &buffer, [*points, *contours, *ranges, *shapes])?;
        }
    }
    Ok(())
}

/// A number below the bound. Each follows from the one before it, which the seed keeps.
fn draw(seed: &mut u32, bound: u32) -> u32
    requires { 0 < bound }
    ensures { result < bound }
{
    *seed = seed.wrapping_mul(1103515245).wrapping_add(12345) % 2147483648;
    *seed / 65536 % bound
}

fn drawn_contour(alloc: Global, seed: &mut u32) -> Result<IntContour<i32>, ShapeError> {
    let mut contour = Vec::new(alloc);
    for _ in 0..draw(seed, 4).wrapping_add(3) {
        let x = (draw(seed, 200) as i32).wrapping_sub(100);
        contour.push(IntPoint::new(x, (draw(seed, 200) as i32).wrapping_sub(100)))?;
    }
    Ok(contour)
}

#[test]
fn drawn_shapes_keep_their_number_of_contours(rt: HostRuntime) -> Result<(), Fail> {
    let row = Row::new(rt.alloc(), "five drawn shapes");
    let mut seed = 1;
    let mut list: IntShapes<i32> = Vec::new(row.alloc);
    let mut count: usize = 0;
    for _ in 0..5 {
        let mut shape = Vec::new(row.alloc);
        for _ in 0..draw(&mut seed, 3).wrapping_add(1) {
            shape.push(drawn_contour(row.alloc, &mut seed)?)?;
            count = count.wrapping_add(1);
        }
        list.push(shape)?;
    }
    let mut contours = FlatContoursBuffer::new(row.alloc);
    contours.set_with_shapes(list.as_slice())?;
    let mut shapes = FlatShapesBuffer::new(row.alloc);
    shapes.set_with_shapes(list.as_slice())?;
    row.holds(
        contours.can_read_contours() && shapes.can_read_contours(),
        "ranges that can be read",
    )?;
    let counts = [contours.to_contours()?.len(), shapes.to_contours()?.len()];
    row.equal(counts, [count, count], "contours")
}

/// Cleans a buffer. The test stops if a range can't be read, or a point isn't safe.
fn simplify(row: &Row<'_>, buffer: &mut FlatContoursBuffer<i32>) -> Result<bool, Fail> {
    row.holds(buffer.can_read_contours(), "a range can't be read")?;
    row.holds(buffer.is_in_safe_range(), "a point isn't safe")?;
    Ok(buffer.simplify_contours()?)
}

/// Cleaning leaves the other buffer, and returns whether that changed anything. A second call changes nothing.
fn cleans(
    row: &Row<'_>,
    mut buffer: FlatContoursBuffer<i32>,
    kept: FlatContoursBuffer<i32>,
) -> Result<(), Fail> {
    let is_clean = buffer == kept;
    row.equal(simplify(row, &mut buffer)?, !is_clean, "what is told")?;
    row.holds(buffer == kept, "what is left")?;
    row.holds(!simplify(row, &mut buffer)?, "what is told again")?;
    row.holds(buffer == kept, "what is left again")
}

/// Points and ranges, and those that are left of them.
const CLEANED: [[&str; 4]; 5] = [
    [
        "0 0 2 0 4 0 4 4 0 4 7 7 8 8 9 9",
        "0..5 5..8 0..0",
        "0 0 4 0 4 4 0 4",
        "0..4",
    ],
    [
        "0 0 4 0 4 4 0 4",
        "0..4 0..3",
        "0 0 4 0 4 4 0 4",
        "0..4 0..3",
    ],
    ["0 0 4 0 4 4 9 9", "0..3", "0 0 4 0 4 4 9 9", "0..3"],
    ["0 0 4 0 4 4 9 9", "0..3 3..4", "0 0 4 0 4 4", "0..3"],
    ["", "", "", ""],
];

#[test]
fn cleaned_contours_stand_end_to_end(rt: HostRuntime) -> Result<(), Fail> {
    for [points, ranges, kept, kept_ranges] in &CLEANED {
        let row = Row::new(rt.alloc(), *ranges);
        let kept = flat(&row, *kept, *kept_ranges)?;
        cleans(&row, flat(&row, *points, *ranges)?, kept)?;
    }
    Ok(())
}

#[test]
fn a_buffer_of_ten_thousand_contours_is_cleaned(rt: HostRuntime) -> Result<(), Fail> {
    let row = Row::new(rt.alloc(), "ten thousand triangles");
    let given = texts::contour(row.alloc, "0 0 1 0 2 0 0 2")?;
    let kept = texts::contour(row.alloc, "0 0 2 0 0 2")?;
    let mut buffer = FlatContoursBuffer::new(row.alloc);
    let mut wanted = FlatContoursBuffer::new(row.alloc);
    for _ in 0..10_000 {
        buffer.add_contour(given.as_slice())?;
        wanted.add_contour(kept.as_slice())?;
    }
    cleans(&row, buffer, wanted)
}
