//! The macros that write paths, contours, shapes and lists.

use i_shape::int::shape::{IntContour, IntShape, IntShapes};
use i_shape::{int_path, int_shape, int_shapes, path, paths};
use i_shape_test_data::row::Row;
use i_shape_test_data::texts;
use std::test::Fail;

#[test]
fn lists_of_any_kind(rt: HostRuntime) -> Result<(), Fail> {
    let row = Row::new(rt.alloc(), "of numbers");
    let list: Vec<i32> = path![row.alloc;]?;
    row.holds(list.is_empty(), "path, none")?;
    row.equal(path![row.alloc; 7]?.as_slice(), &[7], "path, one")?;
    row.equal(path![row.alloc; 1, 2,]?.as_slice(), &[1, 2], "path, two")?;
    let lists: Vec<Vec<i32>> = paths![row.alloc;]?;
    row.holds(lists.is_empty(), "paths, none")?;
    let lists = paths![row.alloc; [1, 2,], [],]?;
    row.holds(lists.len() == 2 && lists[1].is_empty(), "paths, two")?;
    row.equal(lists[0].as_slice(), &[1, 2], "paths, the first of two")
}

/// The macro has written the contour that this text lists.
fn is_contour(row: &Row<'_>, found: IntContour<i32>, wanted: &str) -> Result<(), Fail> {
    row.holds(found == texts::contour(row.alloc, wanted)?, "int_path")
}

/// The macro has written the shape that this text lists.
fn is_shape(row: &Row<'_>, found: IntShape<i32>, wanted: &str) -> Result<(), Fail> {
    row.holds(found == texts::shape(row.alloc, wanted)?, "int_shape")
}

/// The macro has written the list of shapes that this text lists.
fn is_list(row: &Row<'_>, found: IntShapes<i32>, wanted: &str) -> Result<(), Fail> {
    row.holds(found == texts::shapes(row.alloc, wanted)?, "int_shapes")
}

#[test]
fn contours_of_whole_numbers(rt: HostRuntime) -> Result<(), Fail> {
    let row = Row::new(rt.alloc(), "of points");
    let path: IntContour<i16> = int_path![row.alloc;]?;
    row.holds(path.is_empty(), "int_path, none")?;
    is_contour(&row, int_path![row.alloc; [0, 1], [2, 3],]?, "0 1 2 3")
}

#[test]
fn shapes_of_whole_numbers(rt: HostRuntime) -> Result<(), Fail> {
    let row = Row::new(rt.alloc(), "of contours");
    let shape: IntShape<i32> = int_shape![row.alloc;]?;
    row.holds(shape.is_empty(), "int_shape, none")?;
    let shape = int_shape![row.alloc; [[0, 0], [1, 0],], [[2, 2]],]?;
    is_shape(&row, shape, "0 0 1 0;2 2;")
}

#[test]
fn lists_of_shapes_of_whole_numbers(rt: HostRuntime) -> Result<(), Fail> {
    let row = Row::new(rt.alloc(), "of shapes");
    let list: IntShapes<i32> = int_shapes![row.alloc;]?;
    row.holds(list.is_empty(), "int_shapes, none")?;
    let list = int_shapes![row.alloc; [[[0, 0], [1, 0], [1, 1],],], [],]?;
    is_list(&row, list, "0 0 1 0 1 1;//")
}

fn next(count: &mut i32) -> i32 {
    *count = count.wrapping_add(1);
    *count
}

#[test]
fn members_are_evaluated_from_left_to_right(rt: HostRuntime) -> Result<(), Fail> {
    let row = Row::new(rt.alloc(), "expressions");
    let mut count = 0;
    let lists = paths![row.alloc; [10, next(&mut count)], [next(&mut count)]]?;
    row.holds(lists.len() == 2, "paths")?;
    row.equal(lists[0].as_slice(), &[10, 1], "members of a path")?;
    row.equal(lists[1].as_slice(), &[2], "members of the next")
}

#[test]
fn coordinates_are_evaluated_from_left_to_right(rt: HostRuntime) -> Result<(), Fail> {
    let row = Row::new(rt.alloc(), "expressions");
    let mut count = 0;
    let path = int_path![row.alloc; [next(&mut count), next(&mut count)], [next(&mut count), 0]]?;
    is_contour(&row, path, "1 2 3 0")?;
    let mut count = 0;
    let list = int_shapes![
        row.alloc;
        [[[next(&mut count), 0]], [[next(&mut count), 0]]],
        [[[next(&mut count), 0]]]
    ]?;
    is_list(&row, list, "1 0;2 0;/3 0;/")
}
