//! The derived `Debug` text of each public type.

use callers::store::Insertion;
use i_shape::flat::buffer::{FlatContoursBuffer, FlatShapesBuffer};
use i_shape::flat::float::{FloatFlatContoursBuffer, FloatFlatShapesBuffer};
use i_shape::int::IntPoint;
use i_shape::{ShapeError, int_path, path};
use i_shape_core::turn::Turn;
use i_shape_test_data::row::Row;
use i_shape_tool::{Command, Complaint, ToolFault};
use std::fmt::Debug;
use std::test::Fail;

/// The value is written as this text.
fn is_written<T: Debug>(row: &Row<'_>, value: &T, wanted: &str) -> Result<(), Fail> {
    let text = format!(in row.alloc; "{value:?}")?;
    row.equal(text.as_str(), wanted, "the text")
}

#[test]
fn a_point_and_an_enum_are_written(rt: HostRuntime) -> Result<(), Fail> {
    let alloc = rt.alloc();
    let row = Row::new(alloc, "Debug");
    let point = IntPoint::new(i16::MIN, 7);
    is_written(&row, &point, "IntPoint { x: -32768, y: 7 }")?;
    is_written(&row, &ShapeError::TooManyPoints, "TooManyPoints")?;
    is_written(&row, &Turn::Straight, "Straight")?;
    is_written(&row, &Command::Canonical, "Canonical")?;
    is_written(&row, &ToolFault::NotAContour(3), "NotAContour(3)")?;
    let complaint = Complaint::Fault(ToolFault::OutOfRange(12));
    is_written(&row, &complaint, "Fault(OutOfRange(12))")?;
    is_written(&row, &Insertion::Collapsed, "Collapsed")
}

#[test]
fn a_buffer_is_written_list_by_list(rt: HostRuntime) -> Result<(), Fail> {
    let alloc = rt.alloc();
    let row = Row::new(alloc, "Debug");
    let contours = FlatContoursBuffer::<i32> {
        points: int_path![alloc; [1, -2], [3, 4]]?,
        ranges: path![alloc; 0..1, 1..2]?,
    };
    let text =
        "FlatContoursBuffer { points: [IntPoint { x: 1, y: -2 }, IntPoint { x: 3, y: 4 }], ranges: [0..1, 1..2] }";
    is_written(&row, &contours, text)?;
    let shapes = FlatShapesBuffer::<i64> {
        points: int_path![alloc; [1, -2]]?,
        contour_ranges: path![alloc; 0..1]?,
        shape_ranges: path![alloc; 1..0]?,
    };
    let text =
        "FlatShapesBuffer { points: [IntPoint { x: 1, y: -2 }], contour_ranges: [0..1], shape_ranges: [1..0] }";
    is_written(&row, &shapes, text)?;
    let contours = FloatFlatContoursBuffer {
        points: path![alloc; 'a', 'b']?,
        ranges: path![alloc; 0..2]?,
    };
    let text = "FloatFlatContoursBuffer { points: ['a', 'b'], ranges: [0..2] }";
    is_written(&row, &contours, text)?;
    let shapes = FloatFlatShapesBuffer {
        points: path![alloc; 5, 6]?,
        contour_ranges: path![alloc; 0..2]?,
        shape_ranges: path![alloc;]?,
    };
    let text = "FloatFlatShapesBuffer { points: [5, 6], contour_ranges: [0..2], shape_ranges: [] }";
    is_written(&row, &shapes, text)
}
