//! Tests and measures, which take no memory, but for winding numbers by height.

use crate::flat_buffers::{contours, shapes, spot_contours, spot_shapes};
use crate::given::{SQUARE, TRIANGLE, one_shape, safe, shape};
use crate::spots;
use crate::told::{begun, call, ended, on};
use i_shape::int::IntPoint;
use i_shape::int::area::{Area, IteratorArea, UnsafeArea};
use i_shape::int::count::PointsCount;
use i_shape::int::despike::{DeSpikeContour, DeSpikeShape, DeSpikeShapes};
use i_shape::int::path::ContourExtension;
use i_shape::int::shape::{IntContour, IntShape};
use i_shape::int::simple::{SimpleContour, SimpleShape, SimpleShapes};
use i_shape::int::winding::{ShapeExtension, windings_by_height};
use i_shape::{FillRule, ShapeError};
use i_shape_core::canonical::least_start_counted;

#[test]
fn tests_of_a_contour(rt: HostRuntime) {
    let points = safe(&rt, SQUARE.as_slice());
    assert!(rt; !points.is_empty());
    call!(rt, "SimpleContour::is_simple" => Ok(points.is_simple()));
    call!(rt, "DeSpikeContour::has_no_spikes" => Ok(points.has_no_spikes()));
    call!(rt, "ContourExtension::is_convex" => Ok(points.is_convex()));
    call!(rt, "ContourExtension::is_clockwise_ordered" => Ok(points.is_clockwise_ordered()));
    call!(rt, "FillRule::fills" => Ok(FillRule::Negative.fills(-1)));
}

#[test]
fn points_in_a_contour(rt: HostRuntime) {
    let points = safe(&rt, SQUARE.as_slice());
    let centre = IntPoint::new(1, 1);
    assert!(rt; centre.is_in_safe_range());
    call!(rt, "ContourExtension::contains_point" => Ok(points.contains_point(centre)));
    call!(rt, "ContourExtension::winding_number" => Ok(points.winding_number(centre)));
    call!(rt, "ContourExtension::contains_by" => Ok(points.contains_by(centre, FillRule::NonZero)));
    let mut numbers = [7; 5];
    assert!(rt; points.len() <= numbers.len());
    call!(rt, "ContourExtension::winding_numbers_into" => Ok(points.winding_numbers_into(points, &mut numbers)));
}

/// The numbers that are written over. They take no memory.
fn numbers() -> Result<[isize; 5], ShapeError> {
    Ok([7; 5])
}

#[test]
fn windings_of_a_contour_by_height(rt: HostRuntime) {
    let points = safe(&rt, SQUARE.as_slice());
    assert!(rt; points.len() <= 5);
    on!(rt, numbers(), "windings_by_height", out => windings_by_height(rt.alloc(), points, points, &mut out).or(Err(ShapeError::OutOfMemory)));
    let none = safe(&rt, &SQUARE[..0]);
    assert!(rt; none.is_empty());
    on!(rt, numbers(), "windings_by_height of no point", out => windings_by_height(rt.alloc(), points, none, &mut out).or(Err(ShapeError::OutOfMemory)));
}

#[test]
fn tests_of_shapes(rt: HostRuntime) {
    let alloc = rt.alloc();
    let (Ok(given), Ok(list)) = (
        shape(&rt, alloc, &[&SQUARE, &TRIANGLE]),
        one_shape(&rt, alloc, &[&SQUARE, &TRIANGLE]),
    ) else {
        return;
    };
    let centre = IntPoint::new(1, 1);
    assert!(rt; centre.is_in_safe_range());
    call!(rt, "ShapeExtension::winding_number" => Ok(given.as_slice().winding_number(centre)));
    call!(rt, "ShapeExtension::contains_by" => Ok(given.as_slice().contains_by(centre, FillRule::EvenOdd)));
    call!(rt, "SimpleShape::is_simple" => Ok(given.as_slice().is_simple()));
    call!(rt, "SimpleShapes::is_simple" => Ok(list.as_slice().is_simple()));
    call!(rt, "DeSpikeShape::has_no_spikes" => Ok(given.has_no_spikes()));
    call!(rt, "DeSpikeShapes::has_no_spikes" => Ok(list.has_no_spikes()));
}

#[test]
fn measures_of_a_contour(rt: HostRuntime) {
    let points = SQUARE.as_slice();
    call!(rt, "Area::area_two of a contour" => Ok(points.area_two()));
    call!(rt, "Area::area of a contour" => Ok(points.area()));
    call!(rt, "UnsafeArea::unsafe_area" => Ok(points.iter().copied().unsafe_area()));
    call!(rt, "IteratorArea::area_two" => Ok(IteratorArea::area_two(points.iter().copied())));
    call!(rt, "IteratorArea::area" => Ok(IteratorArea::area(points.iter().copied())));
    call!(rt, "least_start_counted" => Ok(least_start_counted(points)));
}

#[test]
fn measures_of_shapes(rt: HostRuntime) {
    let alloc = rt.alloc();
    let (Ok(square), Ok(triangle), Ok(alone)) = (
        Vec::from_slice(alloc, &SQUARE),
        Vec::from_slice(alloc, &TRIANGLE),
        Vec::from_slice(alloc, &SQUARE),
    ) else {
        return;
    };
    let paths: [IntContour<i32>; 2] = [square, triangle];
    let Ok(given) = Vec::from_array(alloc, [alone]) else {
        return;
    };
    let shapes: [IntShape<i32>; 1] = [given];
    call!(rt, "PointsCount::points_count of paths" => Ok(paths.as_slice().points_count()));
    call!(rt, "PointsCount::points_count of shapes" => Ok(shapes.as_slice().points_count()));
    call!(rt, "Area::area_two of a shape" => Ok(paths.as_slice().area_two()));
    call!(rt, "Area::area of a shape" => Ok(paths.as_slice().area()));
    call!(rt, "Area::area_two of shapes" => Ok(shapes.as_slice().area_two()));
    call!(rt, "Area::area of shapes" => Ok(shapes.as_slice().area()));
}

#[test]
fn tests_of_buffers_of_contours(rt: HostRuntime) {
    if let Ok(mut it) = contours(rt.alloc(), &SQUARE, &[0..4, 0..3]) {
        call!(rt, "FlatContoursBuffer::is_empty" => Ok(it.is_empty()));
        call!(rt, "FlatContoursBuffer::is_single_contour" => Ok(it.is_single_contour()));
        call!(rt, "FlatContoursBuffer::can_read_contours" => Ok(it.can_read_contours()));
        call!(rt, "FlatContoursBuffer::can_read_first" => Ok(it.can_read_first()));
        assert!(rt; it.can_read_first());
        call!(rt, "FlatContoursBuffer::as_first_contour" => Ok(it.as_first_contour().len()));
        call!(rt, "FlatContoursBuffer::as_first_contour_mut" => Ok(it.as_first_contour_mut().len()));
    }
    let alloc = rt.alloc();
    on!(rt, spot_contours(alloc, &spots::BOTH, &[0..2, 2..5]), "FloatFlatContoursBuffer::is_empty", it => Ok(it.is_empty()));
    on!(rt, spot_contours(alloc, &spots::BOTH, &[0..2, 2..5]), "FloatFlatContoursBuffer::can_read_contours", it => Ok(it.can_read_contours()));
}

#[test]
fn tests_of_buffers_of_shapes(rt: HostRuntime) {
    if let Ok(it) = shapes(rt.alloc(), &SQUARE, &[0..4, 0..3]) {
        call!(rt, "FlatShapesBuffer::is_empty" => Ok(it.is_empty()));
        call!(rt, "FlatShapesBuffer::can_read_contours" => Ok(it.can_read_contours()));
        call!(rt, "FlatShapesBuffer::can_read_shapes" => Ok(it.can_read_shapes()));
    }
    if let Ok(it) = spot_shapes(rt.alloc(), &spots::BOTH, &[0..2, 2..5]) {
        call!(rt, "FloatFlatShapesBuffer::is_empty" => Ok(it.is_empty()));
        call!(rt, "FloatFlatShapesBuffer::can_read_contours" => Ok(it.can_read_contours()));
        call!(rt, "FloatFlatShapesBuffer::can_read_shapes" => Ok(it.can_read_shapes()));
    }
}
