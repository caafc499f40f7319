//! The calls of the flat buffers that take memory, each of contours beside that of shapes.

use crate::flat_buffers::{
    contours, shapes, spot_contours, spot_shapes, test_contours, test_shapes,
};
use crate::given::{MARK, SPIKED, SQUARE, TRIANGLE, shape};
use crate::spots::{self, PAIR, Repeated, Spot, TRIPLE};
use crate::told::{begun, call, ended, on};
use i_shape::flat::buffer::{FlatContoursBuffer, FlatShapesBuffer};
use i_shape::flat::float::{FloatFlatContoursBuffer, FloatFlatShapesBuffer};

#[test]
fn new(rt: HostRuntime) {
    let alloc = rt.alloc();
    call!(rt, "FlatContoursBuffer::with_capacity" => FlatContoursBuffer::<i32>::with_capacity(alloc, 4));
    call!(rt, "FlatShapesBuffer::with_capacity" => FlatShapesBuffer::<i32>::with_capacity(alloc, 4, 4, 4));
    call!(rt, "FloatFlatContoursBuffer::with_capacity" => FloatFlatContoursBuffer::<Spot>::with_capacity(alloc, 4, 4));
    call!(rt, "FloatFlatShapesBuffer::with_capacity" => FloatFlatShapesBuffer::<Spot>::with_capacity(alloc, 4, 4, 4));
}

#[test]
fn cloned(rt: HostRuntime) {
    let alloc = rt.alloc();
    on!(rt, contours(alloc, &SQUARE, &[0..4, 0..3]), "FlatContoursBuffer::clone", it => it.clone());
    on!(rt, shapes(alloc, &SQUARE, &[0..4, 0..3]), "FlatShapesBuffer::clone", it => it.clone());
    on!(rt, spot_contours(alloc, &spots::BOTH, &[0..2, 2..5]), "FloatFlatContoursBuffer::clone", it => it.clone());
    on!(rt, spot_shapes(alloc, &spots::BOTH, &[0..2, 2..5]), "FloatFlatShapesBuffer::clone", it => it.clone());
}

/// Capacity 0 takes no memory.
#[test]
fn new_of_nothing(rt: HostRuntime) {
    let alloc = rt.alloc();
    call!(rt, "FlatContoursBuffer::with_capacity of nothing" => FlatContoursBuffer::<i32>::with_capacity(alloc, 0));
    call!(rt, "FlatShapesBuffer::with_capacity of nothing" => FlatShapesBuffer::<i32>::with_capacity(alloc, 0, 0, 0));
    call!(rt, "FloatFlatContoursBuffer::with_capacity of nothing" => FloatFlatContoursBuffer::<Spot>::with_capacity(alloc, 0, 0));
    call!(rt, "FloatFlatShapesBuffer::with_capacity of nothing" => FloatFlatShapesBuffer::<Spot>::with_capacity(alloc, 0, 0, 0));
}

/// A copy of an empty buffer takes no memory.
#[test]
fn cloned_of_nothing(rt: HostRuntime) {
    let alloc = rt.alloc();
    call!(rt, "FlatContoursBuffer::clone of nothing" => FlatContoursBuffer::<i32>::new(alloc).clone());
    call!(rt, "FlatShapesBuffer::clone of nothing" => FlatShapesBuffer::<i32>::new(alloc).clone());
    call!(rt, "FloatFlatContoursBuffer::clone of nothing" => FloatFlatContoursBuffer::<Spot>::new(alloc).clone());
    call!(rt, "FloatFlatShapesBuffer::clone of nothing" => FloatFlatShapesBuffer::<Spot>::new(alloc).clone());
}

#[test]
fn set_with_nothing(rt: HostRuntime) {
    let alloc = rt.alloc();
    on!(rt, contours(alloc, &[], &[]), "FlatContoursBuffer::clear_and_reserve of nothing", it => it.clear_and_reserve(0, 0));
    on!(rt, shapes(alloc, &[], &[]), "FlatShapesBuffer::clear_and_reserve of nothing", it => it.clear_and_reserve(0, 0, 0));
    on!(rt, contours(alloc, &[], &[]), "FlatContoursBuffer::set_with_shapes of nothing", it => it.set_with_shapes(&[]));
    on!(rt, shapes(alloc, &[], &[]), "FlatShapesBuffer::set_with_shapes of nothing", it => it.set_with_shapes(&[]));
}

#[test]
fn set_with_no_points_of_any_kind(rt: HostRuntime) {
    let alloc = rt.alloc();
    on!(rt, spot_contours(alloc, &[], &[]), "FloatFlatContoursBuffer::set_flat of nothing", it => it.set_flat(&[], &[]));
    on!(rt, spot_shapes(alloc, &[], &[]), "FloatFlatShapesBuffer::set_flat of nothing", it => it.set_flat(&[], &[], &[]));
    on!(rt, spot_contours(alloc, &[], &[]), "FloatFlatContoursBuffer::set_with_iter of nothing",
        it => it.set_with_iter(Repeated { left: 0 }, &[]));
    on!(rt, spot_shapes(alloc, &[], &[]), "FloatFlatShapesBuffer::set_with_iter of nothing",
        it => it.set_with_iter(Repeated { left: 0 }, &[], &[]));
}

#[test]
fn reserved(rt: HostRuntime) {
    let alloc = rt.alloc();
    on!(rt, contours(alloc, &MARK, &[]), "FlatContoursBuffer::clear_and_reserve", it => it.clear_and_reserve(4, 4));
    on!(rt, shapes(alloc, &MARK, &[]), "FlatShapesBuffer::clear_and_reserve", it => it.clear_and_reserve(4, 4, 4));
    on!(rt, spot_contours(alloc, &spots::MARK, &[]), "FloatFlatContoursBuffer::clear_and_reserve", it => it.clear_and_reserve(4, 4));
    on!(rt, spot_shapes(alloc, &spots::MARK, &[]), "FloatFlatShapesBuffer::clear_and_reserve", it => it.clear_and_reserve(4, 4, 4));
}

#[test]
fn set_with_a_contour(rt: HostRuntime) {
    let alloc = rt.alloc();
    on!(rt, contours(alloc, &MARK, &[]), "FlatContoursBuffer::set_with_contour", it => it.set_with_contour(&SQUARE));
    on!(rt, shapes(alloc, &MARK, &[]), "FlatShapesBuffer::set_with_contour", it => it.set_with_contour(&SQUARE));
}

#[test]
fn set_with_shapes(rt: HostRuntime) {
    let alloc = rt.alloc();
    let Ok(given) = shape(&rt, alloc, &[&SQUARE, &TRIANGLE]) else {
        return;
    };
    on!(rt, contours(alloc, &MARK, &[]), "FlatContoursBuffer::set_with_shape", it => it.set_with_shape(given.as_slice()));
    on!(rt, shapes(alloc, &MARK, &[]), "FlatShapesBuffer::set_with_shape", it => it.set_with_shape(given.as_slice()));
    let given = [given];
    on!(rt, contours(alloc, &MARK, &[]), "FlatContoursBuffer::set_with_shapes", it => it.set_with_shapes(&given));
    on!(rt, shapes(alloc, &MARK, &[]), "FlatShapesBuffer::set_with_shapes", it => it.set_with_shapes(&given));
}

#[test]
fn added(rt: HostRuntime) {
    let alloc = rt.alloc();
    on!(rt, contours(alloc, &MARK, &[]), "FlatContoursBuffer::add_contour", it => it.add_contour(&TRIANGLE));
    on!(rt, spot_contours(alloc, &PAIR, &[]), "FloatFlatContoursBuffer::add_contour", it => it.add_contour(&TRIPLE));
    on!(rt, spot_shapes(alloc, &PAIR, &[]), "FloatFlatShapesBuffer::add_contour", it => it.add_contour(&TRIPLE));
    let Ok(given) = shape(&rt, alloc, &[&SQUARE, &TRIANGLE]) else {
        return;
    };
    on!(rt, shapes(alloc, &MARK, &[]), "FlatShapesBuffer::add_shape", it => it.add_shape(given.as_slice()));
}

#[test]
fn added_by_an_iterator(rt: HostRuntime) {
    let alloc = rt.alloc();
    on!(rt, spot_contours(alloc, &PAIR, &[]), "FloatFlatContoursBuffer::add_contour_iter", it => it.add_contour_iter(Repeated { left: 5 }));
    on!(rt, spot_shapes(alloc, &PAIR, &[]), "FloatFlatShapesBuffer::add_contour_iter", it => it.add_contour_iter(Repeated { left: 5 }));
    on!(rt, spot_contours(alloc, &PAIR, &[]), "FloatFlatContoursBuffer::add_contour_iter of a counted iterator",
        it => it.add_contour_iter(TRIPLE.as_slice().iter().copied()));
    on!(rt, spot_shapes(alloc, &PAIR, &[]), "FloatFlatShapesBuffer::add_contour_iter of a counted iterator",
        it => it.add_contour_iter(TRIPLE.as_slice().iter().copied()));
}

#[test]
fn set_by_an_iterator(rt: HostRuntime) {
    let alloc = rt.alloc();
    on!(rt, spot_contours(alloc, &spots::MARK, &[]), "FloatFlatContoursBuffer::set_with_iter",
        it => it.set_with_iter(Repeated { left: 5 }, &[0..1, 1..2]), refused => spot_contours(alloc, &[], &[]));
    on!(rt, spot_shapes(alloc, &spots::MARK, &[]), "FloatFlatShapesBuffer::set_with_iter",
        it => it.set_with_iter(Repeated { left: 5 }, &[0..1, 1..2], &[0..1, 1..2]), refused => spot_shapes(alloc, &[], &[]));
    on!(rt, spot_contours(alloc, &spots::MARK, &[]), "FloatFlatContoursBuffer::set_with_iter of a counted iterator",
        it => it.set_with_iter(spots::BOTH.as_slice().iter().copied(), &[0..1, 1..2]), refused => spot_contours(alloc, &[], &[]));
    on!(rt, spot_shapes(alloc, &spots::MARK, &[]), "FloatFlatShapesBuffer::set_with_iter of a counted iterator",
        it => it.set_with_iter(spots::BOTH.as_slice().iter().copied(), &[0..1, 1..2], &[0..1, 1..2]), refused => spot_shapes(alloc, &[], &[]));
}

#[test]
fn set_flat(rt: HostRuntime) {
    let alloc = rt.alloc();
    on!(rt, spot_contours(alloc, &spots::MARK, &[]), "FloatFlatContoursBuffer::set_flat", it => it.set_flat(&spots::BOTH, &[0..2, 2..5]));
    on!(rt, spot_shapes(alloc, &spots::MARK, &[]), "FloatFlatShapesBuffer::set_flat",
        it => it.set_flat(&spots::BOTH, &[0..2, 2..5], &[0..1, 1..2]));
}

#[test]
fn set_with_resources(rt: HostRuntime) {
    let alloc = rt.alloc();
    let paths = [PAIR.as_slice(), TRIPLE.as_slice()];
    on!(rt, spot_contours(alloc, &spots::MARK, &[]), "FloatFlatContoursBuffer::set_with_resource", it => it.set_with_resource(&paths));
    on!(rt, spot_shapes(alloc, &spots::MARK, &[]), "FloatFlatShapesBuffer::set_with_resource", it => it.set_with_resource(&paths));
    let paths: [&[Spot]; 0] = [];
    on!(rt, spot_shapes(alloc, &spots::MARK, &[]), "FloatFlatShapesBuffer::set_with_resource without paths", it => it.set_with_resource(&paths));
}

#[test]
fn read(rt: HostRuntime) {
    let alloc = rt.alloc();
    on!(rt, contours(alloc, &SQUARE, &[0..4, 0..3]), "FlatContoursBuffer::to_contours", it => {
        assert!(rt; it.can_read_contours());
        it.to_contours()
    });
    if let Ok(it) = shapes(alloc, &SQUARE, &[0..4, 0..3]) {
        assert!(rt; it.can_read_contours() && it.can_read_shapes());
        call!(rt, "FlatShapesBuffer::to_contours" => it.to_contours());
        call!(rt, "FlatShapesBuffer::to_shapes" => it.to_shapes());
    }
}

#[test]
fn read_of_points_of_any_kind(rt: HostRuntime) {
    let alloc = rt.alloc();
    on!(rt, spot_contours(alloc, &spots::BOTH, &[0..2, 2..5]), "FloatFlatContoursBuffer::to_contours", it => {
        assert!(rt; it.can_read_contours());
        it.to_contours()
    });
    if let Ok(it) = spot_shapes(alloc, &spots::BOTH, &[0..2, 2..5]) {
        assert!(rt; it.can_read_contours() && it.can_read_shapes());
        call!(rt, "FloatFlatShapesBuffer::to_contours" => it.to_contours());
        call!(rt, "FloatFlatShapesBuffer::to_shapes" => it.to_shapes());
    }
}

/// A call of this name removes zero turns or spikes from the buffer of contours.
macro_rules! cleans {
    ($rt:ident, $given:ident($($list:expr),*) after $test:ident, $name:expr => $call:ident) => {
        on!($rt, $given($rt.alloc(), $($list),*), $name, it => {
            $test(&$rt, &it);
            it.$call()
        });
    };
}

#[test]
fn contours_cleaned(rt: HostRuntime) {
    cleans!(rt, contours(&SPIKED, &[0..6, 3..6]) after test_contours, "FlatContoursBuffer::simplify_contours" => simplify_contours);
    cleans!(rt, contours(&SPIKED, &[0..6, 0..6]) after test_contours, "FlatContoursBuffer::simplify_contours of two that aren't clean" => simplify_contours);
    cleans!(rt, contours(&SQUARE, &[0..4, 0..3]) after test_contours, "FlatContoursBuffer::simplify_contours of a clean value" => simplify_contours);
}

#[test]
fn contours_despiked(rt: HostRuntime) {
    cleans!(rt, contours(&SPIKED, &[0..6, 3..6]) after test_contours, "FlatContoursBuffer::remove_spikes" => remove_spikes);
    cleans!(rt, contours(&SPIKED, &[0..6, 0..6]) after test_contours, "FlatContoursBuffer::remove_spikes of two that have some" => remove_spikes);
    cleans!(rt, contours(&SQUARE, &[0..4, 0..3]) after test_contours, "FlatContoursBuffer::remove_spikes of a clean value" => remove_spikes);
}

#[test]
fn shapes_cleaned(rt: HostRuntime) {
    cleans!(rt, shapes(&SPIKED, &[0..6, 3..6]) after test_shapes, "FlatShapesBuffer::simplify_shapes" => simplify_shapes);
    cleans!(rt, shapes(&SQUARE, &[0..4, 0..3]) after test_shapes, "FlatShapesBuffer::simplify_shapes of a clean value" => simplify_shapes);
    cleans!(rt, shapes(&SPIKED, &[0..6, 3..6]) after test_shapes, "FlatShapesBuffer::remove_spikes" => remove_spikes);
    cleans!(rt, shapes(&SQUARE, &[0..4, 0..3]) after test_shapes, "FlatShapesBuffer::remove_spikes of a clean value" => remove_spikes);
}
