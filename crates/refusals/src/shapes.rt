//! Shapes of two contours, one with a spike, and lists of one such shape: copies, forms, in place and through a buffer;
//! and the macros.

use crate::given::{SPIKED, SQUARE, TRIANGLE, one_shape, shape};
use crate::told::{begun, call, ended, on};
use i_shape::int::canonical::{CanonicalShape, CanonicalShapes};
use i_shape::int::despike::{DeSpike, DeSpikeShape, DeSpikeShapes};
use i_shape::int::simple::{SimpleShape, SimpleShapes, Simplify};
use i_shape::{int_path, int_shape, int_shapes, path, paths};
use i_shape_tool::{clean_through_buffer, despike_through_buffer};

#[test]
fn of_a_shape(rt: HostRuntime) {
    let alloc = rt.alloc();
    if let Ok(given) = shape(&rt, alloc, &[&SPIKED, &TRIANGLE]) {
        call!(rt, "SimpleShape::simplified" => given.as_slice().simplified(alloc));
        call!(rt, "DeSpikeShape::despiked_shape" => given.despiked_shape(alloc));
        call!(rt, "CanonicalShape::canonical" => given.as_slice().canonical(alloc));
        call!(rt, "CanonicalShape::canonical_unoriented" => given.as_slice().canonical_unoriented(alloc));
    }
}

#[test]
fn of_a_list(rt: HostRuntime) {
    let alloc = rt.alloc();
    if let Ok(given) = one_shape(&rt, alloc, &[&SPIKED, &TRIANGLE]) {
        call!(rt, "SimpleShapes::simplified" => given.as_slice().simplified(alloc));
        call!(rt, "DeSpikeShapes::despiked_shapes" => given.despiked_shapes(alloc));
        call!(rt, "CanonicalShapes::canonical" => given.as_slice().canonical(alloc));
        call!(rt, "CanonicalShapes::canonical_unoriented" => given.as_slice().canonical_unoriented(alloc));
    }
}

#[test]
fn through_a_buffer(rt: HostRuntime) {
    let alloc = rt.alloc();
    if let Ok(given) = one_shape(&rt, alloc, &[&SPIKED]) {
        call!(rt, "clean_through_buffer" => clean_through_buffer(alloc, given.as_slice()));
        call!(rt, "despike_through_buffer" => despike_through_buffer(alloc, given.as_slice()));
    }
    call!(rt, "clean_through_buffer of no shape" => clean_through_buffer::<i32>(alloc, &[]));
    call!(rt, "despike_through_buffer of no shape" => despike_through_buffer::<i32>(alloc, &[]));
}

#[test]
fn in_place(rt: HostRuntime) {
    let alloc = rt.alloc();
    on!(rt, shape(&rt, alloc, &[&SPIKED, &TRIANGLE]), "IntShape::simplify_contour", it => it.simplify_contour());
    on!(rt, shape(&rt, alloc, &[&SPIKED, &TRIANGLE]), "IntShape::remove_spikes", it => it.remove_spikes());
    on!(rt, one_shape(&rt, alloc, &[&SPIKED, &TRIANGLE]), "IntShapes::simplify_contour", it => it.simplify_contour());
    on!(rt, one_shape(&rt, alloc, &[&SPIKED, &TRIANGLE]), "IntShapes::remove_spikes", it => it.remove_spikes());
}

#[test]
fn in_place_where_it_is_clean(rt: HostRuntime) {
    let alloc = rt.alloc();
    on!(rt, shape(&rt, alloc, &[&SQUARE, &TRIANGLE]), "IntShape::simplify_contour of a clean value", it => it.simplify_contour());
    on!(rt, shape(&rt, alloc, &[&SQUARE, &TRIANGLE]), "IntShape::remove_spikes of a clean value", it => it.remove_spikes());
    on!(rt, one_shape(&rt, alloc, &[&SQUARE, &TRIANGLE]), "IntShapes::simplify_contour of a clean value", it => it.simplify_contour());
    on!(rt, one_shape(&rt, alloc, &[&SQUARE, &TRIANGLE]), "IntShapes::remove_spikes of a clean value", it => it.remove_spikes());
}

/// Contours that aren't clean have fewer than three points.
#[test]
fn in_place_where_short_contours_collapse(rt: HostRuntime) {
    let alloc = rt.alloc();
    on!(rt, shape(&rt, alloc, &[&SQUARE, &SQUARE[..2]]), "IntShape::simplify_contour of a hole below three points", it => it.simplify_contour());
    on!(rt, shape(&rt, alloc, &[&SQUARE, &SQUARE[..2]]), "IntShape::remove_spikes of a hole below three points", it => it.remove_spikes());
    on!(rt, one_shape(&rt, alloc, &[&SQUARE, &SQUARE[..2]]), "IntShapes::simplify_contour of a hole below three points", it => it.simplify_contour());
    on!(rt, one_shape(&rt, alloc, &[&SQUARE, &SQUARE[..2]]), "IntShapes::remove_spikes of a hole below three points", it => it.remove_spikes());
}

#[test]
fn macros(rt: HostRuntime) {
    let alloc = rt.alloc();
    call!(rt, "path!" => path![alloc; 1, 2]);
    call!(rt, "paths!" => paths![alloc; [1, 2], [3]]);
    call!(rt, "int_path!" => int_path![alloc; [0i32, 0], [1, 0], [0, 1]]);
    call!(rt, "int_shape!" => int_shape![alloc; [[0i32, 0], [2, 0]], [[0, 0], [1, 0]]]);
    call!(rt, "int_shapes!" => int_shapes![alloc; [[[0i32, 0], [2, 0]]], [[[0, 0], [1, 0]]]]);
}
