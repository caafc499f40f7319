//! The cleaners of one contour.

use crate::given::{FLAT, SPIKED, SQUARE, contour, safe};
use crate::told::{begun, call, call_twice, compared, ended, on};
use i_shape::int::despike::{ContourDeSpiker, DeSpike, DeSpikeContour};
use i_shape::int::simple::{ContourSimplifier, SimpleContour, Simplify};

#[test]
fn of_a_contour(rt: HostRuntime) {
    let alloc = rt.alloc();
    let points = safe(&rt, SPIKED.as_slice());
    call!(rt, "SimpleContour::simplified" => points.simplified(alloc));
    call!(rt, "SimpleContour::canonical" => points.canonical(alloc));
    call!(rt, "SimpleContour::canonical_unoriented" => points.canonical_unoriented(alloc));
    call!(rt, "DeSpikeContour::despiked_contour" => points.despiked_contour(alloc));
    call!(rt, "DeSpikeContour::despiked_counted" => points.despiked_counted(alloc));
}

#[test]
fn of_a_new_cleaner(rt: HostRuntime) {
    let alloc = rt.alloc();
    let points = safe(&rt, SPIKED.as_slice());
    call!(rt, "ContourSimplifier::simplify_contour" => ContourSimplifier::new(alloc).simplify_contour(points));
    call!(rt, "ContourSimplifier::canonical" => ContourSimplifier::new(alloc).canonical(points));
    call!(rt, "ContourSimplifier::canonical_unoriented" => ContourSimplifier::new(alloc).canonical_unoriented(points));
    call!(rt, "ContourDeSpiker::despike_contour" => ContourDeSpiker::new(alloc).despike_contour(points));
    call!(rt, "ContourDeSpiker::despike_counted" => ContourDeSpiker::new(alloc).despike_counted(points));
}

/// A simplifier that has cleaned a shorter contour before. It is used again after a failure, and returns what a new one
/// does.
#[test]
fn of_a_used_cleaner(rt: HostRuntime) {
    let points = safe(&rt, SPIKED.as_slice());
    let mut simplifier = ContourSimplifier::new(rt.alloc());
    if simplifier.simplify_counted(safe(&rt, &SPIKED[..5])).is_ok() {
        call_twice!(rt, "ContourSimplifier::simplify_counted" => simplifier.simplify_counted(points));
        call_twice!(rt, "ContourSimplifier::simplify_counted again" => simplifier.simplify_counted(points));
        let fresh = ContourSimplifier::new(rt.alloc()).simplify_counted(points);
        compared(
            &rt,
            "a used cleaner",
            (simplifier.simplify_counted(points), fresh),
            true,
        );
    }
}

#[test]
fn of_a_clean_contour(rt: HostRuntime) {
    let alloc = rt.alloc();
    let points = safe(&rt, SQUARE.as_slice());
    call!(rt, "SimpleContour::simplified of a clean contour" => points.simplified(alloc));
    call!(rt, "DeSpikeContour::despiked_contour of a clean contour" => points.despiked_contour(alloc));
    call!(rt, "DeSpikeContour::despiked_counted of a clean contour" => points.despiked_counted(alloc));
    let points = safe(&rt, FLAT.as_slice());
    call!(rt, "DeSpikeContour::despiked_contour of three points that collapse" => points.despiked_contour(alloc));
    call!(rt, "DeSpikeContour::despiked_counted of three points that collapse" => points.despiked_counted(alloc));
}

#[test]
fn below_three_points(rt: HostRuntime) {
    let alloc = rt.alloc();
    let points = safe(&rt, &SQUARE[..2]);
    call!(rt, "SimpleContour::simplified below three points" => points.simplified(alloc));
    call!(rt, "SimpleContour::canonical below three points" => points.canonical(alloc));
    call!(rt, "SimpleContour::canonical_unoriented below three points" => points.canonical_unoriented(alloc));
    call!(rt, "DeSpikeContour::despiked_contour below three points" => points.despiked_contour(alloc));
    call!(rt, "DeSpikeContour::despiked_counted below three points" => points.despiked_counted(alloc));
}

#[test]
fn below_three_points_by_a_simplifier(rt: HostRuntime) {
    let points = safe(&rt, &SQUARE[..2]);
    let mut simplifier = ContourSimplifier::new(rt.alloc());
    call_twice!(rt, "ContourSimplifier::simplify_contour below three points" => simplifier.simplify_contour(points));
    call_twice!(rt, "ContourSimplifier::simplify_counted below three points" => simplifier.simplify_counted(points));
    call_twice!(rt, "ContourSimplifier::canonical below three points" => simplifier.canonical(points));
    call_twice!(rt, "ContourSimplifier::canonical_unoriented below three points" => simplifier.canonical_unoriented(points));
}

#[test]
fn in_place(rt: HostRuntime) {
    let alloc = rt.alloc();
    on!(rt, contour(&rt, alloc, &SPIKED), "IntContour::simplify_contour", it => it.simplify_contour());
    on!(rt, contour(&rt, alloc, &SPIKED), "IntContour::remove_spikes", it => it.remove_spikes());
}

#[test]
fn in_place_where_nothing_is_cleaned(rt: HostRuntime) {
    let alloc = rt.alloc();
    on!(rt, contour(&rt, alloc, &SQUARE), "IntContour::simplify_contour of a clean value", it => it.simplify_contour());
    on!(rt, contour(&rt, alloc, &SQUARE), "IntContour::remove_spikes of a clean value", it => it.remove_spikes());
    on!(rt, contour(&rt, alloc, &SQUARE[..1]), "IntContour::simplify_contour below three points", it => it.simplify_contour());
    on!(rt, contour(&rt, alloc, &SQUARE[..1]), "IntContour::remove_spikes below three points", it => it.remove_spikes());
}
