//! Calls of numbers, points, probes, new values and walks over paths, which take no memory.

use crate::flat_buffers::{contours, shapes, spot_contours, spot_shapes};
use crate::given::{FLAT, MARK, SQUARE, TRIANGLE, one_shape, safe};
use crate::spots::{self, PAIR, Spot, TRIPLE};
use crate::told::{begun, call, ended};
use i_shape::IntNumber;
use i_shape::flat::buffer::{FlatContoursBuffer, FlatShapesBuffer};
use i_shape::flat::float::{FloatFlatContoursBuffer, FloatFlatShapesBuffer};
use i_shape::int::IntPoint;
use i_shape::int::cleaner::ContourCleaner;
use i_shape::int::despike::ContourDeSpiker;
use i_shape::int::safe_range::IntSafeRange;
use i_shape::int::simple::ContourSimplifier;
use i_shape::source::float::resource::ShapeResource;
use i_shape::source::int::resource::IntShapeResource;
use i_shape_core::number::WideIntNumber;
use i_shape_core::probe::Probe;
use i_shape_core::triangle::Triangle;
use i_shape_tool::Command;

#[test]
fn numbers(rt: HostRuntime) {
    call!(rt, "IntNumber::to_wide" => Ok(7i32.to_wide()));
    call!(rt, "IntNumber::minus" => Ok(7i32.minus(4)));
    call!(rt, "WideIntNumber::wrapping_add" => Ok(WideIntNumber::wrapping_add(7i64, 2)));
    call!(rt, "WideIntNumber::wrapping_sub" => Ok(WideIntNumber::wrapping_sub(7i64, 2)));
    call!(rt, "WideIntNumber::wrapping_mul" => Ok(WideIntNumber::wrapping_mul(7i64, 2)));
    call!(rt, "WideIntNumber::signum" => Ok(WideIntNumber::signum(-7i64)));
    call!(rt, "WideIntNumber::divide" => Ok(7i64.divide(2)));
}

#[test]
fn points(rt: HostRuntime) {
    call!(rt, "IntPoint::new" => Ok(IntPoint::new(3, 1)));
    let [a, b, zero] = [
        IntPoint::new(3, 1),
        IntPoint::new(1, 2),
        IntPoint::new(0, 0),
    ];
    call!(rt, "IntPoint::sub" => Ok(a - b));
    call!(rt, "IntPoint::cross_product" => Ok(a.cross_product(b)));
    call!(rt, "IntPoint::dot_product" => Ok(a.dot_product(b)));
    call!(rt, "IntPoint::is_in_safe_range" => Ok(a.is_in_safe_range()));
    assert!(rt; zero.is_in_safe_range() && a.is_in_safe_range() && b.is_in_safe_range());
    call!(rt, "Triangle::is_clockwise" => Ok(Triangle::is_clockwise(zero, a, b)));
    call!(rt, "Command::from_word" => Ok(Command::from_word("despike")));
}

#[test]
fn probes(rt: HostRuntime) {
    let points = safe(&rt, SQUARE.as_slice());
    call!(rt, "Probe::new" => Ok(Probe::new(points).len()));
    let mut probe = Probe::new(points);
    assert!(rt; probe.len() == 4 && probe.visits() == 0);
    call!(rt, "Probe::len" => Ok(probe.len()));
    call!(rt, "Probe::turn" => Ok(probe.turn(0, 1, 2)));
    call!(rt, "Probe::skip" => Ok(probe.skip()));
    call!(rt, "Probe::visits" => Ok(probe.visits()));
    call!(rt, "Probe::keep" => Probe::new(points).keep(rt.alloc(), &[2, 0, 2]));
}

#[test]
fn new_values(rt: HostRuntime) {
    let alloc = rt.alloc();
    call!(rt, "FlatContoursBuffer::new" => Ok(FlatContoursBuffer::<i32>::new(alloc)));
    call!(rt, "FlatShapesBuffer::new" => Ok(FlatShapesBuffer::<i32>::new(alloc)));
    call!(rt, "FloatFlatContoursBuffer::new" => Ok(FloatFlatContoursBuffer::<Spot>::new(alloc)));
    call!(rt, "FloatFlatShapesBuffer::new" => Ok(FloatFlatShapesBuffer::<Spot>::new(alloc)));
    let mark = safe(&rt, MARK.as_slice());
    let mut out = SQUARE;
    assert!(rt; mark.len() <= out.len());
    call!(rt, "ContourSimplifier::new" => ContourSimplifier::new(alloc).try_clean_into(mark, &mut out));
    call!(rt, "ContourDeSpiker::new" => ContourDeSpiker::new(alloc).try_clean_into(mark, &mut out));
}

#[test]
fn paths_of_lists(rt: HostRuntime) {
    let alloc = rt.alloc();
    let points = safe(&rt, SQUARE.as_slice());
    call!(rt, "IntShapeResource::iter_paths of a contour" => Ok(points.iter_paths().count()));
    let borrowed = [SQUARE.as_slice(), FLAT.as_slice()];
    call!(rt, "IntShapeResource::iter_paths of borrowed paths" => Ok((&borrowed).iter_paths().count()));
    if let Ok(given) = one_shape(&rt, alloc, &[&SQUARE, &TRIANGLE]) {
        if let Some(shape) = given.first() {
            call!(rt, "IntShapeResource::iter_paths of a shape" => Ok(shape.iter_paths().count()));
        }
        call!(rt, "IntShapeResource::iter_paths of shapes" => Ok((&given).iter_paths().next()));
        call!(rt, "IntSafeRange::is_in_safe_range" => Ok((&given).is_in_safe_range()));
    }
    call!(rt, "ShapeResource::iter_paths of a contour" => Ok(PAIR.as_slice().iter_paths().count()));
    let borrowed = [PAIR.as_slice(), TRIPLE.as_slice()];
    call!(rt, "ShapeResource::iter_paths of borrowed paths" => Ok((&borrowed).iter_paths().count()));
}

#[test]
fn paths_of_buffers(rt: HostRuntime) {
    let alloc = rt.alloc();
    let (Ok(one), Ok(other)) = (
        contours(alloc, &SQUARE, &[0..4, 0..3]),
        shapes(alloc, &SQUARE, &[0..4, 0..3]),
    ) else {
        return;
    };
    assert!(rt; one.can_read_contours() && other.can_read_contours());
    call!(rt, "IntShapeResource::iter_paths of FlatContoursBuffer" => Ok((&one).iter_paths().count()));
    call!(rt, "IntBufferResourceIterator::len" => Ok((&one).iter_paths().len()));
    call!(rt, "IntShapeResource::iter_paths of FlatShapesBuffer" => Ok((&other).iter_paths().count()));
    let (Ok(one), Ok(other)) = (
        spot_contours(alloc, &spots::BOTH, &[0..2, 2..5]),
        spot_shapes(alloc, &spots::BOTH, &[0..2, 2..5]),
    ) else {
        return;
    };
    call!(rt, "ShapeResource::iter_paths of FloatFlatContoursBuffer" => Ok((&one).iter_paths().next()));
    call!(rt, "ShapeResource::iter_paths of FloatFlatShapesBuffer" => Ok((&other).iter_paths().next()));
}
