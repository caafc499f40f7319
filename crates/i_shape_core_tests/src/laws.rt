use i_shape_core::laws;
use i_shape_core::number::IntNumber;
use i_shape_core::point::{IntPoint, Origin};

/// Each law at two contours. A law has no body, so all that can be seen is that it can be called.
fn laws_hold<I: IntNumber>(c: &[IntPoint<I>], d: &[IntPoint<I>]) {
    laws::one_end(c);
    laws::rotated(c, d);
    laws::reversed(c);
    laws::twice(c);
    laws::agreed(c);
    laws::area_kept(c, d);
    laws::inside_kept(c, d);
    laws::convex_kept(c);
    laws::canonical_joined(c, d);
}

#[test]
fn laws_may_be_cited(_rt: HostRuntime) {
    let points = [IntPoint::<i32>::ZERO; 3];
    laws_hold(points.as_slice(), points.as_slice());
}
