//! How the edges of many pairs meet, at any width. Nothing allocates.

ghost use Rattle.std.specs.Prelude.{◌≡◌, ◌+◌, ◌/◌, ◌%◌, ◌<◌, ◌≤◌, length, map};
ghost use Rattle.i_shape.specs.Contour.{point_at};
ghost use Rattle.i_shape.specs.IntPoint.{point_of, IsSafe};
ghost use Rattle.i_shape_c.specs.Cleaned.{AreSafe};
ghost use Rattle.i_shape_c.specs.Kinds.{IsKind, IsKindFrom, AreKinds, FindsKinds};
ghost use Rattle.i_shape_c.specs.Points.{point_by};

use crate::codes::Refusal;
use crate::point::CPoint;
use i_shape::IntNumber;
use i_shape::int::IntPoint;
use i_shape_contacts::ContactKind;
use i_shape_contacts::kinds::kind_of;
use i_shape_contacts::segments::do_meet;
use i_shape_core::safe_range::are_safe;

/// How many points give a pair of edges: the ends of the first one, and those of the second.
const ENDS: usize = 4;

/// Written for edges that share no point.
const NO_CONTACT: u8 = 0;

/// Written for edges that cross.
const CROSSING: u8 = 1;

/// Written for edges that touch.
const TOUCH: u8 = 2;

/// Written for edges that overlap.
const OVERLAP: u8 = 3;

/// Writes how the edges of each pair meet, in order, to the front of `out`. Returns 0, or a code below 0.
pub fn find_kinds<P: CPoint>(edges: &[P], out: &mut [u8]) -> i32
    ensures { FindsKinds P.Coordinate.width (point_by P.Coordinate.value P.point) edges.now out.old
        out.new result }
{
    if edges.len() % ENDS != 0 {
        return Refusal::BadOffsets.code();
    }
    if out.len() < edges.len() / ENDS {
        return Refusal::NoRoom.code();
    }
    if !are_safe(edges) {
        return Refusal::Unsafe.code();
    }
    write_kinds(edges, out);
    0
}

/// Writes the same for safe points, where there is room.
fn write_kinds<P: CPoint>(edges: &[P], out: &mut [u8])
    requires room { length edges.now / 4 ≤ length out.old }
    requires points_safe { AreSafe P.Coordinate.width (point_by P.Coordinate.value P.point) edges.now }
    ensures { AreKinds (point_by P.Coordinate.value P.point) edges.now out.old out.new }
{
    for pair in 0..edges.len() / ENDS {
        out[pair] = kind_from(edges, pair * ENDS);
    }
}

/// Returns how the two edges meet whose ends are the four points from `start` on.
fn kind_from<P: CPoint>(edges: &[P], start: usize) -> u8
    requires within { start + 3 < length edges.now }
    requires points_safe { AreSafe P.Coordinate.width (point_by P.Coordinate.value P.point) edges.now }
    ensures { IsKindFrom (map (point_by P.Coordinate.value P.point) edges.now) start result }
{
    let a = end_at(edges, start);
    let b = end_at(edges, start + 1);
    let c = end_at(edges, start + 2);
    let e = end_at(edges, start + 3);
    kind_between(a, b, c, e)
}

/// Returns the point at a place.
fn end_at<P: CPoint>(edges: &[P], place: usize) -> IntPoint<P::Coordinate>
    requires within { place < length edges.now }
    requires points_safe { AreSafe P.Coordinate.width (point_by P.Coordinate.value P.point) edges.now }
    ensures at { point_of P.Coordinate.value result
        ≡ point_at (map (point_by P.Coordinate.value P.point) edges.now) place }
    ensures safe { IsSafe P.Coordinate.width (point_of P.Coordinate.value result) }
{
    edges[place].to_point()
}

/// Returns how the edges from `a` to `b` and from `c` to `e` meet.
fn kind_between<I: IntNumber>(a: IntPoint<I>, b: IntPoint<I>, c: IntPoint<I>, e: IntPoint<I>) -> u8
    requires a_safe { IsSafe I.width (point_of I.value a) }
    requires b_safe { IsSafe I.width (point_of I.value b) }
    requires c_safe { IsSafe I.width (point_of I.value c) }
    requires e_safe { IsSafe I.width (point_of I.value e) }
    ensures { IsKind (point_of I.value a) (point_of I.value b) (point_of I.value c)
        (point_of I.value e) result }
{
    if !do_meet(a, b, c, e) {
        return NO_CONTACT;
    }
    match kind_of(a, b, c, e) {
        ContactKind::Crossing => CROSSING,
        ContactKind::Touch => TOUCH,
        ContactKind::Overlap => OVERLAP,
    }
}
