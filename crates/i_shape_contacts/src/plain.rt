//! Contacts by trying all pairs of edges.

ghost use Rattle.std.specs.Prelude.{◌↔◌, ◌<◌, ◌≡◌, length, IsTrue, MatchOption, ℕ};
ghost use Rattle.i_shape_core.specs.IntPoint.{point_of, IsSafe, IsSafeContour};
ghost use Rattle.i_shape_core.specs.Reading.{read};
ghost use Rattle.i_shape_core.specs.Contour.{point_at};
ghost use Rattle.i_shape_contacts.specs.Contacts.{IsContactBy, AreAllEqual, NoContact, IsFirstContact, IsFirstAfter};

use crate::course::Course;
use crate::segments::{are_equal, do_meet, do_meet_again};
use i_shape_core::point::{ContourPoint, IntPoint};

/// Two edges that are in contact, `first` before `second`: the places of the points from which they lead. Laid out as in
/// C.
#[repr(C)]
#[derive(Clone, Copy, PartialEq, Eq, Debug)]
pub struct Contact {
    pub first: usize,
    pub second: usize,
}

/// Returns whether the edges at these places are in contact.
pub fn are_in_contact<P: ContourPoint, C: Course>(
    points: &[P],
    course: C,
    first: usize,
    second: usize,
) -> bool
    requires safe { IsSafeContour P.Coordinate.width
        (read P.Coordinate.value P.points points.now) }
    requires can { C.can_follow course }
    requires count { C.count course ≡ length points.now }
    requires order { first < second }
    requires within { second < length points.now }
    ensures { IsTrue result
        ↔ IsContactBy (C.follows course) (read P.Coordinate.value P.points points.now) first second }
{
    let next = course.next(first);
    let after = course.next(second);
    let a = point_of_place(points, first);
    let b = point_of_place(points, next);
    let c = point_of_place(points, second);
    let e = point_of_place(points, after);
    if next == second {
        if after == first {
            !are_equal(a, c)
        } else {
            do_meet_again(a, c, e)
        }
    } else if after == first {
        do_meet_again(c, a, b)
    } else {
        do_meet(a, b, c, e)
    }
}

/// Returns the point at a place.
pub(crate) fn point_of_place<P: ContourPoint>(points: &[P], place: usize) -> IntPoint<P::Coordinate>
    requires safe { IsSafeContour P.Coordinate.width
        (read P.Coordinate.value P.points points.now) }
    requires within { place < length points.now }
    ensures at { point_of P.Coordinate.value result
        ≡ point_at (read P.Coordinate.value P.points points.now) place }
    ensures safe { IsSafe P.Coordinate.width (point_of P.Coordinate.value result) }
{
    points[place].to_point()
}

/// Returns whether all points are equal.
pub(crate) fn are_all_equal<P: ContourPoint>(points: &[P]) -> bool
    requires { IsSafeContour P.Coordinate.width
        (read P.Coordinate.value P.points points.now) }
    ensures { IsTrue result
        ↔ AreAllEqual (read P.Coordinate.value P.points points.now) }
{
    for place in 0..points.len() {
        let point = point_of_place(points, place);
        let start = point_of_place(points, 0);
        if !are_equal(point, start) {
            return false;
        }
    }
    true
}

/// Returns the first edge that is in contact with the edge at `first` before it.
fn contact_after<P: ContourPoint, C: Course>(points: &[P], course: C, first: usize) -> Option<usize>
    requires safe { IsSafeContour P.Coordinate.width
        (read P.Coordinate.value P.points points.now) }
    requires can { C.can_follow course }
    requires count { C.count course ≡ length points.now }
    requires within { first < length points.now }
    ensures { let contact = IsContactBy (C.follows course) (read P.Coordinate.value P.points points.now) in
        MatchOption result ((k : ℕ) → contact first k → ⊥) (λ second. IsFirstAfter contact first second) }
{
    for second in first + 1..points.len() {
        if are_in_contact(points, course, first, second) {
            return Some(second);
        }
    }
    None
}

/// Returns the first contact: of the first edge that is in contact with one after it, that with the first such edge.
/// Takes time quadratic in the points, and allocates nothing.
pub fn first_contact_by<P: ContourPoint, C: Course>(points: &[P], course: C) -> Option<Contact>
    requires safe { IsSafeContour P.Coordinate.width
        (read P.Coordinate.value P.points points.now) }
    requires can { C.can_follow course }
    requires count { C.count course ≡ length points.now }
    ensures { let contact = IsContactBy (C.follows course) (read P.Coordinate.value P.points points.now) in
        MatchOption result (NoContact contact) (λ it. IsFirstContact contact it.first it.second) }
{
    for first in 0..points.len() {
        if let Some(second) = contact_after(points, course, first) {
            return Some(Contact { first, second });
        }
    }
    None
}
