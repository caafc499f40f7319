//! The kind of a contact.

ghost use Rattle.std.specs.Prelude.{◌≡◌, ◌↔◌, length, IsTrue};
ghost use Rattle.i_shape_core.specs.IntPoint.{point_of, IsSafe, IsSafeContour};
ghost use Rattle.i_shape_core.specs.Reading.{read};
ghost use Rattle.i_shape_contacts.specs.Meeting.{Meet};
ghost use Rattle.i_shape_contacts.specs.Along.{AreAtMost, ShareRange, ShareEither, AreAlong};
ghost use Rattle.i_shape_contacts.specs.Contacts.{IsContactBy};
ghost use Rattle.i_shape_contacts.specs.Kinds.{LieOnBothSides, DoCross, DoTouch, DoOverlap, EdgesLie};
ghost use Rattle.i_shape_contacts.specs.declared.kinds.ContactKind.TheVariants.{Crossing, Touch, Overlap};

use crate::course::Course;
use crate::plain::{Contact, point_of_place};
use i_shape_core::number::{IntNumber, WideIntNumber};
use i_shape_core::point::{ContourPoint, IntPoint};

/// How two edges in contact lie to one another.
#[derive(Clone, Copy, PartialEq, Eq, Debug)]
pub enum ContactKind {
    /// The ends of each edge lie on both sides of the line of the other, none on it: they share one point, an end of
    /// neither.
    Crossing,
    /// They share one point, and don't cross.
    Touch,
    /// They share more than one point.
    Overlap,
}

/// Returns the kind of a contact.
pub fn kind_by<P: ContourPoint, C: Course>(points: &[P], course: C, contact: Contact) -> ContactKind
    requires safe { IsSafeContour P.Coordinate.width
        (read P.Coordinate.value P.points points.now) }
    requires can { C.can_follow course }
    requires count { C.count course ≡ length points.now }
    requires contact { IsContactBy (C.follows course)
        (read P.Coordinate.value P.points points.now) contact.first contact.second }
    ensures crossing { result ≡ Crossing ↔ EdgesLie DoCross (C.follows course)
        (read P.Coordinate.value P.points points.now) contact.first contact.second }
    ensures touch { result ≡ Touch ↔ EdgesLie DoTouch (C.follows course)
        (read P.Coordinate.value P.points points.now) contact.first contact.second }
    ensures overlap { result ≡ Overlap ↔ EdgesLie DoOverlap (C.follows course)
        (read P.Coordinate.value P.points points.now) contact.first contact.second }
{
    let next = course.next(contact.first);
    let after = course.next(contact.second);
    let a = point_of_place(points, contact.first);
    let b = point_of_place(points, next);
    let c = point_of_place(points, contact.second);
    let e = point_of_place(points, after);
    kind_of(a, b, c, e)
}

/// Returns how the segments from `a` to `b` and from `c` to `e` lie to one another. Requires that they share a point.
pub fn kind_of<I: IntNumber>(
    a: IntPoint<I>,
    b: IntPoint<I>,
    c: IntPoint<I>,
    e: IntPoint<I>,
) -> ContactKind
    requires a_safe { IsSafe I.width (point_of I.value a) }
    requires b_safe { IsSafe I.width (point_of I.value b) }
    requires c_safe { IsSafe I.width (point_of I.value c) }
    requires e_safe { IsSafe I.width (point_of I.value e) }
    requires meet { Meet (point_of I.value a) (point_of I.value b) (point_of I.value c)
        (point_of I.value e) }
    ensures crossing { result ≡ Crossing ↔ DoCross (point_of I.value a) (point_of I.value b)
        (point_of I.value c) (point_of I.value e) }
    ensures touch { result ≡ Touch ↔ DoTouch (point_of I.value a) (point_of I.value b)
        (point_of I.value c) (point_of I.value e) }
    ensures overlap { result ≡ Overlap ↔ DoOverlap (point_of I.value a) (point_of I.value b)
        (point_of I.value c) (point_of I.value e) }
{
    if do_cross(a, b, c, e) {
        ContactKind::Crossing
    } else if are_along(a, b, c, e) {
        ContactKind::Overlap
    } else {
        ContactKind::Touch
    }
}

/// Returns whether the segments from `a` to `b` and from `c` to `e` cross.
fn do_cross<I: IntNumber>(a: IntPoint<I>, b: IntPoint<I>, c: IntPoint<I>, e: IntPoint<I>) -> bool
    requires a_safe { IsSafe I.width (point_of I.value a) }
    requires b_safe { IsSafe I.width (point_of I.value b) }
    requires c_safe { IsSafe I.width (point_of I.value c) }
    requires e_safe { IsSafe I.width (point_of I.value e) }
    ensures { IsTrue result ↔ DoCross (point_of I.value a) (point_of I.value b)
        (point_of I.value c) (point_of I.value e) }
{
    lie_on_both_sides(a, b, c, e) && lie_on_both_sides(c, e, a, b)
}

/// Returns whether `c` and `e` lie on both sides of the line from `a` to `b`, neither on it.
#[tactic(auto, unfolding(i_shape_core::specs::Point::cross))]
fn lie_on_both_sides<I: IntNumber>(
    a: IntPoint<I>,
    b: IntPoint<I>,
    c: IntPoint<I>,
    e: IntPoint<I>,
) -> bool
    requires a_safe { IsSafe I.width (point_of I.value a) }
    requires b_safe { IsSafe I.width (point_of I.value b) }
    requires c_safe { IsSafe I.width (point_of I.value c) }
    requires e_safe { IsSafe I.width (point_of I.value e) }
    ensures { IsTrue result ↔ LieOnBothSides (point_of I.value a) (point_of I.value b)
        (point_of I.value c) (point_of I.value e) }
{
    let way = b - a;
    let first = way.cross_product(c - b);
    let second = way.cross_product(e - b);
    let zero = I::Wide::ZERO;
    (first > zero && second < zero) || (first < zero && second > zero)
}

/// Returns whether the ways from `a` to `b` and from `c` to `e` are parallel, and the segments share more than one
/// number in a coordinate.
fn are_along<I: IntNumber>(a: IntPoint<I>, b: IntPoint<I>, c: IntPoint<I>, e: IntPoint<I>) -> bool
    requires a_safe { IsSafe I.width (point_of I.value a) }
    requires b_safe { IsSafe I.width (point_of I.value b) }
    requires c_safe { IsSafe I.width (point_of I.value c) }
    requires e_safe { IsSafe I.width (point_of I.value e) }
    ensures { IsTrue result ↔ AreAlong (point_of I.value a) (point_of I.value b)
        (point_of I.value c) (point_of I.value e) }
{
    let first = b - a;
    let second = e - c;
    first.is_parallel_to(second) && share_either(a, b, c, e)
}

/// Returns whether in a coordinate the segments from `a` to `b` and from `c` to `e` share more than one number.
fn share_either<I: IntNumber>(
    a: IntPoint<I>,
    b: IntPoint<I>,
    c: IntPoint<I>,
    e: IntPoint<I>,
) -> bool
    ensures { IsTrue result ↔ ShareEither (point_of I.value a) (point_of I.value b)
        (point_of I.value c) (point_of I.value e) }
{
    share_range(a.x, b.x, c.x, e.x) | share_range(a.y, b.y, c.y, e.y)
}

/// Returns whether the ranges between `a` and `b` and between `c` and `e` share more than one number: neither is a
/// single number, nor ends where the other starts or before.
fn share_range<I: IntNumber>(a: I, b: I, c: I, e: I) -> bool
    ensures { IsTrue result ↔ ShareRange (I.value a) (I.value b) (I.value c) (I.value e) }
{
    !are_at_most(a, b, a, b)
        & !are_at_most(c, e, c, e)
        & !are_at_most(a, b, c, e)
        & !are_at_most(c, e, a, b)
}

/// Returns whether both `a` and `b` are at most `c` and `e`.
fn are_at_most<I: IntNumber>(a: I, b: I, c: I, e: I) -> bool
    ensures { IsTrue result ↔ AreAtMost (I.value a) (I.value b) (I.value c) (I.value e) }
{
    (a <= c) & (b <= c) & (a <= e) & (b <= e)
}
