//! Where rings touch.

ghost use Rattle.std.specs.Prelude.{◌≡◌, ◌<◌, ◌-◌, ◌↔◌, pos, length, IfOk, IsTrue, MatchOption};
ghost use Rattle.i_shape_core.specs.IntPoint.{point_of, IsSafe, IsSafeContour};
ghost use Rattle.i_shape_core.specs.Reading.{read};
ghost use Rattle.i_shape_core.specs.Rings.{offset};
ghost use Rattle.i_shape_contacts.specs.Courses.{Divides, DividesPoints};
ghost use Rattle.i_shape_contacts.specs.Contacts.{IsRingContact, NoContact, IsFirstContact};
ghost use Rattle.i_shape_contacts.specs.Kinds.{DoTouch};
ghost use Rattle.i_shape_contacts.specs.Listing.{AreContacts};
ghost use Rattle.i_shape_touching.specs.Places.{LiesOn};
ghost use Rattle.i_shape_touching.specs.Touching.{IsEdgeOf, IsFaultyContact, AreTouching};
ghost use Rattle.i_shape_touching.specs.Steps.Touches.{IsTouch, AreTouches};

use i_shape_contacts::course::{Course, Rings};
use i_shape_contacts::segments::do_meet;
use i_shape_contacts::{Contact, ContactKind, contacts_of_rings, kind_of_contact_of_rings};
use i_shape_core::number::IntNumber;
use i_shape_core::point::{ContourPoint, IntPoint};
use std::alloc::{AllocError, Global};

/// Two edges in contact, and a point that they share.
#[derive(Clone, Copy)]
pub(crate) struct Touch<I> {
    pub point: IntPoint<I>,
    pub contact: Contact,
}

/// Returns all contacts, in order. The only error is `AllocError`.
pub(crate) fn all_contacts<P: ContourPoint>(
    alloc: Global,
    points: &[P],
    offsets: &[usize],
) -> Result<Vec<Contact>, AllocError>
    requires safe { IsSafeContour P.Coordinate.width
        (read P.Coordinate.value P.points points.now) }
    requires divides { DividesPoints (length points.now) offsets.now }
    ensures { IfOk result (λ v. AreContacts (IsRingContact offsets.now
        (read P.Coordinate.value P.points points.now)) v.items) }
{
    let count = contacts_of_rings(alloc, points, offsets, &mut []);
    let blank = Contact {
        first: 0,
        second: 0,
    };
    let mut contacts = vec![in alloc; blank; count]?;
    contacts_of_rings(alloc, points, offsets, &mut contacts);
    Ok(contacts)
}

/// Returns the ring of an edge: that into which the offsets put the point from which it leads.
pub(crate) fn ring_of_edge(offsets: &[usize], edge: usize) -> usize
    requires divides { Divides offsets.now }
    requires within { edge < offset offsets.now (length offsets.now - 1) }
    ensures { IsEdgeOf offsets.now result edge }
{
    let mut low = 0;
    let mut high = offsets.len() - 1;
    while high - low > 1 {
        let middle = low + (high - low) / 2;
        if offsets[middle] <= edge {
            low = middle;
        } else {
            high = middle;
        }
    }
    low
}

/// Returns the first contact that isn't a touch of two rings.
pub(crate) fn first_faulty<P: ContourPoint>(
    points: &[P],
    offsets: &[usize],
    contacts: &[Contact],
) -> Option<Contact>
    requires safe { IsSafeContour P.Coordinate.width
        (read P.Coordinate.value P.points points.now) }
    requires divides { DividesPoints (length points.now) offsets.now }
    requires all { AreContacts (IsRingContact offsets.now
        (read P.Coordinate.value P.points points.now)) contacts.now }
    ensures { let faulty = IsFaultyContact offsets.now (read P.Coordinate.value P.points points.now) in
        MatchOption result (NoContact faulty) (λ it. IsFirstContact faulty it.first it.second) }
{
    for contact in contacts {
        if !is_touch(points, offsets, *contact) {
            return Some(*contact);
        }
    }
    None
}

/// Returns whether two edges in contact are of two rings and touch.
fn is_touch<P: ContourPoint>(points: &[P], offsets: &[usize], contact: Contact) -> bool
    requires safe { IsSafeContour P.Coordinate.width
        (read P.Coordinate.value P.points points.now) }
    requires divides { DividesPoints (length points.now) offsets.now }
    requires contact { IsRingContact offsets.now (read P.Coordinate.value P.points points.now)
        contact.first contact.second }
    ensures { IsTrue result ↔ AreTouching offsets.now
        (read P.Coordinate.value P.points points.now) contact.first contact.second }
{
    let ring = ring_of_edge(offsets, contact.first);
    let other = ring_of_edge(offsets, contact.second);
    if ring == other {
        return false;
    }
    matches!(
        kind_of_contact_of_rings(points, offsets, contact),
        ContactKind::Touch
    )
}

/// Returns where each two edges in contact touch. The only error is `AllocError`.
pub(crate) fn touches_of<P: ContourPoint>(
    alloc: Global,
    points: &[P],
    offsets: &[usize],
    contacts: &[Contact],
) -> Result<Vec<Touch<P::Coordinate>>, AllocError>
    requires safe { IsSafeContour P.Coordinate.width
        (read P.Coordinate.value P.points points.now) }
    requires divides { DividesPoints (length points.now) offsets.now }
    requires all { AreContacts (IsRingContact offsets.now
        (read P.Coordinate.value P.points points.now)) contacts.now }
    requires clear { NoContact (IsFaultyContact offsets.now
        (read P.Coordinate.value P.points points.now)) }
    ensures { IfOk result (λ v. AreTouches P.Coordinate.value offsets.now
        (read P.Coordinate.value P.points points.now) v.items) }
{
    let mut touches = Vec::with_capacity(alloc, contacts.len())?;
    for contact in contacts {
        touches.push_reserved(touch_of(points, offsets, *contact));
    }
    Ok(touches)
}

/// Returns where two edges in contact touch.
fn touch_of<P: ContourPoint>(
    points: &[P],
    offsets: &[usize],
    contact: Contact,
) -> Touch<P::Coordinate>
    requires safe { IsSafeContour P.Coordinate.width
        (read P.Coordinate.value P.points points.now) }
    requires divides { DividesPoints (length points.now) offsets.now }
    requires contact { IsRingContact offsets.now (read P.Coordinate.value P.points points.now)
        contact.first contact.second }
    requires clear { NoContact (IsFaultyContact offsets.now
        (read P.Coordinate.value P.points points.now)) }
    ensures is { IsTouch P.Coordinate.value offsets.now
        (read P.Coordinate.value P.points points.now) result }
    ensures contact { result.contact ≡ contact }
{
    let rings = Rings { offsets };
    let a = points[contact.first].to_point();
    let b = points[rings.next(contact.first)].to_point();
    let c = points[contact.second].to_point();
    let e = points[rings.next(contact.second)].to_point();
    Touch {
        point: touch_point(a, b, c, e),
        contact,
    }
}

/// Returns the point that the segments from `a` to `b` and from `c` to `e` share. Requires that they touch, so that it
/// is an end of one of them.
fn touch_point<I: IntNumber>(
    a: IntPoint<I>,
    b: IntPoint<I>,
    c: IntPoint<I>,
    e: IntPoint<I>,
) -> IntPoint<I>
    requires a_safe { IsSafe I.width (point_of I.value a) }
    requires b_safe { IsSafe I.width (point_of I.value b) }
    requires c_safe { IsSafe I.width (point_of I.value c) }
    requires e_safe { IsSafe I.width (point_of I.value e) }
    requires touch { DoTouch (point_of I.value a) (point_of I.value b) (point_of I.value c)
        (point_of I.value e) }
    ensures on_first { LiesOn (pos 1) (point_of I.value result) (point_of I.value a)
        (point_of I.value b) }
    ensures on_second { LiesOn (pos 1) (point_of I.value result) (point_of I.value c)
        (point_of I.value e) }
{
    if do_meet(a, a, c, e) {
        a
    } else if do_meet(b, b, c, e) {
        b
    } else if do_meet(c, c, a, b) {
        c
    } else {
        e
    }
}
