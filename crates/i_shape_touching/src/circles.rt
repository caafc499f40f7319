//! Rings that touch in a circle.

ghost use Rattle.std.specs.Prelude.{◌≡◌, ◌+◌, ◌<◌, ◌↔◌, ◌==◌, if◌then◌else◌, length, map, IfOk, IsTrue, MatchOption};
ghost use Rattle.i_shape_core.specs.IntPoint.{IsSafeContour};
ghost use Rattle.i_shape_core.specs.Reading.{read};
ghost use Rattle.i_shape_contacts.specs.Courses.{Divides, DividesPoints};
ghost use Rattle.i_shape_contacts.specs.Contacts.{NoContact};
ghost use Rattle.i_shape_contacts.specs.Listing.{AreBefore};
ghost use Rattle.i_shape_contacts.specs.Validity.{NoDegenerateRing};
ghost use Rattle.i_shape_touching.specs.Touching.{IsFaultyContact, NoneJoinedTwice, IsFirstCircle};
ghost use Rattle.i_shape_touching.specs.Steps.Touches.{AreTouches};
ghost use Rattle.i_shape_touching.specs.Steps.Labels.{AreOwn, touch_points, touch_contacts, IsGroup, AreOfRings, NoneSame, IsFirstSame, IsEarlier, AreMerged};

use crate::touches::{Touch, ring_of_edge};
use i_shape_contacts::Contact;
use i_shape_core::number::IntNumber;
use i_shape_core::point::ContourPoint;
use std::alloc::{AllocError, Global};

/// Returns the first contact that closes a circle of rings, of those at the least point, or `None` if none does. It is
/// one of two rings already joined, directly or through other rings, by touches at lesser points, by x and then by y.
/// The only error is `AllocError`.
pub(crate) fn first_circle<P: ContourPoint>(
    alloc: Global,
    points: &[P],
    offsets: &[usize],
    touches: Vec<Touch<P::Coordinate>>,
) -> Result<Option<Contact>, AllocError>
    requires safe { IsSafeContour P.Coordinate.width
        (read P.Coordinate.value P.points points.now) }
    requires divides { DividesPoints (length points.now) offsets.now }
    requires whole { NoDegenerateRing offsets.now (read P.Coordinate.value P.points points.now) }
    requires clear { NoContact (IsFaultyContact offsets.now
        (read P.Coordinate.value P.points points.now)) }
    requires touches { AreTouches P.Coordinate.value offsets.now
        (read P.Coordinate.value P.points points.now) touches.items }
    ensures { let c = read P.Coordinate.value P.points points.now in
        IfOk result (λ r. MatchOption r (NoneJoinedTwice offsets.now c)
        (λ it. IsFirstCircle offsets.now c it.first it.second)) }
{
    let mut touches = touches;
    touches.sort_unstable_by_key(|touch| touch.point);
    let mut labels = own_labels(alloc, offsets.len() - 1)?;
    let mut from = 0;
    while from < touches.len() {
        let to = end_of_group(&touches, from);
        let group = &touches[from..to];
        if let Some(contact) = first_closing(offsets, &labels, group) {
            return Ok(Some(contact));
        }
        join_all(offsets, &mut labels, group);
        from = to;
    }
    Ok(None)
}

/// Returns labels for a number of rings, each with its own. The only error is `AllocError`.
fn own_labels(alloc: Global, count: usize) -> Result<Vec<usize>, AllocError>
    ensures { IfOk result (λ v. AreOwn v.items count) }
{
    let mut labels = Vec::with_capacity(alloc, count)?;
    for ring in 0..count {
        labels.push_reserved(ring);
    }
    Ok(labels)
}

/// Returns the end of the touches at the point of the one at `from`.
fn end_of_group<I: IntNumber>(touches: &[Touch<I>], from: usize) -> usize
    requires { from < length touches.now }
    ensures { IsGroup (touch_points I.value touches.now) from result }
{
    for to in from + 1..touches.len() {
        if touches[to].point != touches[from].point {
            return to;
        }
    }
    touches.len()
}

/// Returns the first contact of two rings with the same label.
fn first_closing<I: IntNumber>(
    offsets: &[usize],
    labels: &[usize],
    group: &[Touch<I>],
) -> Option<Contact>
    requires divides { Divides offsets.now }
    requires count { length labels.now + 1 ≡ length offsets.now }
    requires within { AreOfRings offsets.now (touch_contacts group.now) }
    ensures { MatchOption result
        (NoneSame offsets.now labels.now (touch_contacts group.now) (length group.now))
        (IsFirstSame offsets.now labels.now (touch_contacts group.now) (length group.now)) }
{
    let mut found: Option<Contact> = None;
    for touch in group {
        let contact = touch.contact;
        let ring = ring_of_edge(offsets, contact.first);
        let other = ring_of_edge(offsets, contact.second);
        if labels[ring] == labels[other] {
            found = earlier(found, contact);
        }
    }
    found
}

/// Returns the first of one or two contacts.
fn earlier(found: Option<Contact>, contact: Contact) -> Option<Contact>
    ensures { IsEarlier found contact result }
{
    match found {
        Some(least) if is_before(least, contact) => Some(least),
        _ => Some(contact),
    }
}

/// Returns whether a contact comes before another: by the first edge, and where this is the same by the second.
fn is_before(contact: Contact, other: Contact) -> bool
    ensures { IsTrue result ↔ AreBefore other.first other.second contact.first contact.second }
{
    contact.first < other.first || (contact.first == other.first && contact.second < other.second)
}

/// Gives the rings of each touch the same label.
fn join_all<I: IntNumber>(offsets: &[usize], labels: &mut [usize], group: &[Touch<I>])
    requires divides { Divides offsets.now }
    requires count { length labels.old + 1 ≡ length offsets.now }
    requires within { AreOfRings offsets.now (touch_contacts group.now) }
    ensures { AreMerged offsets.now (touch_contacts group.now) (length group.now) labels.old labels.new }
{
    for touch in group {
        let ring = ring_of_edge(offsets, touch.contact.first);
        let other = ring_of_edge(offsets, touch.contact.second);
        let (kept, left) = (labels[ring], labels[other]);
        if kept != left {
            relabel(labels, left, kept);
        }
    }
}

/// Replaces a label by another.
fn relabel(labels: &mut [usize], left: usize, kept: usize)
    ensures { labels.new ≡ map (λ label. if label == left then kept else label) labels.old }
{
    for label in labels.iter_mut() {
        if *label == left {
            *label = kept;
        }
    }
}
