//! Where contours touch or cross themselves or each other.
//!
//! An edge leads from each point to the one that follows it, the last edge of a contour to its first point. Two edges
//! are in *contact* if they share a point other than one at which one of them follows the other. A contour without a
//! contact, of at least three points that aren't all equal, is the boundary of a simple polygon.
//!
//! A contact is a *crossing*, a *touch* or an *overlap* of its two edges. Paths may also cross at a vertex, where each
//! edge of one only touches those of the other: no two edges cross there.
#![tactic(auto)]

ghost use Rattle.std.specs.Prelude.{◌≡◌, ◌↔◌, ◌-◌, ◌^◌, length, IsTrue, MatchOption};
ghost use Rattle.i_shape_core.specs.IntPoint.{IsSafeContour};
ghost use Rattle.i_shape_core.specs.Reading.{read};
ghost use Rattle.i_shape_contacts.specs.Courses.{DividesPoints};
ghost use Rattle.i_shape_contacts.specs.Contacts.{IsContact, IsRingContact, IsNext, IsAfter, NoContact, IsFirstContact, IsSimplePolygon};
ghost use Rattle.i_shape_contacts.specs.Kinds.{DoCross, DoTouch, DoOverlap, EdgesLie};
ghost use Rattle.i_shape_contacts.specs.Listing.{ListsContacts};
ghost use Rattle.i_shape_contacts.specs.declared.kinds.ContactKind.TheVariants.{Crossing, Touch, Overlap};

pub mod blocks;
pub mod boxes;
mod chunks;
pub mod course;
pub mod kinds;
pub mod listing;
pub mod order;
pub mod plain;
mod rings;
pub mod segments;
pub mod spread;
pub mod validity;

pub use course::do_divide;
use course::{Cycle, Rings, Tabled, table_of};
use i_shape_core::point::ContourPoint;
pub use kinds::ContactKind;
use kinds::kind_by;
use listing::contacts_by;
pub use plain::Contact;
use plain::are_all_equal;
use std::alloc::Global;
pub use validity::{Validity, validity_of};

/// Returns the first contact of a contour: of the first edge that is in contact with one after it, that with the first
/// such edge. It takes nearly linear time where few boxes of edges overlap, and allocates boxes for each eight points;
/// where memory is refused it tries all pairs.
pub fn first_contact<P: ContourPoint>(alloc: Global, contour: &[P]) -> Option<Contact>
    requires { IsSafeContour P.Coordinate.width
        (read P.Coordinate.value P.points contour.now) }
    ensures { let contact = IsContact (read P.Coordinate.value P.points contour.now) in
        MatchOption result (NoContact contact) (λ it. IsFirstContact contact it.first it.second) }
{
    let count = contour.len();
    blocks::first_contact_by(alloc, contour, Cycle { count })
}

/// Returns whether a contour is the boundary of a simple polygon: it has at least three points, not all of them equal,
/// and no contact.
pub fn is_simple_polygon<P: ContourPoint>(alloc: Global, contour: &[P]) -> bool
    requires { IsSafeContour P.Coordinate.width
        (read P.Coordinate.value P.points contour.now) }
    ensures { IsTrue result ↔ IsSimplePolygon (read P.Coordinate.value P.points contour.now) }
{
    if contour.len() < 3 {
        return false;
    }
    if are_all_equal(contour) {
        return false;
    }
    first_contact(alloc, contour).is_none()
}

/// From so many offsets on, edges are sorted by where they lie.
const MANY_RINGS: usize = 64;

/// Returns the first contact of several rings, those into which the offsets divide the points.
pub fn first_contact_of_rings<P: ContourPoint>(
    alloc: Global,
    points: &[P],
    offsets: &[usize],
) -> Option<Contact>
    requires safe { IsSafeContour P.Coordinate.width
        (read P.Coordinate.value P.points points.now) }
    requires divides { DividesPoints (length points.now) offsets.now }
    ensures { let contact = IsRingContact offsets.now (read P.Coordinate.value P.points points.now) in
        MatchOption result (NoContact contact) (λ it. IsFirstContact contact it.first it.second) }
{
    let rings = Rings { offsets };
    if offsets.len() < MANY_RINGS || points.len() < 16 {
        blocks::first_contact_by(alloc, points, rings)
    } else {
        match table_of(alloc, offsets) {
            Ok(table) => {
                spread::first_contact_by(
                    alloc,
                    points,
                    Tabled {
                        offsets,
                        table: &table,
                    },
                )
            }
            Err(_) => spread::first_contact_by(alloc, points, rings),
        }
    }
}

/// Returns whether two edges in contact cross, touch or overlap. Requires that they are in contact.
pub fn kind_of_contact<P: ContourPoint>(contour: &[P], contact: Contact) -> ContactKind
    requires safe { IsSafeContour P.Coordinate.width
        (read P.Coordinate.value P.points contour.now) }
    requires contact { IsContact (read P.Coordinate.value P.points contour.now) contact.first
        contact.second }
    ensures crossing { let c = read P.Coordinate.value P.points contour.now in
        result ≡ Crossing ↔ EdgesLie DoCross (IsNext (length c)) c contact.first contact.second }
    ensures touch { let c = read P.Coordinate.value P.points contour.now in
        result ≡ Touch ↔ EdgesLie DoTouch (IsNext (length c)) c contact.first contact.second }
    ensures overlap { let c = read P.Coordinate.value P.points contour.now in
        result ≡ Overlap ↔ EdgesLie DoOverlap (IsNext (length c)) c contact.first contact.second }
{
    let count = contour.len();
    kind_by(contour, Cycle { count }, contact)
}

/// Returns the same for two edges of the rings into which the offsets divide the points.
pub fn kind_of_contact_of_rings<P: ContourPoint>(
    points: &[P],
    offsets: &[usize],
    contact: Contact,
) -> ContactKind
    requires safe { IsSafeContour P.Coordinate.width
        (read P.Coordinate.value P.points points.now) }
    requires divides { DividesPoints (length points.now) offsets.now }
    requires contact { IsRingContact offsets.now (read P.Coordinate.value P.points points.now)
        contact.first contact.second }
    ensures crossing { result ≡ Crossing ↔ EdgesLie DoCross (IsAfter offsets.now)
        (read P.Coordinate.value P.points points.now) contact.first contact.second }
    ensures touch { result ≡ Touch ↔ EdgesLie DoTouch (IsAfter offsets.now)
        (read P.Coordinate.value P.points points.now) contact.first contact.second }
    ensures overlap { result ≡ Overlap ↔ EdgesLie DoOverlap (IsAfter offsets.now)
        (read P.Coordinate.value P.points points.now) contact.first contact.second }
{
    kind_by(points, Rings { offsets }, contact)
}

/// Writes the contacts of a contour to the front of `out`, as many as it has room for: by the first edge, and those of
/// one edge by the second. Behind them `out` is as it was. Returns how many contacts there are, also where this is more
/// than the room; `usize::MAX` if there are more than that. It takes nearly linear time where few boxes of edges overlap
/// and few edges are in contact, and allocates boxes for each eight points; where memory is refused it tries all pairs.
pub fn contacts<P: ContourPoint>(alloc: Global, contour: &[P], out: &mut [Contact]) -> usize
    requires { IsSafeContour P.Coordinate.width
        (read P.Coordinate.value P.points contour.now) }
    ensures { ListsContacts (2 ^ 64 - 1) (IsContact
        (read P.Coordinate.value P.points contour.now)) out.old out.new result }
{
    let count = contour.len();
    contacts_by(alloc, contour, Cycle { count }, out)
}

/// Writes the contacts of the rings into which the offsets divide the points, within one or between two, as `contacts`
/// does.
pub fn contacts_of_rings<P: ContourPoint>(
    alloc: Global,
    points: &[P],
    offsets: &[usize],
    out: &mut [Contact],
) -> usize
    requires safe { IsSafeContour P.Coordinate.width
        (read P.Coordinate.value P.points points.now) }
    requires divides { DividesPoints (length points.now) offsets.now }
    ensures { ListsContacts (2 ^ 64 - 1) (IsRingContact offsets.now
        (read P.Coordinate.value P.points points.now)) out.old out.new result }
{
    contacts_by(alloc, points, Rings { offsets }, out)
}
