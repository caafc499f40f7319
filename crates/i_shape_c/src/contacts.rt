//! Contacts of edges of a contour, or of several, at any width.

ghost use Rattle.std.specs.Prelude.{◌≡◌, ◌↔◌, ◌+◌, ◌-◌, ◌^◌, ◌<◌, ◌≤◌, ◌++◌, length, map, take, drop, min, All, IsTrue, MatchOption, IfOk, OnErr};
ghost use Rattle.i_shape_contacts.specs.Contacts.{IsRingContact, NoContact, IsFirstContact};
ghost use Rattle.i_shape_contacts.specs.Listing.{ListsContacts};
ghost use Rattle.i_shape_c.specs.Batch.{offset, PartsPoints, AreSafeContours};
ghost use Rattle.i_shape_c.specs.Contacts.{FindsContact, FindsContacts, FindsRingContact, FindsRingContacts, IsContactWritten, AreRebased, moved_contact};
ghost use Rattle.i_shape_c.specs.Points.{point_by};

use crate::batch::{are_parted, part, refusal};
use crate::codes::Refusal;
use crate::point::CPoint;
use i_shape_contacts::{
    Contact, contacts, contacts_of_rings, first_contact, first_contact_of_rings,
};
use i_shape_core::safe_range::are_safe;
use std::alloc::{AllocError, Global};

/// How many places name a contact.
const PLACES: usize = 2;

/// Writes the places of the edges of the first contact to the front of `out`. Returns 1, or 0 where there is none, or a
/// code below 0. Where memory is refused, the result is the same.
pub fn find_contact<P: CPoint>(alloc: Global, points: &[P], out: &mut [usize]) -> i32
    ensures { FindsContact P.Coordinate.width (point_by P.Coordinate.value P.point)
        points.now out.old out.new result }
{
    if out.len() < PLACES {
        return Refusal::NoRoom.code();
    }
    if !are_safe(points) {
        return Refusal::Unsafe.code();
    }
    write_contact(first_contact(alloc, points), out)
}

/// Writes the places of the edges of a contact to the front of `out`. Returns 1, or 0 where there is none.
fn write_contact(found: Option<Contact>, out: &mut [usize]) -> i32
    requires { 2 ≤ length out.old }
    ensures { IsContactWritten found out.old out.new result }
{
    match found {
        Some(it) => {
            out[0] = it.first;
            out[1] = it.second;
            1
        }
        None => 0,
    }
}

/// Writes the places of the edges of the first contact of the contours to the front of `out`. Returns 1, or 0 where
/// there is none, or a code below 0. Memory for a copy of the offsets is needed where the first one isn't 0; where other
/// memory is refused, the result is the same.
pub fn find_contact_of_rings<P: CPoint>(
    alloc: Global,
    points: &[P],
    offsets: &[usize],
    out: &mut [usize],
) -> i32
    ensures { FindsRingContact P.Coordinate.width (point_by P.Coordinate.value P.point)
        points.now offsets.now out.old out.new result }
{
    let is_parted = are_parted(points.len(), offsets);
    let has_room = has_places(out.len());
    if let Some(refusal) = refusal(points, offsets, is_parted, has_room) {
        return refusal.code();
    }
    match contact_of_rings(alloc, points, offsets) {
        Ok(found) => write_contact(found, out),
        Err(_) => Refusal::NoMemory.code(),
    }
}

/// Returns whether an array of so many items has room for the places of a contact.
fn has_places(room: usize) -> bool
    ensures { IsTrue result ↔ (2 ≤ room) }
{
    room >= PLACES
}

/// Returns the first contact of the contours that the offsets give. The only error is `AllocError`, and there is none
/// where the first offset is 0.
fn contact_of_rings<P: CPoint>(
    alloc: Global,
    points: &[P],
    offsets: &[usize],
) -> Result<Option<Contact>, AllocError>
    requires parted { PartsPoints (length points.now) offsets.now }
    requires points_safe { AreSafeContours P.Coordinate.width
        (point_by P.Coordinate.value P.point) points.now offsets.now }
    ensures ok { let contact = IsRingContact offsets.now
        (map (point_by P.Coordinate.value P.point) points.now) in IfOk result
        (λ found. MatchOption found (NoContact contact) (λ it. IsFirstContact contact it.first it.second)) }
    ensures memory { OnErr result (offset offsets.now 0 ≡ 0 → ⊥) }
{
    let start = offsets[0];
    let given = part(points, start, offsets[offsets.len() - 1]);
    if start == 0 {
        return Ok(first_contact_of_rings(alloc, given, offsets));
    }
    let own = rebased(alloc, offsets)?;
    match first_contact_of_rings(alloc, given, &own) {
        Some(it) => Ok(Some(Contact {
            first: it.first + start,
            second: it.second + start,
        })),
        None => Ok(None),
    }
}

/// Returns the offsets less the first one. The only error is `AllocError`.
fn rebased(alloc: Global, offsets: &[usize]) -> Result<Vec<usize>, AllocError>
    requires { PartsPoints (offset offsets.now (length offsets.now - 1)) offsets.now }
    ensures { IfOk result (λ own. AreRebased offsets.now own.items (length offsets.now)) }
{
    let start = offsets[0];
    let mut own = Vec::with_capacity(alloc, offsets.len())?;
    for place in 0..offsets.len() {
        own.push(offsets[place] - start)?;
    }
    Ok(own)
}

/// Writes the contacts to the front of `out`, as many as it has room for, by the first edge and then by the second.
/// Returns how many there are, or a code below 0.
pub fn find_contacts<P: CPoint>(alloc: Global, points: &[P], out: &mut [Contact]) -> isize
    ensures { FindsContacts P.Coordinate.width (point_by P.Coordinate.value P.point)
        points.now out.old out.new result }
{
    if !are_safe(points) {
        return Refusal::Unsafe.code() as isize;
    }
    capped(contacts(alloc, points, out)) as isize
}

/// Writes the contacts of the contours in the same way. Memory for a copy of the offsets is needed where the first one
/// isn't 0.
pub fn find_contacts_of_rings<P: CPoint>(
    alloc: Global,
    points: &[P],
    offsets: &[usize],
    out: &mut [Contact],
) -> isize
    ensures { FindsRingContacts P.Coordinate.width (point_by P.Coordinate.value P.point)
        points.now offsets.now out.old out.new result }
{
    let is_parted = are_parted(points.len(), offsets);
    if let Some(refusal) = refusal(points, offsets, is_parted, true) {
        return refusal.code() as isize;
    }
    match contacts_of_parts(alloc, points, offsets, out) {
        Ok(count) => capped(count) as isize,
        Err(_) => Refusal::NoMemory.code() as isize,
    }
}

/// Writes the contacts of the contours that the offsets give, as many as there is room for, and returns how many there
/// are. The only error is `AllocError`; then nothing is written. There is none where the first offset is 0.
fn contacts_of_parts<P: CPoint>(
    alloc: Global,
    points: &[P],
    offsets: &[usize],
    out: &mut [Contact],
) -> Result<usize, AllocError>
    requires parted { PartsPoints (length points.now) offsets.now }
    requires points_safe { AreSafeContours P.Coordinate.width
        (point_by P.Coordinate.value P.point) points.now offsets.now }
    ensures ok { let contact = IsRingContact offsets.now
        (map (point_by P.Coordinate.value P.point) points.now) in
        IfOk result (λ count. ListsContacts (2 ^ 64 - 1) contact out.old out.new count) }
    ensures err { OnErr result (out.new ≡ out.old) }
    ensures memory { OnErr result (offset offsets.now 0 ≡ 0 → ⊥) }
{
    let start = offsets[0];
    let given = part(points, start, offsets[offsets.len() - 1]);
    if start == 0 {
        return Ok(contacts_of_rings(alloc, given, offsets, out));
    }
    let own = rebased(alloc, offsets)?;
    let count = contacts_of_rings(alloc, given, &own, out);
    move_contacts(out, count, start);
    Ok(count)
}

/// Adds `start` to the places of the first `count` contacts, or of all if there are fewer.
fn move_contacts(contacts: &mut [Contact], count: usize, start: usize)
    requires { All (λ it. (it.first ≤ it.second) × (it.second + start < 2 ^ 64))
        (take count contacts.old) }
    ensures { contacts.new ≡ map (moved_contact start) (take count contacts.old)
        ++ drop count contacts.old }
{
    for place in 0..count.min(contacts.len()) {
        let it = contacts[place];
        contacts[place] = Contact {
            first: it.first + start,
            second: it.second + start,
        };
    }
}

/// Returns a number, or the greatest `isize` where that is less.
fn capped(count: usize) -> usize
    ensures { result ≡ min count (2 ^ 63 - 1) }
{
    const MOST: usize = isize::MAX as usize;
    if count < MOST { count } else { MOST }
}
