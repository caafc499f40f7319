//! All contacts, in order.

ghost use Rattle.std.specs.Prelude.{◌≡◌, ◌+◌, ◌-◌, ◌^◌, ◌<◌, ◌≤◌, ◌++◌, ◌∷◌, List, [], length};
ghost use Rattle.i_shape_core.specs.IntPoint.{IsSafeContour};
ghost use Rattle.i_shape_core.specs.Reading.{read};
ghost use Rattle.i_shape_contacts.specs.Contacts.{IsContactBy};
ghost use Rattle.i_shape_contacts.specs.Listing.{AreWritten, ListsContacts, Earlier};
ghost use Rattle.i_shape_contacts.specs.Steps.Boxes.{AreBlocks, CountsChunks};

use crate::blocks::{CHUNK, blocks_of, bounds_of_edge, chunk_end};
use crate::boxes::{Block, are_apart};
use crate::chunks::greater_rank;
use crate::course::Course;
use crate::order::AsGiven;
use crate::plain::{Contact, are_in_contact};
use i_shape_core::point::ContourPoint;
use std::alloc::Global;

/// Writes the contacts to the front of `out`, as many as it has room for, by the first edge and then by the second.
/// Returns how many there are, or `usize::MAX` if there are more than that. It takes nearly linear time where few boxes
/// of edges overlap, and allocates boxes for each eight points; where memory is refused it tries all pairs.
pub fn contacts_by<P: ContourPoint, C: Course>(
    alloc: Global,
    points: &[P],
    course: C,
    out: &mut [Contact],
) -> usize
    requires safe { IsSafeContour P.Coordinate.width
        (read P.Coordinate.value P.points points.now) }
    requires can { C.can_follow course }
    requires count { C.count course ≡ length points.now }
    ensures { ListsContacts (2 ^ 64 - 1) (IsContactBy (C.follows course)
        (read P.Coordinate.value P.points points.now)) out.old out.new result }
{
    if points.len() < 16 {
        return contacts_by_pairs(points, course, out);
    }
    let order = AsGiven {
        count: points.len(),
    };
    match blocks_of(alloc, points, course, order) {
        Ok(blocks) => contacts_by_blocks(points, course, &blocks, out),
        Err(_) => contacts_by_pairs(points, course, out),
    }
}

/// Writes the contacts in the same way, by all pairs of edges.
fn contacts_by_pairs<P: ContourPoint, C: Course>(
    points: &[P],
    course: C,
    out: &mut [Contact],
) -> usize
    requires safe { IsSafeContour P.Coordinate.width
        (read P.Coordinate.value P.points points.now) }
    requires can { C.can_follow course }
    requires count { C.count course ≡ length points.now }
    ensures { ListsContacts (2 ^ 64 - 1) (IsContactBy (C.follows course)
        (read P.Coordinate.value P.points points.now)) out.old out.new result }
{
    let mut count = 0;
    for first in 0..points.len() {
        count = contacts_after(points, course, first, out, count);
    }
    count
}

/// Writes the contacts of the edge at `first` with edges after it behind the `start` contacts before, and returns how
/// many there are with these.
fn contacts_after<P: ContourPoint, C: Course>(
    points: &[P],
    course: C,
    first: usize,
    out: &mut [Contact],
    start: usize,
) -> usize
    requires safe { IsSafeContour P.Coordinate.width
        (read P.Coordinate.value P.points points.now) }
    requires can { C.can_follow course }
    requires count { C.count course ≡ length points.now }
    requires within { first < length points.now }
    ensures { let contact = IsContactBy (C.follows course) (read P.Coordinate.value P.points points.now) in
        (old : List Contact) → ListsContacts (2 ^ 64 - 1) (Earlier contact first 0) old out.old start
        → ListsContacts (2 ^ 64 - 1) (Earlier contact (first + 1) 0) old out.new result }
{
    contacts_between(points, course, first, first + 1, points.len(), out, start)
}

/// Writes the contacts in the same way, where the blocks are there.
fn contacts_by_blocks<P: ContourPoint, C: Course>(
    points: &[P],
    course: C,
    blocks: &[Block<P::Coordinate>],
    out: &mut [Contact],
) -> usize
    requires safe { IsSafeContour P.Coordinate.width
        (read P.Coordinate.value P.points points.now) }
    requires can { C.can_follow course }
    requires count { C.count course ≡ length points.now }
    requires blocks_count { CountsChunks (length blocks.now) (length points.now) }
    requires are_blocks { AreBlocks P.Coordinate.value (C.follows course)
        (read P.Coordinate.value P.points points.now) (λ k. k) 0 blocks.now }
    ensures { ListsContacts (2 ^ 64 - 1) (IsContactBy (C.follows course)
        (read P.Coordinate.value P.points points.now)) out.old out.new result }
{
    let mut count = 0;
    for first in 0..points.len() {
        count = contacts_beside(points, course, blocks, first, out, count);
    }
    count
}

/// Writes the contacts of the edge at `first` as `contacts_after` does, where the blocks are there.
fn contacts_beside<P: ContourPoint, C: Course>(
    points: &[P],
    course: C,
    blocks: &[Block<P::Coordinate>],
    first: usize,
    out: &mut [Contact],
    start: usize,
) -> usize
    requires safe { IsSafeContour P.Coordinate.width
        (read P.Coordinate.value P.points points.now) }
    requires can { C.can_follow course }
    requires count { C.count course ≡ length points.now }
    requires within { first < length points.now }
    requires blocks_count { CountsChunks (length blocks.now) (length points.now) }
    requires are_blocks { AreBlocks P.Coordinate.value (C.follows course)
        (read P.Coordinate.value P.points points.now) (λ k. k) 0 blocks.now }
    ensures { let contact = IsContactBy (C.follows course) (read P.Coordinate.value P.points points.now) in
        (old : List Contact) → ListsContacts (2 ^ 64 - 1) (Earlier contact first 0) old out.old start
        → ListsContacts (2 ^ 64 - 1) (Earlier contact (first + 1) 0) old out.new result }
{
    let bounds = bounds_of_edge(points, course, first);
    let mut count = start;
    let mut chunk = (first + 1) / CHUNK;
    while chunk < blocks.len() {
        let block = blocks[chunk];
        if are_apart(bounds, block.bounds) {
            chunk = block.next;
            continue;
        }
        let rank = chunk * CHUNK;
        let from = greater_rank(first + 1, rank);
        count = contacts_between(
            points,
            course,
            first,
            from,
            chunk_end(rank, points.len()),
            out,
            count,
        );
        chunk += 1;
    }
    count
}

/// Writes the contacts of the edge at `first` with those from `from` to below `to` behind the `start` contacts before,
/// and returns how many there are with these.
fn contacts_between<P: ContourPoint, C: Course>(
    points: &[P],
    course: C,
    first: usize,
    from: usize,
    to: usize,
    out: &mut [Contact],
    start: usize,
) -> usize
    requires safe { IsSafeContour P.Coordinate.width
        (read P.Coordinate.value P.points points.now) }
    requires can { C.can_follow course }
    requires count { C.count course ≡ length points.now }
    requires after { first < from }
    requires some { from ≤ to }
    requires within { to ≤ length points.now }
    ensures { let contact = IsContactBy (C.follows course) (read P.Coordinate.value P.points points.now) in
        (old : List Contact) → ListsContacts (2 ^ 64 - 1) (Earlier contact first from) old out.old start
        → ListsContacts (2 ^ 64 - 1) (Earlier contact first to) old out.new result }
{
    let mut count = start;
    for second in from..to {
        if !are_in_contact(points, course, first, second) {
            continue;
        }
        count = list(out, count, Contact { first, second });
    }
    count
}

/// Writes a contact behind the `count` before, if there is room, and returns how many there are with it.
fn list(out: &mut [Contact], count: usize, contact: Contact) -> usize
    ensures { (before old : List Contact) → AreWritten (2 ^ 64 - 1) before old out.old count
        → AreWritten (2 ^ 64 - 1) (before ++ contact ∷ []) old out.new result }
{
    if count < out.len() {
        out[count] = contact;
        count + 1
    } else {
        count.saturating_add(1)
    }
}
