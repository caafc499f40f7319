//! Whether a polygon is valid: an outer contour and holes that don't touch.

ghost use Rattle.std.specs.Prelude.{◌≡◌, ◌↔◌, ◌<◌, ◌+◌, ℕ, pos, length, IsTrue, MatchOption};
ghost use Rattle.i_shape_core.specs.IntPoint.{IsSafeContour};
ghost use Rattle.i_shape_core.specs.Reading.{read};
ghost use Rattle.i_shape_core.specs.Contour.{point_at};
ghost use Rattle.i_shape_core.specs.Winding.{winding};
ghost use Rattle.i_shape_contacts.specs.Steps.Rings.{AreRingBlocks};
ghost use Rattle.i_shape_contacts.specs.Contacts.{IsRingContact, NoContact};
ghost use Rattle.i_shape_contacts.specs.Courses.{DividesPoints};
ghost use Rattle.i_shape_contacts.specs.Validity.{IsDegenerate, IsDegenerateRing, NoDegenerateRing, IsHoleOutside, NoHoleOutside, IsHoleWithin, NoHoleWithin, IsFirstWithin, IsHole, IsLeast, IsFirstFault, IsValidPolygon};
ghost use Rattle.i_shape_contacts.specs.declared.validity.Validity.TheVariants.{Valid};

use crate::boxes::Block;
use crate::first_contact_of_rings;
use crate::plain::{Contact, are_all_equal, point_of_place};
use crate::rings::{blocks_if_memory, next_beside, ring_at};
use i_shape_core::point::ContourPoint;
use i_shape_core::winding::winding_about;
use std::alloc::Global;

/// What is wrong with a polygon, if anything.
#[derive(Clone, Copy, PartialEq, Eq, Debug)]
pub enum Validity {
    /// Nothing is wrong.
    Valid,
    /// The contour at this index has fewer than three points, or all its points are equal.
    TooFewPoints { contour: usize },
    /// These two edges, of one contour or of two, are in contact.
    Contact(Contact),
    /// The hole at this index has a vertex about which the winding number of the outer contour is 0.
    HoleOutside { contour: usize },
    /// The hole at `contour` has a vertex about which the winding number of another hole, at `other`, isn't 0.
    HoleWithin { contour: usize, other: usize },
}

/// A hole that is within another.
#[derive(Clone, Copy)]
struct Nesting {
    hole: usize,
    other: usize,
}

/// Returns the first fault of a polygon, or `Valid` if it has none. The offsets divide the points into its rings: the
/// first is the outer contour, the others are its holes, of either direction. A polygon without rings is valid.
///
/// Faults come in this order: the first ring that has fewer than three points or whose points are all equal; the first
/// contact, as `first_contact_of_rings` returns it; the first hole that is outside the outer contour; the first hole
/// that is within another, with the first such other.
///
/// It takes the time that `first_contact_of_rings` takes. Where it finds no contact, it also compares each hole with the
/// outer contour, and with the other holes whose boxes it meets: of rings that don't touch it tests one vertex for each
/// two. It allocates what `first_contact_of_rings` does, and boxes for each ring; where memory is refused it compares
/// each two holes.
pub fn validity_of<P: ContourPoint>(alloc: Global, points: &[P], offsets: &[usize]) -> Validity
    requires safe { IsSafeContour P.Coordinate.width
        (read P.Coordinate.value P.points points.now) }
    requires divides { DividesPoints (length points.now) offsets.now }
    ensures valid { result ≡ Valid
        ↔ IsValidPolygon offsets.now (read P.Coordinate.value P.points points.now) }
    ensures fault { IsFirstFault offsets.now (read P.Coordinate.value P.points points.now) result }
{
    if let Some(contour) = first_degenerate(points, offsets) {
        return Validity::TooFewPoints { contour };
    }
    if let Some(contact) = first_contact_of_rings(alloc, points, offsets) {
        return Validity::Contact(contact);
    }
    if let Some(contour) = first_outside(points, offsets) {
        return Validity::HoleOutside { contour };
    }
    match first_within(alloc, points, offsets) {
        Some(nesting) => Validity::HoleWithin {
            contour: nesting.hole,
            other: nesting.other,
        },
        None => Validity::Valid,
    }
}

/// Returns whether a ring has fewer than three points, or all its points are equal.
fn is_degenerate<P: ContourPoint>(ring: &[P]) -> bool
    requires { IsSafeContour P.Coordinate.width
        (read P.Coordinate.value P.points ring.now) }
    ensures { IsTrue result
        ↔ IsDegenerate (read P.Coordinate.value P.points ring.now) }
{
    ring.len() < 3 || are_all_equal(ring)
}

/// Returns the first ring that is degenerate.
fn first_degenerate<P: ContourPoint>(points: &[P], offsets: &[usize]) -> Option<usize>
    requires safe { IsSafeContour P.Coordinate.width
        (read P.Coordinate.value P.points points.now) }
    requires divides { DividesPoints (length points.now) offsets.now }
    ensures { let c = read P.Coordinate.value P.points points.now in
        MatchOption result (NoDegenerateRing offsets.now c) (IsLeast (IsDegenerateRing offsets.now c)) }
{
    for ring in 0..offsets.len() - 1 {
        if is_degenerate(ring_at(points, offsets, ring)) {
            return Some(ring);
        }
    }
    None
}

/// Returns whether the winding number of a ring about the first point of a hole is 0. Where no edges of the two are in
/// contact, it is the same about each point of the hole.
fn is_beside<P: ContourPoint>(ring: &[P], hole: &[P]) -> bool
    requires ring_safe { IsSafeContour P.Coordinate.width
        (read P.Coordinate.value P.points ring.now) }
    requires hole_safe { IsSafeContour P.Coordinate.width
        (read P.Coordinate.value P.points hole.now) }
    requires some { 0 < length hole.now }
    ensures { IsTrue result ↔ (winding (read P.Coordinate.value P.points ring.now)
        (point_at (read P.Coordinate.value P.points hole.now) 0) ≡ pos 0) }
{
    winding_about(ring, point_of_place(hole, 0)) == 0
}

/// Returns whether a hole is outside the outer contour.
fn is_outside<P: ContourPoint>(points: &[P], offsets: &[usize], hole: usize) -> bool
    requires safe { IsSafeContour P.Coordinate.width
        (read P.Coordinate.value P.points points.now) }
    requires divides { DividesPoints (length points.now) offsets.now }
    requires whole { NoDegenerateRing offsets.now (read P.Coordinate.value P.points points.now) }
    requires clear { NoContact
        (IsRingContact offsets.now (read P.Coordinate.value P.points points.now)) }
    requires is_hole { IsHole offsets.now hole }
    ensures { IsTrue result
        ↔ IsHoleOutside offsets.now (read P.Coordinate.value P.points points.now) hole }
{
    is_beside(ring_at(points, offsets, 0), ring_at(points, offsets, hole))
}

/// Returns the first hole that is outside the outer contour.
fn first_outside<P: ContourPoint>(points: &[P], offsets: &[usize]) -> Option<usize>
    requires safe { IsSafeContour P.Coordinate.width
        (read P.Coordinate.value P.points points.now) }
    requires divides { DividesPoints (length points.now) offsets.now }
    requires whole { NoDegenerateRing offsets.now (read P.Coordinate.value P.points points.now) }
    requires clear { NoContact
        (IsRingContact offsets.now (read P.Coordinate.value P.points points.now)) }
    ensures { let c = read P.Coordinate.value P.points points.now in
        MatchOption result (NoHoleOutside offsets.now c) (IsLeast (IsHoleOutside offsets.now c)) }
{
    for hole in 1..offsets.len() - 1 {
        if is_outside(points, offsets, hole) {
            return Some(hole);
        }
    }
    None
}

/// Returns whether a hole is within another.
fn is_within<P: ContourPoint>(points: &[P], offsets: &[usize], hole: usize, other: usize) -> bool
    requires safe { IsSafeContour P.Coordinate.width
        (read P.Coordinate.value P.points points.now) }
    requires divides { DividesPoints (length points.now) offsets.now }
    requires whole { NoDegenerateRing offsets.now (read P.Coordinate.value P.points points.now) }
    requires clear { NoContact
        (IsRingContact offsets.now (read P.Coordinate.value P.points points.now)) }
    requires is_hole { IsHole offsets.now hole }
    requires other_is_hole { IsHole offsets.now other }
    ensures { IsTrue result
        ↔ IsHoleWithin offsets.now (read P.Coordinate.value P.points points.now) hole other }
{
    hole != other
        && !is_beside(
            ring_at(points, offsets, other),
            ring_at(points, offsets, hole),
        )
}

/// Returns the first other hole that the hole is within. It passes over those whose blocks are apart from the hole.
fn first_around<P: ContourPoint>(
    points: &[P],
    offsets: &[usize],
    blocks: &[Block<P::Coordinate>],
    hole: usize,
) -> Option<usize>
    requires safe { IsSafeContour P.Coordinate.width
        (read P.Coordinate.value P.points points.now) }
    requires divides { DividesPoints (length points.now) offsets.now }
    requires whole { NoDegenerateRing offsets.now (read P.Coordinate.value P.points points.now) }
    requires clear { NoContact
        (IsRingContact offsets.now (read P.Coordinate.value P.points points.now)) }
    requires are_blocks { AreRingBlocks P.Coordinate.value offsets.now
        (read P.Coordinate.value P.points points.now) 0 blocks.now }
    requires is_hole { IsHole offsets.now hole }
    ensures { let c = read P.Coordinate.value P.points points.now in
        MatchOption result ((j : ℕ) → IsHoleWithin offsets.now c hole j → ⊥)
        (IsLeast (IsHoleWithin offsets.now c hole)) }
{
    let mut other = 1;
    while other < offsets.len() - 1 {
        let next = next_beside(blocks, hole, other);
        if other < next {
            other = next;
            continue;
        }
        if is_within(points, offsets, hole, other) {
            return Some(other);
        }
        other += 1;
    }
    None
}

/// Returns the first hole that is within another, with the first such other.
fn first_within<P: ContourPoint>(alloc: Global, points: &[P], offsets: &[usize]) -> Option<Nesting>
    requires safe { IsSafeContour P.Coordinate.width
        (read P.Coordinate.value P.points points.now) }
    requires divides { DividesPoints (length points.now) offsets.now }
    requires whole { NoDegenerateRing offsets.now (read P.Coordinate.value P.points points.now) }
    requires clear { NoContact
        (IsRingContact offsets.now (read P.Coordinate.value P.points points.now)) }
    ensures { let c = read P.Coordinate.value P.points points.now in
        MatchOption result (NoHoleWithin offsets.now c)
        (λ it. IsFirstWithin offsets.now c it.hole it.other) }
{
    // one hole is within no other
    if offsets.len() < 4 {
        return None;
    }
    let blocks = blocks_if_memory(alloc, points, offsets);
    for hole in 1..offsets.len() - 1 {
        if let Some(other) = first_around(points, offsets, &blocks, hole) {
            return Some(Nesting { hole, other });
        }
    }
    None
}
