//! Whether holes lie inside the outer contour and beside one another.

ghost use Rattle.std.specs.Prelude.{◌≡◌, ◌+◌, ◌<◌, ◌↔◌, ℕ, pos, length, map, IfOk, IsTrue, MatchOption};
ghost use Rattle.i_shape_core.specs.IntPoint.{IsSafeContour};
ghost use Rattle.i_shape_core.specs.Reading.{read};
ghost use Rattle.i_shape_contacts.specs.Courses.{DividesPoints};
ghost use Rattle.i_shape_contacts.specs.Contacts.{NoContact};
ghost use Rattle.i_shape_contacts.specs.Validity.{NoDegenerateRing, IsHole, IsLeast};
ghost use Rattle.i_shape_touching.specs.Touching.{IsFaultyContact, LeavesOuter, EntersHole, NoneLeavesOuter, NoneEntersHole, IsFirstToEnter};
ghost use Rattle.i_shape_touching.specs.Steps.Touches.{AreTouches};
ghost use Rattle.i_shape_touching.specs.Steps.Pieces.{IsRingPiece, ArePieces, IsPieceOutside, IsPieceWithin, IsPieceWithinAny, IsFirstEntered, piece_of, winding_about_piece};

use crate::marks::marks_of;
use crate::middle::{Middle, winding_about_middle};
use crate::touches::{Touch, ring_of_edge};
use i_shape_core::batch::part;
use i_shape_core::point::ContourPoint;
use std::alloc::{AllocError, Global};

/// A piece of an edge, with the edge's ring: between two points that follow one another on the edge, each an end of it
/// or one at which it touches another ring.
#[derive(Clone, Copy)]
pub(crate) struct Piece<I> {
    pub ring: usize,
    pub middle: Middle<I>,
}

/// A hole that has a point inside another.
#[derive(Clone, Copy)]
pub(crate) struct Entry {
    pub hole: usize,
    pub other: usize,
}

/// Returns the pieces of the first edge of each ring and of those that touch others, in order of the rings. The only
/// error is `AllocError`.
pub(crate) fn pieces_of<P: ContourPoint>(
    alloc: Global,
    points: &[P],
    offsets: &[usize],
    touches: &[Touch<P::Coordinate>],
) -> Result<Vec<Piece<P::Coordinate>>, AllocError>
    requires safe { IsSafeContour P.Coordinate.width
        (read P.Coordinate.value P.points points.now) }
    requires divides { DividesPoints (length points.now) offsets.now }
    requires whole { NoDegenerateRing offsets.now (read P.Coordinate.value P.points points.now) }
    requires clear { NoContact (IsFaultyContact offsets.now
        (read P.Coordinate.value P.points points.now)) }
    requires touches { AreTouches P.Coordinate.value offsets.now
        (read P.Coordinate.value P.points points.now) touches.now }
    ensures { IfOk result (λ v. ArePieces offsets.now (read P.Coordinate.value P.points points.now)
        (map (piece_of P.Coordinate.value) v.items)) }
{
    let marks = marks_of(alloc, points, offsets, touches)?;
    let mut pieces = Vec::new(alloc);
    for at in 1..marks.len() {
        let (mark, next) = (marks[at - 1], marks[at]);
        if mark.edge == next.edge && mark.point != next.point {
            pieces.push(Piece {
                ring: ring_of_edge(offsets, mark.edge),
                middle: Middle {
                    first: mark.point,
                    second: next.point,
                },
            })?;
        }
    }
    Ok(pieces)
}

/// Returns the first hole that has a point outside the outer contour.
pub(crate) fn first_leaving<P: ContourPoint>(
    points: &[P],
    offsets: &[usize],
    pieces: &[Piece<P::Coordinate>],
) -> Option<usize>
    requires safe { IsSafeContour P.Coordinate.width
        (read P.Coordinate.value P.points points.now) }
    requires divides { DividesPoints (length points.now) offsets.now }
    requires whole { NoDegenerateRing offsets.now (read P.Coordinate.value P.points points.now) }
    requires clear { NoContact (IsFaultyContact offsets.now
        (read P.Coordinate.value P.points points.now)) }
    requires pieces { ArePieces offsets.now (read P.Coordinate.value P.points points.now)
        (map (piece_of P.Coordinate.value) pieces.now) }
    ensures { let c = read P.Coordinate.value P.points points.now in
        MatchOption result (NoneLeavesOuter offsets.now c) (IsLeast (LeavesOuter offsets.now c)) }
{
    for piece in pieces {
        if lies_outside(points, offsets, *piece) {
            return Some(piece.ring);
        }
    }
    None
}

/// Returns the first hole that has a point inside another hole, with the first such other.
pub(crate) fn first_entering<P: ContourPoint>(
    points: &[P],
    offsets: &[usize],
    pieces: &[Piece<P::Coordinate>],
) -> Option<Entry>
    requires safe { IsSafeContour P.Coordinate.width
        (read P.Coordinate.value P.points points.now) }
    requires divides { DividesPoints (length points.now) offsets.now }
    requires whole { NoDegenerateRing offsets.now (read P.Coordinate.value P.points points.now) }
    requires clear { NoContact (IsFaultyContact offsets.now
        (read P.Coordinate.value P.points points.now)) }
    requires pieces { ArePieces offsets.now (read P.Coordinate.value P.points points.now)
        (map (piece_of P.Coordinate.value) pieces.now) }
    ensures { let c = read P.Coordinate.value P.points points.now in
        MatchOption result (NoneEntersHole offsets.now c) (λ it. IsFirstToEnter offsets.now c it.hole it.other) }
{
    for piece in pieces {
        if lies_within_any(points, offsets, *piece) {
            return first_entered(points, offsets, pieces, piece.ring);
        }
    }
    None
}

/// Returns the first hole inside which a hole has a point.
fn first_entered<P: ContourPoint>(
    points: &[P],
    offsets: &[usize],
    pieces: &[Piece<P::Coordinate>],
    hole: usize,
) -> Option<Entry>
    requires safe { IsSafeContour P.Coordinate.width
        (read P.Coordinate.value P.points points.now) }
    requires divides { DividesPoints (length points.now) offsets.now }
    requires whole { NoDegenerateRing offsets.now (read P.Coordinate.value P.points points.now) }
    requires clear { NoContact (IsFaultyContact offsets.now
        (read P.Coordinate.value P.points points.now)) }
    requires pieces { ArePieces offsets.now (read P.Coordinate.value P.points points.now)
        (map (piece_of P.Coordinate.value) pieces.now) }
    requires is_hole { IsHole offsets.now hole }
    ensures { let c = read P.Coordinate.value P.points points.now in
        MatchOption result ((j : ℕ) → EntersHole offsets.now c hole j → ⊥)
        (λ it. IsFirstEntered offsets.now c hole it.hole it.other) }
{
    for other in 1..offsets.len() - 1 {
        if enters(points, offsets, pieces, hole, other) {
            return Some(Entry { hole, other });
        }
    }
    None
}

/// Returns whether a hole has a point inside another.
fn enters<P: ContourPoint>(
    points: &[P],
    offsets: &[usize],
    pieces: &[Piece<P::Coordinate>],
    hole: usize,
    other: usize,
) -> bool
    requires safe { IsSafeContour P.Coordinate.width
        (read P.Coordinate.value P.points points.now) }
    requires divides { DividesPoints (length points.now) offsets.now }
    requires whole { NoDegenerateRing offsets.now (read P.Coordinate.value P.points points.now) }
    requires clear { NoContact (IsFaultyContact offsets.now
        (read P.Coordinate.value P.points points.now)) }
    requires pieces { ArePieces offsets.now (read P.Coordinate.value P.points points.now)
        (map (piece_of P.Coordinate.value) pieces.now) }
    requires is_hole { IsHole offsets.now hole }
    requires other_is_hole { IsHole offsets.now other }
    ensures { IsTrue result
        ↔ EntersHole offsets.now (read P.Coordinate.value P.points points.now) hole other }
{
    for piece in pieces {
        if piece.ring == hole && lies_within(points, offsets, *piece, other) {
            return true;
        }
    }
    false
}

/// Returns whether the middle of a piece of a hole lies inside another hole.
fn lies_within_any<P: ContourPoint>(
    points: &[P],
    offsets: &[usize],
    piece: Piece<P::Coordinate>,
) -> bool
    requires safe { IsSafeContour P.Coordinate.width
        (read P.Coordinate.value P.points points.now) }
    requires divides { DividesPoints (length points.now) offsets.now }
    requires piece { IsRingPiece offsets.now (read P.Coordinate.value P.points points.now)
        (piece_of P.Coordinate.value piece) }
    ensures { IsTrue result ↔ IsPieceWithinAny offsets.now
        (read P.Coordinate.value P.points points.now) (piece_of P.Coordinate.value piece) }
{
    for other in 1..offsets.len() - 1 {
        if lies_within(points, offsets, piece, other) {
            return true;
        }
    }
    false
}

/// Returns whether the middle of a piece of a hole lies inside another hole, given by its index.
fn lies_within<P: ContourPoint>(
    points: &[P],
    offsets: &[usize],
    piece: Piece<P::Coordinate>,
    other: usize,
) -> bool
    requires safe { IsSafeContour P.Coordinate.width
        (read P.Coordinate.value P.points points.now) }
    requires divides { DividesPoints (length points.now) offsets.now }
    requires piece { IsRingPiece offsets.now (read P.Coordinate.value P.points points.now)
        (piece_of P.Coordinate.value piece) }
    requires other_is_hole { IsHole offsets.now other }
    ensures { IsTrue result ↔ IsPieceWithin offsets.now
        (read P.Coordinate.value P.points points.now) (piece_of P.Coordinate.value piece) other }
{
    if piece.ring == 0 || piece.ring == other {
        return false;
    }
    !lies_beside(points, offsets, piece, other)
}

/// Returns whether the middle of a piece of a hole lies outside the outer contour.
fn lies_outside<P: ContourPoint>(
    points: &[P],
    offsets: &[usize],
    piece: Piece<P::Coordinate>,
) -> bool
    requires safe { IsSafeContour P.Coordinate.width
        (read P.Coordinate.value P.points points.now) }
    requires divides { DividesPoints (length points.now) offsets.now }
    requires piece { IsRingPiece offsets.now (read P.Coordinate.value P.points points.now)
        (piece_of P.Coordinate.value piece) }
    ensures { IsTrue result ↔ IsPieceOutside offsets.now
        (read P.Coordinate.value P.points points.now) (piece_of P.Coordinate.value piece) }
{
    if piece.ring == 0 {
        return false;
    }
    lies_beside(points, offsets, piece, 0)
}

/// Returns whether a ring winds 0 times about the middle of a piece.
fn lies_beside<P: ContourPoint>(
    points: &[P],
    offsets: &[usize],
    piece: Piece<P::Coordinate>,
    ring: usize,
) -> bool
    requires safe { IsSafeContour P.Coordinate.width
        (read P.Coordinate.value P.points points.now) }
    requires divides { DividesPoints (length points.now) offsets.now }
    requires piece { IsRingPiece offsets.now (read P.Coordinate.value P.points points.now)
        (piece_of P.Coordinate.value piece) }
    requires is_ring { ring + 1 < length offsets.now }
    ensures { IsTrue result ↔ (winding_about_piece offsets.now
        (read P.Coordinate.value P.points points.now) ring (piece_of P.Coordinate.value piece) ≡ pos 0) }
{
    winding_about_middle(part(points, offsets[ring], offsets[ring + 1]), piece.middle) == 0
}
