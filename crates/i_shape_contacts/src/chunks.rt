//! Whether there is a contact at all, by chunks of edges in an order. Contracts state what `false` and `None` mean; after
//! another result the search by blocks decides.

ghost use Rattle.std.specs.Prelude.{◌≡◌, ◌<◌, ◌≤◌, ◌+◌, ◌*◌, ◌↔◌, ℕ, length, false, IsTrue, MatchOption};
ghost use Rattle.i_shape_core.specs.IntPoint.{IsSafeContour};
ghost use Rattle.i_shape_core.specs.Reading.{read};
ghost use Rattle.i_shape_contacts.specs.Contacts.{IsContactBy, NoContact};
ghost use Rattle.i_shape_contacts.specs.Steps.Orders.{IsOrder};
ghost use Rattle.i_shape_contacts.specs.Steps.Boxes.{HoldsEdge, AreBlocks, CountsChunks};
ghost use Rattle.i_shape_contacts.specs.Steps.Chunks.{Touch, NoneTouch, NoneBehind};

use crate::blocks::{CHUNK, bounds_of_edge, chunk_end};
use crate::boxes::{Block, Bounds, are_apart, joined};
use crate::course::Course;
use crate::order::Order;
use crate::plain::are_in_contact;
use i_shape_core::point::ContourPoint;

/// Returns whether the edges at two places are in contact, whichever comes first.
fn do_touch<P: ContourPoint, C: Course>(points: &[P], course: C, a: usize, b: usize) -> bool
    requires safe { IsSafeContour P.Coordinate.width
        (read P.Coordinate.value P.points points.now) }
    requires can { C.can_follow course }
    requires count { C.count course ≡ length points.now }
    requires a_within { a < length points.now }
    requires b_within { b < length points.now }
    ensures { IsTrue result
        ↔ Touch (C.follows course) (read P.Coordinate.value P.points points.now) a b }
{
    if a < b {
        are_in_contact(points, course, a, b)
    } else if b < a {
        are_in_contact(points, course, b, a)
    } else {
        false
    }
}

/// Returns whether the edge at a rank is in contact with one of a chunk before it, all of whose edges are in a box.
fn touches_chunk<P: ContourPoint, C: Course, O: Order>(
    points: &[P],
    course: C,
    order: O,
    from: usize,
    to: usize,
    bounds: Bounds<P::Coordinate>,
    other: usize,
) -> bool
    requires safe { IsSafeContour P.Coordinate.width
        (read P.Coordinate.value P.points points.now) }
    requires can { C.can_follow course }
    requires count { C.count course ≡ length points.now }
    requires ordered { IsOrder (O.count order) (O.edge_at order) (length points.now) }
    requires within { to ≤ length points.now }
    requires other_within { other < length points.now }
    requires held { (k : ℕ) → from ≤ k → k < to → HoldsEdge P.Coordinate.value (C.follows course) bounds
        (read P.Coordinate.value P.points points.now) (O.edge_at order k) }
    ensures { result ≡ false → NoneTouch (C.follows course)
        (read P.Coordinate.value P.points points.now) (O.edge_at order) from to other (other + 1) }
{
    let beside = order.edge(other);
    if are_apart(bounds, bounds_of_edge(points, course, beside)) {
        return false;
    }
    for rank in from..to {
        let edge = order.edge(rank);
        if do_touch(points, course, edge, beside) {
            return true;
        }
    }
    false
}

/// Returns whether two edges of a chunk are in contact. Each edge is tried with the one before it, and
/// with those further back only if it meets their box.
fn does_chunk_touch<P: ContourPoint, C: Course, O: Order>(
    points: &[P],
    course: C,
    order: O,
    from: usize,
    to: usize,
) -> bool
    requires safe { IsSafeContour P.Coordinate.width
        (read P.Coordinate.value P.points points.now) }
    requires can { C.can_follow course }
    requires count { C.count course ≡ length points.now }
    requires ordered { IsOrder (O.count order) (O.edge_at order) (length points.now) }
    requires some { from < to }
    requires within { to ≤ length points.now }
    ensures { result ≡ false → NoneTouch (C.follows course)
        (read P.Coordinate.value P.points points.now) (O.edge_at order) from to from to }
{
    let mut before = order.edge(from);
    let mut last = bounds_of_edge(points, course, before);
    let mut bounds = last;
    for rank in from + 1..to {
        let edge = order.edge(rank);
        if do_touch(points, course, before, edge) {
            return true;
        }
        if touches_chunk(points, course, order, from, rank - 1, bounds, rank) {
            return true;
        }
        bounds = joined(bounds, last);
        last = bounds_of_edge(points, course, edge);
        before = edge;
    }
    false
}

/// Returns whether an edge of a chunk is in contact with one after it at a rank from `start` to below `end`.
fn touches_ranks<P: ContourPoint, C: Course, O: Order>(
    points: &[P],
    course: C,
    order: O,
    from: usize,
    to: usize,
    bounds: Bounds<P::Coordinate>,
    start: usize,
    end: usize,
) -> bool
    requires safe { IsSafeContour P.Coordinate.width
        (read P.Coordinate.value P.points points.now) }
    requires can { C.can_follow course }
    requires count { C.count course ≡ length points.now }
    requires ordered { IsOrder (O.count order) (O.edge_at order) (length points.now) }
    requires within { to ≤ length points.now }
    requires end_within { end ≤ length points.now }
    requires held { (k : ℕ) → from ≤ k → k < to → HoldsEdge P.Coordinate.value (C.follows course) bounds
        (read P.Coordinate.value P.points points.now) (O.edge_at order k) }
    ensures { result ≡ false → NoneTouch (C.follows course)
        (read P.Coordinate.value P.points points.now) (O.edge_at order) from to start end }
{
    for rank in start..end {
        if touches_chunk(points, course, order, from, to, bounds, rank) {
            return true;
        }
    }
    false
}

/// Returns the greater of two ranks.
pub(crate) fn greater_rank(a: usize, b: usize) -> usize
    ensures first { a ≤ result }
    ensures second { b ≤ result }
    ensures either { (k : ℕ) → a ≤ k → b ≤ k → result ≤ k }
{
    if a < b { b } else { a }
}

/// Returns whether an edge of a chunk is in contact with one of a chunk behind it, from the rank `start` on.
fn touches_behind<P: ContourPoint, C: Course, O: Order>(
    points: &[P],
    course: C,
    order: O,
    blocks: &[Block<P::Coordinate>],
    chunk: usize,
    to: usize,
    start: usize,
) -> bool
    requires safe { IsSafeContour P.Coordinate.width
        (read P.Coordinate.value P.points points.now) }
    requires can { C.can_follow course }
    requires count { C.count course ≡ length points.now }
    requires ordered { IsOrder (O.count order) (O.edge_at order) (length points.now) }
    requires blocks_count { CountsChunks (length blocks.now) (length points.now) }
    requires are_blocks { AreBlocks P.Coordinate.value (C.follows course)
        (read P.Coordinate.value P.points points.now) (O.edge_at order) 0 blocks.now }
    requires chunk_within { chunk * 8 < length points.now }
    requires within { to ≤ length points.now }
    requires least { to ≤ chunk * 8 + 8 }
    requires most { (k : ℕ) → k < chunk * 8 + 8 → k < length points.now → k < start }
    ensures { result ≡ false → NoneTouch (C.follows course)
        (read P.Coordinate.value P.points points.now) (O.edge_at order) (chunk * 8) to start (length points.now) }
{
    let from = chunk * CHUNK;
    let bounds = blocks[chunk].own;
    let mut other = chunk + 1;
    while other < blocks.len() {
        let block = blocks[other];
        if are_apart(bounds, block.bounds) {
            other = block.next;
            continue;
        }
        if are_apart(bounds, block.own) {
            other += 1;
            continue;
        }
        let rank = other * CHUNK;
        let least = greater_rank(start, rank);
        let end = chunk_end(rank, points.len());
        if touches_ranks(points, course, order, from, to, bounds, least, end) {
            return true;
        }
        other += 1;
    }
    false
}

/// Returns whether an edge of a chunk is in contact with one of it or behind it. The edge behind the chunk is tried with
/// those of the chunk.
fn touches_any<P: ContourPoint, C: Course, O: Order>(
    points: &[P],
    course: C,
    order: O,
    blocks: &[Block<P::Coordinate>],
    chunk: usize,
) -> bool
    requires safe { IsSafeContour P.Coordinate.width
        (read P.Coordinate.value P.points points.now) }
    requires can { C.can_follow course }
    requires count { C.count course ≡ length points.now }
    requires ordered { IsOrder (O.count order) (O.edge_at order) (length points.now) }
    requires blocks_count { CountsChunks (length blocks.now) (length points.now) }
    requires are_blocks { AreBlocks P.Coordinate.value (C.follows course)
        (read P.Coordinate.value P.points points.now) (O.edge_at order) 0 blocks.now }
    requires chunk_within { chunk * 8 < length points.now }
    ensures { result ≡ false → (k r : ℕ) → chunk * 8 ≤ k → k < chunk * 8 + 8 → k < r → r < length points.now
        → Touch (C.follows course) (read P.Coordinate.value P.points points.now) (O.edge_at order k) (O.edge_at order r) → ⊥ }
{
    let from = chunk * CHUNK;
    let to = chunk_end(from, points.len());
    let start = if to < points.len() { to + 1 } else { to };
    if does_chunk_touch(points, course, order, from, start) {
        return true;
    }
    touches_behind(points, course, order, blocks, chunk, to, start)
}

/// Returns the first rank of the first chunk of which an edge is in contact with one of it or behind it.
pub(crate) fn first_touching<P: ContourPoint, C: Course, O: Order>(
    points: &[P],
    course: C,
    order: O,
    blocks: &[Block<P::Coordinate>],
) -> Option<usize>
    requires safe { IsSafeContour P.Coordinate.width
        (read P.Coordinate.value P.points points.now) }
    requires can { C.can_follow course }
    requires count { C.count course ≡ length points.now }
    requires ordered { IsOrder (O.count order) (O.edge_at order) (length points.now) }
    requires blocks_count { CountsChunks (length blocks.now) (length points.now) }
    requires are_blocks { AreBlocks P.Coordinate.value (C.follows course)
        (read P.Coordinate.value P.points points.now) (O.edge_at order) 0 blocks.now }
    ensures { MatchOption result (NoContact (IsContactBy (C.follows course)
        (read P.Coordinate.value P.points points.now))) (NoneBehind (C.follows course)
        (read P.Coordinate.value P.points points.now) (O.edge_at order) (length points.now)) }
{
    for chunk in 0..blocks.len() {
        if touches_any(points, course, order, blocks, chunk) {
            return Some(chunk * CHUNK);
        }
    }
    None
}
