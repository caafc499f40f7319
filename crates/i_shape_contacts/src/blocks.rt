//! Contacts by blocks of edges in an order.

ghost use Rattle.std.specs.Prelude.{◌≡◌, ◌<◌, ◌≤◌, ◌+◌, ◌*◌, ℕ, length, IfOk, MatchOption};
ghost use Rattle.i_shape_core.specs.IntPoint.{IsSafeContour};
ghost use Rattle.i_shape_core.specs.Reading.{read};
ghost use Rattle.i_shape_contacts.specs.Contacts.{IsContactBy, NoContact, IsFirstContact, IsFirstAfter};
ghost use Rattle.i_shape_contacts.specs.Steps.Orders.{IsOrder};
ghost use Rattle.i_shape_contacts.specs.Steps.Boxes.{HoldsEdge, IsBlock, AreBlocks, CountsChunks};

use crate::boxes::{Block, Bounds, are_apart, bounds_between, joined};
use crate::chunks::first_touching;
use crate::course::Course;
use crate::order::{AsGiven, Order};
use crate::plain::{self, Contact, are_in_contact, point_of_place};
use i_shape_core::point::ContourPoint;
use std::alloc::{AllocError, Global};

/// How many edges a chunk has.
pub(crate) const CHUNK: usize = 8;

/// Returns a box that holds both ends of the edge at a place.
pub(crate) fn bounds_of_edge<P: ContourPoint, C: Course>(
    points: &[P],
    course: C,
    place: usize,
) -> Bounds<P::Coordinate>
    requires safe { IsSafeContour P.Coordinate.width
        (read P.Coordinate.value P.points points.now) }
    requires can { C.can_follow course }
    requires count { C.count course ≡ length points.now }
    requires within { place < length points.now }
    ensures { HoldsEdge P.Coordinate.value (C.follows course) result
        (read P.Coordinate.value P.points points.now) place }
{
    let next = course.next(place);
    bounds_between(point_of_place(points, place), point_of_place(points, next))
}

/// Returns the rank after the last one of the chunk that begins at a rank.
pub(crate) fn chunk_end(from: usize, count: usize) -> usize
    requires { from < count }
    ensures further { from < result }
    ensures within { result ≤ count }
    ensures least { result ≤ from + 8 }
    ensures most { (k : ℕ) → k < from + 8 → k < count → k < result }
{
    if count - from > CHUNK {
        from + CHUNK
    } else {
        count
    }
}

/// Returns a box that holds the edges of a chunk.
fn bounds_of_chunk<P: ContourPoint, C: Course, O: Order>(
    points: &[P],
    course: C,
    order: O,
    from: usize,
    to: usize,
) -> Bounds<P::Coordinate>
    requires safe { IsSafeContour P.Coordinate.width
        (read P.Coordinate.value P.points points.now) }
    requires can { C.can_follow course }
    requires count { C.count course ≡ length points.now }
    requires ordered { IsOrder (O.count order) (O.edge_at order) (length points.now) }
    requires some { from < to }
    requires within { to ≤ length points.now }
    ensures { (k : ℕ) → from ≤ k → k < to → HoldsEdge P.Coordinate.value (C.follows course) result
        (read P.Coordinate.value P.points points.now) (O.edge_at order k) }
{
    let start = order.edge(from);
    let mut bounds = bounds_of_edge(points, course, start);
    for rank in from + 1..to {
        let edge = order.edge(rank);
        bounds = joined(bounds, bounds_of_edge(points, course, edge));
    }
    bounds
}

/// Returns the block that begins with a chunk, where the blocks after it are there. It reaches to the end, or to the next
/// chunk that is divided by a higher power of two than `chunk`.
fn block_at<P: ContourPoint, C: Course, O: Order>(
    points: &[P],
    course: C,
    order: O,
    blocks: &[Block<P::Coordinate>],
    chunk: usize,
) -> Block<P::Coordinate>
    requires safe { IsSafeContour P.Coordinate.width
        (read P.Coordinate.value P.points points.now) }
    requires can { C.can_follow course }
    requires count { C.count course ≡ length points.now }
    requires ordered { IsOrder (O.count order) (O.edge_at order) (length points.now) }
    requires within { chunk * 8 < length points.now }
    requires later { AreBlocks P.Coordinate.value (C.follows course)
        (read P.Coordinate.value P.points points.now) (O.edge_at order) (chunk + 1) blocks.now }
    ensures { IsBlock P.Coordinate.value (C.follows course)
        (read P.Coordinate.value P.points points.now) (O.edge_at order) chunk result }
{
    let last = chunk | chunk.wrapping_sub(1);
    let from = chunk * CHUNK;
    let own = bounds_of_chunk(points, course, order, from, chunk_end(from, points.len()));
    let mut bounds = own;
    let mut next = chunk + 1;
    while next <= last && next < blocks.len() {
        let block = blocks[next];
        bounds = joined(bounds, block.bounds);
        next = block.next;
    }
    Block { own, bounds, next }
}

/// Returns the block that begins with each chunk. The only error is `AllocError`.
pub(crate) fn blocks_of<P: ContourPoint, C: Course, O: Order>(
    alloc: Global,
    points: &[P],
    course: C,
    order: O,
) -> Result<Vec<Block<P::Coordinate>>, AllocError>
    requires safe { IsSafeContour P.Coordinate.width
        (read P.Coordinate.value P.points points.now) }
    requires can { C.can_follow course }
    requires count { C.count course ≡ length points.now }
    requires ordered { IsOrder (O.count order) (O.edge_at order) (length points.now) }
    requires some { 0 < length points.now }
    ensures count { IfOk result (λ v. CountsChunks (length v.items) (length points.now)) }
    ensures blocks { IfOk result (λ v. AreBlocks P.Coordinate.value (C.follows course)
        (read P.Coordinate.value P.points points.now) (O.edge_at order) 0 v.items) }
{
    let mut chunk = (points.len() - 1) / CHUNK + 1;
    let bounds = bounds_of_edge(points, course, 0);
    let blank = Block {
        own: bounds,
        bounds,
        next: chunk,
    };
    let mut blocks = vec![in alloc; blank; chunk]?;
    while chunk > 0 {
        chunk -= 1;
        blocks[chunk] = block_at(points, course, order, &blocks, chunk);
    }
    Ok(blocks)
}

/// Returns `second` if it is less than `least` and the edge there is in contact with the edge at `first` before it, and
/// else `least`.
fn lesser_contact<P: ContourPoint, C: Course>(
    points: &[P],
    course: C,
    first: usize,
    second: usize,
    least: usize,
) -> usize
    requires safe { IsSafeContour P.Coordinate.width
        (read P.Coordinate.value P.points points.now) }
    requires can { C.can_follow course }
    requires count { C.count course ≡ length points.now }
    requires within { second < length points.now }
    ensures most { result ≤ least }
    ensures found { (result ≡ least → ⊥) → IsContactBy (C.follows course)
        (read P.Coordinate.value P.points points.now) first result }
    ensures tried { IsContactBy (C.follows course)
        (read P.Coordinate.value P.points points.now) first second → result ≤ second }
{
    if second <= first || least <= second {
        return least;
    }
    if are_in_contact(points, course, first, second) {
        second
    } else {
        least
    }
}

/// Returns the least edge of a chunk that is in contact with the edge at `first` before it, if it is less than `most`, and
/// else `most`.
fn least_of_chunk<P: ContourPoint, C: Course, O: Order>(
    points: &[P],
    course: C,
    order: O,
    from: usize,
    to: usize,
    first: usize,
    most: usize,
) -> usize
    requires safe { IsSafeContour P.Coordinate.width
        (read P.Coordinate.value P.points points.now) }
    requires can { C.can_follow course }
    requires count { C.count course ≡ length points.now }
    requires ordered { IsOrder (O.count order) (O.edge_at order) (length points.now) }
    requires within { to ≤ length points.now }
    ensures most { result ≤ most }
    ensures found { (result ≡ most → ⊥) → IsContactBy (C.follows course)
        (read P.Coordinate.value P.points points.now) first result }
    ensures tried { (k : ℕ) → from ≤ k → k < to → IsContactBy (C.follows course)
        (read P.Coordinate.value P.points points.now) first (O.edge_at order k) → result ≤ O.edge_at order k }
{
    let mut least = most;
    for rank in from..to {
        let edge = order.edge(rank);
        least = lesser_contact(points, course, first, edge, least);
    }
    least
}

/// Returns the first edge that is in contact with the edge at `first` before it.
fn contact_after<P: ContourPoint, C: Course, O: Order>(
    points: &[P],
    course: C,
    order: O,
    blocks: &[Block<P::Coordinate>],
    first: usize,
) -> Option<usize>
    requires safe { IsSafeContour P.Coordinate.width
        (read P.Coordinate.value P.points points.now) }
    requires can { C.can_follow course }
    requires count { C.count course ≡ length points.now }
    requires ordered { IsOrder (O.count order) (O.edge_at order) (length points.now) }
    requires within { first < length points.now }
    requires blocks_count { CountsChunks (length blocks.now) (length points.now) }
    requires are_blocks { AreBlocks P.Coordinate.value (C.follows course)
        (read P.Coordinate.value P.points points.now) (O.edge_at order) 0 blocks.now }
    ensures { let contact = IsContactBy (C.follows course) (read P.Coordinate.value P.points points.now) in
        MatchOption result ((k : ℕ) → contact first k → ⊥) (λ second. IsFirstAfter contact first second) }
{
    let bounds = bounds_of_edge(points, course, first);
    let mut least = points.len();
    let mut chunk = order.start_after(first) / CHUNK;
    while chunk < blocks.len() {
        let block = blocks[chunk];
        if are_apart(bounds, block.bounds) {
            chunk = block.next;
            continue;
        }
        if are_apart(bounds, block.own) {
            chunk += 1;
            continue;
        }
        let from = chunk * CHUNK;
        let to = chunk_end(from, points.len());
        least = least_of_chunk(points, course, order, from, to, first, least);
        chunk += 1;
    }
    if least < points.len() {
        Some(least)
    } else {
        None
    }
}

/// Returns the first contact, given the blocks, if no edge before `start` is in contact with a later edge.
fn first_by_blocks<P: ContourPoint, C: Course, O: Order>(
    points: &[P],
    course: C,
    order: O,
    blocks: &[Block<P::Coordinate>],
    start: usize,
) -> Option<Contact>
    requires safe { IsSafeContour P.Coordinate.width
        (read P.Coordinate.value P.points points.now) }
    requires can { C.can_follow course }
    requires count { C.count course ≡ length points.now }
    requires ordered { IsOrder (O.count order) (O.edge_at order) (length points.now) }
    requires blocks_count { CountsChunks (length blocks.now) (length points.now) }
    requires are_blocks { AreBlocks P.Coordinate.value (C.follows course)
        (read P.Coordinate.value P.points points.now) (O.edge_at order) 0 blocks.now }
    requires none_before { (i j : ℕ) → i < start → IsContactBy (C.follows course)
        (read P.Coordinate.value P.points points.now) i j → ⊥ }
    ensures { let contact = IsContactBy (C.follows course) (read P.Coordinate.value P.points points.now) in
        MatchOption result (NoContact contact) (λ it. IsFirstContact contact it.first it.second) }
{
    for first in start..points.len() {
        if let Some(second) = contact_after(points, course, order, blocks, first) {
            return Some(Contact { first, second });
        }
    }
    None
}

/// Returns the first contact, given the blocks. It looks for a chunk with a contact before it searches edge by edge.
pub(crate) fn found_by_blocks<P: ContourPoint, C: Course, O: Order>(
    points: &[P],
    course: C,
    order: O,
    blocks: &[Block<P::Coordinate>],
) -> Option<Contact>
    requires safe { IsSafeContour P.Coordinate.width
        (read P.Coordinate.value P.points points.now) }
    requires can { C.can_follow course }
    requires count { C.count course ≡ length points.now }
    requires ordered { IsOrder (O.count order) (O.edge_at order) (length points.now) }
    requires blocks_count { CountsChunks (length blocks.now) (length points.now) }
    requires are_blocks { AreBlocks P.Coordinate.value (C.follows course)
        (read P.Coordinate.value P.points points.now) (O.edge_at order) 0 blocks.now }
    ensures { let contact = IsContactBy (C.follows course) (read P.Coordinate.value P.points points.now) in
        MatchOption result (NoContact contact) (λ it. IsFirstContact contact it.first it.second) }
{
    match first_touching(points, course, order, blocks) {
        Some(rank) => {
            let start = order.edge_from(rank);
            first_by_blocks(points, course, order, blocks, start)
        }
        None => None,
    }
}

/// Returns the first contact, as `plain::first_contact_by` does, in nearly linear time where few boxes of edges
/// overlap. It allocates boxes for each eight points; where memory is refused it tries all pairs.
pub fn first_contact_by<P: ContourPoint, C: Course>(
    alloc: Global,
    points: &[P],
    course: C,
) -> Option<Contact>
    requires safe { IsSafeContour P.Coordinate.width
        (read P.Coordinate.value P.points points.now) }
    requires can { C.can_follow course }
    requires count { C.count course ≡ length points.now }
    ensures { let contact = IsContactBy (C.follows course) (read P.Coordinate.value P.points points.now) in
        MatchOption result (NoContact contact) (λ it. IsFirstContact contact it.first it.second) }
{
    if points.len() < 16 {
        return plain::first_contact_by(points, course);
    }
    let order = AsGiven {
        count: points.len(),
    };
    match blocks_of(alloc, points, course, order) {
        Ok(blocks) => found_by_blocks(points, course, order, &blocks),
        Err(_) => plain::first_contact_by(points, course),
    }
}
