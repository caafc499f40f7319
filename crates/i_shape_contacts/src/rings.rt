//! The rings of a polygon, and boxes around them.

ghost use Rattle.std.specs.Prelude.{◌≡◌, ◌<◌, ◌+◌, length, IfOk};
ghost use Rattle.std.specs.List.{All};
ghost use Rattle.i_shape_core.specs.IntPoint.{IsSafeContour};
ghost use Rattle.i_shape_core.specs.Reading.{read};
ghost use Rattle.i_shape_core.specs.Rings.{nth_ring};
ghost use Rattle.i_shape_contacts.specs.Courses.{DividesPoints};
ghost use Rattle.i_shape_contacts.specs.Steps.Boxes.{Holds};
ghost use Rattle.i_shape_contacts.specs.Steps.Rings.{NoEmptyRing, IsRingBlock, AreRingBlocks, SkipsApart};

use crate::boxes::{Block, Bounds, are_apart, bounds_between, joined};
use crate::plain::point_of_place;
use i_shape_core::batch::part;
use i_shape_core::number::IntNumber;
use i_shape_core::point::ContourPoint;
use std::alloc::{AllocError, Global};

/// Returns the points of a ring.
pub(crate) fn ring_at<'a, P: ContourPoint>(
    points: &'a [P],
    offsets: &[usize],
    ring: usize,
) -> &'a [P]
    requires safe { IsSafeContour P.Coordinate.width
        (read P.Coordinate.value P.points points.now) }
    requires divides { DividesPoints (length points.now) offsets.now }
    requires within { ring + 1 < length offsets.now }
    ensures is { read P.Coordinate.value P.points result.now
        ≡ nth_ring (read P.Coordinate.value P.points points.now) offsets.now ring }
    ensures safe { IsSafeContour P.Coordinate.width
        (read P.Coordinate.value P.points result.now) }
{
    part(points, offsets[ring], offsets[ring + 1])
}

/// Returns a box that holds the points of a ring.
fn bounds_of_ring<P: ContourPoint>(ring: &[P]) -> Bounds<P::Coordinate>
    requires safe { IsSafeContour P.Coordinate.width
        (read P.Coordinate.value P.points ring.now) }
    requires some { 0 < length ring.now }
    ensures { All (Holds P.Coordinate.value result) (read P.Coordinate.value P.points ring.now) }
{
    let start = point_of_place(ring, 0);
    let mut bounds = bounds_between(start, start);
    for place in 1..ring.len() {
        let point = point_of_place(ring, place);
        bounds = joined(bounds, bounds_between(point, point));
    }
    bounds
}

/// Returns the block that begins with a ring, where the blocks after it are there. It reaches to the end, or to the next
/// ring whose index is divided by a higher power of two.
fn block_at<P: ContourPoint>(
    points: &[P],
    offsets: &[usize],
    blocks: &[Block<P::Coordinate>],
    ring: usize,
) -> Block<P::Coordinate>
    requires safe { IsSafeContour P.Coordinate.width
        (read P.Coordinate.value P.points points.now) }
    requires divides { DividesPoints (length points.now) offsets.now }
    requires full { NoEmptyRing offsets.now (read P.Coordinate.value P.points points.now) }
    requires within { ring + 1 < length offsets.now }
    requires later { AreRingBlocks P.Coordinate.value offsets.now
        (read P.Coordinate.value P.points points.now) (ring + 1) blocks.now }
    ensures { IsRingBlock P.Coordinate.value offsets.now
        (read P.Coordinate.value P.points points.now) ring result }
{
    let last = ring | ring.wrapping_sub(1);
    let own = bounds_of_ring(ring_at(points, offsets, ring));
    let mut bounds = own;
    let mut next = ring + 1;
    while next <= last && next < blocks.len() {
        let block = blocks[next];
        bounds = joined(bounds, block.bounds);
        next = block.next;
    }
    Block { own, bounds, next }
}

/// Returns the block that begins with each ring. The only error is `AllocError`.
fn blocks_of<P: ContourPoint>(
    alloc: Global,
    points: &[P],
    offsets: &[usize],
) -> Result<Vec<Block<P::Coordinate>>, AllocError>
    requires safe { IsSafeContour P.Coordinate.width
        (read P.Coordinate.value P.points points.now) }
    requires divides { DividesPoints (length points.now) offsets.now }
    requires full { NoEmptyRing offsets.now (read P.Coordinate.value P.points points.now) }
    requires some { 1 < length offsets.now }
    ensures { IfOk result (λ v. AreRingBlocks P.Coordinate.value offsets.now
        (read P.Coordinate.value P.points points.now) 0 v.items) }
{
    let mut ring = offsets.len() - 1;
    let bounds = bounds_of_ring(ring_at(points, offsets, 0));
    let blank = Block {
        own: bounds,
        bounds,
        next: ring,
    };
    let mut blocks = vec![in alloc; blank; ring]?;
    while ring > 0 {
        ring -= 1;
        blocks[ring] = block_at(points, offsets, &blocks, ring);
    }
    Ok(blocks)
}

/// Returns the block that begins with each ring, or none where memory is refused.
pub(crate) fn blocks_if_memory<P: ContourPoint>(
    alloc: Global,
    points: &[P],
    offsets: &[usize],
) -> Vec<Block<P::Coordinate>>
    requires safe { IsSafeContour P.Coordinate.width
        (read P.Coordinate.value P.points points.now) }
    requires divides { DividesPoints (length points.now) offsets.now }
    requires full { NoEmptyRing offsets.now (read P.Coordinate.value P.points points.now) }
    requires some { 1 < length offsets.now }
    ensures { AreRingBlocks P.Coordinate.value offsets.now
        (read P.Coordinate.value P.points points.now) 0 result.items }
{
    match blocks_of(alloc, points, offsets) {
        Ok(blocks) => blocks,
        Err(_) => Vec::new(alloc),
    }
}

/// Returns the ring up to which those from `other` on are in a box apart from that of a ring: `other` itself, if that
/// isn't, or if there are no blocks.
pub(crate) fn next_beside<I: IntNumber>(blocks: &[Block<I>], ring: usize, other: usize) -> usize
    ensures { SkipsApart I.value blocks.now ring other result }
{
    if ring >= blocks.len() || other >= blocks.len() {
        return other;
    }
    let own = blocks[ring];
    let block = blocks[other];
    if are_apart(own.own, block.bounds) {
        block.next
    } else if are_apart(own.own, block.own) {
        other + 1
    } else {
        other
    }
}
