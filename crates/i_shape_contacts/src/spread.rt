//! Contacts of edges that are sorted by where they lie, for rings in any order.

ghost use Rattle.std.specs.Prelude.{◌≡◌, ◌<◌, length, map, slice_index, IfOk, MatchOption};
ghost use Rattle.std.specs.List.Sorted.{IsPermutation};
ghost use Rattle.i_shape_core.specs.IntPoint.{IsSafeContour};
ghost use Rattle.i_shape_core.specs.Reading.{read};
ghost use Rattle.i_shape_core.specs.Heights.{asks};
ghost use Rattle.i_shape_contacts.specs.Contacts.{IsContactBy, NoContact, IsFirstContact};
ghost use Rattle.i_shape_contacts.specs.Steps.Orders.{IsOrder};

use crate::blocks::{blocks_of, found_by_blocks};
use crate::course::Course;
use crate::order::Listed;
use crate::plain::{self, Contact};
use i_shape_core::heights::{Asked, by_height};
use i_shape_core::number::IntNumber;
use i_shape_core::point::ContourPoint;
use std::alloc::{AllocError, Global};

/// Returns how many points a strip has.
fn strip_size(count: usize) -> usize
    ensures { 0 < result }
{
    if count < 4_000 {
        64
    } else if count < 64_000 {
        512
    } else if count < 4_000_000 {
        4_096
    } else {
        32_768
    }
}

/// Sorts the points of each strip by x.
fn sort_strips<I: IntNumber>(order: &mut [Asked<I>], size: usize)
    requires { 0 < size }
    ensures { IsPermutation order.old order.new }
{
    let mut from = 0;
    while from < order.len() {
        let to = if order.len() - from > size {
            from + size
        } else {
            order.len()
        };
        order[from..to].sort_unstable_by_key(|it| it.point.x);
        from = to;
    }
}

/// Returns the points with their places, in strips by height, and in each strip by x. The only error is `AllocError`.
fn spread_order<P: ContourPoint>(
    alloc: Global,
    points: &[P],
) -> Result<Vec<Asked<P::Coordinate>>, AllocError>
    ensures { IfOk result (λ v. IsPermutation (asks 0 (P.points points.now)) v.items) }
{
    let mut order = by_height(alloc, points)?;
    sort_strips(&mut order, strip_size(points.len()));
    Ok(order)
}

/// Returns the places of the points in a list. The only error is `AllocError`.
fn places_of<I: IntNumber>(alloc: Global, order: &[Asked<I>]) -> Result<Vec<usize>, AllocError>
    ensures { IfOk result (λ v. v.items ≡ map (λ it. it.place) order.now) }
{
    let mut places = Vec::with_capacity(alloc, order.len())?;
    for it in order {
        places.push(it.place)?;
    }
    Ok(places)
}

/// Returns the places of the points, in strips by height, and in each strip by x. The only error is `AllocError`.
fn spread_places<P: ContourPoint>(alloc: Global, points: &[P]) -> Result<Vec<usize>, AllocError>
    ensures { IfOk result (λ v. IsOrder (length v.items) (slice_index v.items) (length points.now)) }
{
    let order = spread_order(alloc, points)?;
    places_of(alloc, &order)
}

/// Returns the first contact of some points. The only error is `AllocError`.
fn try_first<P: ContourPoint, C: Course>(
    alloc: Global,
    points: &[P],
    course: C,
) -> Result<Option<Contact>, AllocError>
    requires safe { IsSafeContour P.Coordinate.width
        (read P.Coordinate.value P.points points.now) }
    requires can { C.can_follow course }
    requires count { C.count course ≡ length points.now }
    requires some { 0 < length points.now }
    ensures { let contact = IsContactBy (C.follows course) (read P.Coordinate.value P.points points.now) in
        IfOk result (λ r. MatchOption r (NoContact contact) (λ it. IsFirstContact contact it.first it.second)) }
{
    let places = spread_places(alloc, points)?;
    let order = Listed { edges: &places };
    let blocks = blocks_of(alloc, points, course, order)?;
    Ok(found_by_blocks(points, course, order, &blocks))
}

/// Returns the first contact, as `plain::first_contact_by` does, in nearly linear time where few boxes of edges
/// overlap, in whatever order the points are. It allocates a place for each point and boxes for each eight; where memory
/// is refused it tries all pairs.
pub fn first_contact_by<P: ContourPoint, C: Course>(
    alloc: Global,
    points: &[P],
    course: C,
) -> Option<Contact>
    requires safe { IsSafeContour P.Coordinate.width
        (read P.Coordinate.value P.points points.now) }
    requires can { C.can_follow course }
    requires count { C.count course ≡ length points.now }
    ensures { let contact = IsContactBy (C.follows course) (read P.Coordinate.value P.points points.now) in
        MatchOption result (NoContact contact) (λ it. IsFirstContact contact it.first it.second) }
{
    if points.len() < 16 {
        return plain::first_contact_by(points, course);
    }
    match try_first(alloc, points, course) {
        Ok(found) => found,
        Err(_) => plain::first_contact_by(points, course),
    }
}
