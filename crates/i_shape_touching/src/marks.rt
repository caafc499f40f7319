//! Points at which edges are cut into pieces.

ghost use Rattle.std.specs.Prelude.{◌<◌, length, map, IfOk};
ghost use Rattle.i_shape_core.specs.IntPoint.{point_of, IsSafeContour};
ghost use Rattle.i_shape_core.specs.Reading.{read};
ghost use Rattle.i_shape_contacts.specs.Courses.{DividesPoints};
ghost use Rattle.i_shape_contacts.specs.Contacts.{NoContact};
ghost use Rattle.i_shape_contacts.specs.Validity.{NoDegenerateRing};
ghost use Rattle.i_shape_touching.specs.Touching.{IsFaultyContact};
ghost use Rattle.i_shape_touching.specs.Steps.Touches.{AreTouches};
ghost use Rattle.i_shape_touching.specs.Steps.Pieces.{AreMarks, AddsEnds, AddsTouch, mark_of};

use crate::touches::Touch;
use i_shape_contacts::course::{Course, Rings};
use i_shape_core::number::IntNumber;
use i_shape_core::point::{ContourPoint, IntPoint};
use std::alloc::{AllocError, Global};

/// An edge, by the place of the point from which it leads, and a point of it: an end, or one at which it touches
/// another ring.
#[derive(Clone, Copy)]
pub(crate) struct Mark<I> {
    pub edge: usize,
    pub point: IntPoint<I>,
}

/// Returns the marks of the first edge of each ring and of those that touch others, sorted by edge and then by point.
/// The only error is `AllocError`.
pub(crate) fn marks_of<P: ContourPoint>(
    alloc: Global,
    points: &[P],
    offsets: &[usize],
    touches: &[Touch<P::Coordinate>],
) -> Result<Vec<Mark<P::Coordinate>>, AllocError>
    requires safe { IsSafeContour P.Coordinate.width
        (read P.Coordinate.value P.points points.now) }
    requires divides { DividesPoints (length points.now) offsets.now }
    requires whole { NoDegenerateRing offsets.now (read P.Coordinate.value P.points points.now) }
    requires clear { NoContact (IsFaultyContact offsets.now
        (read P.Coordinate.value P.points points.now)) }
    requires touches { AreTouches P.Coordinate.value offsets.now
        (read P.Coordinate.value P.points points.now) touches.now }
    ensures { IfOk result (λ v. AreMarks offsets.now (read P.Coordinate.value P.points points.now)
        (map (mark_of P.Coordinate.value) v.items)) }
{
    let mut marks = Vec::new(alloc);
    for ring in 0..offsets.len() - 1 {
        push_ends(&mut marks, points, offsets, offsets[ring])?;
    }
    for touch in touches {
        let contact = touch.contact;
        push_touch(&mut marks, points, offsets, contact.first, touch.point)?;
        push_touch(&mut marks, points, offsets, contact.second, touch.point)?;
    }
    marks.sort_unstable_by_key(|mark| (mark.edge, mark.point.x, mark.point.y));
    Ok(marks)
}

/// Adds marks for both ends of an edge, and for a point of it.
fn push_touch<P: ContourPoint>(
    marks: &mut Vec<Mark<P::Coordinate>>,
    points: &[P],
    offsets: &[usize],
    edge: usize,
    point: IntPoint<P::Coordinate>,
) -> Result<(), AllocError>
    requires divides { DividesPoints (length points.now) offsets.now }
    requires within { edge < length points.now }
    ensures { IfOk result (λ _. AddsTouch offsets.now (read P.Coordinate.value P.points points.now) edge
        (point_of P.Coordinate.value point) (map (mark_of P.Coordinate.value) marks.old.items)
        (map (mark_of P.Coordinate.value) marks.new.items)) }
{
    push_ends(marks, points, offsets, edge)?;
    marks.push(Mark { edge, point })?;
    Ok(())
}

/// Adds marks for both ends of an edge.
fn push_ends<P: ContourPoint>(
    marks: &mut Vec<Mark<P::Coordinate>>,
    points: &[P],
    offsets: &[usize],
    edge: usize,
) -> Result<(), AllocError>
    requires divides { DividesPoints (length points.now) offsets.now }
    requires within { edge < length points.now }
    ensures { IfOk result (λ _. AddsEnds offsets.now (read P.Coordinate.value P.points points.now) edge
        (map (mark_of P.Coordinate.value) marks.old.items)
        (map (mark_of P.Coordinate.value) marks.new.items)) }
{
    let next = Rings { offsets }.next(edge);
    let start = points[edge].to_point();
    let end = points[next].to_point();
    marks.push(Mark { edge, point: start })?;
    marks.push(Mark { edge, point: end })?;
    Ok(())
}
