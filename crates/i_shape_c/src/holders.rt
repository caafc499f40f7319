//! Which of many polygons holds each of many points, by a fill rule, at any width.

ghost use Rattle.std.specs.Prelude.{◌≤◌, ◌<◌, length, get_or, IsTrue, IfOk};
ghost use Rattle.std.specs.List.{All};
ghost use Rattle.i_shape.specs.IntPoint.{point_of, IsSafe};
ghost use Rattle.i_shape_contacts.specs.Steps.Boxes.{Holds, AreApart};
ghost use Rattle.i_shape_c.specs.Batch.{AreSafeContours};
ghost use Rattle.i_shape_c.specs.Cleaned.{AreSafe};
ghost use Rattle.i_shape_c.specs.Codes.{IsRefusal};
ghost use Rattle.i_shape_c.specs.Holders.{holders_query, IsHolder, AreBoxes, FindsHolders};
ghost use Rattle.i_shape_c.specs.Locations.{AreTold};
ghost use Rattle.i_shape_c.specs.Points.{point_by};
ghost use Rattle.i_shape_c.specs.Polygons.{polygon_arrays, PartsPolygons};

use crate::batch::{part, refusal};
use crate::codes::{NO_SHAPE, Refusal};
use crate::location::{fills, rule_of};
use crate::point::CPoint;
use crate::polygons::are_polygons;
use crate::winding::wind_all;
use i_shape::int::{IntPoint, Origin};
use i_shape::{FillRule, IntNumber};
use i_shape_contacts::boxes::{Bounds, are_apart, bounds_between, joined};
use i_shape_core::safe_range::are_safe;
use std::alloc::{AllocError, Global};

/// Writes for each point of `about` the index of the first polygon that holds it, by the fill rule of the code, or
/// `NO_SHAPE`. Returns 0, or a code below 0.
pub fn find_holders<P: CPoint>(
    alloc: Global,
    points: &[P],
    contours: &[usize],
    shapes: &[usize],
    about: &[P],
    code: i32,
    out: &mut [usize],
) -> i32
    ensures { FindsHolders P.Coordinate.width (point_by P.Coordinate.value P.point)
        (holders_query (polygon_arrays points.now contours.now shapes.now) about.now code)
        out.old out.new result }
{
    let Some(rule) = rule_of(code) else {
        return Refusal::BadOffsets.code();
    };
    if let Some(refusal) = refusal_of(points, contours, shapes, about, out.len()) {
        return refusal.code();
    }
    let boxes = boxes_if_memory(alloc, points, contours, shapes);
    write_holders(points, contours, shapes, &boxes, about, rule, out);
    0
}

/// Returns why a call that writes an item for each point of `about` is refused, or `None` if it isn't.
fn refusal_of<P: CPoint>(
    points: &[P],
    contours: &[usize],
    shapes: &[usize],
    about: &[P],
    room: usize,
) -> Option<Refusal>
    ensures { IsRefusal (PartsPolygons (length points.now) contours.now shapes.now)
        (length about.now ≤ room)
        (AreSafeContours P.Coordinate.width (point_by P.Coordinate.value P.point)
        points.now contours.now
        × AreSafe P.Coordinate.width (point_by P.Coordinate.value P.point) about.now) result }
{
    let is_parted = are_polygons(points.len(), contours, shapes);
    if let Some(refusal) = refusal(points, contours, is_parted, about.len() <= room) {
        return Some(refusal);
    }
    if are_safe(about) {
        None
    } else {
        Some(Refusal::Unsafe)
    }
}

/// Returns a box for each polygon that holds its points, or no box where memory is refused.
fn boxes_if_memory<P: CPoint>(
    alloc: Global,
    points: &[P],
    contours: &[usize],
    shapes: &[usize],
) -> Vec<Bounds<P::Coordinate>>
    requires { PartsPolygons (length points.now) contours.now shapes.now }
    ensures { AreBoxes P.Coordinate.value (point_by P.Coordinate.value P.point)
        (polygon_arrays points.now contours.now shapes.now) result.items }
{
    match boxes_of(alloc, points, contours, shapes) {
        Ok(boxes) => boxes,
        Err(_) => Vec::new(alloc),
    }
}

/// Returns a box for each polygon that holds its points.
fn boxes_of<P: CPoint>(
    alloc: Global,
    points: &[P],
    contours: &[usize],
    shapes: &[usize],
) -> Result<Vec<Bounds<P::Coordinate>>, AllocError>
    requires { PartsPolygons (length points.now) contours.now shapes.now }
    ensures { IfOk result (λ boxes. AreBoxes P.Coordinate.value
        (point_by P.Coordinate.value P.point)
        (polygon_arrays points.now contours.now shapes.now) boxes.items) }
{
    let mut boxes = Vec::with_capacity(alloc, shapes.len() - 1)?;
    for place in 1..shapes.len() {
        let start = contours[shapes[place - 1]];
        let end = contours[shapes[place]];
        boxes.push(bounds_of(part(points, start, end)))?;
    }
    Ok(boxes)
}

/// Returns a box that holds the points.
fn bounds_of<P: CPoint>(points: &[P]) -> Bounds<P::Coordinate>
    ensures { All (λ p. Holds P.Coordinate.value result
        (point_by P.Coordinate.value P.point p)) points.now }
{
    if points.is_empty() {
        return bounds_between(IntPoint::ZERO, IntPoint::ZERO);
    }
    let start = points[0].to_point();
    let mut bounds = bounds_between(start, start);
    for place in 1..points.len() {
        let point = points[place].to_point();
        bounds = joined(bounds, bounds_between(point, point));
    }
    bounds
}

/// Writes the index of the first polygon that holds each point of `about`, or `NO_SHAPE`. The boxes are those of the
/// first polygons; polygons without a box are all tried.
fn write_holders<P: CPoint>(
    points: &[P],
    contours: &[usize],
    shapes: &[usize],
    boxes: &[Bounds<P::Coordinate>],
    about: &[P],
    rule: FillRule,
    out: &mut [usize],
)
    requires parted { PartsPolygons (length points.now) contours.now shapes.now }
    requires points_safe { AreSafeContours P.Coordinate.width
        (point_by P.Coordinate.value P.point) points.now contours.now }
    requires are_boxes { AreBoxes P.Coordinate.value (point_by P.Coordinate.value P.point)
        (polygon_arrays points.now contours.now shapes.now) boxes.now }
    requires about_safe { AreSafe P.Coordinate.width (point_by P.Coordinate.value P.point) about.now }
    requires room { length about.now ≤ length out.old }
    ensures { AreTold (IsHolder (point_by P.Coordinate.value P.point)
        (polygon_arrays points.now contours.now shapes.now) rule)
        (point_by P.Coordinate.value P.point) about.now out.old out.new }
{
    for place in 0..about.len() {
        let point = about[place].to_point();
        out[place] = first_holder(points, contours, shapes, boxes, rule, point);
    }
}

/// Returns the index of the first polygon that holds the point, or `NO_SHAPE`.
fn first_holder<P: CPoint>(
    points: &[P],
    contours: &[usize],
    shapes: &[usize],
    boxes: &[Bounds<P::Coordinate>],
    rule: FillRule,
    point: IntPoint<P::Coordinate>,
) -> usize
    requires parted { PartsPolygons (length points.now) contours.now shapes.now }
    requires points_safe { AreSafeContours P.Coordinate.width
        (point_by P.Coordinate.value P.point) points.now contours.now }
    requires are_boxes { AreBoxes P.Coordinate.value (point_by P.Coordinate.value P.point)
        (polygon_arrays points.now contours.now shapes.now) boxes.now }
    requires point_safe { IsSafe P.Coordinate.width (point_of P.Coordinate.value point) }
    ensures { IsHolder (point_by P.Coordinate.value P.point)
        (polygon_arrays points.now contours.now shapes.now) rule
        (point_of P.Coordinate.value point) result }
{
    let own = bounds_between(point, point);
    for place in 1..shapes.len() {
        if is_beside(own, boxes, place - 1) {
            continue;
        }
        let offsets = part(contours, shapes[place - 1], shapes[place] + 1);
        if fills(rule, wind_all(points, offsets, point)) {
            return place - 1;
        }
    }
    NO_SHAPE
}

/// Returns true only if there is a box at the place, and it shares no point with `own`.
fn is_beside<I: IntNumber>(own: Bounds<I>, boxes: &[Bounds<I>], place: usize) -> bool
    ensures { IsTrue result → (place < length boxes.now)
        × AreApart I.value own (get_or boxes.now place own) }
{
    place < boxes.len() && are_apart(own, boxes[place])
}
