//! The first fault of each of many polygons, at any width.

ghost use Rattle.std.specs.Prelude.{◌≡◌, ◌↔◌, ◌+◌, ◌-◌, ◌^◌, ◌≤◌, ◌<◌, length, map, take, IsTrue, OnOk, OnErr};
ghost use Rattle.i_shape_c.specs.Batch.{offset, PartsPoints, AreSafeContours};
ghost use Rattle.i_shape_c.specs.Codes.{IsRefusal};
ghost use Rattle.i_shape_c.specs.Points.{point_by};
ghost use Rattle.i_shape_c.specs.Polygons.{polygon_arrays, PartsPolygons};
ghost use Rattle.i_shape_c.specs.Validity.{HasOffsetsRoom, rebased, IsFaultOf, AreFaults, FindsFaults};

use crate::batch::{part, refusal};
use crate::codes::Refusal;
use crate::point::CPoint;
use crate::polygons::are_polygons;
use i_shape_contacts::{Validity, validity_of};
use std::alloc::{AllocError, Global};

/// The first fault of a polygon, laid out as in C. What `first` and `second` name depends on the kind.
#[repr(C)]
#[derive(Clone, Copy)]
pub struct Fault {
    pub kind: usize,
    pub first: usize,
    pub second: usize,
}

/// The kind if there is no fault.
pub const VALID: usize = 0;

/// The kind of a contour, `first`, that has fewer than three points, or all of whose points are equal.
pub const TOO_FEW_POINTS: usize = 1;

/// The kind of two edges in contact: `first` and `second` are the points from which they lead.
pub const CONTACT: usize = 2;

/// The kind of a hole, `first`, that is outside the outer contour.
pub const HOLE_OUTSIDE: usize = 3;

/// The kind of a hole, `first`, that is within another, `second`.
pub const HOLE_WITHIN: usize = 4;

/// Writes the first fault of each polygon to the front of `out`. Returns 0, or a code below 0. Memory for a copy of the
/// offsets of one polygon is needed; if other memory runs out, the result is the same.
pub fn find_faults<P: CPoint>(
    alloc: Global,
    points: &[P],
    contours: &[usize],
    shapes: &[usize],
    out: &mut [Fault],
) -> i32
    ensures { FindsFaults IsFaultOf P.Coordinate.width (point_by P.Coordinate.value P.point)
        (polygon_arrays points.now contours.now shapes.now) out.old out.new result }
{
    if let Some(refusal) = refusal_of_items(points, contours, shapes, out.len()) {
        return refusal.code();
    }
    match write_faults(alloc, points, contours, shapes, out) {
        Ok(()) => 0,
        Err(_) => Refusal::NoMemory.code(),
    }
}

/// Returns why a call that writes an item of each polygon is refused, or `None` if it isn't.
pub fn refusal_of_items<P: CPoint>(
    points: &[P],
    contours: &[usize],
    shapes: &[usize],
    room: usize,
) -> Option<Refusal>
    ensures { IsRefusal (PartsPolygons (length points.now) contours.now shapes.now)
        (length shapes.now - 1 ≤ room)
        (AreSafeContours P.Coordinate.width (point_by P.Coordinate.value P.point)
        points.now contours.now) result }
{
    let is_parted = are_polygons(points.len(), contours, shapes);
    let has_room = has_items(shapes, room);
    refusal(points, contours, is_parted, has_room)
}

/// Returns whether there is room for an item of each polygon.
fn has_items(shapes: &[usize], room: usize) -> bool
    ensures { IsTrue result ↔ (length shapes.now - 1 ≤ room) }
{
    shapes.is_empty() || shapes.len() - 1 <= room
}

/// Writes the first fault of each polygon to the front of `out`.
///
/// # Errors
///
/// `AllocError`, before anything is written; never if there is no polygon.
fn write_faults<P: CPoint>(
    alloc: Global,
    points: &[P],
    contours: &[usize],
    shapes: &[usize],
    out: &mut [Fault],
) -> Result<(), AllocError>
    requires parted { PartsPolygons (length points.now) contours.now shapes.now }
    requires room { length shapes.now - 1 ≤ length out.old }
    requires points_safe { AreSafeContours P.Coordinate.width
        (point_by P.Coordinate.value P.point) points.now contours.now }
    ensures ok { OnOk result (AreFaults IsFaultOf (point_by P.Coordinate.value P.point)
        (polygon_arrays points.now contours.now shapes.now) out.old out.new) }
    ensures err { OnErr result (out.new ≡ out.old) }
    ensures memory { OnErr result (length shapes.now ≡ 1 → ⊥) }
{
    if shapes.len() == 1 {
        return Ok(());
    }
    let mut own = vec![in alloc; 0usize; most_offsets(shapes)]?;
    write_each(alloc, points, contours, shapes, &mut own, out);
    Ok(())
}

/// Writes the first fault of each polygon to the front of `out`. `own` has room for the offsets of each.
fn write_each<P: CPoint>(
    alloc: Global,
    points: &[P],
    contours: &[usize],
    shapes: &[usize],
    own: &mut [usize],
    out: &mut [Fault],
)
    requires parted { PartsPolygons (length points.now) contours.now shapes.now }
    requires own_room { HasOffsetsRoom shapes.now (length own.old) }
    requires room { length shapes.now - 1 ≤ length out.old }
    requires points_safe { AreSafeContours P.Coordinate.width
        (point_by P.Coordinate.value P.point) points.now contours.now }
    ensures { AreFaults IsFaultOf (point_by P.Coordinate.value P.point)
        (polygon_arrays points.now contours.now shapes.now) out.old out.new }
{
    for place in 1..shapes.len() {
        let contour = shapes[place - 1];
        let offsets = part(contours, contour, shapes[place] + 1);
        out[place - 1] = fault_of(alloc, points, offsets, contour, own);
    }
}

/// Returns the number of offsets of the polygon with the most contours.
pub fn most_offsets(shapes: &[usize]) -> usize
    requires { PartsPoints (2 ^ 63) shapes.now }
    ensures { HasOffsetsRoom shapes.now result }
{
    let mut most = 0;
    for place in 1..shapes.len() {
        let offsets = shapes[place] - shapes[place - 1] + 1;
        if offsets > most {
            most = offsets;
        }
    }
    most
}

/// Returns the first fault of the polygon whose contours the offsets delimit, and begin at index `contour`. `own` has
/// room for the offsets.
fn fault_of<P: CPoint>(
    alloc: Global,
    points: &[P],
    offsets: &[usize],
    contour: usize,
    own: &mut [usize],
) -> Fault
    requires parted { PartsPoints (length points.now) offsets.now }
    requires points_safe { AreSafeContours P.Coordinate.width
        (point_by P.Coordinate.value P.point) points.now offsets.now }
    requires places { contour + length offsets.now ≤ 2 ^ 63 }
    requires room { length offsets.now ≤ length own.old }
    ensures is { IsFaultOf (map (point_by P.Coordinate.value P.point) points.now)
        offsets.now contour result }
    ensures len { length own.new ≡ length own.old }
{
    let start = offsets[0];
    let given = part(points, start, offsets[offsets.len() - 1]);
    rebase(offsets, own);
    match validity_of(alloc, given, &own[..offsets.len()]) {
        Validity::Valid => Fault {
            kind: VALID,
            first: 0,
            second: 0,
        },
        Validity::TooFewPoints { contour: ring } => Fault {
            kind: TOO_FEW_POINTS,
            first: contour + ring,
            second: 0,
        },
        Validity::Contact(it) => Fault {
            kind: CONTACT,
            first: start + it.first,
            second: start + it.second,
        },
        Validity::HoleOutside { contour: hole } => Fault {
            kind: HOLE_OUTSIDE,
            first: contour + hole,
            second: 0,
        },
        Validity::HoleWithin {
            contour: hole,
            other,
        } => Fault {
            kind: HOLE_WITHIN,
            first: contour + hole,
            second: contour + other,
        },
    }
}

/// Writes the offsets, less the first of them, to the front of `own`.
pub fn rebase(offsets: &[usize], own: &mut [usize])
    requires parted { PartsPoints (offset offsets.now (length offsets.now - 1)) offsets.now }
    requires room { length offsets.now ≤ length own.old }
    ensures written { take (length offsets.now) own.new ≡ rebased offsets.now }
    ensures len { length own.new ≡ length own.old }
{
    let start = offsets[0];
    for place in 0..offsets.len() {
        own[place] = offsets[place] - start;
    }
}
