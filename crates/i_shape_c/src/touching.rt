//! The first fault of each of many polygons if their contours may touch at single points, at any width.

ghost use Rattle.std.specs.Prelude.{◌≡◌, ◌+◌, ◌-◌, ◌^◌, ◌≤◌, length, map, take, drop, IfOk, OnOk, OnErr};
ghost use Rattle.std.specs.List.{AllZip, range_with_len};
ghost use Rattle.i_shape_c.specs.Batch.{PartsPoints, AreSafeContours};
ghost use Rattle.i_shape_c.specs.Points.{point_by};
ghost use Rattle.i_shape_c.specs.Polygons.{polygon_arrays, PartsPolygons};
ghost use Rattle.i_shape_c.specs.Validity.{HasOffsetsRoom, fault, IsTouchingFaultOf, IsFaultAt, AreFaults, FindsFaults};

use crate::batch::part;
use crate::codes::Refusal;
use crate::point::CPoint;
use crate::validity::{
    CONTACT, Fault, HOLE_OUTSIDE, HOLE_WITHIN, TOO_FEW_POINTS, VALID, most_offsets, rebase,
    refusal_of_items,
};
use i_shape_touching::{TouchingValidity, touching_validity_of};
use std::alloc::{AllocError, Global};

/// The kind of two edges that touch, of contours already joined by touches at lesser points: `first` and `second` are
/// the indices of the points from which the edges lead.
const DISCONNECTED: usize = 5;

/// Writes the first fault of each polygon, if its contours may touch, to the front of `out`. Returns 0, or a code below
/// 0. Memory is needed for a fault of each polygon, for a copy of the offsets of the one with the most contours, and,
/// for one polygon at a time that has contacts, for these, for pieces of its edges, and for a number for each contour.
pub fn find_touching_faults<P: CPoint>(
    alloc: Global,
    points: &[P],
    contours: &[usize],
    shapes: &[usize],
    out: &mut [Fault],
) -> i32
    ensures { FindsFaults IsTouchingFaultOf P.Coordinate.width
        (point_by P.Coordinate.value P.point)
        (polygon_arrays points.now contours.now shapes.now) out.old out.new result }
{
    if let Some(refusal) = refusal_of_items(points, contours, shapes, out.len()) {
        return refusal.code();
    }
    match write_touching_faults(alloc, points, contours, shapes, out) {
        Ok(()) => 0,
        Err(_) => Refusal::NoMemory.code(),
    }
}

/// Writes the first fault of each polygon to the front of `out`, once all are known.
///
/// # Errors
///
/// `AllocError`, before anything is written; never if there is no polygon.
fn write_touching_faults<P: CPoint>(
    alloc: Global,
    points: &[P],
    contours: &[usize],
    shapes: &[usize],
    out: &mut [Fault],
) -> Result<(), AllocError>
    requires parted { PartsPolygons (length points.now) contours.now shapes.now }
    requires room { length shapes.now - 1 ≤ length out.old }
    requires points_safe { AreSafeContours P.Coordinate.width
        (point_by P.Coordinate.value P.point) points.now contours.now }
    ensures ok { OnOk result (AreFaults IsTouchingFaultOf (point_by P.Coordinate.value P.point)
        (polygon_arrays points.now contours.now shapes.now) out.old out.new) }
    ensures err { OnErr result (out.new ≡ out.old) }
    ensures memory { OnErr result (length shapes.now ≡ 1 → ⊥) }
{
    if shapes.len() == 1 {
        return Ok(());
    }
    let mut own = vec![in alloc; 0usize; most_offsets(shapes)]?;
    let faults = touching_faults(alloc, points, contours, shapes, &mut own)?;
    write_front(&faults, out);
    Ok(())
}

/// Writes the faults to the front of `out`.
fn write_front(faults: &[Fault], out: &mut [Fault])
    requires { length faults.now ≤ length out.old }
    ensures written { take (length faults.now) out.new ≡ faults.now }
    ensures rest { drop (length faults.now) out.new ≡ drop (length faults.now) out.old }
{
    out[..faults.len()].copy_from_slice(faults);
}

/// Returns the first fault of each polygon. `own` has room for the offsets of each.
///
/// # Errors
///
/// `AllocError`, if an allocation fails.
fn touching_faults<P: CPoint>(
    alloc: Global,
    points: &[P],
    contours: &[usize],
    shapes: &[usize],
    own: &mut [usize],
) -> Result<Vec<Fault>, AllocError>
    requires parted { PartsPolygons (length points.now) contours.now shapes.now }
    requires own_room { HasOffsetsRoom shapes.now (length own.old) }
    requires points_safe { AreSafeContours P.Coordinate.width
        (point_by P.Coordinate.value P.point) points.now contours.now }
    ensures { IfOk result (λ faults. AllZip (IsFaultAt IsTouchingFaultOf
        (point_by P.Coordinate.value P.point)
        (polygon_arrays points.now contours.now shapes.now))
        (range_with_len 0 (length shapes.now - 1)) faults.items) }
{
    let mut faults = Vec::with_capacity(alloc, shapes.len() - 1)?;
    for place in 1..shapes.len() {
        let contour = shapes[place - 1];
        let offsets = part(contours, contour, shapes[place] + 1);
        faults.push(touching_fault_of(alloc, points, offsets, contour, own)?)?;
    }
    Ok(faults)
}

/// Returns the first fault of the polygon whose contours the offsets delimit, and begin at index `contour`. `own` has
/// room for the offsets.
///
/// # Errors
///
/// `AllocError`, if an allocation fails.
fn touching_fault_of<P: CPoint>(
    alloc: Global,
    points: &[P],
    offsets: &[usize],
    contour: usize,
    own: &mut [usize],
) -> Result<Fault, AllocError>
    requires parted { PartsPoints (length points.now) offsets.now }
    requires points_safe { AreSafeContours P.Coordinate.width
        (point_by P.Coordinate.value P.point) points.now offsets.now }
    requires places { contour + length offsets.now ≤ 2 ^ 63 }
    requires room { length offsets.now ≤ length own.old }
    ensures is { IfOk result (IsTouchingFaultOf (map (point_by P.Coordinate.value P.point) points.now)
        offsets.now contour) }
    ensures len { length own.new ≡ length own.old }
{
    let start = offsets[0];
    let given = part(points, start, offsets[offsets.len() - 1]);
    rebase(offsets, own);
    Ok(
        match touching_validity_of(alloc, given, &own[..offsets.len()])? {
            TouchingValidity::Valid => fault_at(VALID, 0, 0),
            TouchingValidity::TooFewPoints { contour: ring } => {
                fault_at(TOO_FEW_POINTS, contour + ring, 0)
            }
            TouchingValidity::Contact(it) => fault_at(CONTACT, start + it.first, start + it.second),
            TouchingValidity::HoleOutside { contour: hole } => {
                fault_at(HOLE_OUTSIDE, contour + hole, 0)
            }
            TouchingValidity::HoleWithin {
                contour: hole,
                other,
            } => fault_at(HOLE_WITHIN, contour + hole, contour + other),
            TouchingValidity::Disconnected(it) => {
                fault_at(DISCONNECTED, start + it.first, start + it.second)
            }
        },
    )
}

/// Returns the fault of this kind at these indices.
fn fault_at(kind: usize, first: usize, second: usize) -> Fault
    ensures { result ≡ fault kind first second }
{
    Fault {
        kind,
        first,
        second,
    }
}
