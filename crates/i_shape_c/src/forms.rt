//! Canonical forms of each of many polygons alone. A contour that collapses is empty, so each stays in its polygon.

ghost use Rattle.std.specs.Prelude.{◌≡◌, ◌^◌, ◌<◌, length, IfOk, OnErr};
ghost use Rattle.i_shape_c.specs.Batch.{contour_arrays, HasRoom, AreSafeContours};
ghost use Rattle.i_shape_c.specs.Formed.{HoldForms, FormsEach};
ghost use Rattle.i_shape_c.specs.Points.{point_by};
ghost use Rattle.i_shape_c.specs.Polygons.{polygon_arrays, PartsPolygons};

use crate::batch::{clean_all, has_room, refusal};
use crate::codes::Refusal;
use crate::lists::{slices, sort_each_rest, write_lists};
use crate::point::CPoint;
use crate::polygons::are_polygons;
use i_shape::ShapeError;
use i_shape::int::cleaner::ContourCleaner;
use std::alloc::Global;

/// Writes the form of each polygon to the front of the two arrays: the form of each contour, those of its holes sorted.
/// `C` computes the form of a contour. Returns how many points are written, or a code below 0.
pub fn form_polygons<P: CPoint, C: ContourCleaner>(
    alloc: Global,
    points: &[P],
    contours: &[usize],
    shapes: &[usize],
    out_points: &mut [P],
    out_contours: &mut [usize],
) -> isize
    requires { length out_points.old < 2 ^ 63 }
    ensures { FormsEach C.meaning P.Coordinate.width (point_by P.Coordinate.value P.point)
        (polygon_arrays points.now contours.now shapes.now)
        (contour_arrays out_points.old out_contours.old)
        (contour_arrays out_points.new out_contours.new) result }
{
    let is_parted = are_polygons(points.len(), contours, shapes);
    let has_room = has_room(
        points.len(),
        contours.len(),
        out_points.len(),
        out_contours.len(),
    );
    if let Some(refusal) = refusal(points, contours, is_parted, has_room) {
        return refusal.code() as isize;
    }
    match write_each::<P, C>(alloc, points, contours, shapes, out_points, out_contours) {
        Ok(count) => count as isize,
        Err(_) => Refusal::NoMemory.code() as isize,
    }
}

/// Writes the form of each polygon to the front of the two arrays. Returns how many points it writes. Allocates before
/// it writes, so an error leaves the arrays unchanged. Allocates nothing where there is no contour.
fn write_each<P: CPoint, C: ContourCleaner>(
    alloc: Global,
    points: &[P],
    contours: &[usize],
    shapes: &[usize],
    out_points: &mut [P],
    out_contours: &mut [usize],
) -> Result<usize, ShapeError>
    requires parted { PartsPolygons (length points.now) contours.now shapes.now }
    requires room { HasRoom (length points.now) (length contours.now)
        (length out_points.old) (length out_contours.old) }
    requires points_safe { AreSafeContours P.Coordinate.width
        (point_by P.Coordinate.value P.point) points.now contours.now }
    ensures ok { IfOk result
        (λ n. HoldForms C.meaning P.Coordinate.width (point_by P.Coordinate.value P.point)
        (polygon_arrays points.now contours.now shapes.now)
        (contour_arrays out_points.old out_contours.old)
        (contour_arrays out_points.new out_contours.new) n) }
    ensures err { OnErr result ((out_points.new ≡ out_points.old)
        × (out_contours.new ≡ out_contours.old)) }
    ensures memory { OnErr result (length contours.now ≡ 1 → ⊥) }
{
    if contours.len() == 1 {
        out_contours[0] = 0;
        return Ok(0);
    }
    write_sorted::<P, C>(alloc, points, contours, shapes, out_points, out_contours)
}

/// Writes what `write_each` does, by way of a list of the cleaned contours. Allocates before it writes, so an error
/// leaves the arrays unchanged.
fn write_sorted<P: CPoint, C: ContourCleaner>(
    alloc: Global,
    points: &[P],
    contours: &[usize],
    shapes: &[usize],
    out_points: &mut [P],
    out_contours: &mut [usize],
) -> Result<usize, ShapeError>
    requires parted { PartsPolygons (length points.now) contours.now shapes.now }
    requires room { HasRoom (length points.now) (length contours.now)
        (length out_points.old) (length out_contours.old) }
    requires points_safe { AreSafeContours P.Coordinate.width
        (point_by P.Coordinate.value P.point) points.now contours.now }
    ensures ok { IfOk result
        (λ n. HoldForms C.meaning P.Coordinate.width (point_by P.Coordinate.value P.point)
        (polygon_arrays points.now contours.now shapes.now)
        (contour_arrays out_points.old out_contours.old)
        (contour_arrays out_points.new out_contours.new) n) }
    ensures err { OnErr result ((out_points.new ≡ out_points.old)
        × (out_contours.new ≡ out_contours.old)) }
{
    // Room for the cleaned contours, which overwrite these copies.
    let mut cleaned_points = Vec::from_slice(alloc, points)?;
    let mut cleaned_contours = Vec::from_slice(alloc, contours)?;
    let count = clean_all::<P, C>(
        alloc,
        points,
        contours,
        &mut cleaned_points,
        &mut cleaned_contours,
    )?;
    let mut rings = slices(alloc, &cleaned_points, &cleaned_contours)?;
    sort_each_rest(&mut rings, shapes);
    write_lists(&rings, out_points, out_contours);
    Ok(count)
}
