//! Canonical forms of polygons.

ghost use Rattle.std.specs.Prelude.{◌≡◌, ◌+◌, ◌-◌, ◌^◌, ◌<◌, ◌≤◌, length, map, option_and_then, slice_get, IfOk, OnOk, OnErr};
ghost use Rattle.i_shape.specs.CanonicalShapes.{ListForm};
ghost use Rattle.i_shape.specs.Paths.{concatenated};
ghost use Rattle.i_shape_c.specs.Batch.{AreSafeContours};
ghost use Rattle.i_shape_c.specs.Points.{point_by};
ghost use Rattle.i_shape_c.specs.Polygons.{polygon_arrays, polygons, HaveNoContours, PartsPolygons, HasShapesRoom, AreShapesLeft, formed_by, CleansPolygons};
ghost use Rattle.i_shape_c.specs.Steps.Sorted.{SortsPolygons, WritesSorted};

use crate::batch::part;
use crate::codes::Refusal;
use crate::lists::{slices, sort_each_rest, write_lists};
use crate::point::CPoint;
use crate::polygons::{refusal, write_cleaned};
use i_shape::ShapeError;
use i_shape::int::cleaner::ContourCleaner;
use std::alloc::{AllocError, Global};

/// Writes the form of the polygons to the front of the three arrays. `C` computes the form of a contour. Returns how
/// many polygons the form has, or a code below 0.
pub fn form_shapes<P: CPoint, C: ContourCleaner>(
    alloc: Global,
    points: &[P],
    contours: &[usize],
    shapes: &[usize],
    out_points: &mut [P],
    out_contours: &mut [usize],
    out_shapes: &mut [usize],
) -> isize
    requires { length out_shapes.old < 2 ^ 63 }
    ensures { CleansPolygons (formed_by C.meaning)
        P.Coordinate.width (point_by P.Coordinate.value P.point)
        (polygon_arrays points.now contours.now shapes.now)
        (polygon_arrays out_points.old out_contours.old out_shapes.old)
        (polygon_arrays out_points.new out_contours.new out_shapes.new) result }
{
    if let Some(refusal) = refusal(
        points,
        contours,
        shapes,
        out_points.len(),
        out_contours.len(),
        out_shapes.len(),
    ) {
        return refusal.code() as isize;
    }
    match write_forms::<P, C>(
        alloc,
        points,
        contours,
        shapes,
        out_points,
        out_contours,
        out_shapes,
    ) {
        Ok(count) => count as isize,
        Err(_) => Refusal::NoMemory.code() as isize,
    }
}

/// Writes the form of the polygons to the front of the three arrays. Returns how many polygons it has. Allocates before
/// it writes, so an error leaves the arrays unchanged. Allocates nothing where no polygon has a contour.
fn write_forms<P: CPoint, C: ContourCleaner>(
    alloc: Global,
    points: &[P],
    contours: &[usize],
    shapes: &[usize],
    out_points: &mut [P],
    out_contours: &mut [usize],
    out_shapes: &mut [usize],
) -> Result<usize, ShapeError>
    requires parted { PartsPolygons (length points.now) contours.now shapes.now }
    requires room { HasShapesRoom (length points.now) (length contours.now) (length shapes.now)
        (length out_points.old) (length out_contours.old) (length out_shapes.old) }
    requires points_safe { AreSafeContours P.Coordinate.width
        (point_by P.Coordinate.value P.point) points.now contours.now }
    ensures ok { IfOk result
        (λ n. AreShapesLeft (ListForm C.meaning.answers) (point_by P.Coordinate.value P.point)
        (polygon_arrays points.now contours.now shapes.now)
        (polygon_arrays out_points.old out_contours.old out_shapes.old)
        (polygon_arrays out_points.new out_contours.new out_shapes.new) n) }
    ensures err { OnErr result ((out_points.new ≡ out_points.old)
        × (out_contours.new ≡ out_contours.old) × (out_shapes.new ≡ out_shapes.old)) }
    ensures memory { OnErr result (HaveNoContours (polygons
        (map (point_by P.Coordinate.value P.point) points.now) contours.now shapes.now) → ⊥) }
{
    if shapes[0] == shapes[shapes.len() - 1] {
        return write_cleaned::<P, C>(
            alloc,
            points,
            contours,
            shapes,
            out_points,
            out_contours,
            out_shapes,
        );
    }
    write_sorted_forms::<P, C>(
        alloc,
        points,
        contours,
        shapes,
        out_points,
        out_contours,
        out_shapes,
    )
}

/// Writes what `write_forms` does, by way of lists that hold the cleaned polygons. Allocates before it writes, so an
/// error leaves the arrays unchanged.
fn write_sorted_forms<P: CPoint, C: ContourCleaner>(
    alloc: Global,
    points: &[P],
    contours: &[usize],
    shapes: &[usize],
    out_points: &mut [P],
    out_contours: &mut [usize],
    out_shapes: &mut [usize],
) -> Result<usize, ShapeError>
    requires parted { PartsPolygons (length points.now) contours.now shapes.now }
    requires room { HasShapesRoom (length points.now) (length contours.now) (length shapes.now)
        (length out_points.old) (length out_contours.old) (length out_shapes.old) }
    requires points_safe { AreSafeContours P.Coordinate.width
        (point_by P.Coordinate.value P.point) points.now contours.now }
    ensures ok { IfOk result
        (λ n. AreShapesLeft (ListForm C.meaning.answers) (point_by P.Coordinate.value P.point)
        (polygon_arrays points.now contours.now shapes.now)
        (polygon_arrays out_points.old out_contours.old out_shapes.old)
        (polygon_arrays out_points.new out_contours.new out_shapes.new) n) }
    ensures err { OnErr result ((out_points.new ≡ out_points.old)
        × (out_contours.new ≡ out_contours.old) × (out_shapes.new ≡ out_shapes.old)) }
{
    let first = shapes[0];
    let last = shapes[shapes.len() - 1];
    // Room for the cleaned points, which overwrite this copy.
    let mut cleaned_points = Vec::from_slice(alloc, part(points, contours[first], contours[last]))?;
    let mut cleaned_contours = vec![in alloc; 0usize; last - first + 1]?;
    let mut cleaned_shapes = vec![in alloc; 0usize; shapes.len()]?;
    let count = write_cleaned::<P, C>(
        alloc,
        points,
        contours,
        shapes,
        &mut cleaned_points,
        &mut cleaned_contours,
        &mut cleaned_shapes,
    )?;
    let cleaned_shapes = part(&cleaned_shapes, 0, count + 1);
    let cleaned_contours = part(&cleaned_contours, 0, cleaned_shapes[count] + 1);
    write_sorted(
        alloc,
        &cleaned_points,
        cleaned_contours,
        cleaned_shapes,
        out_points,
        out_contours,
        out_shapes,
    )?;
    Ok(count)
}

/// Writes the polygons, sorted, with the holes of each sorted, to the front of the three arrays. The contours are
/// exactly those of the polygons. Allocates before it writes, so an error leaves the arrays unchanged.
fn write_sorted<P: CPoint>(
    alloc: Global,
    points: &[P],
    contours: &[usize],
    shapes: &[usize],
    out_points: &mut [P],
    out_contours: &mut [usize],
    out_shapes: &mut [usize],
) -> Result<(), AllocError>
    requires parted { PartsPolygons (length points.now) contours.now shapes.now }
    requires whole { length (concatenated (polygons points.now contours.now shapes.now)) + 1
        ≡ length contours.now }
    requires points_room { length (concatenated (concatenated
        (polygons points.now contours.now shapes.now))) ≤ length out_points.old }
    requires contours_room { length contours.now ≤ length out_contours.old }
    requires shapes_room { length shapes.now ≤ length out_shapes.old }
    ensures ok { OnOk result (WritesSorted SortsPolygons (point_by P.Coordinate.value P.point)
        (polygons points.now contours.now shapes.now)
        (polygon_arrays out_points.old out_contours.old out_shapes.old)
        (polygon_arrays out_points.new out_contours.new out_shapes.new)) }
    ensures err { OnErr result ((out_points.new ≡ out_points.old)
        × (out_contours.new ≡ out_contours.old) × (out_shapes.new ≡ out_shapes.old)) }
{
    let mut rings = slices(alloc, points, contours)?;
    sort_each_rest(&mut rings, shapes);
    let mut polygons = slices(alloc, &rings, shapes)?;
    polygons.sort_by_cached_key(keyed)?;
    // One place for each contour. All of them are written below.
    let mut sorted = slices(alloc, points, contours)?;
    write_lists(&polygons, &mut sorted, out_shapes);
    write_lists(&sorted, out_points, out_contours);
    Ok(())
}

/// Returns what a polygon is sorted by: the first point of its outer contour, which mostly decides, and then itself.
fn keyed<'a, P: Copy>(polygon: &&'a [&'a [P]]) -> (Option<P>, &'a [&'a [P]])
    ensures { result ≡ (
      option_and_then (λ contour. slice_get contour.now 0)
          (slice_get polygon.now.now 0),
      polygon.now,
    ) }
{
    (first_point(polygon), *polygon)
}

/// Returns the first point of the outer contour, or `None` where there is none.
fn first_point<P: Copy>(polygon: &[&[P]]) -> Option<P>
    ensures { result ≡ option_and_then (λ contour. slice_get contour.now 0) (slice_get polygon.now 0) }
{
    polygon.first()?.first().copied()
}
