//! Cleaning of polygons, which lie in three arrays: points, offsets that divide the points into contours, and offsets
//! that divide the contours into polygons.

ghost use Rattle.std.specs.Prelude.{◌≡◌, ◌↔◌, ◌+◌, ◌-◌, ◌^◌, ◌<◌, ◌≤◌, ℕ, length, map, IfOk, OnErr, IsTrue};
ghost use Rattle.i_shape.specs.Reading.{read};
ghost use Rattle.i_shape.specs.ShapeAnswers.{ListClean, EachShape};
ghost use Rattle.i_shape_c.specs.Steps.Appended.{HasPolygonsRoom, IsReady, AreReady, AppendsRingLeft, AppendsShapeLeft, WritesLeft};
ghost use Rattle.i_shape_c.specs.Batch.{contour_arrays, offset, AreRising, PartsPoints, AreSafeContours};
ghost use Rattle.i_shape_c.specs.Cleaned.{TakesNoMemory};
ghost use Rattle.i_shape_c.specs.Codes.{IsRefusal};
ghost use Rattle.i_shape_c.specs.Polygons.{polygon_arrays, parts, polygons, PartsPolygons, HasShapesRoom, AreShapesLeft, cleaned_by, CleansPolygons};
ghost use Rattle.i_shape_c.specs.Points.{point_by};

use crate::batch::{self, are_parted, has_room, part};
use crate::codes::Refusal;
use crate::point::CPoint;
use i_shape::ShapeError;
use i_shape::int::cleaner::ContourCleaner;
use i_shape_core::batch::{clean_at, make_room};
use std::alloc::Global;

/// Writes the cleaned polygons to the front of the three arrays. Returns how many there are, or a code below 0.
pub fn clean_shapes<P: CPoint, C: ContourCleaner>(
    alloc: Global,
    points: &[P],
    contours: &[usize],
    shapes: &[usize],
    out_points: &mut [P],
    out_contours: &mut [usize],
    out_shapes: &mut [usize],
) -> isize
    requires { length out_shapes.old < 2 ^ 63 }
    ensures { CleansPolygons (cleaned_by C.meaning)
        P.Coordinate.width (point_by P.Coordinate.value P.point)
        (polygon_arrays points.now contours.now shapes.now)
        (polygon_arrays out_points.old out_contours.old out_shapes.old)
        (polygon_arrays out_points.new out_contours.new out_shapes.new) result }
{
    if let Some(refusal) = refusal(
        points,
        contours,
        shapes,
        out_points.len(),
        out_contours.len(),
        out_shapes.len(),
    ) {
        return refusal.code() as isize;
    }
    match write_cleaned::<P, C>(
        alloc,
        points,
        contours,
        shapes,
        out_points,
        out_contours,
        out_shapes,
    ) {
        Ok(count) => count as isize,
        Err(_) => Refusal::NoMemory.code() as isize,
    }
}

/// Returns why a call on polygons fails, by the first of: offsets that don't divide the points or the contours, room
/// for fewer points or offsets than are given, a point that isn't safe. Returns `None` if nothing is wrong.
pub fn refusal<P: CPoint>(
    points: &[P],
    contours: &[usize],
    shapes: &[usize],
    out_points: usize,
    out_contours: usize,
    out_shapes: usize,
) -> Option<Refusal>
    ensures { IsRefusal (PartsPolygons (length points.now) contours.now shapes.now)
        (HasShapesRoom (length points.now) (length contours.now) (length shapes.now)
        out_points out_contours out_shapes)
        (AreSafeContours P.Coordinate.width (point_by P.Coordinate.value P.point)
        points.now contours.now) result }
{
    let is_parted = are_polygons(points.len(), contours, shapes);
    let has_room = has_shapes_room(
        points.len(),
        contours.len(),
        shapes.len(),
        out_points,
        out_contours,
        out_shapes,
    );
    batch::refusal(points, contours, is_parted, has_room)
}

/// Returns whether the offsets divide the points into contours, and the contours into polygons.
pub fn are_polygons(points: usize, contours: &[usize], shapes: &[usize]) -> bool
    ensures { IsTrue result ↔ PartsPolygons points contours.now shapes.now }
{
    are_parted(points, contours) && are_parted(contours.len() - 1, shapes)
}

/// Returns whether there is room for as many points, and as many offsets of both arrays.
pub fn has_shapes_room(
    points: usize,
    contours: usize,
    shapes: usize,
    out_points: usize,
    out_contours: usize,
    out_shapes: usize,
) -> bool
    ensures { IsTrue result
        ↔ HasShapesRoom points contours shapes out_points out_contours out_shapes }
{
    has_room(points, contours, out_points, out_contours) && shapes <= out_shapes
}

/// Writes the cleaned polygons to the front of the three arrays. Returns how many there are. Allocates before it
/// writes, and only if a contour that isn't clean is long enough, so an error leaves the arrays unchanged.
///
/// # Errors
///
/// `OutOfMemory`, if an allocation fails.
pub fn write_cleaned<P: CPoint, C: ContourCleaner>(
    alloc: Global,
    points: &[P],
    contours: &[usize],
    shapes: &[usize],
    out_points: &mut [P],
    out_contours: &mut [usize],
    out_shapes: &mut [usize],
) -> Result<usize, ShapeError>
    requires parted { PartsPolygons (length points.now) contours.now shapes.now }
    requires room { HasPolygonsRoom contours.now shapes.now
        (length out_points.old) (length out_contours.old) (length out_shapes.old) }
    requires points_safe { AreSafeContours P.Coordinate.width
        (point_by P.Coordinate.value P.point) points.now contours.now }
    ensures ok { IfOk result
        (λ n. AreShapesLeft (ListClean C.meaning.answers) (point_by P.Coordinate.value P.point)
        (polygon_arrays points.now contours.now shapes.now)
        (polygon_arrays out_points.old out_contours.old out_shapes.old)
        (polygon_arrays out_points.new out_contours.new out_shapes.new) n) }
    ensures err { OnErr result ((out_points.new ≡ out_points.old)
        × (out_contours.new ≡ out_contours.old) × (out_shapes.new ≡ out_shapes.old)) }
    ensures memory { OnErr result (EachShape (TakesNoMemory C.meaning.fewest C.meaning.clean) (polygons
        (map (point_by P.Coordinate.value P.point) points.now) contours.now shapes.now) → ⊥) }
{
    let end = shapes[shapes.len() - 1] + 1;
    let rings = part(contours, shapes[0], end);
    let mut cleaner = C::new(alloc);
    let all_clean = make_room(&mut cleaner, points, rings)?;
    Ok(write_polygons(
        &mut cleaner,
        points,
        rings,
        shapes,
        all_clean,
        out_points,
        out_contours,
        out_shapes,
    ))
}

/// The numbers of points, contours and polygons that are written.
#[derive(Clone, Copy)]
pub struct Counts {
    pub points: usize,
    pub contours: usize,
    pub shapes: usize,
}

/// Cleans the contours of the polygons and writes the cleaned polygons to the front of the three arrays. Returns how
/// many there are. `rings` begins with the offsets of the first polygon.
fn write_polygons<P: CPoint, C: ContourCleaner>(
    cleaner: &mut C,
    points: &[P],
    rings: &[usize],
    shapes: &[usize],
    all_clean: bool,
    out_points: &mut [P],
    out_contours: &mut [usize],
    out_shapes: &mut [usize],
) -> usize
    requires parted { PartsPoints (length points.now) rings.now }
    requires ready { AreReady C.meaning.clean P.Coordinate.width
        (read P.Coordinate.value P.points) all_clean
        (C.has_room cleaner.old) points.now rings.now }
    requires shapes_some { 0 < length shapes.now }
    requires shapes_order { AreRising shapes.now (length shapes.now) }
    requires shapes_last { offset shapes.now (length shapes.now - 1)
        < length rings.now + offset shapes.now 0 }
    requires points_room { offset rings.now (length rings.now - 1)
        ≤ length out_points.old + offset rings.now 0 }
    requires contours_room { length rings.now ≤ length out_contours.old }
    requires shapes_room { length shapes.now ≤ length out_shapes.old }
    ensures { WritesLeft (ListClean C.meaning.answers) (point_by P.Coordinate.value P.point)
        (polygon_arrays points.now rings.now shapes.now)
        (polygon_arrays out_points.old out_contours.old out_shapes.old)
        (polygon_arrays out_points.new out_contours.new out_shapes.new) result }
{
    out_contours[0] = 0;
    out_shapes[0] = 0;
    let mut counts = Counts {
        points: 0,
        contours: 0,
        shapes: 0,
    };
    for place in 1..shapes.len() {
        let end = shapes[place] - shapes[0] + 1;
        let polygon = part(rings, shapes[place - 1] - shapes[0], end);
        counts = append_polygon(
            cleaner,
            points,
            polygon,
            all_clean,
            out_points,
            out_contours,
            out_shapes,
            counts,
        );
    }
    counts.shapes
}

/// Writes the cleaned polygon after those already written: nothing if its outer contour collapses, otherwise the
/// contours that don't collapse. Returns the new counts.
pub fn append_polygon<P: CPoint, C: ContourCleaner>(
    cleaner: &mut C,
    points: &[P],
    rings: &[usize],
    all_clean: bool,
    out_points: &mut [P],
    out_contours: &mut [usize],
    out_shapes: &mut [usize],
    counts: Counts,
) -> Counts
    requires parted { PartsPoints (length points.now) rings.now }
    requires ready { AreReady C.meaning.clean P.Coordinate.width
        (read P.Coordinate.value P.points) all_clean
        (C.has_room cleaner.old) points.now rings.now }
    requires points_room { counts.points + offset rings.now (length rings.now - 1)
        ≤ length out_points.old + offset rings.now 0 }
    requires contours_room { counts.contours + length rings.now ≤ length out_contours.old }
    requires shapes_room { counts.shapes + 1 < length out_shapes.old }
    ensures left { AppendsShapeLeft C.meaning.answers (point_by P.Coordinate.value P.point)
        (parts points.now rings.now)
        (polygon_arrays out_points.old out_contours.old out_shapes.old)
        (polygon_arrays out_points.new out_contours.new out_shapes.new) counts result }
    ensures fewer_points { result.points + offset rings.now 0
        ≤ counts.points + offset rings.now (length rings.now - 1) }
    ensures fewer_contours { result.contours < counts.contours + length rings.now }
    ensures fewer_shapes { result.shapes ≤ counts.shapes + 1 }
    ensures keeps_room { (n : ℕ) → C.has_room cleaner.old n → C.has_room cleaner.new n }
{
    let mut written = counts;
    for place in 1..rings.len() {
        let ring = part(points, rings[place - 1], rings[place]);
        written = append_ring(cleaner, ring, all_clean, out_points, out_contours, written);
        if written.contours == counts.contours {
            return counts;
        }
    }
    out_shapes[written.shapes + 1] = written.contours;
    Counts {
        points: written.points,
        contours: written.contours,
        shapes: written.shapes + 1,
    }
}

/// Writes the cleaned contour after those already written, or nothing if it collapses. Returns the new counts.
fn append_ring<P: CPoint, C: ContourCleaner>(
    cleaner: &mut C,
    ring: &[P],
    is_clean: bool,
    out_points: &mut [P],
    out_contours: &mut [usize],
    counts: Counts,
) -> Counts
    requires ready { IsReady C.meaning.clean P.Coordinate.width (read P.Coordinate.value P.points) is_clean
        (C.has_room cleaner.old) ring.now }
    requires points_room { counts.points + length ring.now ≤ length out_points.old }
    requires contours_room { counts.contours + 1 < length out_contours.old }
    ensures left { AppendsRingLeft C.meaning.answers (point_by P.Coordinate.value P.point) ring.now
        (contour_arrays out_points.old out_contours.old)
        (contour_arrays out_points.new out_contours.new) counts result }
    ensures fewer_points { result.points ≤ counts.points + length ring.now }
    ensures fewer_contours { result.contours ≤ counts.contours + 1 }
    ensures shapes { result.shapes ≡ counts.shapes }
    ensures keeps_room { (n : ℕ) → C.has_room cleaner.old n → C.has_room cleaner.new n }
{
    let end = clean_at(cleaner, ring, is_clean, out_points, counts.points);
    if end == counts.points {
        return counts;
    }
    out_contours[counts.contours + 1] = end;
    Counts {
        points: end,
        contours: counts.contours + 1,
        shapes: counts.shapes,
    }
}
