//! The canonical form of each of many features, which are lists of polygons. A polygon that collapses stays
//! in its feature, without contours.

ghost use Rattle.std.specs.Prelude.{◌≡◌, ◌↔◌, ◌+◌, ◌-◌, ◌^◌, ◌<◌, ◌≤◌, ℕ, length, map, IfOk, OnOk, OnErr, IsTrue};
ghost use Rattle.i_shape.specs.Paths.{concatenated};
ghost use Rattle.i_shape.specs.Reading.{read};
ghost use Rattle.i_shape.specs.ShapeAnswers.{EachShape};
ghost use Rattle.i_shape_c.specs.Batch.{offset, AreRising, PartsPoints, AreSafeContours};
ghost use Rattle.i_shape_c.specs.Cleaned.{TakesNoMemory};
ghost use Rattle.i_shape_c.specs.Formed.{feature_arrays, PartsFeatures, FeaturesForm, FormsFeatures};
ghost use Rattle.i_shape_c.specs.Points.{point_by};
ghost use Rattle.i_shape_c.specs.Polygons.{polygon_arrays, parts, polygons, HaveNoContours, PartsPolygons, HasShapesRoom, AreShapesLeft};
ghost use Rattle.i_shape_c.specs.Steps.Appended.{HasPolygonsRoom, AreReady, AreLeftOrEmpty, AppendsShapeKept, WritesLeft};
ghost use Rattle.i_shape_c.specs.Steps.Sorted.{SortsFeatures, WritesSorted};

use crate::batch::{are_parted, part, refusal};
use crate::codes::Refusal;
use crate::lists::{slices, sort_each, sort_each_rest, write_lists};
use crate::point::CPoint;
use crate::polygons::{Counts, append_polygon, are_polygons, has_shapes_room};
use i_shape::ShapeError;
use i_shape::int::cleaner::ContourCleaner;
use i_shape_core::batch::make_room;
use std::alloc::{AllocError, Global};

/// Writes the form of each feature to the front of the three arrays: the forms of its polygons, sorted. `C` computes the
/// form of a contour. Returns how many polygons there are, or a code below 0.
pub fn form_features<P: CPoint, C: ContourCleaner>(
    alloc: Global,
    points: &[P],
    contours: &[usize],
    shapes: &[usize],
    features: &[usize],
    out_points: &mut [P],
    out_contours: &mut [usize],
    out_shapes: &mut [usize],
) -> isize
    requires { length out_shapes.old < 2 ^ 63 }
    ensures { FormsFeatures C.meaning P.Coordinate.width (point_by P.Coordinate.value P.point)
        (feature_arrays points.now contours.now shapes.now features.now)
        (polygon_arrays out_points.old out_contours.old out_shapes.old)
        (polygon_arrays out_points.new out_contours.new out_shapes.new) result }
{
    let is_parted = are_features(points.len(), contours, shapes, features);
    let has_room = has_shapes_room(
        points.len(),
        contours.len(),
        shapes.len(),
        out_points.len(),
        out_contours.len(),
        out_shapes.len(),
    );
    if let Some(refusal) = refusal(points, contours, is_parted, has_room) {
        return refusal.code() as isize;
    }
    match write_forms::<P, C>(
        alloc,
        points,
        contours,
        shapes,
        features,
        out_points,
        out_contours,
        out_shapes,
    ) {
        Ok(count) => count as isize,
        Err(_) => Refusal::NoMemory.code() as isize,
    }
}

/// Returns whether the offsets divide the points into contours, these into polygons, and these into features.
fn are_features(points: usize, contours: &[usize], shapes: &[usize], features: &[usize]) -> bool
    ensures { IsTrue result ↔ PartsFeatures points contours.now shapes.now features.now }
{
    are_polygons(points, contours, shapes) && are_parted(shapes.len() - 1, features)
}

/// Writes the form of each feature to the front of the three arrays. Returns how many polygons there are. Allocates
/// before it writes, so an error leaves the arrays unchanged. Allocates nothing where no polygon has a contour.
fn write_forms<P: CPoint, C: ContourCleaner>(
    alloc: Global,
    points: &[P],
    contours: &[usize],
    shapes: &[usize],
    features: &[usize],
    out_points: &mut [P],
    out_contours: &mut [usize],
    out_shapes: &mut [usize],
) -> Result<usize, ShapeError>
    requires parted { PartsFeatures (length points.now) contours.now shapes.now features.now }
    requires room { HasShapesRoom (length points.now) (length contours.now) (length shapes.now)
        (length out_points.old) (length out_contours.old) (length out_shapes.old) }
    requires points_safe { AreSafeContours P.Coordinate.width
        (point_by P.Coordinate.value P.point) points.now contours.now }
    ensures ok { IfOk result
        (λ n. AreShapesLeft (FeaturesForm C.meaning.answers features.now)
        (point_by P.Coordinate.value P.point)
        (polygon_arrays points.now contours.now shapes.now)
        (polygon_arrays out_points.old out_contours.old out_shapes.old)
        (polygon_arrays out_points.new out_contours.new out_shapes.new) n) }
    ensures err { OnErr result ((out_points.new ≡ out_points.old)
        × (out_contours.new ≡ out_contours.old) × (out_shapes.new ≡ out_shapes.old)) }
    ensures memory { OnErr result (HaveNoContours (polygons
        (map (point_by P.Coordinate.value P.point) points.now) contours.now shapes.now) → ⊥) }
{
    if shapes[0] == shapes[shapes.len() - 1] {
        return clean_each::<P, C>(
            alloc,
            points,
            contours,
            shapes,
            out_points,
            out_contours,
            out_shapes,
        );
    }
    write_sorted_forms::<P, C>(
        alloc,
        points,
        contours,
        shapes,
        features,
        out_points,
        out_contours,
        out_shapes,
    )
}

/// Writes what `write_forms` does, by way of lists that hold the cleaned polygons: the cleaned points overwrite a copy.
/// Allocates before it writes, so an error leaves the arrays unchanged.
fn write_sorted_forms<P: CPoint, C: ContourCleaner>(
    alloc: Global,
    points: &[P],
    contours: &[usize],
    shapes: &[usize],
    features: &[usize],
    out_points: &mut [P],
    out_contours: &mut [usize],
    out_shapes: &mut [usize],
) -> Result<usize, ShapeError>
    requires parted { PartsFeatures (length points.now) contours.now shapes.now features.now }
    requires room { HasShapesRoom (length points.now) (length contours.now) (length shapes.now)
        (length out_points.old) (length out_contours.old) (length out_shapes.old) }
    requires points_safe { AreSafeContours P.Coordinate.width
        (point_by P.Coordinate.value P.point) points.now contours.now }
    ensures ok { IfOk result
        (λ n. AreShapesLeft (FeaturesForm C.meaning.answers features.now)
        (point_by P.Coordinate.value P.point)
        (polygon_arrays points.now contours.now shapes.now)
        (polygon_arrays out_points.old out_contours.old out_shapes.old)
        (polygon_arrays out_points.new out_contours.new out_shapes.new) n) }
    ensures err { OnErr result ((out_points.new ≡ out_points.old)
        × (out_contours.new ≡ out_contours.old) × (out_shapes.new ≡ out_shapes.old)) }
{
    let first = shapes[0];
    let last = shapes[shapes.len() - 1];
    let mut cleaned_points = Vec::from_slice(alloc, part(points, contours[first], contours[last]))?;
    let mut cleaned_contours = vec![in alloc; 0usize; last - first + 1]?;
    let mut cleaned_shapes = vec![in alloc; 0usize; shapes.len()]?;
    let count = clean_each::<P, C>(
        alloc,
        points,
        contours,
        shapes,
        &mut cleaned_points,
        &mut cleaned_contours,
        &mut cleaned_shapes,
    )?;
    let cleaned_shapes = part(&cleaned_shapes, 0, count + 1);
    let cleaned_contours = part(&cleaned_contours, 0, cleaned_shapes[count] + 1);
    write_sorted(
        alloc,
        &cleaned_points,
        cleaned_contours,
        cleaned_shapes,
        features,
        out_points,
        out_contours,
        out_shapes,
    )?;
    Ok(count)
}

/// Writes the polygons, those of each feature sorted, with the holes of each sorted, to the front of the three arrays.
/// The contours are exactly those of the polygons. Allocates before it writes, so an error leaves the arrays unchanged.
fn write_sorted<P: CPoint>(
    alloc: Global,
    points: &[P],
    contours: &[usize],
    shapes: &[usize],
    features: &[usize],
    out_points: &mut [P],
    out_contours: &mut [usize],
    out_shapes: &mut [usize],
) -> Result<(), AllocError>
    requires parted { PartsFeatures (length points.now) contours.now shapes.now features.now }
    requires whole { length (concatenated (polygons points.now contours.now shapes.now)) + 1
        ≡ length contours.now }
    requires points_room { length (concatenated (concatenated
        (polygons points.now contours.now shapes.now))) ≤ length out_points.old }
    requires contours_room { length contours.now ≤ length out_contours.old }
    requires shapes_room { length shapes.now ≤ length out_shapes.old }
    ensures ok { OnOk result (WritesSorted (SortsFeatures features.now)
        (point_by P.Coordinate.value P.point)
        (polygons points.now contours.now shapes.now)
        (polygon_arrays out_points.old out_contours.old out_shapes.old)
        (polygon_arrays out_points.new out_contours.new out_shapes.new)) }
    ensures err { OnErr result ((out_points.new ≡ out_points.old)
        × (out_contours.new ≡ out_contours.old) × (out_shapes.new ≡ out_shapes.old)) }
{
    let mut rings = slices(alloc, points, contours)?;
    sort_each_rest(&mut rings, shapes);
    let mut polygons = slices(alloc, &rings, shapes)?;
    sort_each(&mut polygons, features);
    // One place for each contour. All of them are written below.
    let mut sorted = slices(alloc, points, contours)?;
    write_lists(&polygons, &mut sorted, out_shapes);
    write_lists(&sorted, out_points, out_contours);
    Ok(())
}

/// Writes the cleaned polygons to the front of the three arrays, without contours where they collapse. Returns how many
/// there are. Allocates before it writes, and only if a contour that isn't clean is long enough, so an error leaves the
/// arrays unchanged.
fn clean_each<P: CPoint, C: ContourCleaner>(
    alloc: Global,
    points: &[P],
    contours: &[usize],
    shapes: &[usize],
    out_points: &mut [P],
    out_contours: &mut [usize],
    out_shapes: &mut [usize],
) -> Result<usize, ShapeError>
    requires parted { PartsPolygons (length points.now) contours.now shapes.now }
    requires room { HasPolygonsRoom contours.now shapes.now
        (length out_points.old) (length out_contours.old) (length out_shapes.old) }
    requires points_safe { AreSafeContours P.Coordinate.width
        (point_by P.Coordinate.value P.point) points.now contours.now }
    ensures ok { IfOk result
        (λ n. AreShapesLeft (AreLeftOrEmpty C.meaning.answers) (point_by P.Coordinate.value P.point)
        (polygon_arrays points.now contours.now shapes.now)
        (polygon_arrays out_points.old out_contours.old out_shapes.old)
        (polygon_arrays out_points.new out_contours.new out_shapes.new) n) }
    ensures err { OnErr result ((out_points.new ≡ out_points.old)
        × (out_contours.new ≡ out_contours.old) × (out_shapes.new ≡ out_shapes.old)) }
    ensures memory { OnErr result (EachShape (TakesNoMemory C.meaning.fewest C.meaning.clean) (polygons
        (map (point_by P.Coordinate.value P.point) points.now) contours.now shapes.now) → ⊥) }
{
    let end = shapes[shapes.len() - 1] + 1;
    let rings = part(contours, shapes[0], end);
    let mut cleaner = C::new(alloc);
    let all_clean = make_room(&mut cleaner, points, rings)?;
    Ok(write_each(
        &mut cleaner,
        points,
        rings,
        shapes,
        all_clean,
        out_points,
        out_contours,
        out_shapes,
    ))
}

/// Cleans the contours of the polygons and writes the cleaned polygons to the front of the three arrays, without
/// contours where they collapse. Returns how many there are. `rings` begins with the offsets of the first polygon.
fn write_each<P: CPoint, C: ContourCleaner>(
    cleaner: &mut C,
    points: &[P],
    rings: &[usize],
    shapes: &[usize],
    all_clean: bool,
    out_points: &mut [P],
    out_contours: &mut [usize],
    out_shapes: &mut [usize],
) -> usize
    requires parted { PartsPoints (length points.now) rings.now }
    requires ready { AreReady C.meaning.clean P.Coordinate.width
        (read P.Coordinate.value P.points) all_clean
        (C.has_room cleaner.old) points.now rings.now }
    requires shapes_some { 0 < length shapes.now }
    requires shapes_order { AreRising shapes.now (length shapes.now) }
    requires shapes_last { offset shapes.now (length shapes.now - 1)
        < length rings.now + offset shapes.now 0 }
    requires points_room { offset rings.now (length rings.now - 1)
        ≤ length out_points.old + offset rings.now 0 }
    requires contours_room { length rings.now ≤ length out_contours.old }
    requires shapes_room { length shapes.now ≤ length out_shapes.old }
    ensures { WritesLeft (AreLeftOrEmpty C.meaning.answers) (point_by P.Coordinate.value P.point)
        (polygon_arrays points.now rings.now shapes.now)
        (polygon_arrays out_points.old out_contours.old out_shapes.old)
        (polygon_arrays out_points.new out_contours.new out_shapes.new) result }
{
    out_contours[0] = 0;
    out_shapes[0] = 0;
    let mut counts = Counts {
        points: 0,
        contours: 0,
        shapes: 0,
    };
    for place in 1..shapes.len() {
        let end = shapes[place] - shapes[0] + 1;
        let polygon = part(rings, shapes[place - 1] - shapes[0], end);
        counts = append_or_empty(
            cleaner,
            points,
            polygon,
            all_clean,
            out_points,
            out_contours,
            out_shapes,
            counts,
        );
    }
    counts.shapes
}

/// Writes the cleaned polygon after those already written, without contours if it collapses. Returns the new counts.
fn append_or_empty<P: CPoint, C: ContourCleaner>(
    cleaner: &mut C,
    points: &[P],
    rings: &[usize],
    all_clean: bool,
    out_points: &mut [P],
    out_contours: &mut [usize],
    out_shapes: &mut [usize],
    counts: Counts,
) -> Counts
    requires parted { PartsPoints (length points.now) rings.now }
    requires ready { AreReady C.meaning.clean P.Coordinate.width
        (read P.Coordinate.value P.points) all_clean
        (C.has_room cleaner.old) points.now rings.now }
    requires points_room { counts.points + offset rings.now (length rings.now - 1)
        ≤ length out_points.old + offset rings.now 0 }
    requires contours_room { counts.contours + length rings.now ≤ length out_contours.old }
    requires shapes_room { counts.shapes + 1 < length out_shapes.old }
    ensures left { AppendsShapeKept C.meaning.answers (point_by P.Coordinate.value P.point)
        (parts points.now rings.now)
        (polygon_arrays out_points.old out_contours.old out_shapes.old)
        (polygon_arrays out_points.new out_contours.new out_shapes.new) counts result }
    ensures fewer_points { result.points + offset rings.now 0
        ≤ counts.points + offset rings.now (length rings.now - 1) }
    ensures fewer_contours { result.contours < counts.contours + length rings.now }
    ensures fewer_shapes { result.shapes ≤ counts.shapes + 1 }
    ensures keeps_room { (n : ℕ) → C.has_room cleaner.old n → C.has_room cleaner.new n }
{
    let appended = append_polygon(
        cleaner,
        points,
        rings,
        all_clean,
        out_points,
        out_contours,
        out_shapes,
        counts,
    );
    if appended.shapes > counts.shapes {
        return appended;
    }
    out_shapes[appended.shapes + 1] = appended.contours;
    Counts {
        points: appended.points,
        contours: appended.contours,
        shapes: appended.shapes + 1,
    }
}
