//! Winding numbers of contours about points, at any width. Calls for many points allocate memory if that saves time,
//! and do without it if the allocation fails.

ghost use Rattle.std.specs.Prelude.{◌≡◌, ◌≤◌, ◌++◌, length, map, drop, OnOk, OnErr};
ghost use Rattle.std.specs.List.{All};
ghost use Rattle.i_shape.specs.Heights.{asked_points, IsRising, IsAdded, AllFit};
ghost use Rattle.i_shape.specs.IntPoint.{point_of, IsSafe};
ghost use Rattle.i_shape_c.specs.Cleaned.{AreSafe};
ghost use Rattle.i_shape_c.specs.Batch.{contour_arrays, PartsPoints, AreSafeContours};
ghost use Rattle.i_shape_c.specs.Windings.{contours_winding, WindsAbout, WindsAboutEach};
ghost use Rattle.i_shape_c.specs.Points.{point_by};

use crate::batch::{part, refusal_about};
use crate::codes::NO_WINDING;
use crate::point::CPoint;
use i_shape::IntNumber;
use i_shape::int::IntPoint;
use i_shape_core::heights::{Asked, add_contour, by_height, write_totals};
use i_shape_core::safe_range::are_safe;
use i_shape_core::winding::winding_about;
use std::alloc::{AllocError, Global};

/// The fewest points that are sorted by their heights. Fewer are faster one by one.
pub const FEWEST_SORTED: usize = 32;

/// The fewest points of contours for which the points asked about are sorted.
pub const FEWEST_EDGES: usize = 64;

/// The smallest batch of points that are sorted at once, unless fewer are asked about.
const LEAST_BATCH: usize = 65_536;

/// Returns the contour's winding number about the point, or `NO_WINDING` if a point isn't safe.
pub fn winding<P: CPoint>(points: &[P], given: P) -> isize
    ensures { WindsAbout P.Coordinate.width (point_by P.Coordinate.value P.point)
        points.now (point_by P.Coordinate.value P.point given) result }
{
    let point = given.to_point();
    if !point.is_in_safe_range() || !are_safe(points) {
        return NO_WINDING;
    }
    winding_about(points, point)
}

/// Writes the contours' total winding number about each point of `about`. Returns 0, or a code below 0.
pub fn windings<P: CPoint>(
    alloc: Global,
    points: &[P],
    offsets: &[usize],
    about: &[P],
    out: &mut [isize],
) -> i32
    ensures { WindsAboutEach P.Coordinate.width (point_by P.Coordinate.value P.point)
        (contour_arrays points.now offsets.now) about.now out.old out.new result }
{
    if let Some(refusal) = refusal_about(points, offsets, about, out.len()) {
        return refusal.code();
    }
    wind_in_batches(alloc, points, offsets, about, out);
    0
}

/// Writes the contours' total winding number about each point of `about`, in batches of as many points as the contours
/// have, and at least `LEAST_BATCH`.
pub fn wind_in_batches<P: CPoint>(
    alloc: Global,
    points: &[P],
    offsets: &[usize],
    about: &[P],
    out: &mut [isize],
)
    requires parted { PartsPoints (length points.now) offsets.now }
    requires points_safe { AreSafeContours P.Coordinate.width
        (point_by P.Coordinate.value P.point) points.now offsets.now }
    requires about_safe { AreSafe P.Coordinate.width (point_by P.Coordinate.value P.point) about.now }
    requires room { length about.now ≤ length out.old }
    ensures { out.new ≡ map (λ q. contours_winding (point_by P.Coordinate.value P.point)
        points.now offsets.now (point_by P.Coordinate.value P.point q)) about.now
        ++ drop (length about.now) out.old }
{
    let batch = points.len().max(LEAST_BATCH);
    let mut start = 0;
    while start < about.len() {
        let count = batch.min(about.len() - start);
        wind_batch(
            alloc,
            points,
            offsets,
            part(about, start, start + count),
            &mut out[start..],
        );
        start += count;
    }
}

/// Writes the contours' total winding number about each point of `about`. Sorts the points by height if that saves
/// time.
fn wind_batch<P: CPoint>(
    alloc: Global,
    points: &[P],
    offsets: &[usize],
    about: &[P],
    out: &mut [isize],
)
    requires parted { PartsPoints (length points.now) offsets.now }
    requires points_safe { AreSafeContours P.Coordinate.width
        (point_by P.Coordinate.value P.point) points.now offsets.now }
    requires about_safe { AreSafe P.Coordinate.width (point_by P.Coordinate.value P.point) about.now }
    requires room { length about.now ≤ length out.old }
    ensures { out.new ≡ map (λ q. contours_winding (point_by P.Coordinate.value P.point)
        points.now offsets.now (point_by P.Coordinate.value P.point q)) about.now
        ++ drop (length about.now) out.old }
{
    if about.len() >= FEWEST_SORTED && points.len() >= FEWEST_EDGES {
        if wind_by_height(alloc, points, offsets, about, out).is_ok() {
            return;
        }
    }
    wind_one_by_one(points, offsets, about, out);
}

/// Writes the contours' total winding number about each point of `about`, in the order of the points' heights. An error
/// leaves `out` unchanged.
fn wind_by_height<P: CPoint>(
    alloc: Global,
    points: &[P],
    offsets: &[usize],
    about: &[P],
    out: &mut [isize],
) -> Result<(), AllocError>
    requires parted { PartsPoints (length points.now) offsets.now }
    requires points_safe { AreSafeContours P.Coordinate.width
        (point_by P.Coordinate.value P.point) points.now offsets.now }
    requires about_safe { AreSafe P.Coordinate.width (point_by P.Coordinate.value P.point) about.now }
    requires room { length about.now ≤ length out.old }
    ensures answer { OnOk result (out.new ≡ map (λ q. contours_winding (point_by P.Coordinate.value P.point)
        points.now offsets.now (point_by P.Coordinate.value P.point q)) about.now
        ++ drop (length about.now) out.old) }
    ensures refused { OnErr result (out.new ≡ out.old) }
{
    let asked = by_height(alloc, about)?;
    let mut totals = vec![in alloc; 0isize; asked.len()]?;
    add_contours(&asked, &mut totals, points, offsets);
    write_totals(&asked, &totals, out);
    Ok(())
}

/// Adds the contours' total winding number about each of the points to its total.
fn add_contours<P: CPoint>(
    asked: &[Asked<P::Coordinate>],
    totals: &mut [isize],
    points: &[P],
    offsets: &[usize],
)
    requires parted { PartsPoints (length points.now) offsets.now }
    requires points_safe { AreSafeContours P.Coordinate.width
        (point_by P.Coordinate.value P.point) points.now offsets.now }
    requires asked_safe { All (IsSafe P.Coordinate.width)
        (asked_points P.Coordinate.value asked.now) }
    requires rising { IsRising (asked_points P.Coordinate.value asked.now) }
    requires room { length totals.old ≡ length asked.now }
    requires fit { AllFit totals.old }
    ensures room { length totals.new ≡ length totals.old }
    ensures fit { AllFit totals.new }
    ensures added { IsAdded (asked_points P.Coordinate.value asked.now)
        (contours_winding (point_by P.Coordinate.value P.point) points.now offsets.now)
        totals.old totals.new }
{
    for place in 1..offsets.len() {
        add_contour(
            asked,
            totals,
            part(points, offsets[place - 1], offsets[place]),
        );
    }
}

/// Writes the contours' total winding number about each point of `about`, edge after edge for each point.
fn wind_one_by_one<P: CPoint>(points: &[P], offsets: &[usize], about: &[P], out: &mut [isize])
    requires parted { PartsPoints (length points.now) offsets.now }
    requires points_safe { AreSafeContours P.Coordinate.width
        (point_by P.Coordinate.value P.point) points.now offsets.now }
    requires about_safe { AreSafe P.Coordinate.width (point_by P.Coordinate.value P.point) about.now }
    requires room { length about.now ≤ length out.old }
    ensures { out.new ≡ map (λ q. contours_winding (point_by P.Coordinate.value P.point)
        points.now offsets.now (point_by P.Coordinate.value P.point q)) about.now
        ++ drop (length about.now) out.old }
{
    for place in 0..about.len() {
        out[place] = wind_all(points, offsets, about[place].to_point());
    }
}

/// Returns the contours' total winding number about a point.
pub fn wind_all<P: CPoint>(points: &[P], offsets: &[usize], point: IntPoint<P::Coordinate>) -> isize
    requires parted { PartsPoints (length points.now) offsets.now }
    requires points_safe { AreSafeContours P.Coordinate.width
        (point_by P.Coordinate.value P.point) points.now offsets.now }
    requires point_safe { IsSafe P.Coordinate.width (point_of P.Coordinate.value point) }
    ensures { result ≡ contours_winding (point_by P.Coordinate.value P.point)
        points.now offsets.now (point_of P.Coordinate.value point) }
{
    let mut sum: isize = 0;
    for place in 1..offsets.len() {
        sum += winding_about(part(points, offsets[place - 1], offsets[place]), point);
    }
    sum
}
