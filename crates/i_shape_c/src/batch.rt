//! Cleaning of many contours, which lie end to end in one array. Offsets divide the array into contours.

ghost use Rattle.std.specs.Prelude.{◌≤◌, ◌↔◌, ◌^◌, ◌<◌, length, IsTrue, IfOk, OnErr};
ghost use Rattle.i_shape_c.specs.Batch.{contour_arrays, PartsPoints, HasRoom, AreSafeContours, AreSpared, IsCleanedBatch, IsUntouched, CleansContours};
ghost use Rattle.i_shape_c.specs.Cleaned.{TakesNoMemory, AreSafe};
ghost use Rattle.i_shape_c.specs.Codes.{IsRefusal};
ghost use Rattle.i_shape_c.specs.Points.{point_by};

use crate::codes::Refusal;
use crate::places::first_bad_offset;
use crate::point::CPoint;
use i_shape::ShapeError;
use i_shape::int::cleaner::ContourCleaner;
pub use i_shape_core::batch::part;
use i_shape_core::batch::try_clean_rings;
use i_shape_core::safe_range::are_safe;
use std::alloc::Global;

/// Writes the cleaned contours to the front of `out_points`, and their offsets to `out_offsets`. Returns how many
/// points are written, or a code below 0.
pub fn clean_contours<P: CPoint, C: ContourCleaner>(
    alloc: Global,
    points: &[P],
    offsets: &[usize],
    out_points: &mut [P],
    out_offsets: &mut [usize],
) -> isize
    requires { length out_points.old < 2 ^ 63 }
    ensures { CleansContours C.meaning
        P.Coordinate.width (point_by P.Coordinate.value P.point)
        (contour_arrays points.now offsets.now) (contour_arrays out_points.old out_offsets.old)
        (contour_arrays out_points.new out_offsets.new) result }
{
    let has_room = has_room(
        points.len(),
        offsets.len(),
        out_points.len(),
        out_offsets.len(),
    );
    let is_parted = are_parted(points.len(), offsets);
    if let Some(refusal) = refusal(points, offsets, is_parted, has_room) {
        return refusal.code() as isize;
    }
    match clean_all::<P, C>(alloc, points, offsets, out_points, out_offsets) {
        Ok(total) => total as isize,
        Err(_) => Refusal::NoMemory.code() as isize,
    }
}

/// Returns whether there is room for as many points and offsets.
pub fn has_room(points: usize, offsets: usize, out_points: usize, out_offsets: usize) -> bool
    ensures { IsTrue result ↔ HasRoom points offsets out_points out_offsets }
{
    points <= out_points && offsets <= out_offsets
}

/// Returns why a call on contours fails, or `None` if the offsets divide safe points, and there is room.
pub fn refusal<P: CPoint>(
    points: &[P],
    offsets: &[usize],
    is_parted: bool,
    has_room: bool,
) -> Option<Refusal>
    requires { IsTrue is_parted → PartsPoints (length points.now) offsets.now }
    ensures { IsRefusal (IsTrue is_parted) (IsTrue has_room)
        (AreSafeContours P.Coordinate.width (point_by P.Coordinate.value P.point)
        points.now offsets.now) result }
{
    if !is_parted {
        return Some(Refusal::BadOffsets);
    }
    if !has_room {
        return Some(Refusal::NoRoom);
    }
    if !are_safe(part(points, offsets[0], offsets[offsets.len() - 1])) {
        return Some(Refusal::Unsafe);
    }
    None
}

/// Returns why a call that writes an item for each point of `about` fails, or `None` if it doesn't.
pub fn refusal_about<P: CPoint>(
    points: &[P],
    offsets: &[usize],
    about: &[P],
    room: usize,
) -> Option<Refusal>
    ensures { IsRefusal (PartsPoints (length points.now) offsets.now) (length about.now ≤ room)
        (AreSafeContours P.Coordinate.width (point_by P.Coordinate.value P.point)
        points.now offsets.now
        × AreSafe P.Coordinate.width (point_by P.Coordinate.value P.point) about.now) result }
{
    let is_parted = are_parted(points.len(), offsets);
    if let Some(refusal) = refusal(points, offsets, is_parted, about.len() <= room) {
        return Some(refusal);
    }
    if are_safe(about) {
        None
    } else {
        Some(Refusal::Unsafe)
    }
}

/// Returns whether the offsets divide so many points.
pub fn are_parted(points: usize, offsets: &[usize]) -> bool
    ensures { IsTrue result ↔ PartsPoints points offsets.now }
{
    !offsets.is_empty() && first_bad_offset(points, offsets) == offsets.len()
}

/// Cleans the contours like `clean_contours`, given offsets that divide safe points, and room for as many of both.
/// Returns how many points are written.
///
/// # Errors
///
/// `OutOfMemory`, which leaves both arrays unchanged.
pub fn clean_all<P: CPoint, C: ContourCleaner>(
    alloc: Global,
    points: &[P],
    offsets: &[usize],
    out_points: &mut [P],
    out_offsets: &mut [usize],
) -> Result<usize, ShapeError>
    requires parted { PartsPoints (length points.now) offsets.now }
    requires room { HasRoom (length points.now) (length offsets.now)
        (length out_points.old) (length out_offsets.old) }
    requires points_safe { AreSafeContours P.Coordinate.width
        (point_by P.Coordinate.value P.point) points.now offsets.now }
    ensures ok { IfOk result
        (IsCleanedBatch C.meaning P.Coordinate.width
        (point_by P.Coordinate.value P.point) (contour_arrays points.now offsets.now)
        (contour_arrays out_points.old out_offsets.old)
        (contour_arrays out_points.new out_offsets.new)) }
    ensures err { OnErr result
        (IsUntouched (contour_arrays out_points.old out_offsets.old)
        (contour_arrays out_points.new out_offsets.new)) }
    ensures memory { OnErr result
        (AreSpared (TakesNoMemory C.meaning.fewest C.meaning.clean) (point_by P.Coordinate.value P.point)
        points.now offsets.now → ⊥) }
{
    try_clean_rings(&mut C::new(alloc), points, offsets, out_points, out_offsets)
}
