//! Rings that lie end to end in one array of points, divided by offsets.

ghost use Rattle.std.specs.Prelude.{◌≡◌, ◌↔◌, ◌+◌, ◌-◌, ◌≤◌, ℕ, length, take, drop, slice_range, IsTrue, IfOk, OnErr};
ghost use Rattle.i_shape_core.specs.IntPoint.{IsSafeContour};
ghost use Rattle.i_shape_core.specs.Reading.{read};
ghost use Rattle.i_shape_core.specs.Written.{IsWritten};
ghost use Rattle.i_shape_core.specs.Rings.{PartsPoints, AreSafeRings, AreCleanRings, LongestUncleanRing, HaveRoom, TakesRoom, CleansRing, AreCleanedRings, ring_arrays};

use crate::clean::cleaner::ContourCleaner;
use crate::error::ShapeError;
use crate::point::ContourPoint;

/// Cleans each of the rings into which the offsets divide `points`. Writes what is left of them end to end to the front
/// of `out`, and its offsets, from 0 on, to the front of `out_offsets`. Returns the total number of points written. A
/// ring that collapses leaves none. Requires an `out` at least as long as `points`, and an `out_offsets` at least as
/// long as `offsets`. The rest of both stays as it was. Room for the longest ring that isn't clean is made first.
///
/// # Errors
///
/// `OutOfMemory`, after which nothing was written. It occurs only if there is no room yet for some ring of at least
/// three points that isn't clean.
pub fn try_clean_rings<P: ContourPoint, C: ContourCleaner>(
    cleaner: &mut C,
    points: &[P],
    offsets: &[usize],
    out: &mut [P],
    out_offsets: &mut [usize],
) -> Result<usize, ShapeError>
    requires parted { PartsPoints (length points.now) offsets.now }
    requires points_safe { AreSafeRings P.Coordinate.width
        (read P.Coordinate.value P.points) points.now offsets.now }
    requires room { length points.now ≤ length out.old }
    requires offsets_room { length offsets.now ≤ length out_offsets.old }
    ensures cleaned { IfOk result (AreCleanedRings
        (CleansRing C.meaning P.Coordinate.width
        (read P.Coordinate.value P.points)) (ring_arrays points.now offsets.now)
        (ring_arrays out.old out_offsets.old) (ring_arrays out.new out_offsets.new)) }
    ensures points_err { OnErr result (out.new ≡ out.old) }
    ensures offsets_err { OnErr result (out_offsets.new ≡ out_offsets.old) }
    ensures memory { TakesRoom C.meaning.clean (read P.Coordinate.value P.points)
        (C.has_room cleaner.old) (C.has_room cleaner.new) points.now offsets.now result }
{
    let all_clean = make_room(cleaner, points, offsets)?;
    Ok(clean_rings(cleaner, points, offsets, all_clean, out, out_offsets))
}

/// Makes room for the longest ring that isn't clean, and so for each. Returns whether all are clean.
///
/// # Errors
///
/// `OutOfMemory`. It occurs only if there is no room yet for some ring of at least three points that isn't clean.
pub fn make_room<P: ContourPoint, C: ContourCleaner>(
    cleaner: &mut C,
    points: &[P],
    offsets: &[usize],
) -> Result<bool, ShapeError>
    requires parted { PartsPoints (length points.now) offsets.now }
    requires points_safe { AreSafeRings P.Coordinate.width
        (read P.Coordinate.value P.points) points.now offsets.now }
    ensures clean { IfOk result (λ all_clean. IsTrue all_clean ↔ AreCleanRings C.meaning.clean
        (read P.Coordinate.value P.points) points.now offsets.now
        (length offsets.now)) }
    ensures memory { TakesRoom C.meaning.clean (read P.Coordinate.value P.points)
        (C.has_room cleaner.old) (C.has_room cleaner.new) points.now offsets.now result }
{
    let longest = longest_unclean::<P, C>(points, offsets);
    cleaner.reserve(longest.unwrap_or(0))?;
    Ok(longest.is_none())
}

/// Returns the number of points of the longest ring that isn't clean, or `None` if all are clean.
pub fn longest_unclean<P: ContourPoint, C: ContourCleaner>(
    points: &[P],
    offsets: &[usize],
) -> Option<usize>
    requires parted { PartsPoints (length points.now) offsets.now }
    requires points_safe { AreSafeRings P.Coordinate.width
        (read P.Coordinate.value P.points) points.now offsets.now }
    ensures { LongestUncleanRing C.meaning.clean (read P.Coordinate.value P.points)
        points.now offsets.now (length offsets.now) result }
{
    let mut longest = None;
    for place in 1..offsets.len() {
        let ring = part(points, offsets[place - 1], offsets[place]);
        if !C::is_clean(ring) {
            longest = Some(ring.len().max(longest.unwrap_or(0)));
        }
    }
    longest
}

/// Cleans each ring, as `try_clean_rings` does. Requires room for each that isn't clean, so it allocates nothing and
/// can't fail. `all_clean` may be true only if all are clean, as `make_room` returns it; no ring is tested then.
pub fn clean_rings<P: ContourPoint, C: ContourCleaner>(
    cleaner: &mut C,
    points: &[P],
    offsets: &[usize],
    all_clean: bool,
    out: &mut [P],
    out_offsets: &mut [usize],
) -> usize
    requires parted { PartsPoints (length points.now) offsets.now }
    requires points_safe { AreSafeRings P.Coordinate.width
        (read P.Coordinate.value P.points) points.now offsets.now }
    requires room { length points.now ≤ length out.old }
    requires offsets_room { length offsets.now ≤ length out_offsets.old }
    requires clean { IsTrue all_clean → AreCleanRings C.meaning.clean
        (read P.Coordinate.value P.points) points.now offsets.now
        (length offsets.now) }
    requires reserved { HaveRoom C.meaning.clean (read P.Coordinate.value P.points) (C.has_room cleaner.old)
        points.now offsets.now (length offsets.now) }
    ensures cleaned { AreCleanedRings (CleansRing C.meaning P.Coordinate.width
        (read P.Coordinate.value P.points)) (ring_arrays points.now offsets.now)
        (ring_arrays out.old out_offsets.old) (ring_arrays out.new out_offsets.new) result }
    ensures keeps_room { (n : ℕ) → C.has_room cleaner.old n → C.has_room cleaner.new n }
{
    let mut written: usize = 0;
    out_offsets[0] = 0;
    for place in 1..offsets.len() {
        let ring = part(points, offsets[place - 1], offsets[place]);
        written = clean_at(cleaner, ring, all_clean, out, written);
        out_offsets[place] = written;
    }
    written
}

/// Writes what is left of a ring from place `at` on, and returns where it ends. Requires space there for the whole
/// ring, and room for one that isn't clean. The rest of `out` stays as it was. `is_clean` may be true only for a clean
/// ring, which isn't tested then.
pub fn clean_at<P: ContourPoint, C: ContourCleaner>(
    cleaner: &mut C,
    ring: &[P],
    is_clean: bool,
    out: &mut [P],
    at: usize,
) -> usize
    requires points_safe { IsSafeContour P.Coordinate.width
        (read P.Coordinate.value P.points ring.now) }
    requires room { at + length ring.now ≤ length out.old }
    requires clean { IsTrue is_clean → C.meaning.clean (read P.Coordinate.value P.points ring.now) }
    requires reserved { (C.meaning.clean (read P.Coordinate.value P.points ring.now) → ⊥)
        → C.has_room cleaner.old (length ring.now) }
    ensures above { at ≤ result }
    ensures under { result ≤ at + length ring.now }
    ensures left { CleansRing C.meaning P.Coordinate.width
        (read P.Coordinate.value P.points) ring.now (slice_range out.new at result) }
    ensures before { take at out.new ≡ take at out.old }
    ensures after { drop result out.new ≡ drop result out.old }
    ensures len { length out.new ≡ length out.old }
    ensures keeps_room { (n : ℕ) → C.has_room cleaner.old n → C.has_room cleaner.new n }
{
    let count = clean_ring(cleaner, ring, is_clean, &mut out[at..]);
    at + count
}

/// Cleans a ring, as `ContourCleaner::clean_into` does. `is_clean` may be true only for a clean ring, which isn't tested
/// then.
fn clean_ring<P: ContourPoint, C: ContourCleaner>(
    cleaner: &mut C,
    ring: &[P],
    is_clean: bool,
    out: &mut [P],
) -> usize
    requires points_safe { IsSafeContour P.Coordinate.width
        (read P.Coordinate.value P.points ring.now) }
    requires room { length ring.now ≤ length out.old }
    requires clean { IsTrue is_clean → C.meaning.clean (read P.Coordinate.value P.points ring.now) }
    requires reserved { (C.meaning.clean (read P.Coordinate.value P.points ring.now) → ⊥)
        → C.has_room cleaner.old (length ring.now) }
    ensures written { IsWritten C.meaning P.Coordinate.width
        (read P.Coordinate.value P.points) ring.now out.old out.new result }
    ensures len { length out.new ≡ length out.old }
    ensures keeps_room { (n : ℕ) → C.has_room cleaner.old n → C.has_room cleaner.new n }
{
    if is_clean {
        C::write_clean(ring, out)
    } else {
        cleaner.clean_into(ring, out)
    }
}

/// Returns the items `from..to`.
pub fn part<T: Copy>(items: &[T], from: usize, to: usize) -> &[T]
    requires order { from ≤ to }
    requires within { to ≤ length items.now }
    ensures part { result.now ≡ slice_range items.now from to }
    ensures len { length result.now + from ≡ to }
{
    &items[from..to]
}
