//! The canonical form of a contour: the least rotation of the contour without zero turns.

ghost use Rattle.std.specs.Prelude.{◌≡◌, ◌⊎◌, ℕ, ◌+◌, ◌-◌, ◌*◌, ◌<◌, ◌≤◌, min, max, length, OnOk};
ghost use Rattle.std.specs.Ordering.{MatchOrdering};
ghost use Rattle.i_shape_core.specs.IntPoint.{contour_of, IsSafeContour};
ghost use Rattle.i_shape_core.specs.Reading.{read};
ghost use Rattle.i_shape_core.specs.Contour.{IsSimple, point_at, Rotation};
ghost use Rattle.i_shape_core.specs.Canonical.{IsBefore, IsLeast, started_at};
ghost use Rattle.i_shape_core.specs.Steps.Walks.{IsOrder, Agree, Precedes, AreAfter};
ghost use Rattle.i_shape_core.specs.Refusals.{OkUnlessMemory};
ghost use Rattle.i_shape_core.specs.Cleaning.{canonicalizing};
ghost use Rattle.i_shape_core.specs.Written.{CleansTo};
ghost use Rattle.i_shape_core.specs.Room.{HasRoomToSimplify, KeepsRoomToSimplify};

use crate::clean::simplifier::ContourSimplifier;
use crate::error::ShapeError;
use crate::form::comparer::Comparer;
use crate::number::IntNumber;
use crate::point::{ContourPoint, IntContour, IntPoint};
use std::cmp::Ordering;

impl ContourSimplifier {
    /// Returns the canonical form of a contour, as `SimpleContour::canonical` does. Earlier calls don't affect the
    /// result, even if they failed. Makes room for a contour with zero turns, and keeps it.
    ///
    /// # Errors
    ///
    /// `OutOfMemory`, which can't occur below three points.
    pub fn canonical<I: IntNumber>(
        &mut self,
        contour: &[IntPoint<I>],
    ) -> Result<Option<IntContour<I>>, ShapeError>
        requires { IsSafeContour I.width (contour_of I.value contour.now) }
        ensures answer { let c = contour_of I.value contour.now in
            OkUnlessMemory result (CleansTo canonicalizing I.width I.value c) }
        ensures short { length contour.now < 3 → result ≡ Ok None }
        ensures keeps_room { KeepsRoomToSimplify self.old self.new }
        ensures takes_room { OnOk result ((IsSimple (contour_of I.value contour.now) → ⊥)
            → HasRoomToSimplify self.new (length contour.now)) }
    {
        let Some(mut kept) = self.simplify_contour(contour)? else {
            return Ok(None);
        };
        rotate_to_least(kept.as_mut_slice());
        Ok(Some(kept))
    }
}

/// Rotates a contour in place to its least rotation. Requires a point.
pub(crate) fn rotate_to_least<P: ContourPoint>(contour: &mut [P])
    requires { 0 < length contour.old }
    ensures least { IsLeast (read P.Coordinate.value P.points contour.old)
        (read P.Coordinate.value P.points contour.new) }
    ensures rotated { Rotation contour.old contour.new }
    ensures len { length contour.new ≡ length contour.old }
{
    let start = least_start(contour);
    contour.rotate_left(start);
}

/// Returns where the least rotation of a contour starts. Requires a point.
pub(crate) fn least_start<P: ContourPoint>(contour: &[P]) -> usize
    requires { 0 < length contour.now }
    ensures within { result < length contour.now }
    ensures least { let c = read P.Coordinate.value P.points contour.now in IsLeast c (started_at c result) }
{
    let mut comparer = Comparer::new(contour);
    search_starts(&mut comparer)
}

/// Returns a place where the least rotation of a contour starts, and how many pairs of points were compared. Requires a
/// point. For n points this is at least n - 1 and at most 3n - 4, and 0 for one point. Rotations are compared point by
/// point, and points by x, then by y.
///
/// Two starts are compared point by point. The one that loses also rules out each start up to the point where it lost,
/// as in Shiloach's algorithm for circular strings. The search takes linear time and allocates nothing.
pub fn least_start_counted<I: IntNumber>(contour: &[IntPoint<I>]) -> (usize, u128)
    requires { 0 < length contour.now }
    ensures within { result.0 < length contour.now }
    ensures least { let c = contour_of I.value contour.now in IsLeast c (started_at c result.0) }
    ensures fewest { length contour.now - 1 ≤ result.1 }
    ensures most { result.1 ≤ 3 * length contour.now - 4 }
{
    let mut comparer = Comparer::new(contour);
    let start = search_starts(&mut comparer);
    (start, comparer.comparisons())
}

/// Returns where the least rotation starts. Requires a comparer that has compared nothing yet.
fn search_starts<P: ContourPoint>(comparer: &mut Comparer<'_, P>) -> usize
    requires some { 0 < length comparer.old.contour }
    requires fresh { comparer.old.comparisons ≡ 0 }
    ensures within { result < length comparer.old.contour }
    ensures least { let c = contour_of P.Coordinate.value
        comparer.old.contour in IsLeast c (started_at c result) }
    ensures fewest { length comparer.old.contour - 1 ≤ comparer.new.comparisons }
    ensures most { comparer.new.comparisons ≤ 3 * length comparer.old.contour - 4 }
{
    let count = comparer.len();
    let mut kept = 0;
    let mut challenger = 1;
    while challenger < count {
        let (rival, first) = next_rival(comparer, kept, challenger);
        if rival == count {
            break;
        }
        let (compared, order) = compare_starts(comparer, kept, rival, first);
        match order {
            Ordering::Equal => break,
            Ordering::Less => {
                if compared >= count - rival {
                    break;
                }
                challenger = rival + compared;
            }
            Ordering::Greater => {
                kept = rival.max(kept + compared);
                challenger = kept + 1;
            }
        }
    }
    kept
}

/// Returns the first place from `from` on whose point doesn't come after the one at `kept`, or the end of the contour
/// if there is none, and how the two points are ordered.
fn next_rival<P: ContourPoint>(
    comparer: &mut Comparer<'_, P>,
    kept: usize,
    from: usize,
) -> (usize, Ordering)
    requires kept_within { kept < length comparer.old.contour }
    requires from_within { from ≤ length comparer.old.contour }
    requires room { comparer.old.comparisons + length comparer.old.contour ≤ u128.MAX }
    ensures contour { comparer.new.contour ≡ comparer.old.contour }
    ensures within { (from ≤ result.0) × (result.0 ≤ length comparer.old.contour) }
    ensures passed { let c = contour_of P.Coordinate.value
        comparer.old.contour in AreAfter c (point_at c kept) from result.0 }
    ensures first { result.0 < length comparer.old.contour
        → IsOrder (contour_of P.Coordinate.value comparer.old.contour) kept result.0 result.1 }
    ensures counted { comparer.new.comparisons + from
        ≡ comparer.old.comparisons + min (result.0 + 1) (length comparer.old.contour) }
{
    for place in from..comparer.len() {
        match comparer.compare(kept, place) {
            Ordering::Less => {}
            order => return (place, order),
        }
    }
    (comparer.len(), Ordering::Less)
}

/// Compares the rotations that start at `kept` and at `rival`. Returns how many pairs of points were compared for that,
/// and the order. The first pair was compared before; `first` is its order.
fn compare_starts<P: ContourPoint>(
    comparer: &mut Comparer<'_, P>,
    kept: usize,
    rival: usize,
    first: Ordering,
) -> (usize, Ordering)
    requires kept_within { kept < length comparer.old.contour }
    requires rival_within { rival < length comparer.old.contour }
    requires first { IsOrder (contour_of P.Coordinate.value comparer.old.contour) kept rival first }
    requires room { comparer.old.comparisons + length comparer.old.contour ≤ u128.MAX }
    ensures contour { comparer.new.contour ≡ comparer.old.contour }
    ensures order { let c = contour_of P.Coordinate.value
        comparer.old.contour in MatchOrdering result.1 (Precedes c kept rival result.0)
        (Agree c kept rival (length comparer.old.contour)
        × (result.0 ≡ length comparer.old.contour)) (Precedes c rival kept result.0) }
    ensures counted { comparer.new.comparisons + 1 ≡ comparer.old.comparisons + result.0 }
{
    if first != Ordering::Equal {
        return (1, first);
    }
    let count = comparer.len();
    let mut matched = 1;
    while matched < count {
        let ours = place_at_step(count, kept, matched);
        let theirs = place_at_step(count, rival, matched);
        let (agreed, order) = compare_runs(comparer, ours, theirs, count - matched);
        match order {
            Ordering::Equal => matched += agreed,
            Ordering::Less => return (matched + agreed + 1, Ordering::Less),
            Ordering::Greater => return (matched + agreed + 1, Ordering::Greater),
        }
    }
    (count, Ordering::Equal)
}

/// Returns how many pairs of points from two places on agree, among the first `most` and before the contour ends, and
/// how the next pair is ordered.
fn compare_runs<P: ContourPoint>(
    comparer: &mut Comparer<'_, P>,
    ours: usize,
    theirs: usize,
    most: usize,
) -> (usize, Ordering)
    requires ours_within { ours < length comparer.old.contour }
    requires theirs_within { theirs < length comparer.old.contour }
    requires room { comparer.old.comparisons + most ≤ u128.MAX }
    ensures contour { comparer.new.contour ≡ comparer.old.contour }
    ensures agree { let c = contour_of P.Coordinate.value comparer.old.contour in (t : ℕ)
        → t < result.0 → point_at c (ours + t) ≡ point_at c (theirs + t) }
    ensures order { let c = contour_of P.Coordinate.value
        comparer.old.contour in let k = result.0 in let
        room = min (length comparer.old.contour - max ours theirs)
        most in MatchOrdering result.1
        ((k < room) × IsBefore (point_at c (ours + k)) (point_at c (theirs + k)))
        (k ≡ room) ((k < room) × IsBefore (point_at c (theirs + k)) (point_at c (ours + k))) }
    ensures counted { comparer.new.comparisons ≡ comparer.old.comparisons
        + min (result.0 + 1) (min (length comparer.old.contour - max ours theirs) most) }
{
    let room = (comparer.len() - ours.max(theirs)).min(most);
    for step in 0..room {
        match comparer.compare(ours + step, theirs + step) {
            Ordering::Equal => {}
            order => return (step, order),
        }
    }
    (room, Ordering::Equal)
}

/// Returns the place `steps` after `start` on a cycle of `count` places.
pub(crate) fn place_at_step(count: usize, start: usize, steps: usize) -> usize
    requires start_within { start < count }
    requires steps_within { steps < count }
    ensures within { result < count }
    ensures value { (result ≡ start + steps) ⊎ (result + count ≡ start + steps) }
{
    let left = count - start;
    if steps < left {
        start + steps
    } else {
        steps - left
    }
}
