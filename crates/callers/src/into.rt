//! A contour that is cleaned from one slice into another, over points of any type. The double area stays the same.

ghost use Rattle.std.specs.Prelude.{◌≡◌, ◌↔◌, ◌⊎◌, ◌<◌, ◌≤◌, length, take, drop, IsTrue, IfOk, IfErr, OnErr, IsErrOf};
ghost use Rattle.std.specs.List.{All};
ghost use Rattle.i_shape.specs.IntPoint.{point_of, IsSafe};
ghost use Rattle.i_shape.specs.Reading.{read};
ghost use Rattle.i_shape.specs.Edges.{shoelace};
ghost use Rattle.i_shape.specs.Cleaners.{SimpleAnswer};
ghost use Rattle.i_shape.specs.Written.{slot};
ghost use Rattle.callers.specs.Refusals.{no_memory};

use crate::refusal::Refusal;
use i_shape::int::ContourPoint;
use i_shape::int::cleaner::ContourCleaner;
use i_shape::int::despike::ContourDeSpiker;
use i_shape::int::safe_range::IntSafeRange;
use i_shape::int::simple::ContourSimplifier;

fn is_safe<P: ContourPoint>(point: &P) -> bool
    ensures { IsTrue result ↔ IsSafe P.Coordinate.width
        (point_of P.Coordinate.value (P.point point.now)) }
{
    point.to_point().is_in_safe_range()
}

fn each_is_safe<P: ContourPoint>(points: &[P]) -> bool
    ensures { IsTrue result
        ↔ All (λ p. IsSafe P.Coordinate.width (point_of P.Coordinate.value (P.point p)))
        points.now }
{
    points.iter().all(|point| is_safe(point))
}

/// Returns whether each point is safe.
pub fn are_safe<P: ContourPoint>(points: &[P]) -> bool
    ensures { IsTrue result ↔ All (IsSafe P.Coordinate.width)
        (read P.Coordinate.value P.points points.now) }
{
    each_is_safe(points)
}

/// Writes the contour without zero turns to the front of `between`, and that without spikes, of which it has none by
/// then, to the front of `out`. Returns how many points are left, 0 if the contour collapses. Beyond them, and after an
/// error, `out` is as it was. `OutOfRange` exactly if a point isn't safe, or else `NoRoom` exactly if `between` or `out`
/// is shorter than the contour; otherwise the only error is `OutOfMemory`.
pub fn clean_into<P: ContourPoint>(
    simplifier: &mut ContourSimplifier,
    despiker: &mut ContourDeSpiker,
    contour: &[P],
    between: &mut [P],
    out: &mut [P],
) -> Result<usize, Refusal>
    ensures range { IsErrOf result Refusal.OutOfRange
        ↔ (All (IsSafe P.Coordinate.width) (read P.Coordinate.value P.points contour.now)
        → ⊥) }
    ensures room { IsErrOf result Refusal.NoRoom
        ↔ (All (IsSafe P.Coordinate.width) (read P.Coordinate.value P.points contour.now)
        × ((length between.old < length contour.now) ⊎ (length out.old < length contour.now))) }
    ensures errors { IfErr result
        (λ e. (e ≡ Refusal.OutOfRange) ⊎ (e ≡ Refusal.NoRoom) ⊎ (e ≡ no_memory)) }
    ensures count { IfOk result (λ n. n ≤ length contour.now) }
    ensures rest { IfOk result (λ n. drop n out.new ≡ drop n out.old) }
    ensures err { OnErr result (out.new ≡ out.old) }
    ensures answer { IfOk result (λ n. SimpleAnswer (read P.Coordinate.value P.points contour.now)
        (slot (read P.Coordinate.value P.points (take n out.new)))) }
    ensures area { IfOk result (λ n. shoelace (read P.Coordinate.value P.points (take n out.new))
        ≡ shoelace (read P.Coordinate.value P.points contour.now)) }
{
    if !are_safe(contour) {
        return Err(Refusal::OutOfRange);
    }
    if between.len() < contour.len() || out.len() < contour.len() {
        return Err(Refusal::NoRoom);
    }
    let count = simplifier.try_clean_into(contour, between)?;
    Ok(despiker.try_clean_into(&between[..count], out)?)
}
