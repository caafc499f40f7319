//! A test of a contour for turns that a cleaner removes.

ghost use Rattle.std.specs.Prelude.{◌↔◌, ℕ, ◌<◌, ◌≤◌, length, IsTrue};
ghost use Rattle.i_shape_core.specs.Contour.{IsRemovable, IsSimple, Test, point_at};
ghost use Rattle.i_shape_core.specs.IntPoint.{IsSafeContour};
ghost use Rattle.i_shape_core.specs.Reading.{read};
ghost use Rattle.i_shape_core.specs.Point.{Point, IsBack, IsZeroTurn};

use crate::point::ContourPoint;
use crate::turn::turning::count_turning;
use crate::turn::{Turn, turn_at};

/// Which turns a cleaner removes.
pub(crate) trait TurnTest {
    /// The points that it removes, each with its neighbours.
    ghost test: { Test };

    /// Returns whether it removes the point at `place`, between these neighbours.
    fn is_at<P: ContourPoint>(points: &[P], previous: usize, place: usize, next: usize) -> bool
        requires safe { IsSafeContour P.Coordinate.width
            (read P.Coordinate.value P.points points.now) }
        requires previous_within { previous < length points.now }
        requires place_within { place < length points.now }
        requires next_within { next < length points.now }
        ensures { let c = read P.Coordinate.value P.points points.now in IsTrue result
            ↔ test (point_at c previous) (point_at c place) (point_at c next) };

    /// They are zero turns.
    ghost weaker: { (a b c : Point) → test a b c → IsZeroTurn a b c };
}

/// Zero turns.
pub(crate) struct ZeroTurn {}

impl TurnTest for ZeroTurn {
    ghost test = { IsZeroTurn };

    fn is_at<P: ContourPoint>(points: &[P], previous: usize, place: usize, next: usize) -> bool {
        turn_at(points, previous, place, next) != Turn::Turning
    }

    ghost weaker = { λ a b c zero. zero };
}

/// Back vertices: tips of spikes, and repeated points.
pub(crate) struct BackTurn {}

impl TurnTest for BackTurn {
    ghost test = { IsBack };

    fn is_at<P: ContourPoint>(points: &[P], previous: usize, place: usize, next: usize) -> bool {
        turn_at(points, previous, place, next) == Turn::Back
    }

    ghost weaker = { λ a b c back. back.0 };
}

/// Returns whether there are at least three points, and none of them is removed. Makes one pass and allocates nothing.
pub(crate) fn has_none<P: ContourPoint, T: TurnTest>(points: &[P]) -> bool
    requires { IsSafeContour P.Coordinate.width (read P.Coordinate.value P.points points.now) }
    ensures { let c = read P.Coordinate.value P.points points.now in IsTrue result
        ↔ (3 ≤ length c) × ((k : ℕ) → IsRemovable T.test c k → ⊥) }
{
    if points.len() < 3 {
        return false;
    }
    let last = points.len() - 1;
    if T::is_at(points, last, 0, 1) {
        return false;
    }
    if T::is_at(points, last - 1, last, 0) {
        return false;
    }
    for place in count_turning(points)..last - 1 {
        if T::is_at(points, place, place + 1, place + 2) {
            return false;
        }
    }
    true
}

/// Returns whether there are at least three points and no zero turn, the closing edge included. Makes one pass and
/// allocates nothing.
pub fn is_simple<P: ContourPoint>(contour: &[P]) -> bool
    requires { IsSafeContour P.Coordinate.width (read P.Coordinate.value P.points contour.now) }
    ensures { IsTrue result ↔ IsSimple (read P.Coordinate.value P.points contour.now) }
{
    has_none::<P, ZeroTurn>(contour)
}
