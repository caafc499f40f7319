//! How a path bends at a point, for the test of convexity.

ghost use Rattle.std.specs.Prelude.{◌≡◌};
ghost use Rattle.i_shape_core.specs.IntPoint.{point_of};
ghost use Rattle.i_shape_core.specs.Point.{Point, vector};
ghost use Rattle.i_shape_core.specs.Steps.Walks.{IsBend, bend_of_both};

use crate::number::{IntNumber, WideIntNumber};
use crate::point::IntPoint;

/// How a path bends at a point, or at all points it has passed.
#[derive(Clone, Copy, PartialEq, Eq, Debug)]
pub enum Bend {
    /// It goes straight on.
    Straight,
    /// It bends left.
    Left,
    /// It bends right.
    Right,
    /// It turns back on itself.
    Reversal,
}

impl Bend {
    /// Returns the bend of a path with this bend and then the next, or `None` if the two differ and neither is
    /// straight.
    pub fn followed_by(self, next: Bend) -> Option<Bend>
        ensures { result ≡ bend_of_both self next }
    {
        if self == next {
            return Some(self);
        }
        match (self, next) {
            (Bend::Straight, _) => Some(next),
            (_, Bend::Straight) => Some(self),
            _ => None,
        }
    }
}

/// Returns how a path bends from the edge `edge` to the edge `next`. Requires that the `x` of `next` isn't `I::MIN`.
pub fn bend_of<I: IntNumber>(edge: IntPoint<I>, next: IntPoint<I>) -> Bend
    requires { ¬ (next.x ≡ I.MIN) }
    ensures { (a b c : Point) → point_of I.value edge ≡ vector a b
        → point_of I.value next ≡ vector b c → IsBend a b c result }
{
    let cross = edge.cross_product(next);
    if cross > I::Wide::ZERO {
        Bend::Left
    } else if cross < I::Wide::ZERO {
        Bend::Right
    } else if edge.dot_product(next) < I::Wide::ZERO {
        Bend::Reversal
    } else {
        Bend::Straight
    }
}
