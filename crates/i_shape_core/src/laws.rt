//! Laws of cleaning, of the comparison of points, and of safe coordinates. Each function takes the contours or points
//! that its law names, or none if it is about all numbers, does nothing, and has only the law as its clauses. These are
//! about definitions, and about every other list and point that they mention. The points needn't be safe. The crate
//! `i_shape_laws` has further laws of orders, winding numbers, fill rules, edges and moves.

ghost use Rattle.std.specs.Prelude.{◌≡◌, ◌↔◌, ◌-ℤ◌, ◌*ℤ◌, ℤ, IsTrue, Some, FitsSigned};
ghost use Rattle.std.specs.Ordering.{MatchOrdering, partial_lt};
ghost use Rattle.i_shape_core.specs.Canonical.{CanonicalJoined, IsBefore};
ghost use Rattle.i_shape_core.specs.IntPoint.{contour_of, point_of};
ghost use Rattle.i_shape_core.specs.SafeCoordinates.{IsSafeCoordinate};
ghost use Rattle.i_shape_core.specs.Laws.{
  Agreed,
  AreaKept,
  ConvexKept,
  InsideKept,
  OneEnd,
  ReversedEnds,
  RotatedEnds,
  Twice,
};

use crate::number::IntNumber;
use crate::point::IntPoint;

/// Two ends of a contour have both collapsed, or neither has and they are rotations of each other.
#[tactic(auto, using(crate::proofs::Removal::ZeroTurns::one_end))]
pub fn one_end<I: IntNumber>(_c: &[IntPoint<I>])
    ensures { OneEnd (contour_of I.value _c.now) }
{}

/// The ends of a rotation of a contour are those of the contour, up to rotation.
pub fn rotated<I: IntNumber>(_c: &[IntPoint<I>], _d: &[IntPoint<I>])
    ensures { RotatedEnds (contour_of I.value _c.now) (contour_of I.value _d.now) }
{}

/// The ends of a contour reversed are its ends reversed, up to rotation.
#[tactic(auto, using(crate::proofs::Removal::ZeroTurns::reversed_ends))]
pub fn reversed<I: IntNumber>(_c: &[IntPoint<I>])
    ensures { ReversedEnds (contour_of I.value _c.now) }
{}

/// An end is its own only end, and a simple contour reaches only itself.
#[tactic(auto, using(crate::proofs::Removal::ZeroTurns::end_of_end))]
pub fn twice<I: IntNumber>(_c: &[IntPoint<I>])
    ensures { Twice (contour_of I.value _c.now) }
{}

/// What is left if only back vertices (spikes and repeated points) are removed has collapsed exactly if the ends of the
/// contour have. Otherwise it has their ends, up to rotation.
#[tactic(auto, using(crate::proofs::Removal::ZeroTurns::ends_agree))]
pub fn agreed<I: IntNumber>(_c: &[IntPoint<I>])
    ensures { Agreed (contour_of I.value _c.now) }
{}

/// Removing zero turns keeps the double area.
#[tactic(auto, using(crate::proofs::Sums::Edges::area_kept))]
pub fn area_kept<I: IntNumber>(_c: &[IntPoint<I>], _d: &[IntPoint<I>])
    ensures { AreaKept (contour_of I.value _c.now) (contour_of I.value _d.now) }
{}

/// Removing zero turns keeps which points are inside.
#[tactic(auto, using(crate::proofs::Sums::Inside::inside_laws))]
pub fn inside_kept<I: IntNumber>(_c: &[IntPoint<I>], _d: &[IntPoint<I>])
    ensures { InsideKept (contour_of I.value _c.now) (contour_of I.value _d.now) }
{}

/// A contour without spikes doesn't collapse, and is convex exactly if its ends are. Rotation, reversal and repeating a
/// point right after itself keep convexity.
pub fn convex_kept<I: IntNumber>(_c: &[IntPoint<I>])
    ensures { ConvexKept (contour_of I.value _c.now) }
{}

/// The ends of two contours that don't collapse have equal least rotations exactly if a chain joins the contours: of
/// rotations, and of removals and insertions of zero turns, with at least three points in each contour.
pub fn canonical_joined<I: IntNumber>(_c: &[IntPoint<I>], _d: &[IntPoint<I>])
    ensures { CanonicalJoined (contour_of I.value _c.now) (contour_of I.value _d.now) }
{}

/// `==` of two points is true exactly if they are the same point.
pub fn points_equal<I: IntNumber>(_a: &IntPoint<I>, _b: &IntPoint<I>)
    ensures same_value { IsTrue (⟦<IntPoint<I> as PartialEq>⟧.eq _a.now _b.now)
        ↔ (_a.now ≡ _b.now) }
    ensures same_point { IsTrue (⟦<IntPoint<I> as PartialEq>⟧.eq _a.now _b.now)
        ↔ (point_of I.value _a.now ≡ point_of I.value _b.now) }
{}

/// `cmp` orders points by x, then by y, as integers.
pub fn points_ordered<I: IntNumber>(_a: &IntPoint<I>, _b: &IntPoint<I>)
    ensures { let a = point_of I.value _a.now in let b = point_of
        I.value _b.now in MatchOrdering (⟦<IntPoint<I> as Ord>⟧.cmp _a.now _b.now)
        (IsBefore a b) (a ≡ b) (IsBefore b a) }
{}

/// `partial_cmp` of two points agrees with `cmp`, and `<` is true exactly if the first comes before the second.
pub fn points_compared<I: IntNumber>(_a: &IntPoint<I>, _b: &IntPoint<I>)
    ensures partial { ⟦<IntPoint<I> as PartialOrd>⟧.partial_cmp _a.now _b.now
        ≡ Some (⟦<IntPoint<I> as Ord>⟧.cmp _a.now _b.now) }
    ensures less { IsTrue (partial_lt ⟦<IntPoint<I> as PartialOrd>⟧.partial_cmp _a.now _b.now)
        ↔ IsBefore (point_of I.value _a.now) (point_of I.value _b.now) }
{}

/// Why coordinates are called safe: the difference of two of them fits the type, and the product of two such
/// differences fits the wider type.
pub fn safe_differences_fit<I: IntNumber>()
    ensures differences { (a b : ℤ) → IsSafeCoordinate I.width a
        → IsSafeCoordinate I.width b → FitsSigned I.width (a -ℤ b) }
    ensures products { (a b c d : ℤ) → IsSafeCoordinate I.width a → IsSafeCoordinate I.width b
        → IsSafeCoordinate I.width c → IsSafeCoordinate I.width d
        → FitsSigned I.Wide.width ((a -ℤ b) *ℤ (c -ℤ d)) }
{}
