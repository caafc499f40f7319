//! Laws on which no call rests: of the ends of a contour, winding numbers, fill rules, points on edges, contacts of
//! edges, and contours moved by an affine map. Each function takes the contours that its law names, or none if it is
//! about all lists of points, does nothing, and has only the law as its clause. The points needn't be safe. The laws
//! behind the contracts of the cleaners are functions of `i_shape_core::laws`.
#![tactic(auto)]

ghost use Rattle.std.specs.Prelude.{◌≢◌, ◌↔◌, pos, ℕ, List};
ghost use Rattle.i_shape_core.specs.IntPoint.{contour_of};
ghost use Rattle.i_shape_core.specs.Edges.{Inside};
ghost use Rattle.i_shape_core.specs.Point.{Point};
ghost use Rattle.i_shape_core.specs.Boundary.{IsOnEdge};
ghost use Rattle.i_shape_core.specs.Laws.{EveryOrder};
ghost use Rattle.i_shape_core.specs.Moves.{Move, determinant};
ghost use Rattle.i_shape_core.specs.Winding.{winding, IsOdd};
ghost use Rattle.i_shape_laws.specs.Ends.{OneCertainEnd, Shortest, UnorientedJoined};
ghost use Rattle.i_shape_laws.specs.Contacts.{SimplePolygonKept, ValidPolygonKept};
ghost use Rattle.i_shape_laws.specs.Windings.{WindingKept, WindingRotated, WindingBetween, FillingKept};
ghost use Rattle.i_shape_laws.specs.Moved.{BoundaryWithin, MovedAlike, WindingMoved};

use i_shape_core::number::IntNumber;
use i_shape_core::point::IntPoint;

/// In whatever order zero turns are removed: an end that hasn't collapsed is the end of each order, up to rotation. If
/// one order collapses, each does. Each contour has an end.
pub fn every_order<I: IntNumber>(_c: &[IntPoint<I>])
    ensures { EveryOrder (contour_of I.value _c.now) }
{}

/// If no point occurs twice and the contour doesn't collapse, every order leaves the same list.
#[tactic(auto, using(crate::proofs::DistinctPoints::one_certain_end))]
pub fn one_certain_end<I: IntNumber>(_c: &[IntPoint<I>])
    ensures { OneCertainEnd (contour_of I.value _c.now) }
{}

/// No contour joined to another has fewer points than an end of that one: cleaning leaves as few points as possible.
#[tactic(auto, using(crate::proofs::Forms::end_is_shortest))]
pub fn shortest()
    ensures { (c d : List Point) → Shortest c d }
{}

/// Two contours that don't collapse have equal unoriented forms exactly if a chain as in
/// `i_shape_core::laws::canonical_joined` joins them, or joins one to the other reversed.
pub fn unoriented_joined<I: IntNumber>(_c: &[IntPoint<I>], _d: &[IntPoint<I>])
    ensures { UnorientedJoined (contour_of I.value _c.now) (contour_of I.value _d.now) }
{}

/// Removing zero turns keeps the winding number about each point.
#[tactic(auto, using(crate::proofs::Windings::winding_laws))]
pub fn winding_kept<I: IntNumber>(_c: &[IntPoint<I>], _d: &[IntPoint<I>])
    ensures { WindingKept (contour_of I.value _c.now) (contour_of I.value _d.now) }
{}

/// A point is inside exactly if the winding number about it is odd.
#[tactic(auto, using(crate::proofs::Windings::winding_parity))]
pub fn winding_parity<I: IntNumber>(_c: &[IntPoint<I>])
    ensures { (p : Point) → Inside (contour_of I.value _c.now) p
        ↔ IsOdd (winding (contour_of I.value _c.now) p) }
{}

/// Winding numbers don't depend on the start of a contour. Reversing the contour negates them.
#[tactic(auto, using(crate::proofs::Windings::rotated_laws))]
pub fn winding_rotated<I: IntNumber>(_c: &[IntPoint<I>], _d: &[IntPoint<I>])
    ensures { WindingRotated (contour_of I.value _c.now) (contour_of I.value _d.now) }
{}

/// Removing zero turns keeps the winding number about each point with rational coordinates.
#[tactic(auto, using(i_shape_core::proofs::Sums::RationalWindings::winding_between))]
pub fn winding_between()
    ensures { (c d : List Point) → WindingBetween c d }
{}

/// If the contours of a shape keep what cleaning keeps, each fill rule fills the same points as before: even-odd,
/// non-zero, positive and negative.
#[tactic(auto, using(crate::proofs::Fillings::filling_kept))]
pub fn filling_kept()
    ensures { (contours left : List (List Point)) → FillingKept contours left }
{}

/// Removing zero turns adds no point to the edges: each point of an edge that is left lies on an edge that was there.
#[tactic(auto, using(crate::proofs::Boundaries::boundary_laws))]
pub fn boundary_within()
    ensures { (c d : List Point) → BoundaryWithin c d }
{}

/// Removing zero turns brings no two edges into contact. The boundary of a simple polygon stays one, and doesn't
/// collapse: `simplified` returns the boundary of a simple polygon, and `despiked_contour` the contour itself.
#[tactic(auto, using(crate::proofs::Polygons::kept_simple))]
pub fn simple_polygon_kept()
    ensures { (c : List Point) → SimplePolygonKept c }
{}

/// Removing zero turns of its rings leaves a valid polygon valid, and none of its rings collapses.
pub fn valid_polygon_kept()
    ensures { (offsets : List ℕ) (c : List Point) (left : List ℕ) (e : List Point)
        → ValidPolygonKept offsets c left e }
{}

/// An affine map with integer coefficients and a determinant other than zero commutes with cleaning. Translations,
/// reflections, quarter turns and scalings are such maps.
#[tactic(auto, using(crate::proofs::Moved::Laws::moved_laws))]
pub fn moved_alike()
    ensures { (m : Move) → determinant m ≢ pos 0 → (c : List Point) → MovedAlike m c }
{}

/// A moved contour has the same winding number about a moved point as before, if the point is off the edges and the
/// determinant of the map is positive, as for translations, scalings, quarter turns and shears. If the determinant is
/// negative, as for reflections, the number changes sign.
#[tactic(auto, using(crate::proofs::Moved::Windings::winding_moved))]
pub fn winding_moved()
    ensures { (m : Move) (c : List Point) (p : Point) → (IsOnEdge c p → ⊥) → WindingMoved m c p }
{}
