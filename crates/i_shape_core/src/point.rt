//! Points and vectors with integer coordinates.

ghost use Rattle.std.specs.Prelude.{◌≡◌, ◌-ℤ◌, ◌↔◌, List, map, pos, IsTrue, FitsSigned};
ghost use Rattle.std.proofs.Common.{sym};
ghost use Rattle.std.proofs.lemmas.List.{map-id};
ghost use Rattle.i_shape_core.specs.IntPoint.{point_of, IsSafe, IsSafeCoordinate};
ghost use Rattle.i_shape_core.specs.Point.{cross_of, dot_of, vector};

use crate::number::{IntNumber, WideIntNumber};
use std::ops::Sub;

/// A point, or the vector between two points. Points are ordered by x, then by y.
#[derive(Clone, Copy, PartialEq, Eq, PartialOrd, Ord, Debug)]
pub struct IntPoint<I> {
    pub x: I,
    pub y: I,
}

/// A contour: its points in order, read as a cycle.
pub type IntContour<I> = Vec<IntPoint<I>>;

impl<I: IntNumber> IntPoint<I> {
    /// Returns the point with these coordinates.
    pub fn new(x: I, y: I) -> IntPoint<I>
        ensures { result ≡ record { x = x; y = y } }
    {
        IntPoint { x, y }
    }

    /// Returns the cross product of two vectors. It always fits.
    pub fn cross_product(self, other: IntPoint<I>) -> I::Wide
        ensures { I.Wide.value result ≡ cross_of (point_of I.value self) (point_of I.value other) }
    {
        let left = self.x.to_wide().wrapping_mul(other.y.to_wide());
        let right = self.y.to_wide().wrapping_mul(other.x.to_wide());
        left.wrapping_sub(right)
    }

    /// Returns whether the cross product of two vectors is zero: they have the same direction or opposite ones, or one
    /// of them is zero.
    pub fn is_parallel_to(self, other: IntPoint<I>) -> bool
        ensures { IsTrue result
            ↔ (cross_of (point_of I.value self) (point_of I.value other) ≡ pos 0) }
    {
        I::are_products_equal(self.x, other.y, self.y, other.x)
    }

    /// Returns the dot product of two vectors. It fits unless all four coordinates are `I::MIN`.
    pub fn dot_product(self, other: IntPoint<I>) -> I::Wide
        requires { ¬ ((self.x ≡ I.MIN) × (self.y ≡ I.MIN) × (other.x ≡ I.MIN) × (other.y ≡ I.MIN)) }
        ensures { I.Wide.value result ≡ dot_of (point_of I.value self) (point_of I.value other) }
    {
        let left = self.x.to_wide().wrapping_mul(other.x.to_wide());
        let right = self.y.to_wide().wrapping_mul(other.y.to_wide());
        left.wrapping_add(right)
    }

    /// Returns whether both coordinates lie strictly between -2^(BITS-2) and 2^(BITS-2).
    pub fn is_in_safe_range(&self) -> bool
        ensures { IsTrue result ↔ IsSafe I.width (point_of I.value self.now) }
    {
        is_safe_coordinate(self.x) & is_safe_coordinate(self.y)
    }
}

/// A type with an origin, as `IntPoint` has one: the point with both coordinates zero.
pub trait Origin {
    ghost ZERO: { Self };

    /// The origin.
    const ZERO: Self;
}

impl<I: IntNumber> Origin for IntPoint<I> {
    ghost ZERO = { record { x = I.ZERO; y = I.ZERO } };

    const ZERO: IntPoint<I> = IntPoint {
        x: I::ZERO,
        y: I::ZERO,
    };
}

/// A point that contours can be made of: the library's own, or a caller's struct with two coordinates.
pub trait ContourPoint: Copy {
    ghost use Rattle.i_shape_core.specs.declared.point.IntPoint.{IntPoint};

    /// The type of the coordinates.
    type Coordinate: IntNumber;

    /// The library's point with the same coordinates.
    ghost point: { Self → IntPoint Self.Coordinate };

    /// The same for each point of a list.
    ghost points: { List Self → List (IntPoint Self.Coordinate) };

    ghost each: { (list : List Self) → points list ≡ map point list };

    /// Returns the library's point with the same coordinates.
    fn to_point(self) -> IntPoint<Self::Coordinate>
        ensures { result ≡ point self };
}

impl<I: IntNumber> ContourPoint for IntPoint<I> {
    type Coordinate = I;

    ghost point = { λ p. p };

    ghost points = { λ list. list };

    ghost each = { λ list. sym (map-id list) };

    fn to_point(self) -> IntPoint<I> {
        self
    }
}

fn is_safe_coordinate<I: IntNumber>(coordinate: I) -> bool
    ensures { IsTrue result ↔ IsSafeCoordinate I.width (I.value coordinate) }
{
    let low = I::MIN.to_wide().divide(I::Wide::TWO);
    let high = I::Wide::ZERO.wrapping_sub(low);
    let wide = coordinate.to_wide();
    (low < wide) & (wide < high)
}

impl<I: IntNumber> Sub<IntPoint<I>> for IntPoint<I> {
    type Output = IntPoint<I>;

    ghost can_sub = { λ a b. FitsSigned I.width (I.value a.x -ℤ I.value b.x) × FitsSigned I.width (I.value a.y -ℤ I.value b.y) };

    ghost sub_gives = { λ a b r. point_of I.value r ≡ vector (point_of I.value b) (point_of I.value a) };

    fn sub(self, rhs: IntPoint<I>) -> IntPoint<I> {
        IntPoint {
            x: self.x.minus(rhs.x),
            y: self.y.minus(rhs.y),
        }
    }
}
