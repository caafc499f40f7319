//! Twice the area of a contour, at any width.

ghost use Rattle.std.specs.Prelude.{◌≡◌, ◌↔◌, ◌<◌, length, map, IfSome, IsSome};
ghost use Rattle.std.specs.Int.{int_wrap};
ghost use Rattle.i_shape.specs.Edges.{shoelace};
ghost use Rattle.i_shape_c.specs.Areas.{AreHalves};
ghost use Rattle.i_shape_c.specs.Points.{point_by};

use crate::point::CPoint;
use i_shape::IntNumber;
use i_shape_core::area::area_of;

/// Returns twice the signed area, positive if the contour runs counterclockwise, or `None` if there is no point. The
/// points needn't be safe; a sum that doesn't fit wraps. Allocates nothing.
pub fn area_two<P: CPoint>(points: &[P]) -> Option<<P::Coordinate as IntNumber>::Wide>
    ensures some { IsSome result ↔ (0 < length points.now) }
    ensures area { IfSome result (λ area. P.Coordinate.Wide.value area
        ≡ int_wrap P.Coordinate.Wide.width
        (shoelace (map (point_by P.Coordinate.value P.point) points.now))) }
{
    if points.is_empty() {
        return None;
    }
    Some(area_of(points))
}

/// A 128-bit integer, as the two halves of its bits.
#[repr(C)]
#[derive(Copy, Clone)]
pub struct Halves {
    pub low: u64,
    pub high: u64,
}

impl Halves {
    pub fn of(number: i128) -> Halves
        ensures { AreHalves number result }
    {
        let bits = number.cast_unsigned();
        Halves {
            low: (bits % (1 << 64)) as u64,
            high: (bits / (1 << 64)) as u64,
        }
    }
}
