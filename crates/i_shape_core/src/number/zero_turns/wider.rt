//! Coordinates of 16 and of 32 bits: products in the wider type.

ghost use Rattle.std.specs.Int.{w16, w32};

use crate::number::zero_turns::ZeroTurns;

impl ZeroTurns for i16 {
    ghost number_width = { w16 };

    ghost number = { λ x. x };

    #[inline(always)]
    fn are_products_equal(a: i16, b: i16, c: i16, d: i16) -> bool {
        a as i32 * b as i32 == c as i32 * d as i32
    }

    #[inline(always)]
    fn may_products_be_equal(a: i16, b: i16, c: i16, d: i16) -> bool {
        i16::are_products_equal(a, b, c, d)
    }
}

impl ZeroTurns for i32 {
    ghost number_width = { w32 };

    ghost number = { λ x. x };

    #[inline(always)]
    fn are_products_equal(a: i32, b: i32, c: i32, d: i32) -> bool {
        a as i64 * b as i64 == c as i64 * d as i64
    }

    #[inline(always)]
    fn may_products_be_equal(a: i32, b: i32, c: i32, d: i32) -> bool {
        i32::are_products_equal(a, b, c, d)
    }
}
