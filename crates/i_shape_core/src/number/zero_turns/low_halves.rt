//! Coordinates of 64 bits: the low halves of the products first, which cost half as much and are equal if the products
//! are.

ghost use Rattle.std.specs.Prelude.{◌≡◌, ◌↔◌, ◌*ℤ◌, IsTrue};
ghost use Rattle.std.specs.Int.{int_wrap, w64};

use crate::number::zero_turns::ZeroTurns;

impl ZeroTurns for i64 {
    ghost number_width = { w64 };

    ghost number = { λ x. x };

    #[inline(always)]
    fn are_products_equal(a: i64, b: i64, c: i64, d: i64) -> bool {
        are_low_halves_equal(a, b, c, d) && a as i128 * b as i128 == c as i128 * d as i128
    }

    #[inline(always)]
    fn may_products_be_equal(a: i64, b: i64, c: i64, d: i64) -> bool {
        are_low_halves_equal(a, b, c, d)
    }
}

/// Returns whether the low halves of `a` times `b` and of `c` times `d` are equal, as those of equal products are.
#[inline(always)]
fn are_low_halves_equal(a: i64, b: i64, c: i64, d: i64) -> bool
    ensures { IsTrue result ↔ (int_wrap w64 (a *ℤ b) ≡ int_wrap w64 (c *ℤ d)) }
{
    a.wrapping_mul(b) == c.wrapping_mul(d)
}
