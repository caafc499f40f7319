//! The coordinate types, and the wider types in which their products fit.

ghost use Rattle.std.specs.Prelude.{◌≡◌, ◌≢◌, ◌+◌, ◌-◌, ◌*◌, ◌^◌, ◌≤◌, ◌↔◌, ◌+ℤ◌, ◌-ℤ◌, ◌*ℤ◌, ℕ, ℤ, pos, negsuc, Some, IsTrue, FitsSigned, int_div};
ghost use Rattle.std.specs.Int.{Width, int_wrap, int_signum};
ghost use Rattle.std.specs.Ordering.{int_cmp};
ghost use Rattle.i_shape_core.specs.Widths.{bits, hbits};

use crate::number::zero_turns::ZeroTurns;

mod coordinate;
mod wide;
mod zero_turns;

/// A signed integer type that holds the products of coordinates.
pub trait WideIntNumber: Copy + Ord {
    /// The width of the type.
    ghost width: { Width };

    /// The integer that a value represents.
    ghost value: { Self → ℤ };

    ghost ZERO: { Self };

    ghost TWO: { Self };

    const ZERO: Self;

    const TWO: Self;

    fn wrapping_add(self, other: Self) -> Self
        ensures { value result ≡ int_wrap width (value self +ℤ value other) };

    fn wrapping_sub(self, other: Self) -> Self
        ensures { value result ≡ int_wrap width (value self -ℤ value other) };

    fn wrapping_mul(self, other: Self) -> Self
        ensures { value result ≡ int_wrap width (value self *ℤ value other) };

    /// Returns -1, 0 or 1 for a value below, equal to or above zero.
    fn signum(self) -> Self
        ensures { value result ≡ int_signum (value self) };

    /// Returns the quotient, rounded toward zero.
    fn divide(self, divisor: Self) -> Self
        requires nonzero { value divisor ≢ pos 0 }
        requires fits { FitsSigned width (int_div (value self) (value divisor)) }
        ensures { value result ≡ int_div (value self) (value divisor) };

    ghost zero_value: { value ZERO ≡ pos 0 };

    ghost two_value: { value TWO ≡ pos 2 };

    /// Values are ordered and compared as their integers are.
    ghost order: { (a b : Self) → Self.cmp a b ≡ int_cmp (value a) (value b) };

    ghost partial_order: { (a b : Self) → Self.partial_cmp a b ≡ Some (int_cmp (value a) (value b)) };

    ghost equality: { (a b : Self) → IsTrue (Self.eq a b) ↔ (value a ≡ value b) };

    /// Different values represent different integers.
    ghost injective: { (a b : Self) → value a ≡ value b → a ≡ b };
}

/// A signed integer type of coordinates. No other crate can implement it.
pub trait IntNumber: ZeroTurns + Copy + Ord {
    /// The type in which products of coordinates fit.
    type Wide: WideIntNumber;

    /// The width of the type.
    ghost width: { Width };

    /// The integer that a value represents.
    ghost value: { Self → ℤ };

    ghost ZERO: { Self };

    ghost ONE: { Self };

    ghost MIN: { Self };

    ghost MAX: { Self };

    ghost BITS: { ℕ };

    const ZERO: Self;

    const ONE: Self;

    const MIN: Self;

    const MAX: Self;

    const BITS: u32;

    /// Returns the same value in the wider type.
    fn to_wide(self) -> Self::Wide
        ensures same { Self.Wide.value result ≡ value self }
        ensures range { FitsSigned width (value self) };

    /// Returns the difference, which fits the type.
    fn minus(self, other: Self) -> Self
        requires { FitsSigned width (value self -ℤ value other) }
        ensures { value result ≡ value self -ℤ value other };

    /// The supertrait's width is that of the type, and its numbers are the integers that the values represent.
    ghost same_width: { Self.number_width ≡ width };

    ghost same_number: { Self.number ≡ value };

    ghost bits_are: { BITS ≡ bits width };

    ghost some_bits: { 2 ≤ hbits width };

    ghost bits_split: { bits width ≡ hbits width + 1 };

    ghost wide_bits: { hbits Self.Wide.width ≡ 2 * hbits width + 1 };

    ghost zero_value: { value ZERO ≡ pos 0 };

    ghost one_value: { value ONE ≡ pos 1 };

    ghost min_value: { value MIN ≡ negsuc (2 ^ hbits width - 1) };

    ghost max_value: { value MAX ≡ pos (2 ^ hbits width - 1) };

    /// Values are ordered and compared as their integers are.
    ghost order: { (a b : Self) → Self.cmp a b ≡ int_cmp (value a) (value b) };

    ghost partial_order: { (a b : Self) → Self.partial_cmp a b ≡ Some (int_cmp (value a) (value b)) };

    ghost equality: { (a b : Self) → IsTrue (Self.eq a b) ↔ (value a ≡ value b) };

    /// Different values represent different integers.
    ghost injective: { (a b : Self) → value a ≡ value b → a ≡ b };
}
