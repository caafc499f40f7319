//! The wide integer types of the language: each call is the type's own.
#![tactic(auto, using(std::proofs::lemmas::Int::wrapping_add_is, std::proofs::lemmas::Int::wrapping_sub_is))]

ghost use Rattle.std.specs.Prelude.{pos, refl};
ghost use Rattle.std.specs.Int.{w32, w64, w128};
ghost use Rattle.std.proofs.lemmas.Bool.Decides.{Decides-int_eq};

use crate::number::WideIntNumber;

impl WideIntNumber for i32 {
    ghost width = { w32 };

    ghost value = { λ x. x };

    ghost ZERO = { pos 0 };

    ghost TWO = { pos 2 };

    const ZERO: i32 = 0;

    const TWO: i32 = 2;

    fn wrapping_add(self, other: i32) -> i32 {
        i32::wrapping_add(self, other)
    }

    fn wrapping_sub(self, other: i32) -> i32 {
        i32::wrapping_sub(self, other)
    }

    fn wrapping_mul(self, other: i32) -> i32 {
        i32::wrapping_mul(self, other)
    }

    fn signum(self) -> i32 {
        i32::signum(self)
    }

    fn divide(self, divisor: i32) -> i32 {
        self / divisor
    }

    ghost zero_value = { refl };

    ghost two_value = { refl };

    ghost order = { λ a b. refl };

    ghost partial_order = { λ a b. refl };

    ghost equality = { λ a b. Decides-int_eq a b };

    ghost injective = { λ a b e. e };
}

impl WideIntNumber for i64 {
    ghost width = { w64 };

    ghost value = { λ x. x };

    ghost ZERO = { pos 0 };

    ghost TWO = { pos 2 };

    const ZERO: i64 = 0;

    const TWO: i64 = 2;

    fn wrapping_add(self, other: i64) -> i64 {
        i64::wrapping_add(self, other)
    }

    fn wrapping_sub(self, other: i64) -> i64 {
        i64::wrapping_sub(self, other)
    }

    fn wrapping_mul(self, other: i64) -> i64 {
        i64::wrapping_mul(self, other)
    }

    fn signum(self) -> i64 {
        i64::signum(self)
    }

    fn divide(self, divisor: i64) -> i64 {
        self / divisor
    }

    ghost zero_value = { refl };

    ghost two_value = { refl };

    ghost order = { λ a b. refl };

    ghost partial_order = { λ a b. refl };

    ghost equality = { λ a b. Decides-int_eq a b };

    ghost injective = { λ a b e. e };
}

impl WideIntNumber for i128 {
    ghost width = { w128 };

    ghost value = { λ x. x };

    ghost ZERO = { pos 0 };

    ghost TWO = { pos 2 };

    const ZERO: i128 = 0;

    const TWO: i128 = 2;

    fn wrapping_add(self, other: i128) -> i128 {
        i128::wrapping_add(self, other)
    }

    fn wrapping_sub(self, other: i128) -> i128 {
        i128::wrapping_sub(self, other)
    }

    fn wrapping_mul(self, other: i128) -> i128 {
        i128::wrapping_mul(self, other)
    }

    fn signum(self) -> i128 {
        i128::signum(self)
    }

    fn divide(self, divisor: i128) -> i128 {
        self / divisor
    }

    ghost zero_value = { refl };

    ghost two_value = { refl };

    ghost order = { λ a b. refl };

    ghost partial_order = { λ a b. refl };

    ghost equality = { λ a b. Decides-int_eq a b };

    ghost injective = { λ a b e. e };
}
