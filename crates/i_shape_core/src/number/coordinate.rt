//! The coordinate types of the language.

ghost use Rattle.std.specs.Prelude.{◌-◌, ◌^◌, pos, negsuc, refl};
ghost use Rattle.std.specs.Int.{w16, w32, w64};
ghost use Rattle.std.proofs.Common.{lit≤};
ghost use Rattle.std.proofs.lemmas.Bool.Decides.{Decides-int_eq};

use crate::number::IntNumber;

impl IntNumber for i16 {
    type Wide = i32;

    ghost width = { w16 };

    ghost value = { λ x. x };

    ghost ZERO = { pos 0 };

    ghost ONE = { pos 1 };

    ghost MIN = { negsuc (2 ^ 15 - 1) };

    ghost MAX = { pos (2 ^ 15 - 1) };

    ghost BITS = { 16 };

    const ZERO: i16 = 0;

    const ONE: i16 = 1;

    const MIN: i16 = i16::MIN;

    const MAX: i16 = i16::MAX;

    const BITS: u32 = i16::BITS;

    fn to_wide(self) -> i32 {
        self as i32
    }

    fn minus(self, other: i16) -> i16 {
        self - other
    }

    ghost same_width = { refl };

    ghost same_number = { refl };

    ghost bits_are = { refl };

    ghost some_bits = { lit≤ tt };

    ghost bits_split = { refl };

    ghost wide_bits = { refl };

    ghost zero_value = { refl };

    ghost one_value = { refl };

    ghost min_value = { refl };

    ghost max_value = { refl };

    ghost order = { λ a b. refl };

    ghost partial_order = { λ a b. refl };

    ghost equality = { λ a b. Decides-int_eq a b };

    ghost injective = { λ a b e. e };
}

impl IntNumber for i32 {
    type Wide = i64;

    ghost width = { w32 };

    ghost value = { λ x. x };

    ghost ZERO = { pos 0 };

    ghost ONE = { pos 1 };

    ghost MIN = { negsuc (2 ^ 31 - 1) };

    ghost MAX = { pos (2 ^ 31 - 1) };

    ghost BITS = { 32 };

    const ZERO: i32 = 0;

    const ONE: i32 = 1;

    const MIN: i32 = i32::MIN;

    const MAX: i32 = i32::MAX;

    const BITS: u32 = i32::BITS;

    fn to_wide(self) -> i64 {
        self as i64
    }

    fn minus(self, other: i32) -> i32 {
        self - other
    }

    ghost same_width = { refl };

    ghost same_number = { refl };

    ghost bits_are = { refl };

    ghost some_bits = { lit≤ tt };

    ghost bits_split = { refl };

    ghost wide_bits = { refl };

    ghost zero_value = { refl };

    ghost one_value = { refl };

    ghost min_value = { refl };

    ghost max_value = { refl };

    ghost order = { λ a b. refl };

    ghost partial_order = { λ a b. refl };

    ghost equality = { λ a b. Decides-int_eq a b };

    ghost injective = { λ a b e. e };
}

impl IntNumber for i64 {
    type Wide = i128;

    ghost width = { w64 };

    ghost value = { λ x. x };

    ghost ZERO = { pos 0 };

    ghost ONE = { pos 1 };

    ghost MIN = { negsuc (2 ^ 63 - 1) };

    ghost MAX = { pos (2 ^ 63 - 1) };

    ghost BITS = { 64 };

    const ZERO: i64 = 0;

    const ONE: i64 = 1;

    const MIN: i64 = i64::MIN;

    const MAX: i64 = i64::MAX;

    const BITS: u32 = i64::BITS;

    fn to_wide(self) -> i128 {
        self as i128
    }

    fn minus(self, other: i64) -> i64 {
        self - other
    }

    ghost same_width = { refl };

    ghost same_number = { refl };

    ghost bits_are = { refl };

    ghost some_bits = { lit≤ tt };

    ghost bits_split = { refl };

    ghost wide_bits = { refl };

    ghost zero_value = { refl };

    ghost one_value = { refl };

    ghost min_value = { refl };

    ghost max_value = { refl };

    ghost order = { λ a b. refl };

    ghost partial_order = { λ a b. refl };

    ghost equality = { λ a b. Decides-int_eq a b };

    ghost injective = { λ a b e. e };
}
