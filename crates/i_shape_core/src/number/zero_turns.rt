//! Comparisons of products, each in the way that is fastest for a width.

ghost use Rattle.std.specs.Prelude.{◌≡◌, ◌↔◌, ◌*ℤ◌, ℤ, IsTrue};
ghost use Rattle.std.specs.Int.{Width};

mod low_halves;
mod wider;

/// A type whose products can be compared. No other crate can name it, so the coordinate types are those of the
/// language.
pub trait ZeroTurns: Copy {
    /// The width of the type.
    ghost number_width: { Width };

    /// The integer that a value represents.
    ghost number: { Self → ℤ };

    /// Returns whether `a` times `b` equals `c` times `d`, as integers.
    fn are_products_equal(a: Self, b: Self, c: Self, d: Self) -> bool
        ensures { IsTrue result ↔ (number a *ℤ number b ≡ number c *ℤ number d) };

    /// Returns true if `a` times `b` equals `c` times `d`, and mostly false otherwise. It has no branch.
    fn may_products_be_equal(a: Self, b: Self, c: Self, d: Self) -> bool
        ensures { number a *ℤ number b ≡ number c *ℤ number d → IsTrue result };
}
