//! The fill rules of overlays.

ghost use Rattle.std.specs.Prelude.{◌↔◌, IsTrue};

/// Which points a shape fills, by the sum of its contours' winding numbers about them, counterclockwise positive.
#[derive(Clone, Copy, Debug, PartialEq, Eq)]
pub enum FillRule {
    /// Those with an odd winding number.
    EvenOdd,
    /// Those with a winding number other than zero.
    NonZero,
    /// Those with a positive winding number.
    Positive,
    /// Those with a negative winding number.
    Negative,
}

impl FillRule {
    ghost use Rattle.i_shape_core.specs.Filling.{IsFilled};

    /// Returns whether the rule fills a point with this winding number.
    pub fn fills(self, winding: i128) -> bool
        ensures { IsTrue result ↔ IsFilled self winding }
    {
        match self {
            FillRule::EvenOdd => winding.unsigned_abs() % 2 == 1,
            FillRule::NonZero => winding != 0,
            FillRule::Positive => winding > 0,
            FillRule::Negative => winding < 0,
        }
    }
}
