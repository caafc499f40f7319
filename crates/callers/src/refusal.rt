//! Why a call has no result.

ghost use Rattle.std.specs.Prelude.{◌≡◌};
ghost use Rattle.callers.specs.declared.refusal.Refusal.TheVariants.{Call};

use i_shape::ShapeError;

/// Why a caller has no result.
#[derive(Clone, Copy, PartialEq, Eq, Debug)]
pub enum Refusal {
    /// A point isn't safe.
    OutOfRange,
    /// A range of a buffer is reversed, or reaches beyond its points.
    Unreadable,
    /// A slice is too short for the result.
    NoRoom,
    /// The call failed.
    Call(ShapeError),
}

impl From<ShapeError> for Refusal {
    ghost from_gives = { λ error refusal. refusal ≡ Call error };

    fn from(error: ShapeError) -> Refusal {
        Refusal::Call(error)
    }
}
