//! What can be wrong with a text.

ghost use Rattle.std.specs.Prelude.{◌≡◌};
ghost use Rattle.i_shape_tool.specs.declared.fault.ToolFault.TheVariants.{OutOfMemory};

use i_shape::ShapeError;
use std::alloc::{AllocError, AllocFailed};

/// Why there is no answer to a text. Lines are counted from 1.
#[derive(Clone, Copy, Debug, PartialEq, Eq)]
pub enum ToolFault {
    /// The line isn't a list of 32-bit decimals separated by single spaces, or holds an odd number of them.
    NotAContour(usize),
    /// The line's contour has a point that isn't safe, and the command requires safe points.
    OutOfRange(usize),
    /// An allocation failed.
    OutOfMemory,
}

impl From<AllocError> for ToolFault {
    ghost from_gives = { λ _ fault. fault ≡ OutOfMemory };

    fn from(_error: AllocError) -> ToolFault {
        ToolFault::OutOfMemory
    }
}

impl<T: Drop> From<AllocFailed<T>> for ToolFault {
    ghost from_gives = { λ _ fault. fault ≡ OutOfMemory };

    fn from(_error: AllocFailed<T>) -> ToolFault {
        ToolFault::OutOfMemory
    }
}

/// `TooManyPoints` can't occur here: no text has so many points.
impl From<ShapeError> for ToolFault {
    ghost from_gives = { λ _ fault. fault ≡ OutOfMemory };

    fn from(_error: ShapeError) -> ToolFault {
        ToolFault::OutOfMemory
    }
}
