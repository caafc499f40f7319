//! The codes that calls return in place of a result.

ghost use Rattle.std.specs.Prelude.{◌≡◌};
ghost use Rattle.i_shape_c.specs.Codes.{code_of};

/// Why a call has no result.
#[derive(Clone, Copy)]
pub enum Refusal {
    /// A point isn't safe.
    Unsafe,
    /// The offsets don't divide the points, there is no such fill rule, or the points aren't four for each pair of
    /// edges.
    BadOffsets,
    /// An allocation failed.
    NoMemory,
    /// An array of the result is too short.
    NoRoom,
}

impl Refusal {
    /// Returns the code, below 0.
    pub fn code(self) -> i32
        ensures { result ≡ code_of self }
    {
        match self {
            Refusal::Unsafe => -1,
            Refusal::BadOffsets => -2,
            Refusal::NoMemory => -3,
            Refusal::NoRoom => -4,
        }
    }
}

/// Returned in place of a winding number if a point isn't safe.
pub const NO_WINDING: isize = isize::MIN;

/// Written in place of a polygon's index where no polygon holds a point.
pub const NO_SHAPE: usize = usize::MAX;
