//! Points of the tests' own, for the generic buffers.

ghost use Rattle.std.specs.Iterator.{at_most};

use i_shape::source::float::resource::ShapePoint;

#[derive(Clone, Copy, PartialEq, Eq, Debug)]
pub struct Spot {
    pub x: i32,
    pub y: i32,
}

impl ShapePoint for Spot {}

macro_rules! spots {
    ($([$x:expr, $y:expr]),*) => {
        [$(Spot { x: $x, y: $y }),*]
    };
}

/// What a buffer holds before a call.
pub const MARK: [Spot; 1] = spots![[9, 9]];

pub const PAIR: [Spot; 2] = spots![[0, 0], [1, 0]];

pub const TRIPLE: [Spot; 3] = spots![[2, 2], [3, 2], [3, 3]];

/// The pair and the triple, end to end.
pub const BOTH: [Spot; 5] = spots![[0, 0], [1, 0], [2, 2], [3, 2], [3, 3]];

/// The same point, as often as is left. It gives no hint of how often that is.
#[derive(Drop)]
pub struct Repeated {
    pub left: usize,
}

impl Iterator for Repeated {
    type Item = Spot;

    ghost remaining = { λ s. at_most s.left };

    fn next(&mut self) -> Option<Spot> {
        self.left = self.left.checked_sub(1)?;
        Some(Spot { x: 7, y: 7 })
    }
}
