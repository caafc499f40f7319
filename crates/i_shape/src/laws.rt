//! The laws of comparing flat buffers: `==` compares every list of the buffers, and nothing else. Each function takes
//! two buffers and does nothing. Its clause states the law.

ghost use Rattle.std.specs.List.{AllZip};
ghost use Rattle.std.specs.Prelude.{◌≡◌, ◌↔◌, IsTrue};
ghost use Rattle.i_shape.specs.Buffers.{SameLists, SameShapeLists};

use crate::flat::buffer::{FlatContoursBuffer, FlatShapesBuffer};
use crate::flat::float::{FloatFlatContoursBuffer, FloatFlatShapesBuffer};
use i_shape_core::number::IntNumber;

/// Two buffers of contours are equal exactly if they have the same points and the same ranges.
pub fn contours_buffers_equal<T: IntNumber>(_a: &FlatContoursBuffer<T>, _b: &FlatContoursBuffer<T>)
    ensures { IsTrue (⟦<FlatContoursBuffer<T> as PartialEq>⟧.eq _a.now _b.now)
        ↔ SameLists _a.now _b.now }
{}

/// Two buffers of shapes are equal exactly if they have the same points, contour ranges and shape ranges.
pub fn shapes_buffers_equal<T: IntNumber>(_a: &FlatShapesBuffer<T>, _b: &FlatShapesBuffer<T>)
    ensures { IsTrue (⟦<FlatShapesBuffer<T> as PartialEq>⟧.eq _a.now _b.now)
        ↔ SameShapeLists _a.now _b.now }
{}

/// Two buffers of contours over points of any type are equal exactly if their points are equal pair by pair, and their
/// ranges are the same.
pub fn float_contours_buffers_equal<P: Copy + PartialEq>(
    _a: &FloatFlatContoursBuffer<P>,
    _b: &FloatFlatContoursBuffer<P>,
)
    ensures { IsTrue (⟦<FloatFlatContoursBuffer<P> as PartialEq>⟧.eq _a.now _b.now)
        ↔ (AllZip (λ p q. IsTrue (P.eq p q)) _a.now.points.items _b.now.points.items
        × (_a.now.ranges.items ≡ _b.now.ranges.items)) }
{}

/// Two buffers of shapes over points of any type are equal exactly if their points are equal pair by pair, and their
/// contour ranges and shape ranges are the same.
pub fn float_shapes_buffers_equal<P: Copy + PartialEq>(
    _a: &FloatFlatShapesBuffer<P>,
    _b: &FloatFlatShapesBuffer<P>,
)
    ensures { IsTrue (⟦<FloatFlatShapesBuffer<P> as PartialEq>⟧.eq _a.now _b.now)
        ↔ (AllZip (λ p q. IsTrue (P.eq p q)) _a.now.points.items _b.now.points.items
        × (_a.now.contour_ranges.items ≡ _b.now.contour_ranges.items)
        × (_a.now.shape_ranges.items ≡ _b.now.shape_ranges.items)) }
{}
