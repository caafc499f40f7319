//! Removal of zero turns from shapes and shape lists: tests, and cleaned copies.

ghost use Rattle.std.specs.Prelude.{◌≡◌, ◌↔◌, List, [], Ok, None, IsTrue, IsOk};
ghost use Rattle.i_shape_core.specs.Point.{Point};
ghost use Rattle.i_shape_core.specs.Contour.{IsSimple};
ghost use Rattle.i_shape_core.specs.Cleaners.{SimpleAnswer};
ghost use Rattle.i_shape.specs.ShapeLists.{shape_of, shapes_of, IsSafeShape, IsSafeList};
ghost use Rattle.i_shape.specs.ShapeAnswers.{HasShortOuter, EachContour, EachShape, CleansShapeTo, CleansListTo};
ghost use Rattle.i_shape_core.specs.Refusals.{OkUnlessMemory};

use crate::int::cleaning::{clean_list, clean_shape, is_clean_list, is_clean_shape};
use crate::int::shape::{IntContour, IntShape, IntShapes};
use i_shape_core::error::ShapeError;
use i_shape_core::number::IntNumber;
use i_shape_core::simplifier::ContourSimplifier;
use std::alloc::Global;

/// Tests a shape of safe points for zero turns, and copies it without them.
pub trait SimpleShape<I: IntNumber> {
    /// The contours in unbounded integers.
    ghost shape: { Self → List (List Point) };

    /// Returns whether every contour is simple: it has at least three points and no zero turn. An empty shape is
    /// simple. Allocates nothing.
    fn is_simple(&self) -> bool
        requires { IsSafeShape I.width (shape self.now) }
        ensures { IsTrue result ↔ EachContour IsSimple (shape self.now) };

    /// Returns a copy without zero turns, or `None` if the first contour collapses. Later contours that collapse are
    /// left out. A simple contour is copied unchanged, and an empty shape stays empty.
    ///
    /// # Errors
    ///
    /// `OutOfMemory`, which can't occur for an empty shape, nor if the first contour has fewer than three points.
    fn simplified(&self, alloc: Global) -> Result<Option<IntShape<I>>, ShapeError>
        requires { IsSafeShape I.width (shape self.now) }
        ensures answer { OkUnlessMemory result
            (CleansShapeTo SimpleAnswer I.width I.value (shape self.now)) }
        ensures none { shape self.now ≡ [] → IsOk result }
        ensures short { HasShortOuter (shape self.now) → result ≡ Ok None };
}

/// Tests a list of shapes of safe points for zero turns, and copies it without them.
pub trait SimpleShapes<I: IntNumber> {
    /// The shapes in unbounded integers.
    ghost shapes: { Self → List (List (List Point)) };

    /// Returns whether every contour of every shape is simple. Allocates nothing.
    fn is_simple(&self) -> bool
        requires { IsSafeList I.width (shapes self.now) }
        ensures { IsTrue result ↔ EachShape IsSimple (shapes self.now) };

    /// Returns a copy of the shapes without zero turns, in order. A shape whose first contour collapses is left out; an
    /// empty shape stays.
    ///
    /// # Errors
    ///
    /// `OutOfMemory`, which can't occur for an empty list.
    fn simplified(&self, alloc: Global) -> Result<IntShapes<I>, ShapeError>
        requires { IsSafeList I.width (shapes self.now) }
        ensures answer { OkUnlessMemory result
            (CleansListTo SimpleAnswer I.width I.value (shapes self.now)) }
        ensures none { shapes self.now ≡ [] → IsOk result };
}

impl<I: IntNumber> SimpleShape<I> for &[IntContour<I>] {
    ghost shape = { λ contours. shape_of I.value contours.now };

    fn is_simple(&self) -> bool {
        is_clean_shape::<I, ContourSimplifier>(*self)
    }

    fn simplified(&self, alloc: Global) -> Result<Option<IntShape<I>>, ShapeError> {
        clean_shape(&mut ContourSimplifier::new(alloc), alloc, *self)
    }
}

impl<I: IntNumber> SimpleShapes<I> for &[IntShape<I>] {
    ghost shapes = { λ list. shapes_of I.value list.now };

    fn is_simple(&self) -> bool {
        is_clean_list::<I, ContourSimplifier>(*self)
    }

    fn simplified(&self, alloc: Global) -> Result<IntShapes<I>, ShapeError> {
        clean_list(&mut ContourSimplifier::new(alloc), alloc, *self)
    }
}
