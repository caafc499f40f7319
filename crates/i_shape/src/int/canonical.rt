//! Canonical forms of shapes and shape lists, with or without regard to the direction of each contour.

ghost use Rattle.std.specs.Prelude.{◌≡◌, List, [], Ok, None, IsOk};
ghost use Rattle.i_shape_core.specs.Point.{Point};
ghost use Rattle.i_shape_core.specs.Canonical.{CanonicalAnswer, UnorientedAnswer};
ghost use Rattle.i_shape.specs.ShapeLists.{shape_of, shapes_of, IsSafeShape, IsSafeList};
ghost use Rattle.i_shape.specs.ShapeAnswers.{AreKept, HasShortOuter};
ghost use Rattle.i_shape.specs.CanonicalShapes.{AreKeptEitherWay, FormsShapeTo, FormsListTo};
ghost use Rattle.i_shape_core.specs.Refusals.{OkUnlessMemory};

mod forms;
pub mod laws;

use crate::int::canonical::forms::{list_form, shape_form};
use crate::int::cleaning::{Canonicalizer, ContourCleaner, UnorientedCanonicalizer};
use crate::int::shape::{IntContour, IntShape, IntShapes};
use i_shape_core::error::ShapeError;
use i_shape_core::number::IntNumber;
use std::alloc::Global;

/// The canonical forms of a shape of safe points.
pub trait CanonicalShape<I: IntNumber> {
    /// The contours in unbounded integers.
    ghost shape: { Self → List (List Point) };

    /// Returns the canonical form, or `None` if the first contour collapses. The form of the first contour comes first.
    /// The forms of the other contours follow, without those that collapse, sorted as lists of points. An empty shape
    /// stays empty. Two shapes that have forms have equal forms exactly if they are the same polygon: rotations,
    /// removals and insertions of zero turns lead from one first contour to the other, and so do they for the other
    /// contours that don't collapse, paired one to one in some order. The form keeps the double area, containment and
    /// winding numbers, and its points are safe.
    ///
    /// # Errors
    ///
    /// `OutOfMemory`, which can't occur for an empty shape, nor if the first contour has fewer than three points.
    fn canonical(&self, alloc: Global) -> Result<Option<IntShape<I>>, ShapeError>
        requires { IsSafeShape I.width (shape self.now) }
        ensures answer { OkUnlessMemory result
            (FormsShapeTo CanonicalAnswer AreKept I.width I.value (shape self.now)) }
        ensures none { shape self.now ≡ [] → IsOk result }
        ensures short { HasShortOuter (shape self.now) → result ≡ Ok None };

    /// Returns the canonical form without regard to the direction of each contour, or `None` if the first contour
    /// collapses. Two shapes that have forms have equal forms exactly if they are the same polygon up to the direction
    /// of each contour. The form keeps the sum of the contours' absolute double areas. About each point it keeps the
    /// sum of their absolute winding numbers, and the number of contours that the point is inside. Its points are safe.
    ///
    /// # Errors
    ///
    /// `OutOfMemory`, which can't occur for an empty shape, nor if the first contour has fewer than three points.
    fn canonical_unoriented(&self, alloc: Global) -> Result<Option<IntShape<I>>, ShapeError>
        requires { IsSafeShape I.width (shape self.now) }
        ensures answer { OkUnlessMemory result
            (FormsShapeTo UnorientedAnswer AreKeptEitherWay I.width I.value (shape self.now)) }
        ensures none { shape self.now ≡ [] → IsOk result }
        ensures short { HasShortOuter (shape self.now) → result ≡ Ok None };
}

/// The canonical forms of a list of shapes of safe points.
pub trait CanonicalShapes<I: IntNumber> {
    /// The shapes in unbounded integers.
    ghost shapes: { Self → List (List (List Point)) };

    /// Returns the canonical form: the forms of the shapes, sorted contour by contour. A shape whose first contour
    /// collapses is left out. Two lists have equal forms exactly if their other shapes can be paired one to one so that
    /// partners are the same polygon. Each form keeps the double area, containment and winding numbers of its shape,
    /// and its points are safe.
    ///
    /// # Errors
    ///
    /// `OutOfMemory`, which can't occur for an empty list.
    fn canonical(&self, alloc: Global) -> Result<IntShapes<I>, ShapeError>
        requires { IsSafeList I.width (shapes self.now) }
        ensures answer { OkUnlessMemory result
            (FormsListTo CanonicalAnswer AreKept I.width I.value (shapes self.now)) }
        ensures none { shapes self.now ≡ [] → IsOk result };

    /// Returns the canonical form without regard to the direction of each contour. Each form keeps of its shape what
    /// `CanonicalShape::canonical_unoriented` keeps.
    ///
    /// # Errors
    ///
    /// `OutOfMemory`, which can't occur for an empty list.
    fn canonical_unoriented(&self, alloc: Global) -> Result<IntShapes<I>, ShapeError>
        requires { IsSafeList I.width (shapes self.now) }
        ensures answer { OkUnlessMemory result
            (FormsListTo UnorientedAnswer AreKeptEitherWay I.width I.value (shapes self.now)) }
        ensures none { shapes self.now ≡ [] → IsOk result };
}

impl<I: IntNumber> CanonicalShape<I> for &[IntContour<I>] {
    ghost shape = { λ contours. shape_of I.value contours.now };

    #[tactic(auto, using(crate::proofs::Shapes::Forms::shape_form_given, crate::proofs::Shapes::Forms::canonical_keeps))]
    fn canonical(&self, alloc: Global) -> Result<Option<IntShape<I>>, ShapeError> {
        shape_form(&mut Canonicalizer::new(alloc), alloc, *self)
    }

    #[tactic(auto, using(crate::proofs::Shapes::Forms::shape_form_given, crate::proofs::Shapes::Forms::unoriented_keeps))]
    fn canonical_unoriented(&self, alloc: Global) -> Result<Option<IntShape<I>>, ShapeError> {
        let mut unoriented = UnorientedCanonicalizer::new(alloc);
        shape_form(&mut unoriented, alloc, *self)
    }
}

impl<I: IntNumber> CanonicalShapes<I> for &[IntShape<I>] {
    ghost shapes = { λ list. shapes_of I.value list.now };

    #[tactic(auto, using(crate::proofs::Shapes::Forms::list_form_given, crate::proofs::Shapes::Forms::canonical_keeps))]
    fn canonical(&self, alloc: Global) -> Result<IntShapes<I>, ShapeError> {
        list_form(&mut Canonicalizer::new(alloc), alloc, *self)
    }

    #[tactic(auto, using(crate::proofs::Shapes::Forms::list_form_given, crate::proofs::Shapes::Forms::unoriented_keeps))]
    fn canonical_unoriented(&self, alloc: Global) -> Result<IntShapes<I>, ShapeError> {
        let mut unoriented = UnorientedCanonicalizer::new(alloc);
        list_form(&mut unoriented, alloc, *self)
    }
}
