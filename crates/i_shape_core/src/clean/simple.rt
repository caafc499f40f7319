//! Contours without zero turns: the test, the cleaned copy and its canonical forms.

ghost use Rattle.std.specs.Prelude.{◌≡◌, ◌↔◌, ◌<◌, List, length, IsTrue};
ghost use Rattle.i_shape_core.specs.IntPoint.{contour_of, IsSafeContour};
ghost use Rattle.i_shape_core.specs.Point.{Point};
ghost use Rattle.i_shape_core.specs.Contour.{IsSimple};
ghost use Rattle.i_shape_core.specs.Refusals.{OkUnlessMemory};
ghost use Rattle.i_shape_core.specs.Cleaning.{simplifying, canonicalizing, canonicalizing_unoriented};
ghost use Rattle.i_shape_core.specs.Written.{CleansTo, CleansInOrder};

pub use crate::clean::scan::is_simple;
use crate::clean::simplifier::ContourSimplifier;
use crate::error::ShapeError;
use crate::number::IntNumber;
use crate::point::{IntContour, IntPoint};
use std::alloc::Global;

/// Tests a contour of safe points for zero turns, and copies it without them.
pub trait SimpleContour<I: IntNumber> {
    /// The contour in unbounded integers.
    ghost contour: { Self → List Point };

    /// Returns whether there are at least three points and no zero turn, the closing edge included. Makes one pass and
    /// allocates nothing.
    fn is_simple(&self) -> bool
        requires { IsSafeContour I.width (contour self.now) }
        ensures { IsTrue result ↔ IsSimple (contour self.now) };

    /// Returns the contour without zero turns, in the order of the input. If zero turns are removed one by one in any
    /// other order, the same contour is left, up to rotation. Returns `None` exactly if every order leaves fewer than
    /// three points. Double area, containment and winding numbers stay the same, and the points are safe again.
    ///
    /// # Errors
    ///
    /// `OutOfMemory`. Below three points the call allocates nothing and can't fail.
    fn simplified(&self, alloc: Global) -> Result<Option<IntContour<I>>, ShapeError>
        requires { IsSafeContour I.width (contour self.now) }
        ensures answer { OkUnlessMemory result
            (CleansInOrder simplifying I.width I.value (contour self.now)) }
        ensures short { length (contour self.now) < 3 → result ≡ Ok None };

    /// Returns the canonical form: the least rotation of the contour without zero turns. Rotations are compared point
    /// by point, and points by x, then by y. Two contours that don't collapse have the same canonical form exactly if a
    /// chain of contours of at least three points joins them, each a rotation of the one before it, or that contour
    /// with one zero turn removed or inserted. Returns `None` exactly if `simplified` does. Double area, containment
    /// and winding numbers stay the same, and the points are safe again.
    ///
    /// # Errors
    ///
    /// `OutOfMemory`. Below three points the call allocates nothing and can't fail.
    fn canonical(&self, alloc: Global) -> Result<Option<IntContour<I>>, ShapeError>
        requires { IsSafeContour I.width (contour self.now) }
        ensures answer { OkUnlessMemory result
            (CleansTo canonicalizing I.width I.value (contour self.now)) }
        ensures short { length (contour self.now) < 3 → result ≡ Ok None };

    /// Returns the canonical form without regard to direction: the lesser of the canonical forms of the contour and of
    /// the contour reversed. Two contours that don't collapse have the same one exactly if a chain as for `canonical`
    /// joins them, or joins one to the other reversed. Returns `None` exactly if `simplified` does. Containment stays
    /// the same. Double area and winding numbers stay the same, or all change sign. The points are safe again.
    ///
    /// # Errors
    ///
    /// `OutOfMemory`. Below three points the call allocates nothing and can't fail.
    fn canonical_unoriented(&self, alloc: Global) -> Result<Option<IntContour<I>>, ShapeError>
        requires { IsSafeContour I.width (contour self.now) }
        ensures answer { OkUnlessMemory result
            (CleansTo canonicalizing_unoriented I.width I.value (contour self.now)) }
        ensures short { length (contour self.now) < 3 → result ≡ Ok None };
}

impl<I: IntNumber> SimpleContour<I> for &[IntPoint<I>] {
    ghost contour = { λ points. contour_of I.value points.now };

    fn is_simple(&self) -> bool {
        is_simple(*self)
    }

    #[tactic(auto, using(crate::proofs::Plane::Contours::counted))]
    fn simplified(&self, alloc: Global) -> Result<Option<IntContour<I>>, ShapeError> {
        ContourSimplifier::new(alloc).simplify_contour(*self)
    }

    #[tactic(auto, using(crate::proofs::Plane::Contours::counted))]
    fn canonical(&self, alloc: Global) -> Result<Option<IntContour<I>>, ShapeError> {
        ContourSimplifier::new(alloc).canonical(*self)
    }

    fn canonical_unoriented(&self, alloc: Global) -> Result<Option<IntContour<I>>, ShapeError> {
        ContourSimplifier::new(alloc).canonical_unoriented(*self)
    }
}
