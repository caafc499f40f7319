//! The laws of the forms: a complete invariant of a polygon. Each function takes the values that its law is about and
//! does nothing. Its clauses state the law. The points needn't be safe.

ghost use Rattle.i_shape_core.specs.Point.{IsZeroTurn};
ghost use Rattle.i_shape_core.specs.Canonical.{CanonicalAnswer, Joined, UnorientedAnswer, JoinedEitherWay};
ghost use Rattle.i_shape.specs.ShapeLists.{shape_of, shapes_of};
ghost use Rattle.i_shape.specs.CanonicalShapes.{OneShapeForm, OneListForm, HasShapeForm, HasListForm};

use crate::int::shape::{IntContour, IntShape};
use i_shape_core::number::IntNumber;

/// Two shapes whose outer contours don't collapse have equal forms exactly if their outer contours are joined, and the
/// holes that don't collapse can be paired one to one so that partners are joined. For unoriented forms, joined in
/// either direction. Two contours are joined if rotations, removals and insertions of zero turns lead from one to the
/// other.
#[tactic(auto, using(crate::proofs::Shapes::Forms::canonical_shapes, crate::proofs::Shapes::Forms::unoriented_shapes))]
pub fn same_shapes<I: IntNumber>(_s: &[IntContour<I>], _t: &[IntContour<I>])
    ensures canonical { OneShapeForm CanonicalAnswer (Joined IsZeroTurn)
        (shape_of I.value _s.now) (shape_of I.value _t.now) }
    ensures unoriented { OneShapeForm UnorientedAnswer JoinedEitherWay
        (shape_of I.value _s.now) (shape_of I.value _t.now) }
{}

/// Two lists of shapes have equal forms exactly if their shapes can be paired one to one so that partners are the same
/// shape. Shapes whose outer contours collapse don't count.
pub fn same_lists<I: IntNumber>(_s: &[IntShape<I>], _t: &[IntShape<I>])
    ensures canonical { OneListForm CanonicalAnswer (Joined IsZeroTurn)
        (shapes_of I.value _s.now) (shapes_of I.value _t.now) }
    ensures unoriented { OneListForm UnorientedAnswer JoinedEitherWay
        (shapes_of I.value _s.now) (shapes_of I.value _t.now) }
{}

/// A shape has a form exactly if its outer contour doesn't collapse. A form is its own form.
pub fn shape_forms<I: IntNumber>(_s: &[IntContour<I>])
    ensures canonical { HasShapeForm CanonicalAnswer (shape_of I.value _s.now) }
    ensures unoriented { HasShapeForm UnorientedAnswer (shape_of I.value _s.now) }
{}

/// Each list of shapes has a form. A form is its own form.
pub fn list_forms<I: IntNumber>(_s: &[IntShape<I>])
    ensures canonical { HasListForm CanonicalAnswer (shapes_of I.value _s.now) }
    ensures unoriented { HasListForm UnorientedAnswer (shapes_of I.value _s.now) }
{}
