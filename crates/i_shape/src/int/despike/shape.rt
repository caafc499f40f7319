//! Removal of spikes from shapes and shape lists: tests, and cleaned copies.

ghost use Rattle.std.specs.Prelude.{◌≡◌, ◌↔◌, List, [], Ok, None, IsTrue, IsOk};
ghost use Rattle.i_shape_core.specs.Point.{Point};
ghost use Rattle.i_shape_core.specs.Convex.{NoSpikes};
ghost use Rattle.i_shape_core.specs.Cleaners.{DespikeAnswer};
ghost use Rattle.i_shape.specs.ShapeLists.{shape_of, shapes_of, IsSafeShape, IsSafeList};
ghost use Rattle.i_shape.specs.ShapeAnswers.{HasShortOuter, EachContour, EachShape, CleansShapeTo, CleansListTo};
ghost use Rattle.i_shape_core.specs.Refusals.{OkUnlessMemory};

use crate::int::cleaning::{
    ContourCleaner, SpikeRemover, clean_list, clean_shape, is_clean_list, is_clean_shape,
};
use crate::int::shape::{IntContour, IntShape, IntShapes};
use i_shape_core::error::ShapeError;
use i_shape_core::number::IntNumber;
use std::alloc::Global;

/// Tests a shape of safe points for spikes, and copies it without them.
pub trait DeSpikeShape<I: IntNumber> {
    /// The contours in unbounded integers.
    ghost shape: { Self → List (List Point) };

    /// Returns whether no contour has a spike, and each has at least three points, consecutive duplicates counted once.
    /// An empty shape passes. Allocates nothing.
    fn has_no_spikes(&self) -> bool
        requires { IsSafeShape I.width (shape self.now) }
        ensures { IsTrue result ↔ EachContour NoSpikes (shape self.now) };

    /// Returns a copy without spikes, or `None` if the first contour collapses. Later contours that collapse are left
    /// out. A contour without spikes is copied unchanged, and an empty shape stays empty.
    ///
    /// # Errors
    ///
    /// `OutOfMemory`, which can't occur for an empty shape, nor if the first contour has fewer than three points.
    fn despiked_shape(&self, alloc: Global) -> Result<Option<IntShape<I>>, ShapeError>
        requires { IsSafeShape I.width (shape self.now) }
        ensures answer { OkUnlessMemory result
            (CleansShapeTo DespikeAnswer I.width I.value (shape self.now)) }
        ensures none { shape self.now ≡ [] → IsOk result }
        ensures short { HasShortOuter (shape self.now) → result ≡ Ok None };
}

/// Tests a list of shapes of safe points for spikes, and copies it without them.
pub trait DeSpikeShapes<I: IntNumber> {
    /// The shapes in unbounded integers.
    ghost shapes: { Self → List (List (List Point)) };

    /// Returns whether no contour of any shape has a spike, and each has at least three points, consecutive duplicates
    /// counted once. Allocates nothing.
    fn has_no_spikes(&self) -> bool
        requires { IsSafeList I.width (shapes self.now) }
        ensures { IsTrue result ↔ EachShape NoSpikes (shapes self.now) };

    /// Returns a copy of the shapes without spikes, in order. A shape whose first contour collapses is left out; an
    /// empty shape stays.
    ///
    /// # Errors
    ///
    /// `OutOfMemory`, which can't occur for an empty list.
    fn despiked_shapes(&self, alloc: Global) -> Result<IntShapes<I>, ShapeError>
        requires { IsSafeList I.width (shapes self.now) }
        ensures answer { OkUnlessMemory result
            (CleansListTo DespikeAnswer I.width I.value (shapes self.now)) }
        ensures none { shapes self.now ≡ [] → IsOk result };
}

impl<I: IntNumber> DeSpikeShape<I> for IntShape<I> {
    ghost shape = { λ contours. shape_of I.value contours.items };

    fn has_no_spikes(&self) -> bool {
        is_clean_shape::<I, SpikeRemover>(self.as_slice())
    }

    fn despiked_shape(&self, alloc: Global) -> Result<Option<IntShape<I>>, ShapeError> {
        let mut remover = SpikeRemover::new(alloc);
        clean_shape(&mut remover, alloc, self.as_slice())
    }
}

impl<I: IntNumber> DeSpikeShapes<I> for IntShapes<I> {
    ghost shapes = { λ list. shapes_of I.value list.items };

    fn has_no_spikes(&self) -> bool {
        is_clean_list::<I, SpikeRemover>(self.as_slice())
    }

    fn despiked_shapes(&self, alloc: Global) -> Result<IntShapes<I>, ShapeError> {
        let mut remover = SpikeRemover::new(alloc);
        clean_list(&mut remover, alloc, self.as_slice())
    }
}
