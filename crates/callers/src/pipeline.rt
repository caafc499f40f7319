//! Cleaning through a flat buffer.

ghost use Rattle.std.specs.Prelude.{◌<◌, ◌↔◌, length, IfOk, IsErrOf};
ghost use Rattle.i_shape.specs.Buffers.{Compact};
ghost use Rattle.i_shape.specs.Paths.{concatenated, paths_of_shape};
ghost use Rattle.i_shape.specs.ShapeLists.{shape_of, IsSafeShape};

use i_shape::flat::buffer::FlatContoursBuffer;
use i_shape::int::shape::{IntContour, IntShape};
use i_shape::{IntNumber, ShapeError};
use std::alloc::Global;

/// Returns the contours without zero turns, in order, without those that collapse. `TooManyPoints` exactly if the
/// contours have more than `usize::MAX` points together; otherwise the only error is `OutOfMemory`. The given contours
/// stay unchanged.
pub fn cleaned_contours<I: IntNumber>(
    alloc: Global,
    contours: &[IntContour<I>],
) -> Result<IntShape<I>, ShapeError>
    requires { IsSafeShape I.width (shape_of I.value contours.now) }
    ensures compact { IfOk result
        (λ kept. Compact (shape_of I.value contours.now) (shape_of I.value kept.items)) }
    ensures too_many { IsErrOf result ShapeError.TooManyPoints
        ↔ (usize.MAX < length (concatenated (paths_of_shape contours.now))) }
{
    let mut buffer = FlatContoursBuffer::new(alloc);
    buffer.set_with_shape(contours)?;
    buffer.simplify_contours()?;
    buffer.to_contours()
}
