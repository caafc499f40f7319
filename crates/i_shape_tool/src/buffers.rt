//! Cleaning of shapes through a flat buffer.

ghost use Rattle.std.specs.Prelude.{◌≡◌, ◌<◌, ◌↔◌, ◌⊎◌, [], length, IfOk, IsOk, IsErrOf};
ghost use Rattle.i_shape.specs.Cleaners.{SimpleAnswer, DespikeAnswer};
ghost use Rattle.i_shape.specs.Paths.{shape_lists, concatenated};
ghost use Rattle.i_shape.specs.ShapeLists.{shapes_of, IsSafeList};
ghost use Rattle.i_shape.specs.ShapeAnswers.{ListClean, ListKept};

use i_shape::flat::buffer::FlatShapesBuffer;
use i_shape::int::despike::DeSpike;
use i_shape::int::shape::{IntShape, IntShapes};
use i_shape::int::simple::SimpleShapes;
use i_shape::{IntNumber, ShapeError};
use std::alloc::Global;

/// Returns the shapes without zero turns. Fills a flat buffer with the shapes, reads them back, and cleans them. A
/// shape whose first contour collapses is left out, and so are later contours that collapse. An empty shape stays.
///
/// # Errors
///
/// `TooManyPoints` if there are more than `usize::MAX` contours, or if they have more than `usize::MAX` points
/// together; otherwise `OutOfMemory`. Neither can occur if there is no shape.
pub fn clean_through_buffer<I: IntNumber>(
    alloc: Global,
    shapes: &[IntShape<I>],
) -> Result<IntShapes<I>, ShapeError>
    requires { IsSafeList I.width (shapes_of I.value shapes.now) }
    ensures clean { IfOk result
        (λ r. ListClean SimpleAnswer (shapes_of I.value shapes.now) (shapes_of I.value r.items)) }
    ensures kept { IfOk result
        (λ r. ListKept SimpleAnswer (shapes_of I.value shapes.now) (shapes_of I.value r.items)) }
    ensures safe { IfOk result (λ r. IsSafeList I.width (shapes_of I.value r.items)) }
    ensures too_many { IsErrOf result ShapeError.TooManyPoints
        ↔ ((usize.MAX < length (concatenated (concatenated (shape_lists shapes.now))))
        ⊎ (usize.MAX < length (concatenated (shape_lists shapes.now)))) }
    ensures none { shapes.now ≡ [] → IsOk result }
{
    let kept = read_back(alloc, shapes)?;
    kept.as_slice().simplified(alloc)
}

/// Returns the shapes without spikes, otherwise like `clean_through_buffer`.
///
/// # Errors
///
/// Those of `clean_through_buffer`.
pub fn despike_through_buffer<I: IntNumber>(
    alloc: Global,
    shapes: &[IntShape<I>],
) -> Result<IntShapes<I>, ShapeError>
    requires { IsSafeList I.width (shapes_of I.value shapes.now) }
    ensures clean { IfOk result
        (λ r. ListClean DespikeAnswer (shapes_of I.value shapes.now) (shapes_of I.value r.items)) }
    ensures kept { IfOk result
        (λ r. ListKept DespikeAnswer (shapes_of I.value shapes.now) (shapes_of I.value r.items)) }
    ensures safe { IfOk result (λ r. IsSafeList I.width (shapes_of I.value r.items)) }
    ensures too_many { IsErrOf result ShapeError.TooManyPoints
        ↔ ((usize.MAX < length (concatenated (concatenated (shape_lists shapes.now))))
        ⊎ (usize.MAX < length (concatenated (shape_lists shapes.now)))) }
    ensures none { shapes.now ≡ [] → IsOk result }
{
    let mut kept = read_back(alloc, shapes)?;
    kept.remove_spikes()?;
    Ok(kept)
}

/// Fills a flat buffer with the shapes and returns them as read back.
#[tactic(auto, using(i_shape::proofs::CallerLemmas::same_shapes))]
fn read_back<I: IntNumber>(
    alloc: Global,
    shapes: &[IntShape<I>],
) -> Result<IntShapes<I>, ShapeError>
    ensures same { IfOk result
        (λ r. shapes_of I.value r.items ≡ shapes_of I.value shapes.now) }
    ensures too_many { IsErrOf result ShapeError.TooManyPoints
        ↔ ((usize.MAX < length (concatenated (concatenated (shape_lists shapes.now))))
        ⊎ (usize.MAX < length (concatenated (shape_lists shapes.now)))) }
    ensures none { shapes.now ≡ [] → IsOk result }
{
    let mut buffer = FlatShapesBuffer::new(alloc);
    buffer.set_with_shapes(shapes)?;
    buffer.to_shapes()
}
