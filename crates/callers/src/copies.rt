//! The paths of a resource, copied through a flat buffer over points of any type.

ghost use Rattle.std.specs.Prelude.{◌≡◌, ◌<◌, ◌↔◌, ◌⊎◌, length, IfOk, IsErrOf};
ghost use Rattle.i_shape.specs.Paths.{concatenated, paths_of_shape};

use i_shape::ShapeError;
use i_shape::base::data::Contour;
use i_shape::flat::float::FloatFlatContoursBuffer;
use i_shape::source::float::resource::{ShapePoint, ShapeResource};
use std::alloc::Global;

/// Returns a copy of each path, in order. `TooManyPoints` exactly if there are more than `usize::MAX` paths or points
/// together; otherwise the only error is `OutOfMemory`.
pub fn copied_paths<'a, P: ShapePoint + 'a, R: ShapeResource<'a, P> + Copy>(
    alloc: Global,
    resource: R,
) -> Result<Vec<Contour<P>>, ShapeError>
    requires { R.can_read resource }
    ensures copies { IfOk result (λ copies. paths_of_shape copies.items ≡ R.paths resource) }
    ensures too_many { IsErrOf result ShapeError.TooManyPoints
        ↔ ((usize.MAX < length (concatenated (R.paths resource)))
        ⊎ (usize.MAX < length (R.paths resource))) }
{
    let mut buffer = FloatFlatContoursBuffer::new(alloc);
    buffer.set_with_resource(resource)?;
    buffer.to_contours()
}
