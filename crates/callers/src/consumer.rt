//! Calls over any resource, proved from the law of resources alone.

ghost use Rattle.std.specs.Prelude.{◌≡◌, ◌≤◌, ◌↔◌, IfOk, IsTrue, length};
ghost use Rattle.std.specs.List.{flat_map};
ghost use Rattle.i_shape.specs.ShapeLists.{AreSafePaths};

use i_shape::IntNumber;
use i_shape::int::IntPoint;
use i_shape::int::safe_range::IntSafeRange;
use i_shape::int::shape::IntContour;
use i_shape::source::int::resource::IntShapeResource;
use std::alloc::{AllocError, Global};

/// Returns the number of paths, by an iterator chain.
pub fn count_paths<'a, I: IntNumber + 'a, R: IntShapeResource<'a, I> + Copy>(resource: R) -> usize
    requires can { R.can_read resource }
    requires few { length (R.paths resource) ≤ usize.MAX }
    ensures { result ≡ length (R.paths resource) }
{
    resource.iter_paths().count()
}

/// Returns all points, end to end, by a loop.
#[tactic(auto, using(std::proofs::lemmas::Grind::common_steps))]
pub fn all_points<'a, I: IntNumber + 'a, R: IntShapeResource<'a, I> + Copy>(
    resource: R,
    alloc: Global,
) -> Result<IntContour<I>, AllocError>
    requires { R.can_read resource }
    ensures { IfOk result (λ points. points.items ≡ flat_map (λ path. path) (R.paths resource)) }
{
    let mut points: Vec<IntPoint<I>> = Vec::new(alloc);
    for path in resource.iter_paths() {
        points.extend_from_slice(path)?;
    }
    Ok(points)
}

/// Two resources with the same paths, whatever their types, are both safe or both not. Returns whether each is safe.
pub fn same_safe_range<
    'a,
    I: IntNumber + 'a,
    R: IntShapeResource<'a, I> + Copy,
    S: IntShapeResource<'a, I> + Copy,
>(first: R, second: S) -> (bool, bool)
    requires first_read { R.can_read first }
    requires second_read { S.can_read second }
    requires same { R.paths first ≡ S.paths second }
    ensures same { result.0 ≡ result.1 }
    ensures safe { IsTrue result.0 ↔ AreSafePaths I.width I.value (R.paths first) }
{
    (first.is_in_safe_range(), second.is_in_safe_range())
}
