//! The items of lists that are resources of paths.
ghost use Rattle.std.specs.Prelude.{◌≡◌, ◌↔◌, List, [], ◌∷◌, ⊤};
ghost use Rattle.std.specs.List.{All};
ghost use Rattle.std.specs.Iterator.{IsFinite};
ghost use Rattle.std.specs.Iterator.Adapters.{copied_source};
ghost use Rattle.std.specs.Slice.Iter.{iter_rest};
ghost use Rattle.i_shape_core.specs.declared.point.IntPoint.{IntPoint};
ghost use Rattle.i_shape_core.specs.IntPoint.{contour_of, IsSafe};
ghost use Rattle.i_shape_source.specs.Paths.{LendsExactly, RunsThrough, paths_of_shape, paths_of_shapes, paths_of_slices};
ghost use Rattle.i_shape_source.specs.ShapeLists.{shape_of, shapes_of, IsSafeShape, IsSafeList, AreSafePaths};

use crate::iterators::{
    ContourResourceIterator, ShapeResourceIterator, ShapesResourceIterator, lend_slices,
};
use i_shape_core::number::IntNumber;
use i_shape_core::point::IntPoint;
use std::iter::Copied;
use std::slice::Iter;

/// An item of a slice, vector or array that is a resource: a point, a path, a borrowed path, or a shape.
pub trait IntResourceMember<'a, I: IntNumber + 'a>: Sized + 'a {
    /// The iterator over the borrowed paths of a list of members.
    type MemberIter: Iterator<Item = &'a [IntPoint<I>]>;

    /// The paths of a list of members, in storage order.
    ghost member_paths: { List Self → List (List (IntPoint I)) };

    /// Each point of each path is safe, in the words of the calls that require it.
    ghost safe: { List Self → Type 0 };

    /// What is known of the new iterator.
    ghost begins: { List Self → Self.MemberIter → Type 0 } = { λ _ _. ⊤ };

    /// Returns an iterator that lends the paths of the members one by one, and then ends. Copies and allocates nothing.
    fn lend(members: &'a [Self]) -> Self::MemberIter
        ensures can { Self.MemberIter.can_next result }
        ensures begins { begins members.now result }
        ensures ends { IsFinite (Self.MemberIter.remaining result) }
        ensures lends { LendsExactly Self.MemberIter.next_gives result (member_paths members.now) }
        ensures runs { RunsThrough Self.MemberIter.next_gives result (member_paths members.now) }
        ensures safe { AreSafePaths I.width I.value (member_paths members.now) ↔ safe members.now };
}

impl<'a, I: IntNumber + 'a> IntResourceMember<'a, I> for IntPoint<I> {
    type MemberIter = ContourResourceIterator<'a, IntPoint<I>>;

    ghost member_paths = { λ points. points ∷ [] };

    ghost safe = { λ points. All (IsSafe I.width) (contour_of I.value points) };

    ghost begins = { λ points iter. iter ≡ points ∷ [] };

    #[tactic(auto, using(crate::proofs::SafePaths::safe_path))]
    fn lend(members: &'a [IntPoint<I>]) -> ContourResourceIterator<'a, IntPoint<I>> {
        ContourResourceIterator::with_slice(members)
    }
}

impl<'a, I: IntNumber + 'a> IntResourceMember<'a, I> for Vec<IntPoint<I>> {
    type MemberIter = ShapeResourceIterator<'a, IntPoint<I>>;

    ghost member_paths = { paths_of_shape };

    ghost safe = { λ shape. IsSafeShape I.width (shape_of I.value shape) };

    ghost begins = { λ shape iter. iter ≡ paths_of_shape shape };

    #[tactic(auto, using(crate::proofs::SafePaths::safe_shape))]
    fn lend(members: &'a [Vec<IntPoint<I>>]) -> ShapeResourceIterator<'a, IntPoint<I>> {
        ShapeResourceIterator::with_slice(members)
    }
}

impl<'a, I: IntNumber + 'a> IntResourceMember<'a, I> for &'a [IntPoint<I>] {
    type MemberIter = Copied<Iter<'a, &'a [IntPoint<I>]>>;

    ghost member_paths = { paths_of_slices };

    ghost safe = { λ slices. AreSafePaths I.width I.value (paths_of_slices slices) };

    ghost begins = { λ slices iter. iter_rest (copied_source iter) ≡ slices };

    fn lend(members: &'a [&'a [IntPoint<I>]]) -> Copied<Iter<'a, &'a [IntPoint<I>]>> {
        lend_slices(members)
    }
}

impl<'a, I: IntNumber + 'a> IntResourceMember<'a, I> for Vec<Vec<IntPoint<I>>> {
    type MemberIter = ShapesResourceIterator<'a, IntPoint<I>>;

    ghost member_paths = { paths_of_shapes };

    ghost safe = { λ shapes. IsSafeList I.width (shapes_of I.value shapes) };

    ghost begins = { λ shapes iter. iter ≡ paths_of_shapes shapes };

    #[tactic(auto, using(crate::proofs::SafePaths::safe_list))]
    fn lend(members: &'a [Vec<Vec<IntPoint<I>>>]) -> ShapesResourceIterator<'a, IntPoint<I>> {
        ShapesResourceIterator::with_slice(members)
    }
}
