//! The items of lists that are resources of paths.
ghost use Rattle.std.specs.Prelude.{◌≡◌, List, [], ◌∷◌, ⊤};
ghost use Rattle.std.specs.Iterator.{IsFinite};
ghost use Rattle.std.specs.Iterator.Adapters.{copied_source};
ghost use Rattle.std.specs.Slice.Iter.{iter_rest};
ghost use Rattle.i_shape_source.specs.Paths.{LendsExactly, RunsThrough, paths_of_shape, paths_of_shapes, paths_of_slices};

use crate::float::resource::ShapePoint;
use crate::iterators::{
    ContourResourceIterator, ShapeResourceIterator, ShapesResourceIterator, lend_slices,
};
use std::iter::Copied;
use std::slice::Iter;

/// An item of a slice, vector or array that is a resource: a point, a path, a borrowed path, or a shape.
pub trait ResourceMember<'a, P: ShapePoint + 'a>: Sized + 'a {
    /// The iterator over the borrowed paths of a list of members.
    type MemberIter: Iterator<Item = &'a [P]>;

    /// The paths of a list of members, in storage order.
    ghost member_paths: { List Self → List (List P) };

    /// What is known of the new iterator.
    ghost begins: { List Self → Self.MemberIter → Type 0 } = { λ _ _. ⊤ };

    /// Returns an iterator that lends the paths of the members one by one, and then ends. Copies and allocates nothing.
    fn lend(members: &'a [Self]) -> Self::MemberIter
        ensures can { Self.MemberIter.can_next result }
        ensures begins { begins members.now result }
        ensures ends { IsFinite (Self.MemberIter.remaining result) }
        ensures lends { LendsExactly Self.MemberIter.next_gives result (member_paths members.now) }
        ensures runs { RunsThrough Self.MemberIter.next_gives result (member_paths members.now) };
}

impl<'a, P: ShapePoint + 'a> ResourceMember<'a, P> for P {
    type MemberIter = ContourResourceIterator<'a, P>;

    ghost member_paths = { λ points. points ∷ [] };

    ghost begins = { λ points iter. iter ≡ points ∷ [] };

    fn lend(members: &'a [P]) -> ContourResourceIterator<'a, P> {
        ContourResourceIterator::with_slice(members)
    }
}

impl<'a, P: ShapePoint + 'a> ResourceMember<'a, P> for Vec<P> {
    type MemberIter = ShapeResourceIterator<'a, P>;

    ghost member_paths = { paths_of_shape };

    ghost begins = { λ shape iter. iter ≡ paths_of_shape shape };

    fn lend(members: &'a [Vec<P>]) -> ShapeResourceIterator<'a, P> {
        ShapeResourceIterator::with_slice(members)
    }
}

impl<'a, P: ShapePoint + 'a> ResourceMember<'a, P> for &'a [P] {
    type MemberIter = Copied<Iter<'a, &'a [P]>>;

    ghost member_paths = { paths_of_slices };

    ghost begins = { λ slices iter. iter_rest (copied_source iter) ≡ slices };

    fn lend(members: &'a [&'a [P]]) -> Copied<Iter<'a, &'a [P]>> {
        lend_slices(members)
    }
}

impl<'a, P: ShapePoint + 'a> ResourceMember<'a, P> for Vec<Vec<P>> {
    type MemberIter = ShapesResourceIterator<'a, P>;

    ghost member_paths = { paths_of_shapes };

    ghost begins = { λ shapes iter. iter ≡ paths_of_shapes shapes };

    fn lend(members: &'a [Vec<Vec<P>>]) -> ShapesResourceIterator<'a, P> {
        ShapesResourceIterator::with_slice(members)
    }
}
