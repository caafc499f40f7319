//! Resources of paths of integer points.
ghost use Rattle.std.specs.Prelude.{◌↔◌, List, ⊤};
ghost use Rattle.std.specs.Iterator.{IsFinite};
ghost use Rattle.i_shape_core.specs.declared.point.IntPoint.{IntPoint};
ghost use Rattle.i_shape_source.specs.Paths.{LendsExactly, RunsThrough};
ghost use Rattle.i_shape_source.specs.ShapeLists.{AreSafePaths};

use i_shape_core::number::IntNumber;
use i_shape_core::point::IntPoint;

/// A list of paths that lends each of them in storage order. Empty paths are kept, and nested shapes are flattened.
///
/// A second traversal of a copy lends the same paths.
pub trait IntShapeResource<'a, I: IntNumber + 'a>: Sized {
    /// The iterator over the borrowed paths.
    type ResourceIter: Iterator<Item = &'a [IntPoint<I>]>;

    /// The paths, in storage order.
    ghost paths: { Self → List (List (IntPoint I)) };

    /// Each point of each path is safe, in the words of the calls that require it.
    ghost safe: { Self → Type 0 };

    /// What is known of the new iterator, besides the clauses of `iter_paths`.
    ghost begins: { Self → Self.ResourceIter → Type 0 } = { λ _ _. ⊤ };

    /// Whether the resource can be read.
    ghost can_read: { Self → Type 0 } = { λ _. ⊤ };

    /// Returns an iterator that lends the paths one by one, each a slice of the source, and then ends. Copies and
    /// allocates nothing.
    fn iter_paths(self) -> Self::ResourceIter
        requires { can_read self }
        ensures can { Self.ResourceIter.can_next result }
        ensures begins { begins self result }
        ensures ends { IsFinite (Self.ResourceIter.remaining result) }
        ensures lends { LendsExactly Self.ResourceIter.next_gives result (paths self) }
        ensures runs { RunsThrough Self.ResourceIter.next_gives result (paths self) }
        ensures safe { AreSafePaths I.width I.value (paths self) ↔ safe self };
}
