//! Resources of paths over points of any type.
ghost use Rattle.std.specs.Prelude.{List, ⊤};
ghost use Rattle.std.specs.Iterator.{IsFinite};
ghost use Rattle.i_shape_source.specs.Paths.{LendsExactly, RunsThrough};

/// A point of any type. Callers implement it for their own.
pub trait ShapePoint: Copy {}

/// A list of paths that lends each of them in storage order. Empty paths are kept, and nested shapes are flattened.
///
/// A second traversal of a copy lends the same paths.
pub trait ShapeResource<'a, P: ShapePoint + 'a>: Sized {
    /// The iterator over the borrowed paths.
    type ResourceIter: Iterator<Item = &'a [P]>;

    /// The paths, in storage order.
    ghost paths: { Self → List (List P) };

    /// What is known of the new iterator, besides the clauses of `iter_paths`.
    ghost begins: { Self → Self.ResourceIter → Type 0 } = { λ _ _. ⊤ };

    /// Whether the resource can be read.
    ghost can_read: { Self → Type 0 } = { λ _. ⊤ };

    /// Returns an iterator that lends the paths one by one, each a slice of the source, and then ends. Copies and
    /// allocates nothing.
    fn iter_paths(self) -> Self::ResourceIter
        requires { can_read self }
        ensures can { Self.ResourceIter.can_next result }
        ensures begins { begins self result }
        ensures ends { IsFinite (Self.ResourceIter.remaining result) }
        ensures lends { LendsExactly Self.ResourceIter.next_gives result (paths self) }
        ensures runs { RunsThrough Self.ResourceIter.next_gives result (paths self) };
}
