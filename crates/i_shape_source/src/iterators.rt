//! Iterators over nested lists of points. Each has a list of paths, and lends those that are left, in order.
ghost use Rattle.std.specs.Prelude.{◌≡◌, [], ◌∷◌, length, map};
ghost use Rattle.std.specs.Iterator.{at_most};
ghost use Rattle.std.specs.Map.Iter.{TakesFirst, deref};
ghost use Rattle.i_shape_source.specs.Paths.{LendsExactly, RunsThrough, paths_of_shape, paths_of_shapes, paths_of_slices};
ghost use Rattle.std.specs.Iterator.Adapters.{copied_source, copied_steps};
ghost use Rattle.std.specs.Slice.Iter.{iter_rest, iter_steps};

use std::iter::Copied;
use std::marker::Model;
use std::slice::Iter;

/// Lends one path, even an empty one.
#[derive(Drop)]
pub struct ContourResourceIterator<'a, P> {
    path: Option<&'a [P]>,
}

impl<'a, P> Model for ContourResourceIterator<'a, P> {
    ghost use Rattle.std.specs.Prelude.{List};
    ghost use Rattle.i_shape_source.specs.Paths.{path_left};

    ghost Value = { List (List P) };

    ghost view = { λ s. path_left s.path };
}

impl<'a, P> ContourResourceIterator<'a, P> {
    #[tactic(auto, using(crate::proofs::Lent::lends_from_list))]
    pub(crate) fn with_slice(path: &'a [P]) -> Self
        ensures left { result ≡ path.now ∷ [] }
        ensures lends { LendsExactly (TakesFirst deref) result (path.now ∷ []) }
        ensures runs { RunsThrough (TakesFirst deref) result (path.now ∷ []) }
    {
        ContourResourceIterator { path: Some(path) }
    }
}

impl<'a, P> Iterator for ContourResourceIterator<'a, P> {
    type Item = &'a [P];

    ghost next_gives = { TakesFirst deref };

    ghost remaining = { λ s. at_most (length s) };

    fn next(&mut self) -> Option<&'a [P]> {
        self.path.take()
    }
}

/// Lends the paths of one shape, including empty ones.
#[derive(Drop)]
pub struct ShapeResourceIterator<'a, P> {
    paths: &'a [Vec<P>],
}

impl<'a, P> Model for ShapeResourceIterator<'a, P> {
    ghost use Rattle.std.specs.Prelude.{List};
    ghost use Rattle.i_shape_source.specs.Paths.{paths_of_shape};

    ghost Value = { List (List P) };

    ghost view = { λ s. paths_of_shape s.paths.now };
}

impl<'a, P> ShapeResourceIterator<'a, P> {
    #[tactic(auto, using(crate::proofs::Lent::lends_from_list))]
    pub(crate) fn with_slice(paths: &'a [Vec<P>]) -> Self
        ensures left { result ≡ paths_of_shape paths.now }
        ensures lends { LendsExactly (TakesFirst deref) result (paths_of_shape paths.now) }
        ensures runs { RunsThrough (TakesFirst deref) result (paths_of_shape paths.now) }
    {
        ShapeResourceIterator { paths }
    }
}

impl<'a, P> Iterator for ShapeResourceIterator<'a, P> {
    type Item = &'a [P];

    ghost next_gives = { TakesFirst deref };

    ghost remaining = { λ s. at_most (length s) };

    fn next(&mut self) -> Option<&'a [P]> {
        let (first, rest) = self.paths.split_first()?;
        self.paths = rest;
        Some(first.as_slice())
    }
}

/// Lends the paths of each shape, including empty ones. An empty shape adds none.
#[derive(Drop)]
pub struct ShapesResourceIterator<'a, P> {
    paths: &'a [Vec<P>],
    shapes: &'a [Vec<Vec<P>>],
}

impl<'a, P> Model for ShapesResourceIterator<'a, P> {
    ghost use Rattle.std.specs.Prelude.{List, ◌++◌};
    ghost use Rattle.i_shape_source.specs.Paths.{paths_of_shape, paths_of_shapes};

    ghost Value = { List (List P) };

    ghost view = { λ s. paths_of_shape s.paths.now ++ paths_of_shapes s.shapes.now };
}

impl<'a, P> ShapesResourceIterator<'a, P> {
    #[tactic(auto, using(crate::proofs::Lent::lends_from_list))]
    pub(crate) fn with_slice(shapes: &'a [Vec<Vec<P>>]) -> Self
        ensures left { result ≡ paths_of_shapes shapes.now }
        ensures lends { LendsExactly (TakesFirst deref) result (paths_of_shapes shapes.now) }
        ensures runs { RunsThrough (TakesFirst deref) result (paths_of_shapes shapes.now) }
    {
        ShapesResourceIterator { paths: &[], shapes }
    }
}

impl<'a, P> Iterator for ShapesResourceIterator<'a, P> {
    type Item = &'a [P];

    ghost next_gives = { TakesFirst deref };

    ghost remaining = { λ s. at_most (length s) };

    fn next(&mut self) -> Option<&'a [P]> {
        loop {
            if let Some((first, rest)) = self.paths.split_first() {
                self.paths = rest;
                return Some(first.as_slice());
            }
            let (shape, rest) = self.shapes.split_first()?;
            self.paths = shape.as_slice();
            self.shapes = rest;
        }
    }
}

/// Returns an iterator that lends borrowed paths.
#[tactic(auto, using(crate::proofs::Lent::lends_slices))]
pub(crate) fn lend_slices<'a, P>(slices: &'a [&'a [P]]) -> Copied<Iter<'a, &'a [P]>>
    ensures left { iter_rest (copied_source result) ≡ slices.now }
    ensures lends { LendsExactly (copied_steps iter_steps) result (paths_of_slices slices.now) }
    ensures runs { RunsThrough (copied_steps iter_steps) result (paths_of_slices slices.now) }
{
    slices.iter().copied()
}
