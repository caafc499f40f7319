//! Orders in which edges are walked: as they are given, or by a list of places.

ghost use Rattle.std.specs.Prelude.{◌≡◌, ◌<◌, ◌≤◌, ℕ, length, slice_index};

/// An order of edges. An edge is named by the place of the point from which it leads, and has a rank in the order.
pub trait Order: Copy {
    /// The number of edges.
    ghost count: { Self → ℕ };

    /// The edge at a rank.
    ghost edge_at: { Self → ℕ → ℕ };

    /// Returns the edge at a rank.
    fn edge(self, rank: usize) -> usize
        requires { rank < count self }
        ensures { result ≡ edge_at self rank };

    /// Returns a rank before which there are no edges after the given one.
    fn start_after(self, edge: usize) -> usize
        requires { edge < count self }
        ensures { (k : ℕ) → k < result → edge_at self k ≤ edge };

    /// Returns an edge before which all edges have ranks before the given one.
    fn edge_from(self, rank: usize) -> usize
        ensures { (k : ℕ) → edge_at self k < result → k < rank };
}

/// So many edges as they are given.
#[derive(Clone, Copy)]
pub struct AsGiven {
    pub count: usize,
}

impl Order for AsGiven {
    ghost count = { λ it. it.count };

    ghost edge_at = { λ it rank. rank };

    fn edge(self, rank: usize) -> usize {
        rank
    }

    fn start_after(self, edge: usize) -> usize {
        edge + 1
    }

    fn edge_from(self, rank: usize) -> usize {
        rank
    }
}

/// Edges in the order of a list.
#[derive(Clone, Copy)]
pub struct Listed<'a> {
    pub edges: &'a [usize],
}

impl<'a> Order for Listed<'a> {
    ghost count = { λ it. length it.edges.now };

    ghost edge_at = { λ it. slice_index it.edges.now };

    fn edge(self, rank: usize) -> usize {
        self.edges[rank]
    }

    fn start_after(self, _edge: usize) -> usize {
        0
    }

    fn edge_from(self, _rank: usize) -> usize {
        0
    }
}
