//! The walk over places that the other iterators share.

ghost use Rattle.std.specs.Prelude.{◌<◌, All, length};

use crate::package_graph::PackageGraph;

/// Places of packages of a graph, one after the other, from both ends.
#[derive(Clone, Copy)]
pub struct Places<'g, 'a> {
    graph: &'g PackageGraph,
    left: &'a [usize],
    ghost in_range: { All (λ v. v < length graph.now.packages) left.now },
}

impl<'g, 'a> Places<'g, 'a> {
    ghost use Rattle.std.specs.Prelude.{◌≡◌, ◌++◌, ◌∷◌, [], IfSome, MatchOption};
    ghost use Rattle.guppy_package_graph.specs.PlaceViews.{graph_of_places, left_of_places};

    /// These places of packages of a graph.
    pub fn of(graph: &'g PackageGraph, left: &'a [usize]) -> Places<'g, 'a>
        requires { All (λ v. v < length graph.now.packages) left.now }
        ensures graph { graph_of_places result ≡ graph.entry.now }
        ensures left { left_of_places result ≡ left.entry.now }
    {
        Places { graph, left }
    }

    /// The graph of the packages.
    pub fn graph(&self) -> &'g PackageGraph
        ensures { result.now ≡ graph_of_places self.now }
    {
        self.graph
    }

    /// How many are still to come.
    pub fn len(&self) -> usize
        ensures { result ≡ length (left_of_places self.now) }
    {
        self.left.len()
    }

    /// The first of those that are still to come.
    pub fn first(&mut self) -> Option<usize>
        ensures steps { MatchOption result ((left_of_places self.old ≡ [])
            × (left_of_places self.new ≡ []))
            (λ v. left_of_places self.old ≡ v ∷ left_of_places self.new) }
        ensures within { IfSome result (λ v. v < length (graph_of_places self.old).packages) }
        ensures graph { graph_of_places self.new ≡ graph_of_places self.old }
    {
        let (first, others) = self.left.split_first()?;
        self.left = others;
        Some(*first)
    }

    /// The last of them.
    pub fn last(&mut self) -> Option<usize>
        ensures steps { MatchOption result ((left_of_places self.old ≡ [])
            × (left_of_places self.new ≡ []))
            (λ v. left_of_places self.old ≡ left_of_places self.new ++ v ∷ []) }
        ensures within { IfSome result (λ v. v < length (graph_of_places self.old).packages) }
        ensures graph { graph_of_places self.new ≡ graph_of_places self.old }
    {
        let (last, others) = self.left.split_last()?;
        self.left = others;
        Some(*last)
    }
}
