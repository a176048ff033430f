//! The iterator over links between packages.

ghost use Rattle.std.specs.Prelude.{◌<◌, All, length};

use guppy_package_graph::{PackageGraph, PackageLink};
use list_facts::write_entries;
use std::fmt;

/// Links between packages, one after the other.
#[derive(Clone, Copy)]
pub struct PackageLinks<'g> {
    graph: &'g PackageGraph,
    numbers: &'g [usize],
    ghost in_range: { All (λ n. n < length graph.now.links) numbers.now },
}

impl<'g> PackageLinks<'g> {
    ghost use Rattle.std.specs.Prelude.{◌≡◌};
    ghost use Rattle.guppy_feature_views.specs.PackageLinkViews.{links_graph_of, numbers_left};

    /// The links with these numbers.
    pub fn of(graph: &'g PackageGraph, numbers: &'g [usize]) -> PackageLinks<'g>
        requires { All (λ n. n < length graph.now.links) numbers.now }
        ensures graph { links_graph_of result ≡ graph.entry.now }
        ensures numbers { numbers_left result ≡ numbers.entry.now }
    {
        PackageLinks { graph, numbers }
    }
}

impl<'g> Iterator for PackageLinks<'g> {
    type Item = PackageLink<'g>;

    ghost use Rattle.std.specs.Iterator.{YieldsFirstBy, item_count};
    ghost use Rattle.guppy_feature_views.specs.PackageLinkViews.{all_left, seen_link};

    ghost next_gives = { YieldsFirstBy seen_link all_left };

    ghost remaining = { item_count all_left };

    fn next(&mut self) -> Option<PackageLink<'g>> {
        let (first, others) = self.numbers.split_first()?;
        self.numbers = others;
        Some(self.graph.link_at(*first))
    }

    fn size_hint(&self) -> (usize, Option<usize>) {
        (self.numbers.len(), Some(self.numbers.len()))
    }
}

impl ExactSizeIterator for PackageLinks<'_> {
    fn len(&self) -> usize {
        self.numbers.len()
    }
}

/// Lists what is still to come.
impl fmt::Debug for PackageLinks<'_> {
    fn fmt<W: fmt::Write>(&self, f: &mut fmt::Formatter<W>) -> fmt::Result {
        write_entries(f, *self)
    }
}
