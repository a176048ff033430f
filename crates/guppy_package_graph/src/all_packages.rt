//! The iterator over all packages of a graph.

use crate::package_graph::PackageGraph;
use crate::package_metadata::PackageMetadata;
use list_facts::write_entries;
use std::fmt;

/// The packages of a graph, in the order of the record.
#[derive(Clone, Copy)]
pub struct AllPackages<'g> {
    graph: &'g PackageGraph,
    next: usize,
}

impl<'g> AllPackages<'g> {
    ghost use Rattle.std.specs.Prelude.{◌≡◌, length};
    ghost use Rattle.guppy_package_graph.specs.AllViews.{all_graph_of, all_packages_left, first_left};

    pub(crate) fn of(graph: &'g PackageGraph) -> AllPackages<'g>
        ensures graph { all_graph_of result ≡ graph.entry.now }
        ensures first { first_left result ≡ 0 }
    {
        AllPackages { graph, next: 0 }
    }

    fn left(&self) -> usize
        ensures { result ≡ length (all_packages_left self.now) }
    {
        self.graph.package_count().saturating_sub(self.next)
    }
}

impl<'g> Iterator for AllPackages<'g> {
    type Item = PackageMetadata<'g>;

    ghost use Rattle.std.specs.Iterator.{YieldsFirstBy, item_count};
    ghost use Rattle.guppy_package_graph.specs.AllViews.{all_packages_left};
    ghost use Rattle.guppy_package_graph.specs.Views.{seen};

    ghost next_gives = { YieldsFirstBy seen all_packages_left };

    ghost remaining = { item_count all_packages_left };

    fn next(&mut self) -> Option<PackageMetadata<'g>> {
        let place = self.next;
        if place < self.graph.package_count() {
            self.next = place + 1;
            Some(self.graph.metadata_at(place))
        } else {
            None
        }
    }

    fn size_hint(&self) -> (usize, Option<usize>) {
        (self.left(), Some(self.left()))
    }
}

impl ExactSizeIterator for AllPackages<'_> {
    fn len(&self) -> usize {
        self.left()
    }
}

/// Lists what is still to come.
impl fmt::Debug for AllPackages<'_> {
    fn fmt<W: fmt::Write>(&self, f: &mut fmt::Formatter<W>) -> fmt::Result {
        write_entries(f, *self)
    }
}
