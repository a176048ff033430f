//! The iterator over a set's packages.

ghost use Rattle.std.specs.Prelude.{◌<◌, All, length};
ghost use Rattle.numbered_graph.specs.ListedViews.{listed_left};

use crate::package_graph::PackageGraph;
use crate::package_metadata::PackageMetadata;
use list_facts::write_entries;
use numbered_graph::Listed;
use std::fmt;

/// Packages of a set in the order in which their graph lists them, from both ends.
#[derive(Clone, Copy)]
pub struct Packages<'g, 'a> {
    graph: &'g PackageGraph,
    listed: Listed<'a>,
    ghost in_range: { All (λ v. v < length graph.now.packages) (listed_left listed) },
}

impl<'g, 'a> Packages<'g, 'a> {
    ghost use Rattle.std.specs.Prelude.{◌≡◌};
    ghost use Rattle.guppy_package_graph.specs.PackagesViews.{packages_graph_of, packages_left};

    pub(crate) fn of(graph: &'g PackageGraph, listed: Listed<'a>) -> Packages<'g, 'a>
        requires { All (λ v. v < length graph.now.packages) (listed_left listed) }
        ensures graph { packages_graph_of result ≡ graph.entry.now }
        ensures left { packages_left result ≡ listed_left listed.entry }
    {
        Packages { graph, listed }
    }
}

impl<'g> Iterator for Packages<'g, '_> {
    type Item = PackageMetadata<'g>;

    ghost use Rattle.std.specs.Iterator.{YieldsFirstBy, item_count};
    ghost use Rattle.guppy_package_graph.specs.Views.{seen};
    ghost use Rattle.guppy_package_graph.specs.PackagesViews.{all_left};

    ghost next_gives = { YieldsFirstBy seen all_left };

    ghost remaining = { item_count all_left };

    fn next(&mut self) -> Option<PackageMetadata<'g>> {
        let place = self.listed.next()?;
        Some(self.graph.metadata_at(place))
    }

    fn size_hint(&self) -> (usize, Option<usize>) {
        (self.listed.len(), Some(self.listed.len()))
    }
}

impl<'g> DoubleEndedIterator for Packages<'g, '_> {
    ghost use Rattle.std.specs.Iterator.{YieldsLastBy};
    ghost use Rattle.guppy_package_graph.specs.Views.{seen};
    ghost use Rattle.guppy_package_graph.specs.PackagesViews.{all_left};

    ghost next_back_gives = { YieldsLastBy seen all_left };

    fn next_back(&mut self) -> Option<PackageMetadata<'g>> {
        let place = self.listed.next_back()?;
        Some(self.graph.metadata_at(place))
    }
}

impl ExactSizeIterator for Packages<'_, '_> {
    fn len(&self) -> usize {
        self.listed.len()
    }
}

/// Lists what is still to come.
impl fmt::Debug for Packages<'_, '_> {
    fn fmt<W: fmt::Write>(&self, f: &mut fmt::Formatter<W>) -> fmt::Result {
        write_entries(f, *self)
    }
}
