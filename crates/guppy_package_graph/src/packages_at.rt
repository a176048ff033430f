//! The iterator over packages at given places.

ghost use Rattle.std.specs.Prelude.{◌<◌, All, length};

use crate::package_graph::PackageGraph;
use crate::package_metadata::PackageMetadata;
use crate::places::Places;
use list_facts::write_entries;
use std::fmt;

/// Packages of a graph, one after the other.
#[derive(Clone, Copy)]
pub struct PackagesAt<'g, 'a> {
    places: Places<'g, 'a>,
}

impl<'g, 'a> PackagesAt<'g, 'a> {
    ghost use Rattle.std.specs.Prelude.{◌≡◌};
    ghost use Rattle.guppy_package_graph.specs.Views.{places_left, packages_graph_of};

    pub(crate) fn of(graph: &'g PackageGraph, places: &'a [usize]) -> PackagesAt<'g, 'a>
        requires { All (λ v. v < length graph.now.packages) places.now }
        ensures graph { packages_graph_of result ≡ graph.entry.now }
        ensures places { places_left result ≡ places.entry.now }
    {
        PackagesAt {
            places: Places::of(graph, places),
        }
    }
}

impl<'g> Iterator for PackagesAt<'g, '_> {
    type Item = PackageMetadata<'g>;

    ghost use Rattle.std.specs.Iterator.{YieldsFirstBy, item_count};
    ghost use Rattle.guppy_package_graph.specs.Views.{all_left, seen};

    ghost next_gives = { YieldsFirstBy seen all_left };

    ghost remaining = { item_count all_left };

    fn next(&mut self) -> Option<PackageMetadata<'g>> {
        let place = self.places.first()?;
        Some(self.places.graph().metadata_at(place))
    }

    fn size_hint(&self) -> (usize, Option<usize>) {
        (self.places.len(), Some(self.places.len()))
    }
}

impl<'g> DoubleEndedIterator for PackagesAt<'g, '_> {
    ghost use Rattle.std.specs.Iterator.{YieldsLastBy};
    ghost use Rattle.guppy_package_graph.specs.Views.{all_left, seen};

    ghost next_back_gives = { YieldsLastBy seen all_left };

    fn next_back(&mut self) -> Option<PackageMetadata<'g>> {
        let place = self.places.last()?;
        Some(self.places.graph().metadata_at(place))
    }
}

impl ExactSizeIterator for PackagesAt<'_, '_> {
    fn len(&self) -> usize {
        self.places.len()
    }
}

/// Lists what is still to come.
impl fmt::Debug for PackagesAt<'_, '_> {
    fn fmt<W: fmt::Write>(&self, f: &mut fmt::Formatter<W>) -> fmt::Result {
        write_entries(f, *self)
    }
}
