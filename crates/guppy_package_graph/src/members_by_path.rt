//! The iterator over members with their paths.

ghost use Rattle.std.specs.Prelude.{◌<◌, All, length};

use crate::package_graph::PackageGraph;
use crate::package_metadata::PackageMetadata;
use crate::places::Places;
use guppy_package_table::path_at;
use list_facts::write_entries;
use std::fmt;

/// Members of a workspace with their paths, one after the other.
#[derive(Clone, Copy)]
pub struct MembersByPath<'g> {
    places: Places<'g, 'g>,
}

impl<'g> MembersByPath<'g> {
    ghost use Rattle.std.specs.Prelude.{◌≡◌};
    ghost use Rattle.guppy_package_graph.specs.MemberViews.{path_graph_of, path_places_left};

    pub(crate) fn of(graph: &'g PackageGraph, places: &'g [usize]) -> MembersByPath<'g>
        requires { All (λ v. v < length graph.now.packages) places.now }
        ensures graph { path_graph_of result ≡ graph.entry.now }
        ensures places { path_places_left result ≡ places.entry.now }
    {
        MembersByPath {
            places: Places::of(graph, places),
        }
    }
}

impl<'g> Iterator for MembersByPath<'g> {
    type Item = (&'g str, PackageMetadata<'g>);

    ghost use Rattle.std.specs.Iterator.{YieldsFirstBy, item_count};
    ghost use Rattle.guppy_package_graph.specs.MemberViews.{all_paths_left, seen_with};

    ghost next_gives = { YieldsFirstBy seen_with all_paths_left };

    ghost remaining = { item_count all_paths_left };

    fn next(&mut self) -> Option<(&'g str, PackageMetadata<'g>)> {
        let place = self.places.first()?;
        let graph = self.places.graph();
        Some((path_at(graph.table(), place), graph.metadata_at(place)))
    }

    fn size_hint(&self) -> (usize, Option<usize>) {
        (self.places.len(), Some(self.places.len()))
    }
}

impl ExactSizeIterator for MembersByPath<'_> {
    fn len(&self) -> usize {
        self.places.len()
    }
}

/// Lists what is still to come.
impl fmt::Debug for MembersByPath<'_> {
    fn fmt<W: fmt::Write>(&self, f: &mut fmt::Formatter<W>) -> fmt::Result {
        write_entries(f, *self)
    }
}
