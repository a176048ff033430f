//! The iterator over members with their names.

ghost use Rattle.std.specs.Prelude.{◌<◌, All, length};

use crate::package_graph::PackageGraph;
use crate::package_metadata::PackageMetadata;
use crate::places::Places;
use guppy_package_table::name_at;
use list_facts::write_entries;
use std::fmt;

/// Members of a workspace with their names, one after the other.
#[derive(Clone, Copy)]
pub struct MembersByName<'g> {
    places: Places<'g, 'g>,
}

impl<'g> MembersByName<'g> {
    ghost use Rattle.std.specs.Prelude.{◌≡◌};
    ghost use Rattle.guppy_package_graph.specs.MemberViews.{called_graph_of, called_places_left};

    pub(crate) fn of(graph: &'g PackageGraph, places: &'g [usize]) -> MembersByName<'g>
        requires { All (λ v. v < length graph.now.packages) places.now }
        ensures graph { called_graph_of result ≡ graph.entry.now }
        ensures places { called_places_left result ≡ places.entry.now }
    {
        MembersByName {
            places: Places::of(graph, places),
        }
    }
}

impl<'g> Iterator for MembersByName<'g> {
    type Item = (&'g str, PackageMetadata<'g>);

    ghost use Rattle.std.specs.Iterator.{YieldsFirstBy, item_count};
    ghost use Rattle.guppy_package_graph.specs.MemberViews.{all_names_left, seen_with};

    ghost next_gives = { YieldsFirstBy seen_with all_names_left };

    ghost remaining = { item_count all_names_left };

    fn next(&mut self) -> Option<(&'g str, PackageMetadata<'g>)> {
        let place = self.places.first()?;
        let graph = self.places.graph();
        Some((name_at(graph.table(), place), graph.metadata_at(place)))
    }

    fn size_hint(&self) -> (usize, Option<usize>) {
        (self.places.len(), Some(self.places.len()))
    }
}

impl ExactSizeIterator for MembersByName<'_> {
    fn len(&self) -> usize {
        self.places.len()
    }
}

/// Lists what is still to come.
impl fmt::Debug for MembersByName<'_> {
    fn fmt<W: fmt::Write>(&self, f: &mut fmt::Formatter<W>) -> fmt::Result {
        write_entries(f, *self)
    }
}
