//! The iterator over ids of packages.

ghost use Rattle.std.specs.Prelude.{◌<◌, All, length};
ghost use Rattle.numbered_graph.specs.ListedViews.{listed_left};

use crate::package_graph::PackageGraph;
use crate::places::Places;
use guppy_package_parts::PackageId;
use list_facts::write_entries;
use numbered_graph::Listed;
use std::fmt;

/// The ids of packages of a graph, one after the other, from both ends.
#[derive(Clone, Copy)]
pub struct PackageIdsAt<'g, 'a> {
    places: Places<'g, 'a>,
}

impl<'g, 'a> PackageIdsAt<'g, 'a> {
    ghost use Rattle.std.specs.Prelude.{◌≡◌};
    ghost use Rattle.guppy_package_graph.specs.IdViews.{id_places_left, ids_graph_of};

    pub(crate) fn of(graph: &'g PackageGraph, places: &'a [usize]) -> PackageIdsAt<'g, 'a>
        requires { All (λ v. v < length graph.now.packages) places.now }
        ensures graph { ids_graph_of result ≡ graph.entry.now }
        ensures places { id_places_left result ≡ places.entry.now }
    {
        PackageIdsAt {
            places: Places::of(graph, places),
        }
    }
}

impl<'g> Iterator for PackageIdsAt<'g, '_> {
    type Item = &'g PackageId;

    ghost use Rattle.std.specs.Iterator.{YieldsFirstBy, item_count};
    ghost use Rattle.guppy_package_graph.specs.IdViews.{all_ids_left};

    ghost next_gives = { YieldsFirstBy (λ id. id.now) all_ids_left };

    ghost remaining = { item_count all_ids_left };

    fn next(&mut self) -> Option<&'g PackageId> {
        let place = self.places.first()?;
        Some(self.places.graph().id_at(place))
    }

    fn size_hint(&self) -> (usize, Option<usize>) {
        (self.places.len(), Some(self.places.len()))
    }
}

impl<'g> DoubleEndedIterator for PackageIdsAt<'g, '_> {
    ghost use Rattle.std.specs.Iterator.{YieldsLastBy};
    ghost use Rattle.guppy_package_graph.specs.IdViews.{all_ids_left};

    ghost next_back_gives = { YieldsLastBy (λ id. id.now) all_ids_left };

    fn next_back(&mut self) -> Option<&'g PackageId> {
        let place = self.places.last()?;
        Some(self.places.graph().id_at(place))
    }
}

impl ExactSizeIterator for PackageIdsAt<'_, '_> {
    fn len(&self) -> usize {
        self.places.len()
    }
}

/// The ids of the packages of a set in the order in which their graph lists them, from both ends.
#[derive(Clone, Copy)]
pub struct PackageIds<'g, 'a> {
    graph: &'g PackageGraph,
    listed: Listed<'a>,
    ghost in_range: { All (λ v. v < length graph.now.packages) (listed_left listed) },
}

impl<'g, 'a> PackageIds<'g, 'a> {
    ghost use Rattle.std.specs.Prelude.{◌≡◌};
    ghost use Rattle.guppy_package_graph.specs.IdViews.{listed_graph_of, listed_places_left};

    pub(crate) fn of(graph: &'g PackageGraph, listed: Listed<'a>) -> PackageIds<'g, 'a>
        requires { All (λ v. v < length graph.now.packages) (listed_left listed) }
        ensures graph { listed_graph_of result ≡ graph.entry.now }
        ensures places { listed_places_left result ≡ listed_left listed.entry }
    {
        PackageIds { graph, listed }
    }
}

impl<'g> Iterator for PackageIds<'g, '_> {
    type Item = &'g PackageId;

    ghost use Rattle.std.specs.Iterator.{YieldsFirstBy, item_count};
    ghost use Rattle.guppy_package_graph.specs.IdViews.{all_listed_left};

    ghost next_gives = { YieldsFirstBy (λ id. id.now) all_listed_left };

    ghost remaining = { item_count all_listed_left };

    fn next(&mut self) -> Option<&'g PackageId> {
        let place = self.listed.next()?;
        Some(self.graph.id_at(place))
    }

    fn size_hint(&self) -> (usize, Option<usize>) {
        (self.listed.len(), Some(self.listed.len()))
    }
}

impl<'g> DoubleEndedIterator for PackageIds<'g, '_> {
    ghost use Rattle.std.specs.Iterator.{YieldsLastBy};
    ghost use Rattle.guppy_package_graph.specs.IdViews.{all_listed_left};

    ghost next_back_gives = { YieldsLastBy (λ id. id.now) all_listed_left };

    fn next_back(&mut self) -> Option<&'g PackageId> {
        let place = self.listed.next_back()?;
        Some(self.graph.id_at(place))
    }
}

impl ExactSizeIterator for PackageIds<'_, '_> {
    fn len(&self) -> usize {
        self.listed.len()
    }
}

/// Lists what is still to come.
impl fmt::Debug for PackageIdsAt<'_, '_> {
    fn fmt<W: fmt::Write>(&self, f: &mut fmt::Formatter<W>) -> fmt::Result {
        write_entries(f, *self)
    }
}

/// Lists what is still to come.
impl fmt::Debug for PackageIds<'_, '_> {
    fn fmt<W: fmt::Write>(&self, f: &mut fmt::Formatter<W>) -> fmt::Result {
        write_entries(f, *self)
    }
}
