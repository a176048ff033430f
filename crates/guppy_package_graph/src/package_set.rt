//! Sets of packages of a graph.

ghost use Rattle.std.specs.Prelude.{◌≡◌, ◌↔◌, ◌&&◌, ◌||◌, ℕ, ◌<◌, not, nat_lt, All, IfErr, IfOk, IsTrue, count_by, filter, length};
ghost use Rattle.numbered_graph.specs.ListedViews.{in_direction, listed_left};
ghost use Rattle.numbered_graph.specs.Listings.{IsListing};
ghost use Rattle.numbered_graph.specs.Sets.{differs, has};
ghost use Rattle.guppy_package_table.specs.Tables.{firm_flags, ids_of, numbered_links};
ghost use Rattle.guppy_package_graph.specs.Directions.{direction_of};
ghost use Rattle.guppy_package_graph.specs.Finding.{FindsMembership};
ghost use Rattle.guppy_package_graph.specs.IdViews.{listed_graph_of, listed_places_left};
ghost use Rattle.guppy_package_graph.specs.PackagesViews.{packages_graph_of, packages_left};
ghost use Rattle.guppy_package_graph.specs.SetValues.{listed};

use crate::dependency_direction::direction_of;
use crate::package_graph::PackageGraph;
use crate::package_ids::PackageIds;
use crate::package_query::PackageQuery;
use crate::packages::Packages;
use guppy_package_parts::{DependencyDirection, Error, PackageId};
use numbered_graph::{Listed, NodeSet};
use std::alloc::{AllocError, Global};
use std::fmt;
use std::marker::Model;

/// A set of packages of a graph.
#[derive(Drop)]
pub struct PackageSet<'g> {
    graph: &'g PackageGraph,
    included: NodeSet,
}

impl<'g> Model for PackageSet<'g> {
    ghost use Rattle.std.specs.Prelude.{◌≡◌, length};
    ghost use Rattle.guppy_package_graph.specs.SetValues.{SetValue};

    ghost Value = { SetValue };

    ghost view = { λ s. record { graph = s.graph.now; included = s.included } };

    ghost invariant = { λ s. length s.included ≡ length s.graph.now.packages };
}

impl<'g> PackageSet<'g> {
    pub(crate) fn of(graph: &'g PackageGraph, included: NodeSet) -> PackageSet<'g>
        requires { length included ≡ length graph.now.packages }
        ensures { result ≡ record { graph = graph.entry.now; included = included } }
    {
        PackageSet { graph, included }
    }

    /// The graph of the packages.
    pub fn graph(&self) -> &'g PackageGraph
        ensures graph { result.now ≡ self.now.graph }
    {
        self.graph
    }

    pub(crate) fn included(&self) -> &NodeSet
        ensures value { result.now ≡ self.now.included }
        ensures sized { length result.now ≡ length self.now.graph.packages }
    {
        &self.included
    }

    /// An equal set in memory of its own.
    pub fn copy(&self, alloc: Global) -> Result<PackageSet<'g>, AllocError>
        ensures same { IfOk result (λ s. s ≡ self.now) }
    {
        let included = same_places(alloc, &self.included)?;
        Ok(PackageSet::of(self.graph, included))
    }

    /// How many packages are in the set.
    pub fn len(&self) -> usize
        ensures count { result ≡ count_by (λ b. b) self.now.included }
    {
        self.included.len()
    }

    /// Whether no package is in the set.
    pub fn is_empty(&self) -> bool
        ensures empty { IsTrue result ↔ (count_by (λ b. b) self.now.included ≡ 0) }
    {
        self.len() == 0
    }

    /// Whether the package with an id is in the set.
    pub fn contains(&self, package_id: &PackageId) -> Result<bool, Error>
        ensures found { FindsMembership self.now.graph self.now.included package_id.now result }
    {
        let place = self.graph.place_of(package_id)?;
        Ok(self.included.contains(place))
    }

    /// Whether the graphs of both sets have the same list of package ids.
    pub fn same_packages(&self, other: &PackageSet<'_>) -> bool
        ensures same { IsTrue result ↔ (ids_of self.now.graph.packages
            ≡ ids_of other.now.graph.packages) }
    {
        self.graph.same_packages(other.graph)
    }

    /// The packages that are in one of the two sets.
    pub fn union(&self, alloc: Global, other: &PackageSet<'_>) -> Result<PackageSet<'g>, AllocError>
        requires { ids_of self.now.graph.packages ≡ ids_of other.now.graph.packages }
        ensures graph { IfOk result (λ s. s.graph ≡ self.now.graph) }
        ensures members { IfOk result (λ s. (v : ℕ)
            → has s.included v ≡ (has self.now.included v || has other.now.included v)) }
    {
        let included = self.included.union(alloc, &other.included)?;
        Ok(PackageSet::of(self.graph, included))
    }

    /// The packages that are in both sets.
    pub fn intersection(
        &self,
        alloc: Global,
        other: &PackageSet<'_>,
    ) -> Result<PackageSet<'g>, AllocError>
        requires { ids_of self.now.graph.packages ≡ ids_of other.now.graph.packages }
        ensures graph { IfOk result (λ s. s.graph ≡ self.now.graph) }
        ensures members { IfOk result (λ s. (v : ℕ)
            → has s.included v ≡ (has self.now.included v && has other.now.included v)) }
    {
        let included = self.included.intersection(alloc, &other.included)?;
        Ok(PackageSet::of(self.graph, included))
    }

    /// The packages that are in this set and not in the other.
    pub fn difference(
        &self,
        alloc: Global,
        other: &PackageSet<'_>,
    ) -> Result<PackageSet<'g>, AllocError>
        requires { ids_of self.now.graph.packages ≡ ids_of other.now.graph.packages }
        ensures graph { IfOk result (λ s. s.graph ≡ self.now.graph) }
        ensures members { IfOk result (λ s. (v : ℕ)
            → has s.included v ≡ (has self.now.included v && not (has other.now.included v))) }
    {
        let included = self.included.difference(alloc, &other.included)?;
        Ok(PackageSet::of(self.graph, included))
    }

    /// The packages that are in exactly one of the two sets.
    pub fn symmetric_difference(
        &self,
        alloc: Global,
        other: &PackageSet<'_>,
    ) -> Result<PackageSet<'g>, AllocError>
        requires { ids_of self.now.graph.packages ≡ ids_of other.now.graph.packages }
        ensures graph { IfOk result (λ s. s.graph ≡ self.now.graph) }
        ensures members { IfOk result (λ s. (v : ℕ)
            → has s.included v ≡ differs (has self.now.included v) (has other.now.included v)) }
    {
        let included = self.included.symmetric_difference(alloc, &other.included)?;
        Ok(PackageSet::of(self.graph, included))
    }

    // It takes no memory: it goes over the graph's listing and passes over what is not in the set. Its exact length
    // is counted when it is asked for.
    /// The packages of the set: components together, links between components forward, and those
    /// forward too that have a normal or a build line, unless they lie on a cycle of such links. In
    /// Reverse that list reversed.
    pub fn packages(&self, direction: DependencyDirection) -> Packages<'g, '_>
        ensures graph { packages_graph_of result ≡ self.now.graph }
        ensures listed { packages_left result ≡ in_direction (direction_of direction)
            (listed self.now) }
        ensures listing { IsListing (numbered_links self.now.graph)
            (has (firm_flags self.now.graph.links)) (has self.now.included) (listed self.now) }
    {
        Packages::of(self.graph, self.listed(direction))
    }

    /// The ids of the packages of the set, in the order of `packages`.
    pub fn package_ids(&self, direction: DependencyDirection) -> PackageIds<'g, '_>
        ensures graph { listed_graph_of result ≡ self.now.graph }
        ensures listed { listed_places_left result
            ≡ in_direction (direction_of direction) (listed self.now) }
        ensures listing { IsListing (numbered_links self.now.graph)
            (has (firm_flags self.now.graph.links)) (has self.now.included) (listed self.now) }
    {
        PackageIds::of(self.graph, self.listed(direction))
    }

    /// The places of the packages of the set, in that order.
    pub(crate) fn listed(&self, direction: DependencyDirection) -> Listed<'_>
        ensures listed { listed_left result ≡ in_direction (direction_of direction)
            (listed self.now) }
        ensures within { All (λ v. v < length self.now.graph.packages) (listed_left result) }
        ensures listing { IsListing (numbered_links self.now.graph)
            (has (firm_flags self.now.graph.links)) (has self.now.included) (listed self.now) }
    {
        let table = self.graph.table();
        Listed::new(table.listing(), &self.included, direction_of(direction))
    }
}

impl fmt::Debug for PackageSet<'_> {
    fn fmt<W: fmt::Write>(&self, f: &mut fmt::Formatter<W>) -> fmt::Result {
        f.debug_set()
            .entries(self.package_ids(DependencyDirection::Forward))
            .finish()
    }
}

/// The same places once more.
pub(crate) fn same_places(alloc: Global, places: &NodeSet) -> Result<NodeSet, AllocError>
    ensures { IfOk result (λ s. s ≡ places.now) }
{
    let same = places.union(alloc, places)?;
    Ok(same)
}
