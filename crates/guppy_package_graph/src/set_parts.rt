//! Roots of sets of packages, and links inside them.

ghost use Rattle.std.specs.Prelude.{◌≡◌, ◌↔◌, ◌<◌, ℕ, List, All, AllPairs, Contains, IfOk, IsTrue, filter, length, map};
ghost use Rattle.numbered_graph.specs.Listings.{numbers_below};
ghost use Rattle.numbered_graph.specs.Roots.{IsRoot, is_inside};
ghost use Rattle.numbered_graph.specs.Sets.{has};
ghost use Rattle.guppy_package_table.specs.Tables.{id_at, numbered_links};
ghost use Rattle.guppy_package_graph.specs.Directions.{direction_of};
ghost use Rattle.guppy_package_graph.specs.Queries.{IsQueryOf};
ghost use Rattle.guppy_package_graph.specs.SetRoots.{AreRoots};
ghost use Rattle.guppy_package_graph.specs.Views.{graph_of, link_graph_of, number_of, place_of};

use crate::dependency_direction::direction_of;
use crate::package_graph::PackageGraph;
use crate::package_link::PackageLink;
use crate::package_metadata::PackageMetadata;
use crate::package_query::PackageQuery;
use crate::package_set::PackageSet;
use crate::queries::query_of_set;
use guppy_package_parts::{DependencyDirection, PackageId};
use numbered_graph::{links_inside, root_nodes};
use std::alloc::{AllocError, Global};

impl<'g> PackageSet<'g> {
    /// A query from the packages of the set.
    pub fn to_package_query(
        &self,
        alloc: Global,
        direction: DependencyDirection,
    ) -> Result<PackageQuery<'g>, AllocError>
        ensures query { IfOk result (IsQueryOf self.now.graph direction
            (λ v. IsTrue (has self.now.included v))) }
    {
        query_of_set(alloc, self.graph(), direction, self.included())
    }

    /// The packages whose component no link inside the set enters from another component, or in
    /// Reverse leaves to another, in the order of the record.
    pub fn root_packages(
        &self,
        alloc: Global,
        direction: DependencyDirection,
    ) -> Result<Vec<PackageMetadata<'g>>, AllocError>
        ensures graphs { IfOk result (λ ps. All (λ m. graph_of m ≡ self.now.graph) ps.items) }
        ensures ascending { IfOk result (λ ps. AllPairs (λ u v. u < v) (map place_of ps.items)) }
        ensures each { IfOk result (λ ps. (v : ℕ) → Contains (map place_of ps.items) v
            ↔ (IsTrue (has self.now.included v)
            × IsRoot (direction_of direction) (numbered_links self.now.graph) self.now.included
            v)) }
    {
        let places = root_places(alloc, self, direction)?;
        packages_of(alloc, self.graph(), &places)
    }

    /// The ids of those packages.
    pub fn root_ids(
        &self,
        alloc: Global,
        direction: DependencyDirection,
    ) -> Result<Vec<&'g PackageId>, AllocError>
        ensures roots { IfOk result (λ ids. (places : List ℕ) × AreRoots self.now direction places
            × (map (λ id. id.now) ids.items ≡ map (id_at self.now.graph) places)) }
    {
        let places = root_places(alloc, self, direction)?;
        ids_at(alloc, self.graph(), &places)
    }

    /// The links whose ends are both in the set, each once in the order of the record.
    pub fn links(&self, alloc: Global) -> Result<Vec<PackageLink<'g>>, AllocError>
        ensures graphs { IfOk result (λ ls. All (λ l. link_graph_of l ≡ self.now.graph) ls.items) }
        ensures inside { IfOk result (λ ls. map number_of ls.items
            ≡ filter (is_inside (numbered_links self.now.graph) self.now.included)
            (numbers_below (length self.now.graph.links))) }
    {
        let graph = self.graph();
        let numbers = links_inside(alloc, graph.table().graph(), self.included())?;
        links_of(alloc, graph, &numbers)
    }
}

/// The places of the roots of a set.
fn root_places(
    alloc: Global,
    set: &PackageSet<'_>,
    direction: DependencyDirection,
) -> Result<Vec<usize>, AllocError>
    ensures ascending { IfOk result (λ places. AllPairs (λ u v. u < v) places.items) }
    ensures each { IfOk result (λ places. (v : ℕ) → Contains places.items v
        ↔ (IsTrue (has set.now.included v)
        × IsRoot (direction_of direction) (numbered_links set.now.graph) set.now.included v)) }
    ensures within { IfOk result (λ places. All (λ v. v < length set.now.graph.packages)
        places.items) }
{
    root_nodes(
        alloc,
        set.graph().table().graph(),
        set.included(),
        direction_of(direction),
    )
}

fn ids_at<'g>(
    alloc: Global,
    graph: &'g PackageGraph,
    places: &[usize],
) -> Result<Vec<&'g PackageId>, AllocError>
    requires { All (λ v. v < length graph.now.packages) places.now }
    ensures { IfOk result (λ ids. map (λ id. id.now) ids.items
        ≡ map (id_at graph.entry.now) places.now) }
{
    let mut ids: Vec<&'g PackageId> = Vec::with_capacity(alloc, places.len())?;
    for place in places {
        ids.push(graph.id_at(*place))?;
    }
    Ok(ids)
}

pub(crate) fn packages_of<'g>(
    alloc: Global,
    graph: &'g PackageGraph,
    places: &[usize],
) -> Result<Vec<PackageMetadata<'g>>, AllocError>
    requires { All (λ v. v < length graph.now.packages) places.now }
    ensures places { IfOk result (λ ps. map place_of ps.items ≡ places.now) }
    ensures graphs { IfOk result (λ ps. All (λ m. graph_of m ≡ graph.entry.now) ps.items) }
{
    let mut packages = Vec::with_capacity(alloc, places.len())?;
    for place in places {
        packages.push(graph.metadata_at(*place))?;
    }
    Ok(packages)
}

fn links_of<'g>(
    alloc: Global,
    graph: &'g PackageGraph,
    numbers: &[usize],
) -> Result<Vec<PackageLink<'g>>, AllocError>
    requires { All (λ j. j < length graph.now.links) numbers.now }
    ensures numbers { IfOk result (λ ls. map number_of ls.items ≡ numbers.now) }
    ensures graphs { IfOk result (λ ls. All (λ l. link_graph_of l ≡ graph.entry.now) ls.items) }
{
    let mut links = Vec::with_capacity(alloc, numbers.len())?;
    for number in numbers {
        links.push(graph.link_at(*number))?;
    }
    Ok(links)
}
