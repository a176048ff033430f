//! Queries: packages to start from, and a direction.

ghost use Rattle.std.specs.Prelude.{◌≡◌, ◌<◌, ◌==◌, All, AllPairs, IfOk, length};
ghost use Rattle.std.specs.List.{list_any};
ghost use Rattle.guppy_package_graph.specs.Views.{packages_graph_of, places_left};

use crate::package_graph::PackageGraph;
use crate::packages_at::PackagesAt;
use guppy_package_parts::DependencyDirection;
use std::alloc::{AllocError, Global};
use std::fmt;
use std::marker::Model;

/// Packages of a graph from which links are followed in a direction, each once in the order of the
/// record.
#[derive(Drop)]
pub struct PackageQuery<'g> {
    graph: &'g PackageGraph,
    direction: DependencyDirection,
    initials: Vec<usize>,
}

impl<'g> Model for PackageQuery<'g> {
    ghost use Rattle.std.specs.Prelude.{◌<◌, All, AllPairs, length};
    ghost use Rattle.guppy_package_graph.specs.Queries.{QueryValue};

    ghost Value = { QueryValue };

    ghost view = { λ q. record { graph = q.graph.now; direction = q.direction; initials = q.initials.items } };

    ghost invariant = { λ q. All (λ v. v < length q.graph.now.packages) q.initials.items × AllPairs (λ u v. u < v) q.initials.items };
}

impl<'g> PackageQuery<'g> {
    pub(crate) fn of(
        graph: &'g PackageGraph,
        direction: DependencyDirection,
        initials: Vec<usize>,
    ) -> PackageQuery<'g>
        requires within { All (λ v. v < length graph.now.packages) initials.items }
        requires ascending { AllPairs (λ u v. u < v) initials.items }
        ensures { result ≡ record {
          graph = graph.entry.now;
          direction = direction;
          initials = initials.items;
        } }
    {
        PackageQuery {
            graph,
            direction,
            initials,
        }
    }

    /// An equal query in memory of its own.
    pub fn copy(&self, alloc: Global) -> Result<PackageQuery<'g>, AllocError>
        ensures same { IfOk result (λ q. q ≡ self.now) }
    {
        let initials = Vec::from_slice(alloc, &self.initials)?;
        Ok(PackageQuery::of(self.graph, self.direction, initials))
    }

    /// The graph that is asked.
    pub fn graph(&self) -> &'g PackageGraph
        ensures graph { result.now ≡ self.now.graph }
    {
        self.graph
    }

    /// The direction in which links are followed.
    pub fn direction(&self) -> DependencyDirection
        ensures direction { result ≡ self.now.direction }
    {
        self.direction
    }

    /// The packages from which links are followed, each once in the order of the record.
    pub fn initials(&self) -> PackagesAt<'g, '_>
        ensures graph { packages_graph_of result ≡ self.now.graph }
        ensures initials { places_left result ≡ self.now.initials }
    {
        PackagesAt::of(self.graph, &self.initials)
    }

    pub(crate) fn starts(&self) -> &[usize]
        ensures value { result.now ≡ self.now.initials }
        ensures within { All (λ v. v < length self.now.graph.packages) result.now }
    {
        &self.initials
    }

    pub(crate) fn starts_from(&self, place: usize) -> bool
        ensures { result ≡ list_any (λ v. v == place) self.now.initials }
    {
        self.initials.binary_search(&place).is_ok()
    }
}

impl fmt::Debug for PackageQuery<'_> {
    fn fmt<W: fmt::Write>(&self, f: &mut fmt::Formatter<W>) -> fmt::Result {
        f.debug_struct("PackageQuery")
            .field("direction", &self.direction)
            .field("initials", &self.initials())
            .finish_non_exhaustive()
    }
}
