//! One package as a query and as a set.

ghost use Rattle.std.specs.Prelude.{◌≡◌, IfOk};
ghost use Rattle.guppy_package_graph.specs.Queries.{IsQueryOf};
ghost use Rattle.guppy_package_graph.specs.SetValues.{IsSetOf};
ghost use Rattle.guppy_package_graph.specs.Views.{graph_of, place_of};

use crate::package_metadata::PackageMetadata;
use crate::package_query::PackageQuery;
use crate::package_set::PackageSet;
use crate::queries::query_of_set;
use guppy_package_parts::DependencyDirection;
use numbered_graph::NodeSet;
use std::alloc::{AllocError, Global};

impl<'g> PackageMetadata<'g> {
    /// A query from this package in a direction.
    pub fn to_package_query(
        &self,
        alloc: Global,
        direction: DependencyDirection,
    ) -> Result<PackageQuery<'g>, AllocError>
        ensures query { IfOk result (IsQueryOf (graph_of self.now) direction
            (λ v. v ≡ place_of self.now)) }
    {
        let graph = self.graph();
        let set = NodeSet::of(alloc, graph.package_count(), &[self.place()])?;
        query_of_set(alloc, graph, direction, &set)
    }

    /// The set of this package alone.
    pub fn to_package_set(&self, alloc: Global) -> Result<PackageSet<'g>, AllocError>
        ensures named { IfOk result (IsSetOf (graph_of self.now) (λ v. v ≡ place_of self.now)) }
    {
        let graph = self.graph();
        let set = NodeSet::of(alloc, graph.package_count(), &[self.place()])?;
        Ok(PackageSet::of(graph, set))
    }
}
