//! Queries: where links are followed from.

ghost use Rattle.std.specs.Prelude.{◌≡◌, ◌∷◌, [], IfErr, IfOk, IsTrue, length, map};
ghost use Rattle.numbered_graph.specs.Sets.{has};
ghost use Rattle.guppy_package_parts.specs.declared.dependency_direction.DependencyDirection.TheVariants.{Forward, Reverse};
ghost use Rattle.guppy_package_graph.specs.Finding.{AreKnown, IsMissing, IsNamed};
ghost use Rattle.guppy_package_graph.specs.Members.{AreNamesKnown, ArePathsKnown, IsAtOneOf, IsCalledOneOf, IsMissingName, IsMissingPath};
ghost use Rattle.guppy_package_graph.specs.Queries.{IsQueryOf};
ghost use Rattle.guppy_package_graph.specs.Workspaces.{IsMemberPlace};

use crate::found_members::{set_at_paths, set_called};
use crate::found_packages::{set_of_ids, set_of_members};
use crate::package_graph::PackageGraph;
use crate::package_query::PackageQuery;
use guppy_package_parts::{DependencyDirection, Error, PackageId};
use numbered_graph::NodeSet;
use std::alloc::{AllocError, Global};

impl PackageGraph {
    /// A query from these packages in a direction.
    pub fn query_directed(
        &self,
        alloc: Global,
        package_ids: &[&PackageId],
        direction: DependencyDirection,
    ) -> Result<PackageQuery<'_>, Error>
        ensures query { IfOk result (IsQueryOf self.now direction
            (IsNamed self.now (map (λ id. id.now) package_ids.now))) }
        ensures known { IfOk result (λ _. AreKnown self.now (map (λ id. id.now) package_ids.now)) }
        ensures refused { IfErr result (IsMissing self.now (map (λ id. id.now) package_ids.now)) }
    {
        let set = set_of_ids(alloc, self, package_ids)?;
        let query = query_of_set(alloc, self, direction, &set)?;
        Ok(query)
    }

    /// A query from these packages to what they depend on.
    pub fn query_forward(
        &self,
        alloc: Global,
        package_ids: &[&PackageId],
    ) -> Result<PackageQuery<'_>, Error>
        ensures query { IfOk result (IsQueryOf self.now Forward
            (IsNamed self.now (map (λ id. id.now) package_ids.now))) }
        ensures known { IfOk result (λ _. AreKnown self.now (map (λ id. id.now) package_ids.now)) }
        ensures refused { IfErr result (IsMissing self.now (map (λ id. id.now) package_ids.now)) }
    {
        self.query_directed(alloc, package_ids, DependencyDirection::Forward)
    }

    /// A query from these packages to what depends on them.
    pub fn query_reverse(
        &self,
        alloc: Global,
        package_ids: &[&PackageId],
    ) -> Result<PackageQuery<'_>, Error>
        ensures query { IfOk result (IsQueryOf self.now Reverse
            (IsNamed self.now (map (λ id. id.now) package_ids.now))) }
        ensures known { IfOk result (λ _. AreKnown self.now (map (λ id. id.now) package_ids.now)) }
        ensures refused { IfErr result (IsMissing self.now (map (λ id. id.now) package_ids.now)) }
    {
        self.query_directed(alloc, package_ids, DependencyDirection::Reverse)
    }

    /// A query from the members of the workspace to what they depend on.
    pub fn query_workspace(&self, alloc: Global) -> Result<PackageQuery<'_>, AllocError>
        ensures query { IfOk result (IsQueryOf self.now Forward (IsMemberPlace self.now)) }
    {
        let members = set_of_members(alloc, self)?;
        let query = query_of_set(alloc, self, DependencyDirection::Forward, &members)?;
        Ok(query)
    }

    /// A query from the members with these paths to what they depend on.
    pub fn query_workspace_paths(
        &self,
        alloc: Global,
        paths: &[&str],
    ) -> Result<PackageQuery<'_>, Error>
        ensures query { IfOk result (IsQueryOf self.now Forward
            (IsAtOneOf self.now (map (λ path. path.now) paths.now))) }
        ensures known { IfOk result (λ _. ArePathsKnown self.now
            (map (λ path. path.now) paths.now)) }
        ensures refused { IfErr result (IsMissingPath self.now (map (λ path. path.now) paths.now)) }
    {
        let members = set_at_paths(alloc, self, paths)?;
        let query = query_of_set(alloc, self, DependencyDirection::Forward, &members)?;
        Ok(query)
    }

    /// A query from the members with these names to what they depend on.
    pub fn query_workspace_names(
        &self,
        alloc: Global,
        names: &[&str],
    ) -> Result<PackageQuery<'_>, Error>
        ensures query { IfOk result (IsQueryOf self.now Forward
            (IsCalledOneOf self.now (map (λ name. name.now) names.now))) }
        ensures known { IfOk result (λ _. AreNamesKnown self.now
            (map (λ name. name.now) names.now)) }
        ensures refused { IfErr result (IsMissingName self.now (map (λ name. name.now) names.now)) }
    {
        let members = set_called(alloc, self, names)?;
        let query = query_of_set(alloc, self, DependencyDirection::Forward, &members)?;
        Ok(query)
    }
}

/// A query from the packages of a set.
pub(crate) fn query_of_set<'g>(
    alloc: Global,
    graph: &'g PackageGraph,
    direction: DependencyDirection,
    set: &NodeSet,
) -> Result<PackageQuery<'g>, AllocError>
    requires { length set.now ≡ length graph.now.packages }
    ensures { IfOk result (IsQueryOf graph.entry.now direction (λ v. IsTrue (has set.now v))) }
{
    let initials = set.members(alloc)?;
    Ok(PackageQuery::of(graph, direction, initials))
}
