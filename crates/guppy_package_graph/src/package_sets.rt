//! Sets of the packages that are named, without their dependencies.

ghost use Rattle.std.specs.Prelude.{◌≡◌, ℕ, IfErr, IfOk, length, map, replicate, true, false};
ghost use Rattle.guppy_package_graph.specs.Finding.{AreKnown, HasName, IsMissing, IsNamed};
ghost use Rattle.guppy_package_graph.specs.Members.{AreNamesKnown, ArePathsKnown, IsAtOneOf, IsCalledOneOf, IsMissingName, IsMissingPath};
ghost use Rattle.guppy_package_graph.specs.SetValues.{IsSetOf};
ghost use Rattle.guppy_package_graph.specs.Workspaces.{IsMemberPlace};

use crate::found_members::{set_at_paths, set_called};
use crate::found_packages::{set_of_ids, set_of_members, set_of_name};
use crate::package_graph::PackageGraph;
use crate::package_set::PackageSet;
use guppy_package_parts::{Error, PackageId};
use numbered_graph::NodeSet;
use std::alloc::{AllocError, Global};

impl PackageGraph {
    /// The set of all packages.
    pub fn resolve_all(&self, alloc: Global) -> Result<PackageSet<'_>, AllocError>
        ensures all { IfOk result (λ s. s ≡ record {
          graph = self.now;
          included = replicate (length self.now.packages) true;
        }) }
    {
        let all = NodeSet::all(alloc, self.package_count())?;
        Ok(PackageSet::of(self, all))
    }

    /// The set of no package.
    pub fn resolve_none(&self, alloc: Global) -> Result<PackageSet<'_>, AllocError>
        ensures none { IfOk result (λ s. s ≡ record {
          graph = self.now;
          included = replicate (length self.now.packages) false;
        }) }
    {
        let none = NodeSet::none(alloc, self.package_count())?;
        Ok(PackageSet::of(self, none))
    }

    /// The set of the packages with these ids.
    pub fn resolve_ids(
        &self,
        alloc: Global,
        package_ids: &[&PackageId],
    ) -> Result<PackageSet<'_>, Error>
        ensures named { IfOk result (IsSetOf self.now
            (IsNamed self.now (map (λ id. id.now) package_ids.now))) }
        ensures known { IfOk result (λ _. AreKnown self.now (map (λ id. id.now) package_ids.now)) }
        ensures refused { IfErr result (IsMissing self.now (map (λ id. id.now) package_ids.now)) }
    {
        let set = set_of_ids(alloc, self, package_ids)?;
        Ok(PackageSet::of(self, set))
    }

    /// The set of the members of the workspace.
    pub fn resolve_workspace(&self, alloc: Global) -> Result<PackageSet<'_>, AllocError>
        ensures members { IfOk result (IsSetOf self.now (IsMemberPlace self.now)) }
    {
        let members = set_of_members(alloc, self)?;
        Ok(PackageSet::of(self, members))
    }

    /// The set of the members with these paths.
    pub fn resolve_workspace_paths(
        &self,
        alloc: Global,
        paths: &[&str],
    ) -> Result<PackageSet<'_>, Error>
        ensures named { IfOk result (IsSetOf self.now
            (IsAtOneOf self.now (map (λ path. path.now) paths.now))) }
        ensures known { IfOk result (λ _. ArePathsKnown self.now
            (map (λ path. path.now) paths.now)) }
        ensures refused { IfErr result (IsMissingPath self.now (map (λ path. path.now) paths.now)) }
    {
        let members = set_at_paths(alloc, self, paths)?;
        Ok(PackageSet::of(self, members))
    }

    /// The set of the members with these names.
    pub fn resolve_workspace_names(
        &self,
        alloc: Global,
        names: &[&str],
    ) -> Result<PackageSet<'_>, Error>
        ensures named { IfOk result (IsSetOf self.now
            (IsCalledOneOf self.now (map (λ name. name.now) names.now))) }
        ensures known { IfOk result (λ _. AreNamesKnown self.now
            (map (λ name. name.now) names.now)) }
        ensures refused { IfErr result (IsMissingName self.now (map (λ name. name.now) names.now)) }
    {
        let members = set_called(alloc, self, names)?;
        Ok(PackageSet::of(self, members))
    }

    /// The set of all packages with a name, members or not. There may be none.
    pub fn resolve_package_name(
        &self,
        alloc: Global,
        name: &str,
    ) -> Result<PackageSet<'_>, AllocError>
        ensures named { IfOk result (IsSetOf self.now (HasName self.now name.now)) }
    {
        let packages = set_of_name(alloc, self, name)?;
        Ok(PackageSet::of(self, packages))
    }
}
