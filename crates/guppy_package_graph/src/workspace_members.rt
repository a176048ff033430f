//! The members of a workspace: listed, and found by path and by name.

ghost use Rattle.std.specs.Prelude.{◌≡◌, ◌↔◌, IfErr, IfOk, IsTrue, All, Some, length, map};
ghost use Rattle.guppy_package_table.specs.Tables.{ids_of, place_among};
ghost use Rattle.guppy_package_table.specs.Members.{AreByName, AreByPath, member_at_path, member_called};
ghost use Rattle.guppy_package_graph.specs.IdViews.{id_places_left, ids_graph_of};
ghost use Rattle.guppy_package_graph.specs.MemberViews.{called_places_left, called_graph_of, path_places_left, path_graph_of};
ghost use Rattle.guppy_package_graph.specs.Members.{FindsAtPath, FindsCalled, IsMissingName, IsMissingPath, IsMember};
ghost use Rattle.guppy_package_graph.specs.Views.{graph_of, packages_graph_of, place_of, places_left};
ghost use Rattle.guppy_package_graph.specs.WorkspaceViews.{workspace_of};

use crate::found_members::{places_at_paths, places_called};
use crate::members_by_name::MembersByName;
use crate::members_by_path::MembersByPath;
use crate::package_ids::PackageIdsAt;
use crate::package_metadata::PackageMetadata;
use crate::packages_at::PackagesAt;
use crate::set_parts::packages_of;
use crate::workspace::Workspace;
use guppy_package_parts::Error;
use std::alloc::Global;

impl<'g> Workspace<'g> {
    /// The members, ascending by the components of their paths.
    pub fn iter(&self) -> PackagesAt<'g, 'g>
        ensures graph { packages_graph_of result ≡ workspace_of self.now }
        ensures members { AreByPath (workspace_of self.now) (places_left result) }
    {
        let graph = self.graph();
        PackagesAt::of(graph, graph.members_by_path())
    }

    /// The members with their paths, ascending by the components of these.
    pub fn iter_by_path(&self) -> MembersByPath<'g>
        ensures graph { path_graph_of result ≡ workspace_of self.now }
        ensures members { AreByPath (workspace_of self.now) (path_places_left result) }
    {
        let graph = self.graph();
        MembersByPath::of(graph, graph.members_by_path())
    }

    /// The members with their names, ascending by these.
    pub fn iter_by_name(&self) -> MembersByName<'g>
        ensures graph { called_graph_of result ≡ workspace_of self.now }
        ensures members { AreByName (workspace_of self.now) (called_places_left result) }
    {
        let graph = self.graph();
        MembersByName::of(graph, graph.members_by_name())
    }

    /// The ids of the members, ascending by the components of their paths.
    pub fn member_ids(&self) -> PackageIdsAt<'g, 'g>
        ensures graph { ids_graph_of result ≡ workspace_of self.now }
        ensures members { AreByPath (workspace_of self.now) (id_places_left result) }
    {
        let graph = self.graph();
        PackageIdsAt::of(graph, graph.members_by_path())
    }

    /// The ids of the default members, in the order of the record.
    pub fn default_member_ids(&self) -> PackageIdsAt<'g, 'g>
        ensures graph { ids_graph_of result ≡ workspace_of self.now }
        ensures members { id_places_left result ≡ map
            (place_among (ids_of (workspace_of self.now).packages))
            (workspace_of self.now).workspace.default_members }
    {
        let graph = self.graph();
        PackageIdsAt::of(graph, graph.table().default_members())
    }

    /// Whether a member has the path.
    pub fn contains_path(&self, path: &str) -> bool
        ensures found { IsTrue result ↔ IsMember (member_at_path (workspace_of self.now) path.now) }
    {
        self.graph().place_at_path(path).is_ok()
    }

    /// Whether a member has the name.
    pub fn contains_name(&self, name: &str) -> bool
        ensures found { IsTrue result ↔ IsMember (member_called (workspace_of self.now) name.now) }
    {
        self.graph().place_called(name).is_ok()
    }

    /// The member with a path, which is compared by its components.
    pub fn member_by_path(&self, path: &str) -> Result<PackageMetadata<'g>, Error>
        ensures found { FindsAtPath (workspace_of self.now) path.now result }
    {
        let graph = self.graph();
        let place = graph.place_at_path(path)?;
        Ok(graph.metadata_at(place))
    }

    /// The members with these paths, in their order.
    pub fn members_by_paths(
        &self,
        alloc: Global,
        paths: &[&str],
    ) -> Result<Vec<PackageMetadata<'g>>, Error>
        ensures found { IfOk result (λ ms. map (λ path.
            member_at_path (workspace_of self.now) path.now) paths.now
            ≡ map Some (map place_of ms.items)) }
        ensures graphs { IfOk result (λ ms. All (λ m. graph_of m ≡ workspace_of self.now)
            ms.items) }
        ensures refused { IfErr result (IsMissingPath (workspace_of self.now)
            (map (λ path. path.now) paths.now)) }
    {
        let graph = self.graph();
        let places = places_at_paths(alloc, graph, paths)?;
        let members = packages_of(alloc, graph, &places)?;
        Ok(members)
    }

    /// The member with a name.
    pub fn member_by_name(&self, name: &str) -> Result<PackageMetadata<'g>, Error>
        ensures found { FindsCalled (workspace_of self.now) name.now result }
    {
        let graph = self.graph();
        let place = graph.place_called(name)?;
        Ok(graph.metadata_at(place))
    }

    /// The members with these names, in their order.
    pub fn members_by_names(
        &self,
        alloc: Global,
        names: &[&str],
    ) -> Result<Vec<PackageMetadata<'g>>, Error>
        ensures found { IfOk result (λ ms. map (λ name.
            member_called (workspace_of self.now) name.now) names.now
            ≡ map Some (map place_of ms.items)) }
        ensures graphs { IfOk result (λ ms. All (λ m. graph_of m ≡ workspace_of self.now)
            ms.items) }
        ensures refused { IfErr result (IsMissingName (workspace_of self.now)
            (map (λ name. name.now) names.now)) }
    {
        let graph = self.graph();
        let places = places_called(alloc, graph, names)?;
        let members = packages_of(alloc, graph, &places)?;
        Ok(members)
    }
}
