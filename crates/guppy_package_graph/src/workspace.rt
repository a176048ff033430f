//! The workspace of a graph: its folders and members.

ghost use Rattle.std.specs.Prelude.{◌≡◌, length, map, option_map};
ghost use Rattle.guppy_package_table.specs.Tables.{ids_of, place_among};
ghost use Rattle.guppy_package_graph.specs.WorkspaceViews.{workspace_of};
ghost use Rattle.guppy_package_graph.specs.Views.{packages_graph_of, places_left};

use crate::package_graph::PackageGraph;
use crate::packages_at::PackagesAt;

/// The workspace of a graph. Its folders are those of the record.
#[derive(Clone, Copy, Debug)]
pub struct Workspace<'g> {
    graph: &'g PackageGraph,
}

impl<'g> Workspace<'g> {
    pub(crate) fn of(graph: &'g PackageGraph) -> Workspace<'g>
        ensures { workspace_of result ≡ graph.entry.now }
    {
        Workspace { graph }
    }

    pub(crate) fn graph(&self) -> &'g PackageGraph
        ensures { result.now ≡ workspace_of self.now }
    {
        self.graph
    }

    /// The workspace's root folder.
    pub fn root(&self) -> &'g str
        ensures root { result.now ≡ (workspace_of self.now).workspace.root }
    {
        let graph = self.graph;
        graph.table().workspace().root.as_str()
    }

    /// The folder that Cargo builds in.
    pub fn target_directory(&self) -> &'g str
        ensures directory { result.now ≡ (workspace_of self.now).workspace.target_directory }
    {
        let graph = self.graph;
        graph.table().workspace().target_directory.as_str()
    }

    /// The folder of what Cargo builds on the way, if it is one of its own.
    pub fn build_directory(&self) -> Option<&'g str>
        ensures directory { option_map (λ t. t.now) result
            ≡ (workspace_of self.now).workspace.build_directory }
    {
        let graph = self.graph;
        graph.table().workspace().build_directory.as_deref()
    }

    /// The JSON text of the workspace's own metadata.
    pub fn metadata_table(&self) -> Option<&'g str>
        ensures metadata { option_map (λ t. t.now) result
            ≡ (workspace_of self.now).workspace.metadata }
    {
        let graph = self.graph;
        graph.table().workspace().metadata.as_deref()
    }

    /// How many members there are.
    pub fn member_count(&self) -> usize
        ensures count { result ≡ length (workspace_of self.now).workspace.members }
    {
        let graph = self.graph;
        graph.table().workspace().members.len()
    }

    /// The default members, in the order of the record.
    pub fn default_members(&self) -> PackagesAt<'g, 'g>
        ensures graph { packages_graph_of result ≡ workspace_of self.now }
        ensures members { places_left result ≡ map
            (place_among (ids_of (workspace_of self.now).packages))
            (workspace_of self.now).workspace.default_members }
    {
        let graph = self.graph;
        PackagesAt::of(graph, graph.table().default_members())
    }
}
