//! One package of a graph.

ghost use Rattle.std.specs.Prelude.{◌≡◌, ◌<◌, Some, length, slice_get};
ghost use Rattle.guppy_package_table.specs.PackageDetailsViews.{member_path_of, row_of};
ghost use Rattle.guppy_package_table.specs.Tables.{ids_of, member_path_at};

use crate::package_graph::PackageGraph;
use guppy_package_parts::{PackageId, PackageSource};
use guppy_package_table::PackageDetails;
use std::fmt;
use std::ops::Deref;

/// A package of a graph. What its row says is told by the methods of `PackageDetails`.
#[derive(Clone, Copy)]
pub struct PackageMetadata<'g> {
    graph: &'g PackageGraph,
    place: usize,
    details: PackageDetails<'g>,
    ghost in_range: { place < length graph.now.packages },
    ghost at_place: { slice_get graph.now.packages place ≡ Some (row_of details) },
    ghost at_path: { member_path_of details ≡ member_path_at graph.now place },
}

impl<'g> PackageMetadata<'g> {
    ghost use Rattle.std.specs.Prelude.{is_some};
    ghost use Rattle.guppy_package_parts.specs.SourceViews.{source_view};
    ghost use Rattle.guppy_package_graph.specs.Sources.{IsSourceAt};
    ghost use Rattle.guppy_package_graph.specs.Views.{graph_of, place_of};

    pub(crate) fn at(graph: &'g PackageGraph, place: usize) -> PackageMetadata<'g>
        requires { place < length graph.now.packages }
        ensures graph { graph_of result ≡ graph.entry.now }
        ensures place { place_of result ≡ place }
    {
        let details = graph.table().details(place);
        PackageMetadata {
            graph,
            place,
            details,
        }
    }

    /// The package's id.
    pub fn id(&self) -> &'g PackageId
        ensures id { slice_get (ids_of (graph_of self.now).packages) (place_of self.now)
            ≡ Some result.now }
    {
        let graph = self.graph;
        graph.table().id_at(self.place)
    }

    /// The graph of the package.
    pub fn graph(&self) -> &'g PackageGraph
        ensures graph { result.now ≡ graph_of self.now }
    {
        self.graph
    }

    /// Whether the package is a member of the workspace.
    pub fn in_workspace(&self) -> bool
        ensures member { result ≡ is_some (member_path_at (graph_of self.now) (place_of self.now)) }
    {
        self.details.in_workspace()
    }

    /// Where the package comes from: a member of the workspace from there, with its path.
    pub fn source(&self) -> PackageSource<'g>
        ensures source { IsSourceAt (graph_of self.now) (place_of self.now) (source_view result) }
    {
        self.details.source()
    }

    pub(crate) fn place(&self) -> usize
        ensures place { result ≡ place_of self.now }
        ensures within { result < length (graph_of self.now).packages }
    {
        self.place
    }
}

impl<'g> Deref for PackageMetadata<'g> {
    type Target = PackageDetails<'g>;

    ghost use Rattle.std.specs.Prelude.{◌≡◌, Some, slice_get};
    ghost use Rattle.guppy_package_table.specs.PackageDetailsViews.{member_path_of, row_of};
    ghost use Rattle.guppy_package_table.specs.Tables.{member_path_at};
    ghost use Rattle.guppy_package_graph.specs.Views.{graph_of, place_of};

    ghost deref_gives = { λ m d. (slice_get (graph_of m).packages (place_of m) ≡ Some (row_of d)) × (member_path_of d ≡ member_path_at (graph_of m) (place_of m)) };

    fn deref(&self) -> &PackageDetails<'g> {
        &self.details
    }
}

/// Packages are equal where their ids are.
impl PartialEq for PackageMetadata<'_> {
    ghost use Rattle.std.specs.Ordering.{on};
    ghost use Rattle.std.specs.Cmp.{partial_equiv_from_equiv};
    ghost use Rattle.workspace_record.specs.Equality.{text_eq};
    ghost use Rattle.guppy_package_graph.specs.Identity.{id_of, packages_equivalence};

    ghost eq = { on id_of text_eq };

    ghost laws = { partial_equiv_from_equiv packages_equivalence };

    fn eq(&self, other: &Self) -> bool {
        self.graph.id_at(self.place) == other.graph.id_at(other.place)
    }
}

impl Eq for PackageMetadata<'_> {
    ghost use Rattle.guppy_package_graph.specs.Identity.{packages_equivalence};

    ghost laws = { packages_equivalence };
}

impl fmt::Debug for PackageMetadata<'_> {
    fn fmt<W: fmt::Write>(&self, f: &mut fmt::Formatter<W>) -> fmt::Result {
        f.debug_tuple("PackageMetadata").field(&self.id()).finish()
    }
}
