//! One link of a graph.

ghost use Rattle.std.specs.Prelude.{◌≡◌, ◌<◌, Some, length, slice_get};
ghost use Rattle.guppy_package_table.specs.LinkDetailsViews.{row_of};

use crate::package_graph::PackageGraph;
use crate::package_metadata::PackageMetadata;
use guppy_package_table::LinkDetails;
use numbered_graph::Direction;
use std::fmt;
use std::ops::Deref;

/// A link of a graph, from a package to one that it depends on. What its row says is told by the
/// methods of `LinkDetails`.
#[derive(Clone, Copy)]
pub struct PackageLink<'g> {
    graph: &'g PackageGraph,
    number: usize,
    details: LinkDetails<'g>,
    ghost in_range: { number < length graph.now.links },
    ghost at_number: { slice_get graph.now.links number ≡ Some (row_of details) },
}

impl<'g> PackageLink<'g> {
    ghost use Rattle.numbered_graph.specs.Links.{link_at};
    ghost use Rattle.guppy_package_table.specs.Tables.{numbered_links};
    ghost use Rattle.guppy_package_graph.specs.Views.{graph_of, place_of, link_graph_of, number_of};

    pub(crate) fn at(graph: &'g PackageGraph, number: usize) -> PackageLink<'g>
        requires { number < length graph.now.links }
        ensures graph { link_graph_of result ≡ graph.entry.now }
        ensures number { number_of result ≡ number }
    {
        let details = graph.table().link_details(number);
        PackageLink {
            graph,
            number,
            details,
        }
    }

    /// The link's place in the list of links.
    pub fn number(&self) -> usize
        ensures number { result ≡ number_of self.now }
    {
        self.number
    }

    /// The package that depends on the other.
    pub fn from(&self) -> PackageMetadata<'g>
        ensures graph { graph_of result ≡ link_graph_of self.now }
        ensures place { place_of result ≡ (link_at (numbered_links (link_graph_of self.now))
            (number_of self.now)).from }
    {
        let graph = self.graph;
        graph.metadata_at(graph.end_of(Direction::Forward, self.number))
    }

    /// The package that is depended on.
    pub fn to(&self) -> PackageMetadata<'g>
        ensures graph { graph_of result ≡ link_graph_of self.now }
        ensures place { place_of result ≡ (link_at (numbered_links (link_graph_of self.now))
            (number_of self.now)).to }
    {
        let graph = self.graph;
        graph.metadata_at(graph.end_of(Direction::Reverse, self.number))
    }

    /// Both packages: the one that depends on the other, and the other.
    pub fn endpoints(&self) -> (PackageMetadata<'g>, PackageMetadata<'g>)
        ensures graphs { (graph_of result.0 ≡ link_graph_of self.now)
            × (graph_of result.1 ≡ link_graph_of self.now) }
        ensures places { record { from = place_of result.0; to = place_of result.1 }
            ≡ link_at (numbered_links (link_graph_of self.now)) (number_of self.now) }
    {
        (self.from(), self.to())
    }
}

impl<'g> Deref for PackageLink<'g> {
    type Target = LinkDetails<'g>;

    ghost use Rattle.std.specs.Prelude.{◌≡◌, Some, slice_get};
    ghost use Rattle.guppy_package_table.specs.LinkDetailsViews.{row_of};
    ghost use Rattle.guppy_package_graph.specs.Views.{link_graph_of, number_of};

    ghost deref_gives = { λ l d. slice_get (link_graph_of l).links (number_of l) ≡ Some (row_of d) };

    fn deref(&self) -> &LinkDetails<'g> {
        &self.details
    }
}

impl fmt::Debug for PackageLink<'_> {
    fn fmt<W: fmt::Write>(&self, f: &mut fmt::Formatter<W>) -> fmt::Result {
        let (from, to) = self.endpoints();
        f.debug_tuple("PackageLink")
            .field(&from.id())
            .field(&to.id())
            .finish()
    }
}
