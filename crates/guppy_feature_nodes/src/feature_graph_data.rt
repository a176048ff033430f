//! What a feature graph owns: its nodes, edges and warnings.

ghost use Rattle.std.specs.Prelude.{◌≡◌, ◌≢◌, ◌↔◌, ◌<◌, All, AllPairs, IfOk, IsTrue, length, map};
ghost use Rattle.std.specs.List.{list_any};
ghost use Rattle.guppy_package_parts.specs.WarningViews.{warning_view};
ghost use Rattle.guppy_feature_demands.specs.IdViews.{id_view};
ghost use Rattle.guppy_feature_demands.specs.NameViews.{name_view};
ghost use Rattle.guppy_feature_demands.specs.Nodes.{is_node, nodes_of, number_of};
ghost use Rattle.guppy_feature_demands.specs.Warnings.{warnings_of};
ghost use Rattle.guppy_feature_nodes.specs.EdgeViews.{edge_view};
ghost use Rattle.guppy_feature_nodes.specs.GraphEdges.{AreEdges, IsEdgeWithin, edge_at, edge_ends};
ghost use Rattle.guppy_feature_nodes.specs.Graphs.{AreListed, IsDefault, IsEdgeListing, IsFeatureGraph, feature_at};
ghost use Rattle.guppy_feature_nodes.specs.EdgeLinkViews.{AreEdgeLinks};
ghost use Rattle.guppy_feature_nodes.specs.Lines.{declares_kind_at, links_shown};
ghost use Rattle.guppy_feature_nodes.specs.NodeNames.{lent_view, node_of};
ghost use Rattle.guppy_feature_nodes.specs.Offering.{offered};
ghost use Rattle.numbered_graph.specs.declared.direction.Direction.TheVariants.{Forward, Reverse};
ghost use Rattle.guppy_package_graph.specs.Finding.{IsAt};
ghost use Rattle.guppy_package_graph.specs.Views.{graph_of, place_of};
ghost use Rattle.guppy_package_table.specs.Tables.{ids_of};

use crate::edge_lines::has_line;
use crate::joining::joined_edges;
use crate::node_edge::{NodeEdge, node_edges};
use crate::node_names::{LentNode, NodeName, lent_label, node_names};
use crate::offers::offer_graph;
use crate::orders::{Orders, orders_of};
use crate::package_rows::package_rows;
use guppy_feature_demands::{
    FeatureId, FeatureName, FeatureParts, LinkDeclarations, NodeTable, feature_parts,
};
use guppy_package_graph::{FeatureGraphWarning, PackageGraph, PackageMetadata};
use indexmap::IndexSet;
use numbered_graph::{Direction, Graph};
use numbered_offers::OfferGraph;
use std::alloc::{AllocError, Global};
use std::fmt;
use std::marker::Model;
use workspace_record::LineKind;

/// The features of a package graph's packages, numbered from 0, and the edges between them.
pub struct FeatureGraphData<'g> {
    graph: &'g PackageGraph,
    names: IndexSet<NodeName>,
    edges: Vec<NodeEdge>,
    warnings: Vec<FeatureGraphWarning>,
    orders: Orders,
    forward: OfferGraph,
}

// Written out, so that a function that lets one go takes one step.
impl Drop for FeatureGraphData<'_> {
    fn drop(self) {
        let FeatureGraphData {
            graph: _,
            names: _,
            edges: _,
            warnings: _,
            orders: _,
            forward: _,
        } = self;
    }
}

// What is made of the rows.
#[derive(Drop)]
struct GraphParts<'g> {
    nodes: NodeTable<'g>,
    edges: Vec<NodeEdge>,
    warnings: Vec<FeatureGraphWarning>,
}

fn graph_parts<'g>(alloc: Global, graph: &'g PackageGraph) -> Result<GraphParts<'g>, AllocError>
    ensures apart { AllPairs (λ a b. a.id ≢ b.id) graph.entry.now.packages }
    ensures nodes { IfOk result (λ p. p.nodes ≡ nodes_of graph.entry.now.packages) }
    ensures edges { IfOk result (λ p. AreEdges graph.entry.now.packages graph.entry.now.links
        (map edge_view p.edges.items)) }
    ensures lines { IfOk result (λ p. All (λ e.
        AreEdgeLinks graph.entry.now.links (edge_view e).lines e.links) p.edges.items) }
    ensures warnings { IfOk result (λ p. map warning_view p.warnings.items
        ≡ warnings_of graph.entry.now.packages graph.entry.now.links) }
{
    let packages = package_rows(alloc, graph)?;
    let FeatureParts {
        nodes,
        demands,
        warnings,
    } = feature_parts(alloc, &packages, graph.link_rows())?;
    let joined = joined_edges(alloc, demands)?;
    let edges = node_edges(alloc, &nodes, graph.link_rows(), joined)?;
    Ok(GraphParts {
        nodes,
        edges,
        warnings,
    })
}

impl<'g> Model for FeatureGraphData<'g> {
    ghost use Rattle.guppy_feature_nodes.specs.Graphs.{FeatureGraphValue};
    ghost use Rattle.guppy_feature_nodes.specs.Keeping.{IsKept, data_view};

    ghost Value = { FeatureGraphValue };

    ghost view = { data_view };

    ghost invariant = { IsKept };
}

impl<'g> FeatureGraphData<'g> {
    /// The feature graph of these packages. Takes time in proportion to packages, features, entries
    /// and lines, each with the texts that it names, up to sorting.
    pub fn build(alloc: Global, graph: &'g PackageGraph) -> Result<FeatureGraphData<'g>, AllocError>
        ensures rows { IfOk result (λ g. g.rows ≡ graph.entry.now) }
        ensures built { IfOk result IsFeatureGraph }
    {
        let GraphParts {
            nodes,
            edges,
            warnings,
        } = graph_parts(alloc, graph)?;
        let names = node_names(alloc, graph, nodes.ids())?;
        let (count, links) = (nodes.len(), graph.link_rows());
        let orders = orders_of(alloc, &nodes, links, &edges)?;
        let forward = offer_graph(alloc, count, links, &edges, Direction::Forward)?;
        Ok(FeatureGraphData {
            graph,
            names,
            edges,
            warnings,
            orders,
            forward,
        })
    }

    /// The packages' graph. What its packages list are the features.
    pub fn package_graph(&self) -> &'g PackageGraph
        ensures rows { result.now ≡ self.now.rows }
        ensures features { self.now.nodes ≡ nodes_of self.now.rows.packages }
        ensures listed { AreListed self.now }
    {
        self.graph
    }

    /// How many features there are: each package, the features that it names, and its optional
    /// dependencies.
    pub fn feature_count(&self) -> usize
        ensures count { result ≡ length self.now.nodes }
    {
        self.names.len()
    }

    /// Whether there is such a feature.
    pub fn contains(&self, feature: FeatureName<'_>) -> bool
        ensures answer { result ≡ is_node self.now.nodes (name_view feature.entry) }
    {
        self.names.contains(self.lent_node(feature))
    }

    /// The number of a feature; the number of features where there is none.
    pub fn number_of(&self, feature: FeatureName<'_>) -> usize
        ensures number { result ≡ number_of self.now.nodes (name_view feature.entry) }
    {
        match self.names.get_index_of(self.lent_node(feature)) {
            Some(number) => number,
            None => self.names.len(),
        }
    }

    // The feature as it is kept, whether there is one or not.
    fn lent_node<'a>(&self, feature: FeatureName<'a>) -> LentNode<'a>
        ensures { lent_view result ≡ node_of (ids_of self.now.rows.packages)
            (name_view feature.entry) }
    {
        let place = self.graph.number_of(feature.package_id);
        let label = feature.label;
        LentNode { place, label }
    }

    /// The edges: what the rows demand between two different features, joined where it is crossed in
    /// the same way.
    pub fn edges(&self) -> &[NodeEdge]
        ensures value { map edge_view result.now ≡ self.now.edges }
        ensures edges { AreEdges self.now.rows.packages self.now.rows.links self.now.edges }
    {
        &self.edges
    }

    /// The edge with a number.
    pub fn edge(&self, number: usize) -> &NodeEdge
        requires { number < length self.now.edges }
        ensures edge { edge_view result.now ≡ edge_at self.now.edges number }
        ensures within { IsEdgeWithin (length self.now.nodes) self.now.rows.links
            (edge_at self.now.edges number) }
    {
        &self.edges[number]
    }

    /// Whether a line of a kind behind an edge declares what is shown of it.
    pub fn has_line(&self, number: usize, shown: LinkDeclarations, kind: LineKind) -> bool
        requires { number < length self.now.edges }
        ensures answer { result ≡ list_any (declares_kind_at self.now.rows.links shown kind)
            (edge_at self.now.edges number).lines }
    {
        let lines = self.edges[number].edge.lines();
        has_line(self.graph.link_rows(), lines, shown, kind)
    }

    /// The links of the lines behind an edge that declare what is shown of it, each once.
    pub fn links_shown(&self, number: usize, shown: LinkDeclarations) -> &[usize]
        requires { number < length self.now.edges }
        ensures links { result.now ≡ links_shown self.now.rows.links shown
            (edge_at self.now.edges number).lines }
        ensures within { All (λ link. link < length self.now.rows.links)
            (links_shown self.now.rows.links shown (edge_at self.now.edges number).lines) }
    {
        self.edges[number].links.shown(shown)
    }

    /// The edges as they are offered forward.
    pub fn offers(&self) -> &OfferGraph
        ensures offers { result.now ≡ offered Forward self.now }
    {
        &self.forward
    }

    // Another graph for one reason: an optional half that waits for a dependency that there is not is never due
    // forward, and due at once in reverse. No node stands for what is not there.
    /// The edges as they are offered in reverse, which the graph does not keep.
    pub fn reverse_offers(&self, alloc: Global) -> Result<OfferGraph, AllocError>
        ensures offers { IfOk result (λ g. g ≡ offered Reverse self.now) }
    {
        let (count, links) = (self.names.len(), self.graph.link_rows());
        offer_graph(alloc, count, links, &self.edges, Direction::Reverse)
    }

    /// The edges as links between nodes, each with its number.
    pub fn edge_graph(&self) -> &Graph
        ensures graph { result.now ≡ record {
          nodes = length self.now.nodes;
          links = edge_ends self.now.edges;
        } }
    {
        &self.orders.graph
    }

    /// All nodes: components together, edges between components forward, and those forward too that
    /// stand on more than dev lines, unless they lie on a cycle of such edges.
    pub fn listing(&self) -> &[usize]
        ensures value { result.now ≡ self.now.listing }
        ensures listing { IsEdgeListing self.now.rows.links self.now.nodes self.now.edges
            result.now }
    {
        &self.orders.listing
    }

    /// Whether a feature is a default one: `default` of its package enables it by name, or is it, or
    /// where there is none it is the package itself.
    pub fn is_default(&self, node: usize) -> bool
        ensures answer { IsTrue result ↔ IsDefault self.now node }
    {
        self.orders.defaults.contains(node)
    }

    /// The feature with a number.
    pub fn feature_at(&'g self, node: usize) -> FeatureId<'g>
        requires { node < length self.now.nodes }
        ensures feature { id_view result ≡ feature_at self.now node }
    {
        let name = &self.names.as_slice()[node];
        let id = &self.graph.package_ids()[self.place_at(node)];
        FeatureId::new(id, lent_label(&name.label))
    }

    /// The place of its package in the order of the record.
    pub fn place_at(&self, node: usize) -> usize
        requires { node < length self.now.nodes }
        ensures features { self.now.nodes ≡ nodes_of self.now.rows.packages }
        ensures at { IsAt self.now.rows (feature_at self.now node).package_id result }
        ensures within { result < length self.now.rows.packages }
    {
        let name = &self.names.as_slice()[node];
        name.place
    }

    /// The package of a feature.
    pub fn package_of(&self, node: usize) -> PackageMetadata<'g>
        requires { node < length self.now.nodes }
        ensures graph { graph_of result ≡ self.now.rows }
        ensures package { IsAt self.now.rows (feature_at self.now node).package_id
            (place_of result) }
    {
        self.graph.metadata_at(self.place_at(node))
    }

    /// How many edges there are.
    pub fn link_count(&self) -> usize
        ensures count { result ≡ length self.now.edges }
    {
        self.edges.len()
    }

    /// What is odd about the rows.
    pub fn build_warnings(&self) -> &[FeatureGraphWarning]
        ensures value { map warning_view result.now ≡ self.now.warnings }
        ensures warnings { self.now.warnings ≡ warnings_of self.now.rows.packages
            self.now.rows.links }
    {
        &self.warnings
    }
}

impl fmt::Debug for FeatureGraphData<'_> {
    fn fmt<W: fmt::Write>(&self, f: &mut fmt::Formatter<W>) -> fmt::Result {
        f.debug_struct("FeatureGraphData")
            .field("features", &self.feature_count())
            .finish_non_exhaustive()
    }
}
