//! Edges as links between nodes, the order in which the nodes are listed, and the default features.

ghost use Rattle.std.specs.Prelude.{◌≡◌, ◌<◌, [], All, IfOk, length, map, slice_index_or};
ghost use Rattle.guppy_feature_demands.specs.Nodes.{base_of};
ghost use Rattle.guppy_feature_nodes.specs.EdgeViews.{edge_view, form_view};
ghost use Rattle.guppy_feature_nodes.specs.GraphEdges.{AreEdgesWithin, edge_ends};
ghost use Rattle.guppy_feature_nodes.specs.Orders.{default_starts, firm_edges, is_firm_edge, is_firm_line, is_naming, naming_edges, starts_defaults};
ghost use Rattle.guppy_feature_nodes.specs.OrderViews.{AreOrders};

use crate::edge_lines::line_at;
use crate::feature_edge::FeatureEdge;
use crate::node_edge::NodeEdge;
use guppy_feature_demands::{FeatureLabel, FeatureName, NodeTable};
use guppy_package_parts::LinkRow;
use numbered_graph::{Direction, Graph, Link, NodeSet, listing, reach_over};
use std::alloc::{AllocError, Global};
use workspace_record::LineKind;

// The feature that a package names for what is on by default.
const DEFAULT: &str = "default";

/// The graph of the edges' ends, all nodes in the order in which they are listed, and the default
/// features.
pub(crate) struct Orders {
    pub graph: Graph,
    pub listing: Vec<usize>,
    pub defaults: NodeSet,
}

// Written out, so that a function that lets one go takes one step.
impl Drop for Orders {
    fn drop(self) {
        let Orders {
            graph: _,
            listing: _,
            defaults: _,
        } = self;
    }
}

pub(crate) fn orders_of(
    alloc: Global,
    nodes: &NodeTable<'_>,
    links: &[LinkRow],
    edges: &[NodeEdge],
) -> Result<Orders, AllocError>
    requires { AreEdgesWithin (length nodes.now) links.now (map edge_view edges.now) }
    ensures { IfOk result (AreOrders links.now nodes.now (map edge_view edges.now)) }
{
    let ends = ends_of(alloc, edges)?;
    let graph = Graph::new(alloc, nodes.len(), ends)?;
    let firm = firm_edges(alloc, links, edges)?;
    let listing = listing(alloc, &graph, &firm)?;
    let starts = default_starts(alloc, nodes)?;
    let naming = naming_edges(alloc, edges)?;
    let defaults = reach_over(alloc, &graph, &starts, Direction::Forward, &naming)?;
    Ok(Orders {
        graph,
        listing,
        defaults,
    })
}

fn ends_of(alloc: Global, edges: &[NodeEdge]) -> Result<Vec<Link>, AllocError>
    ensures { IfOk result (λ v. v.items ≡ edge_ends (map edge_view edges.now)) }
{
    let mut ends = Vec::with_capacity(alloc, edges.len())?;
    for edge in edges {
        ends.push(Link {
            from: edge.from,
            to: edge.to,
        })?;
    }
    Ok(ends)
}

fn firm_edges(alloc: Global, links: &[LinkRow], edges: &[NodeEdge]) -> Result<Vec<bool>, AllocError>
    ensures { IfOk result (λ v. v.items ≡ firm_edges links.now (map edge_view edges.now)) }
{
    let mut flags = Vec::with_capacity(alloc, edges.len())?;
    for edge in edges {
        flags.push(is_firm_edge(links, edge))?;
    }
    Ok(flags)
}

fn is_firm_edge(links: &[LinkRow], edge: &NodeEdge) -> bool
    ensures { result ≡ is_firm_edge links.now (edge_view edge.now) }
{
    let lines = edge.edge.lines();
    edge.edge.is_unconditional() || lines.iter().any(|place| is_firm_line(links, *place))
}

fn is_firm_line(links: &[LinkRow], place: (usize, usize)) -> bool
    ensures { result ≡ is_firm_line links.now place }
{
    match line_at(links, place) {
        Some(line) => line.kind != LineKind::Dev,
        None => false,
    }
}

fn naming_edges(alloc: Global, edges: &[NodeEdge]) -> Result<Vec<bool>, AllocError>
    ensures { IfOk result (λ v. v.items ≡ naming_edges (map edge_view edges.now)) }
{
    let mut flags = Vec::with_capacity(alloc, edges.len())?;
    for edge in edges {
        flags.push(is_naming(&edge.edge))?;
    }
    Ok(flags)
}

fn is_naming(edge: &FeatureEdge) -> bool
    ensures { result ≡ is_naming (form_view edge.now) }
{
    match edge {
        FeatureEdge::FeatureToBase | FeatureEdge::NamedFeature => true,
        FeatureEdge::NamedFeatureDepColon
        | FeatureEdge::DependenciesSection(_)
        | FeatureEdge::NamedFeatureWithSlash(_) => false,
    }
}

// The features from which default features are told.
fn default_starts(alloc: Global, nodes: &NodeTable<'_>) -> Result<Vec<usize>, AllocError>
    ensures starts { IfOk result (λ v. v.items ≡ default_starts nodes.now) }
    ensures within { IfOk result (λ v. All (λ n. n < length nodes.now) v.items) }
{
    let mut starts = Vec::new(alloc);
    for number in 0..nodes.len() {
        if starts_defaults(nodes, number) {
            starts.push(number)?;
        }
    }
    Ok(starts)
}

fn starts_defaults(nodes: &NodeTable<'_>, number: usize) -> bool
    requires { number < length nodes.now }
    ensures { result ≡ starts_defaults nodes.now (slice_index_or nodes.now number (base_of [])) }
{
    let id = nodes.ids()[number];
    match id.label() {
        FeatureLabel::Base => {
            !nodes.contains(FeatureName::named(id.package_id().repr(), DEFAULT))
        }
        FeatureLabel::Named(name) => name == DEFAULT,
        FeatureLabel::OptionalDependency(_) => false,
    }
}
