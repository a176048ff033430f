//! Edges between nodes.

ghost use Rattle.std.specs.Prelude.{◌≡◌, All, IfOk, map};
ghost use Rattle.guppy_feature_demands.specs.DemandViews as demands;
ghost use Rattle.guppy_feature_nodes.specs.JoinedViews.{joined_view};
ghost use Rattle.guppy_feature_nodes.specs.EdgeViews.{edge_view, form_view, lines_view};
ghost use Rattle.guppy_feature_nodes.specs.GraphEdges.{edge_form, edge_lines, edge_value};
ghost use Rattle.guppy_feature_nodes.specs.EdgeLinkViews.{AreEdgeLinks};

use crate::edge_links::EdgeLinks;
use crate::feature_edge::FeatureEdge;
use crate::joining::JoinedEdge;
use guppy_feature_demands::{EdgeKind, FeatureName, NodeTable, NumberedDemand};
use guppy_package_parts::{LinkRow, SortedSet};
use std::alloc::{AllocError, Global};

/// An edge from one node to another, which are told by their numbers.
#[derive(Debug, Drop)]
pub struct NodeEdge {
    pub from: usize,
    pub to: usize,
    pub edge: FeatureEdge,
    pub(crate) links: EdgeLinks,
}

pub(crate) fn node_edges<'g>(
    alloc: Global,
    nodes: &NodeTable<'g>,
    links: &[LinkRow],
    joined: Vec<JoinedEdge<'g>>,
) -> Result<Vec<NodeEdge>, AllocError>
    ensures values { IfOk result (λ v. map edge_view v.items
        ≡ map (edge_value nodes.now) (map joined_view joined.entry.items)) }
    ensures lines { IfOk result (λ v. All (λ e. AreEdgeLinks links.now (edge_view e).lines e.links)
        v.items) }
{
    let mut edges = Vec::with_capacity(alloc, joined.len())?;
    for edge in joined {
        edges.push(node_edge(alloc, nodes, links, edge)?)?;
    }
    Ok(edges)
}

fn node_edge<'g>(
    alloc: Global,
    nodes: &NodeTable<'g>,
    links: &[LinkRow],
    joined: JoinedEdge<'g>,
) -> Result<NodeEdge, AllocError>
    ensures value { IfOk result (λ e. edge_view e
        ≡ edge_value nodes.now (joined_view joined.entry)) }
    ensures lines { IfOk result (λ e. AreEdgeLinks links.now (edge_view e).lines e.links) }
{
    let JoinedEdge { head, lines } = joined;
    let (from, to) = (head.from, head.to);
    let edge = feature_edge(nodes, head, lines);
    let links = EdgeLinks::of(alloc, links, edge.lines())?;
    Ok(NodeEdge {
        from,
        to,
        edge,
        links,
    })
}

fn feature_edge<'g>(
    nodes: &NodeTable<'g>,
    head: NumberedDemand<'g>,
    lines: SortedSet<(usize, usize)>,
) -> FeatureEdge
    ensures form { form_view result ≡ edge_form nodes.now head.entry.from
        (demands.form_view head.entry.form) }
    ensures lines { lines_view result ≡ edge_lines (demands.form_view head.entry.form) lines }
{
    match head.form {
        EdgeKind::FeatureToBase => FeatureEdge::FeatureToBase,
        EdgeKind::NamedFeature => FeatureEdge::NamedFeature,
        EdgeKind::NamedFeatureDepColon => FeatureEdge::NamedFeatureDepColon,
        EdgeKind::StrongSlash(_) => FeatureEdge::strong(lines),
        EdgeKind::WeakSlash(name) => {
            // The node of the optional dependency that a feature's weak entry names.
            let dep = match nodes.ids().get(head.from) {
                Some(id) => nodes.number_of(FeatureName::dep(id.package_id().repr(), name)),
                None => nodes.len(),
            };
            FeatureEdge::weak(lines, dep)
        }
        EdgeKind::DependenciesSection => FeatureEdge::by_lines(lines),
    }
}
