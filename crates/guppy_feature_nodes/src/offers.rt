//! Edges between nodes as they are offered in a direction.

ghost use Rattle.std.specs.Prelude.{◌≡◌, IfOk, map};
ghost use Rattle.guppy_feature_nodes.specs.EdgeViews.{edge_view};
ghost use Rattle.guppy_feature_nodes.specs.GraphEdges.{AreEdgesWithin};
ghost use Rattle.guppy_feature_nodes.specs.Lines.{is_declared};
ghost use Rattle.guppy_feature_nodes.specs.Offering.{offer_edges, sort_of, weak_sort};

use crate::edge_lines::declares_at;
use crate::feature_edge::{FeatureEdge, SlashForm};
use crate::node_edge::NodeEdge;
use guppy_feature_demands::LinkDeclarations;
use guppy_package_parts::LinkRow;
use numbered_graph::Direction;
use numbered_offers::{Edge, EdgeSort, OfferGraph};
use std::alloc::{AllocError, Global};

/// The graph of these edges as they are offered in a direction.
pub(crate) fn offer_graph(
    alloc: Global,
    nodes: usize,
    links: &[LinkRow],
    edges: &[NodeEdge],
    direction: Direction,
) -> Result<OfferGraph, AllocError>
    requires { AreEdgesWithin nodes links.now (map edge_view edges.now) }
    ensures { IfOk result (λ g. g ≡ record {
      nodes = nodes;
      edges = offer_edges direction nodes links.now (map edge_view edges.now);
    }) }
{
    let offers = offer_edges(alloc, nodes, links, edges, direction)?;
    OfferGraph::new(alloc, nodes, offers)
}

fn offer_edges(
    alloc: Global,
    nodes: usize,
    links: &[LinkRow],
    edges: &[NodeEdge],
    direction: Direction,
) -> Result<Vec<Edge>, AllocError>
    ensures { IfOk result (λ v. v.items
        ≡ offer_edges direction nodes links.now (map edge_view edges.now)) }
{
    let mut offers = Vec::with_capacity(alloc, edges.len())?;
    for edge in edges {
        offers.push(Edge {
            from: edge.from,
            to: edge.to,
            sort: sort_of(direction, nodes, links, edge),
        })?;
    }
    Ok(offers)
}

fn sort_of(direction: Direction, nodes: usize, links: &[LinkRow], edge: &NodeEdge) -> EdgeSort
    ensures { result ≡ sort_of direction nodes links.now (edge_view edge.now)
        (edge_view edge.now).form }
{
    match &edge.edge {
        FeatureEdge::FeatureToBase
        | FeatureEdge::NamedFeature
        | FeatureEdge::NamedFeatureDepColon => EdgeSort::Unconditional,
        FeatureEdge::DependenciesSection(_)
        | FeatureEdge::NamedFeatureWithSlash(SlashForm::Strong(_)) => EdgeSort::Conditional,
        FeatureEdge::NamedFeatureWithSlash(SlashForm::Weak(weak)) => {
            weak_sort(direction, nodes, links, edge, weak.index().node())
        }
    }
}

fn weak_sort(
    direction: Direction,
    nodes: usize,
    links: &[LinkRow],
    edge: &NodeEdge,
    dep: usize,
) -> EdgeSort
    ensures { result ≡ weak_sort direction nodes links.now (edge_view edge.now) dep }
{
    let lines = edge.edge.lines();
    let required = is_declared(links, LinkDeclarations::Required, lines);
    let optional = is_declared(links, LinkDeclarations::Optional, lines);
    EdgeSort::Weak {
        dep: if dep < nodes { dep } else { edge.from },
        required,
        optional: (direction == Direction::Reverse || dep < nodes) && optional,
    }
}

fn is_declared(links: &[LinkRow], shown: LinkDeclarations, lines: &[(usize, usize)]) -> bool
    ensures { result ≡ is_declared links.now shown lines.now }
{
    lines.iter().any(|place| declares_at(links, shown, *place))
}
