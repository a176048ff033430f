//! Graphs of offers: nodes, and edges that are offered.

ghost use Rattle.std.specs.Prelude.{◌≡◌, ◌<◌, ◌++◌, length, All, IfOk};
ghost use Rattle.numbered_offers.specs.Edges.{AreEdgesWithin, edge_links};
ghost use Rattle.numbered_offers.specs.Graphs.{all_links, dep_links, halves_of};

use crate::edge::Edge;
use numbered_graph::{Graph, Link};
use std::alloc::{AllocError, Global};
use std::marker::Model;

/// So many nodes, numbered from 0, and a list of edges between them, told by their places in it.
#[derive(Drop)]
pub struct OfferGraph {
    edges: Vec<Edge>,
    halves: Vec<usize>,
    graph: Graph,
}

impl Model for OfferGraph {
    ghost use Rattle.numbered_offers.specs.Graphs.{OfferGraphValue, IsKept};

    ghost Value = { OfferGraphValue };

    ghost view = { λ g. record { nodes = g.graph.nodes; edges = g.edges.items } };

    ghost invariant = { λ g. IsKept g.edges.items g.halves.items g.graph.nodes g.graph.links };
}

impl OfferGraph {
    /// Takes time in proportion to nodes and edges. `are_edges_within` tests what is asked of the edges.
    pub fn new(alloc: Global, nodes: usize, edges: Vec<Edge>) -> Result<OfferGraph, AllocError>
        requires { AreEdgesWithin nodes edges.items }
        ensures made { IfOk result (λ g. g ≡ record { nodes = nodes; edges = edges.items }) }
    {
        let halves = halves_in(alloc, &edges)?;
        let links = links_of(alloc, &edges, &halves)?;
        let graph = Graph::new(alloc, nodes, links)?;
        Ok(OfferGraph {
            edges,
            halves,
            graph,
        })
    }

    /// How many nodes there are.
    pub fn node_count(&self) -> usize
        ensures count { result ≡ self.now.nodes }
    {
        self.graph.node_count()
    }

    /// The edges, in the order of their numbers.
    pub fn edges(&self) -> &[Edge]
        ensures value { result.now ≡ self.now.edges }
        ensures within { AreEdgesWithin self.now.nodes self.now.edges }
    {
        &self.edges
    }

    // The links over which the graph is walked.
    pub(crate) fn graph(&self) -> &Graph
        ensures { result.now ≡ record { nodes = self.now.nodes; links = all_links self.now.edges } }
    {
        &self.graph
    }

    // The edges with an optional half.
    pub(crate) fn halves(&self) -> &[usize]
        ensures { result.now ≡ halves_of self.now.edges }
    {
        &self.halves
    }
}

fn halves_in(alloc: Global, edges: &[Edge]) -> Result<Vec<usize>, AllocError>
    ensures { IfOk result (λ halves. halves.items ≡ halves_of edges.now) }
{
    let mut halves = Vec::new(alloc);
    for (number, edge) in edges.iter().enumerate() {
        if edge.has_optional_half() {
            halves.push(number)?;
        }
    }
    Ok(halves)
}

// The links of the edges, and after them one for each optional half, from the node for which it waits.
fn links_of(alloc: Global, edges: &[Edge], halves: &[usize]) -> Result<Vec<Link>, AllocError>
    requires { All (λ e. e < length edges.now) halves.now }
    ensures { IfOk result (λ links. links.items ≡ edge_links edges.now ++ dep_links edges.now
        halves.now) }
{
    let mut links = Vec::new(alloc);
    for edge in edges {
        links.push(Link {
            from: edge.from,
            to: edge.to,
        })?;
    }
    for number in halves {
        let edge = edges[*number];
        links.push(Link {
            from: edge.dep(),
            to: edge.to,
        })?;
    }
    Ok(links)
}
