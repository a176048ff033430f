//! Graphs over numbered nodes, with the links of each node at hand by both ends.

ghost use Rattle.std.specs.Prelude.{◌≡◌, ℕ, ◌<◌, suc, length, slice_index, IfOk, IfSome, IfNone};
ghost use Rattle.numbered_graph.specs.Links.{AreWithin, near_at, far_at};
ghost use Rattle.numbered_graph.specs.Chains.{IsNextLink};

use crate::chains::{Chains, chains_of};
use crate::direction::Direction;
use crate::link::Link;
use std::alloc::{AllocError, Global};
use std::marker::Model;

/// So many nodes, numbered from 0, and a list of links between them, told by their places in it.
#[derive(Drop)]
pub struct Graph {
    nodes: usize,
    links: Vec<Link>,
    leaving: Chains,
    entering: Chains,
}

impl Model for Graph {
    ghost use Rattle.numbered_graph.specs.Graphs.{GraphValue, IsKept};

    ghost Value = { GraphValue };

    ghost view = { λ g. record { nodes = g.nodes; links = g.links.items } };

    ghost invariant = { λ g. IsKept g.nodes g.links.items g.leaving g.entering };
}

impl Graph {
    /// Takes time in proportion to nodes and links. `are_within` tests what is asked of the links.
    pub fn new(alloc: Global, nodes: usize, links: Vec<Link>) -> Result<Graph, AllocError>
        requires { AreWithin nodes links.items }
        ensures made { IfOk result (λ g. g ≡ record { nodes = nodes; links = links.items }) }
    {
        let leaving = chains_of(alloc, nodes, &links, Direction::Forward)?;
        let entering = chains_of(alloc, nodes, &links, Direction::Reverse)?;
        Ok(Graph {
            nodes,
            links,
            leaving,
            entering,
        })
    }

    /// How many nodes there are.
    pub fn node_count(&self) -> usize
        ensures count { result ≡ self.now.nodes }
    {
        self.nodes
    }

    /// The links, in the order of their numbers.
    pub fn links(&self) -> &[Link]
        ensures value { result.now ≡ self.now.links }
        ensures within { AreWithin self.now.nodes self.now.links }
    {
        &self.links
    }

    /// The node from which the link with this number is followed.
    pub fn near(&self, direction: Direction, number: usize) -> usize
        requires { number < length self.now.links }
        ensures value { result ≡ near_at direction self.now.links number }
        ensures node { result < self.now.nodes }
    {
        self.links[number].near(direction)
    }

    /// The node to which the link with this number is followed.
    pub fn far(&self, direction: Direction, number: usize) -> usize
        requires { number < length self.now.links }
        ensures value { result ≡ far_at direction self.now.links number }
        ensures node { result < self.now.nodes }
    {
        self.links[number].far(direction)
    }

    // For each node the number of its first link, or the number of links.
    pub(crate) fn first_links(
        &self,
        alloc: Global,
        direction: Direction,
    ) -> Result<Vec<usize>, AllocError>
        ensures sized { IfOk result (λ r. length r.items ≡ self.now.nodes) }
        ensures each { IfOk result (λ r. (v : ℕ) → v < self.now.nodes
            → IsNextLink direction self.now.links v 0 (slice_index r.items v)) }
    {
        match direction {
            Direction::Forward => Vec::from_slice(alloc, &self.leaving.first),
            Direction::Reverse => Vec::from_slice(alloc, &self.entering.first),
        }
    }

    /// The first link that is followed from the node.
    pub fn first_link(&self, direction: Direction, node: usize) -> Option<usize>
        requires { node < self.now.nodes }
        ensures some { IfSome result (λ j. (j < length self.now.links)
            × IsNextLink direction self.now.links node 0 j) }
        ensures none { IfNone result (IsNextLink direction self.now.links node 0
            (length self.now.links)) }
    {
        let number = match direction {
            Direction::Forward => self.leaving.first[node],
            Direction::Reverse => self.entering.first[node],
        };
        if number < self.links.len() {
            Some(number)
        } else {
            None
        }
    }

    /// The next link that is followed from the same node.
    pub fn next_link(&self, direction: Direction, number: usize) -> Option<usize>
        requires { number < length self.now.links }
        ensures some { IfSome result (λ j. (j < length self.now.links)
            × IsNextLink direction self.now.links (near_at direction self.now.links number)
            (suc number) j) }
        ensures none { IfNone result (IsNextLink direction self.now.links
            (near_at direction self.now.links number) (suc number) (length self.now.links)) }
    {
        let next = self.next_of(direction, number);
        if next < self.links.len() {
            Some(next)
        } else {
            None
        }
    }

    pub(crate) fn next_of(&self, direction: Direction, number: usize) -> usize
        requires { number < length self.now.links }
        ensures { IsNextLink direction self.now.links (near_at direction self.now.links number)
            (suc number) result }
    {
        match direction {
            Direction::Forward => self.leaving.next[number],
            Direction::Reverse => self.entering.next[number],
        }
    }
}
