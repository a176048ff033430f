//! Listings of nodes: components together, links between components forward.

ghost use Rattle.std.specs.Prelude.{◌≡◌, ℕ, Bool, List, ◌&&◌, nat_lt, length, filter, map, IfOk, IsPermutation};
ghost use Rattle.numbered_graph.specs.Places.{place_of};
ghost use Rattle.numbered_graph.specs.Sets.{has};
ghost use Rattle.numbered_graph.specs.Listings.{numbers_below, IsListing, IsInOrder};
ghost use Rattle.numbered_graph.specs.declared.link.Link.{Link};

use crate::components::component_ranks;
use crate::flags::flags_of;
use crate::graph::Graph;
use crate::node_set::NodeSet;
use std::alloc::{AllocError, Global};

/// A node with its ranks, by which it is sorted.
#[derive(Clone, Copy, PartialEq, Eq, PartialOrd, Ord)]
pub struct Place {
    pub rank: usize,
    pub firm_rank: usize,
    pub node: usize,
}

/// All nodes: components together, links between components forward, and the links whose `firm` flag
/// is set forward too, unless they lie on a cycle of such links. Takes time in proportion to nodes and
/// links, up to one sort of the nodes.
pub fn listing(alloc: Global, graph: &Graph, firm: &[bool]) -> Result<Vec<usize>, AllocError>
    requires { length firm.now ≡ length graph.now.links }
    ensures listing { IfOk result (λ xs. IsListing graph.now.links (has firm.now)
        (λ v. nat_lt v graph.now.nodes) xs.items) }
{
    let all = flags_of(alloc, true, graph.links().len())?;
    let ranks = component_ranks(alloc, graph, &all)?;
    let firm_ranks = component_ranks(alloc, graph, firm)?;
    in_order(alloc, &ranks, &firm_ranks)
}

/// The nodes of a listing that are in the set, in its order: a listing of them.
pub fn listed_members(
    alloc: Global,
    listing: &[usize],
    set: &NodeSet,
) -> Result<Vec<usize>, AllocError>
    ensures value { IfOk result (λ xs. xs.items ≡ filter (has set.now) listing.now) }
    ensures listing { IfOk result (λ xs. (links : List Link) (firm members : ℕ → Bool) →
        IsListing links firm members listing.now
        → IsListing links firm (λ v. members v && has set.now v) xs.items) }
{
    let mut members = Vec::new(alloc);
    for node in listing {
        if set.contains(*node) {
            members.push(*node)?;
        }
    }
    Ok(members)
}

// The nodes by rank, and within a rank by firm rank.
pub(crate) fn in_order(
    alloc: Global,
    ranks: &[usize],
    firm_ranks: &[usize],
) -> Result<Vec<usize>, AllocError>
    requires { length firm_ranks.now ≡ length ranks.now }
    ensures each { IfOk result (λ xs. IsPermutation (numbers_below (length ranks.now)) xs.items) }
    ensures order { IfOk result (λ xs. IsInOrder ranks.now firm_ranks.now xs.items) }
{
    let mut places = places_of(alloc, ranks, firm_ranks)?;
    places.sort_unstable();
    let mut nodes = Vec::new(alloc);
    for place in &places {
        nodes.push(place.node)?;
    }
    Ok(nodes)
}

fn places_of(alloc: Global, ranks: &[usize], firm_ranks: &[usize]) -> Result<Vec<Place>, AllocError>
    requires { length firm_ranks.now ≡ length ranks.now }
    ensures { IfOk result (λ v. v.items
        ≡ map (place_of ranks.now firm_ranks.now) (numbers_below (length ranks.now))) }
{
    let mut places = Vec::new(alloc);
    for node in 0..ranks.len() {
        let (rank, firm_rank) = (ranks[node], firm_ranks[node]);
        places.push(Place {
            rank,
            firm_rank,
            node,
        })?;
    }
    Ok(places)
}
