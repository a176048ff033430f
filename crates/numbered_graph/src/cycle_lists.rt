//! Cycles of a graph, in the order of its components or of a listing.

ghost use Rattle.std.specs.Prelude.{◌≡◌, ℕ, ◌<◌, ◌≤◌, Bool, nat_lt, length, map, filter, slice_index, All, Contains, IfOk};
ghost use Rattle.std.specs.List.{flat_map};
ghost use Rattle.numbered_graph.specs.Cycles.{AreCycles, AreInListingOrder, AreKeysTogether, AreLevels, AreRuns, IsRun, key_of};
ghost use Rattle.numbered_graph.specs.Listings.{IsListing};
ghost use Rattle.numbered_graph.specs.declared.direction.Direction.TheVariants.{Forward};
ghost use Rattle.numbered_graph.specs.Sets.{has};

use crate::components::component_ranks;
use crate::direction::Direction;
use crate::flags::{flags_of, highest, push_if};
use crate::graph::Graph;
use crate::listings::in_order;
use std::alloc::{AllocError, Global};

/// The components that have two or more nodes or a link from a node to itself, none after one that it
/// leads to; in reverse, none after one that leads to it.
pub fn cycles(
    alloc: Global,
    graph: &Graph,
    direction: Direction,
) -> Result<Vec<Vec<usize>>, AllocError>
    ensures cycles { IfOk result (λ cs. AreCycles direction graph.now.links
        (map (λ c. c.items) cs.items)) }
    ensures within { IfOk result (λ cs. (v : ℕ)
        → Contains (flat_map (λ c. c) (map (λ c. c.items) cs.items)) v → v < graph.now.nodes) }
{
    let all = flags_of(alloc, true, graph.links().len())?;
    let ranks = component_ranks(alloc, graph, &all)?;
    let keys = keys_of(alloc, &ranks, direction)?;
    let order = in_order(alloc, &keys, &keys)?;
    let levels = levels_of(alloc, graph, &keys)?;
    let members = on_levels(alloc, &order, &keys, &levels)?;
    runs_of(alloc, &members, &keys)
}

/// The components that have two or more nodes or a link from a node to itself, in the order of a
/// listing of all nodes, as the nodes within each.
pub fn listed_cycles(
    alloc: Global,
    graph: &Graph,
    listing: &[usize],
) -> Result<Vec<Vec<usize>>, AllocError>
    requires { (firm : ℕ → Bool) × IsListing graph.now.links firm (λ v. nat_lt v graph.now.nodes)
        listing.now }
    ensures cycles { IfOk result (λ cs. AreCycles Forward graph.now.links
        (map (λ c. c.items) cs.items)) }
    ensures listed { IfOk result (λ cs. AreInListingOrder listing.now
        (map (λ c. c.items) cs.items)) }
    ensures within { IfOk result (λ cs. (v : ℕ)
        → Contains (flat_map (λ c. c) (map (λ c. c.items) cs.items)) v → v < graph.now.nodes) }
{
    let all = flags_of(alloc, true, graph.links().len())?;
    let ranks = component_ranks(alloc, graph, &all)?;
    let levels = levels_of(alloc, graph, &ranks)?;
    let members = on_levels(alloc, listing, &ranks, &levels)?;
    runs_of(alloc, &members, &ranks)
}

// Numbers that rise along links in the direction.
fn keys_of(alloc: Global, ranks: &[usize], direction: Direction) -> Result<Vec<usize>, AllocError>
    ensures { IfOk result (λ keys. (top : ℕ) × All (λ r. r ≤ top) ranks.now
        × (keys.items ≡ map (key_of direction top) ranks.now)) }
{
    let top = highest(ranks);
    let mut keys = Vec::new(alloc);
    for rank in ranks {
        keys.push(match direction {
            Direction::Forward => *rank,
            Direction::Reverse => top - *rank,
        })?;
    }
    Ok(keys)
}

// A flag for each key: whether a link joins two nodes of it.
fn levels_of(alloc: Global, graph: &Graph, keys: &[usize]) -> Result<Vec<bool>, AllocError>
    requires { length keys.now ≡ graph.now.nodes }
    ensures levels { IfOk result (λ flags. AreLevels graph.now.links keys.now
        (length graph.now.links) flags.items) }
    ensures sized { IfOk result (λ flags. All (λ k. k < length flags.items) keys.now) }
{
    let Some(count) = highest(keys).checked_add(1) else {
        // No list of flags is as long.
        return Err(AllocError);
    };
    let mut levels = flags_of(alloc, false, count)?;
    for number in 0..graph.links().len() {
        let from = keys[graph.near(Direction::Forward, number)];
        let to = keys[graph.far(Direction::Forward, number)];
        if from == to {
            levels[from] = true;
        }
    }
    Ok(levels)
}

// The nodes whose key has its flag set.
fn on_levels(
    alloc: Global,
    order: &[usize],
    keys: &[usize],
    levels: &[bool],
) -> Result<Vec<usize>, AllocError>
    requires order { All (λ v. v < length keys.now) order.now }
    requires levels { All (λ k. k < length levels.now) keys.now }
    ensures { IfOk result (λ xs. xs.items
        ≡ filter (λ v. has levels.now (slice_index keys.now v)) order.now) }
{
    let mut members = Vec::new(alloc);
    for node in order {
        push_if(&mut members, *node, levels[keys[*node]])?;
    }
    Ok(members)
}

// The nodes cut where their key changes.
fn runs_of(alloc: Global, nodes: &[usize], keys: &[usize]) -> Result<Vec<Vec<usize>>, AllocError>
    requires within { All (λ v. v < length keys.now) nodes.now }
    requires together { AreKeysTogether keys.now nodes.now }
    ensures whole { IfOk result (λ cs. flat_map (λ c. c) (map (λ c. c.items) cs.items)
        ≡ nodes.now) }
    ensures runs { IfOk result (λ cs. AreRuns keys.now (map (λ c. c.items) cs.items)) }
{
    let mut runs = Vec::new(alloc);
    let mut start = 0;
    while start < nodes.len() {
        let run = run_from(alloc, nodes, keys, start)?;
        start += run.len();
        runs.push(run)?;
    }
    Ok(runs)
}

// The nodes from `start` on that have its key.
fn run_from(
    alloc: Global,
    nodes: &[usize],
    keys: &[usize],
    start: usize,
) -> Result<Vec<usize>, AllocError>
    requires within { All (λ v. v < length keys.now) nodes.now }
    requires start { start < length nodes.now }
    ensures { IfOk result (λ run. IsRun keys.now nodes.now start run.items) }
{
    let key = keys[nodes[start]];
    let mut run = Vec::new(alloc);
    let mut at = start;
    while at < nodes.len() && keys[nodes[at]] == key {
        run.push(nodes[at])?;
        at += 1;
    }
    Ok(run)
}
