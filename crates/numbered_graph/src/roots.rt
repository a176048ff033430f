//! Links inside a set of nodes, and the nodes at which they begin.

ghost use Rattle.std.specs.Prelude.{◌≡◌, ℕ, ◌<◌, ◌&&◌, not, ◌↔◌, length, slice_index, filter, All, AllPairs, Contains, IsTrue, IfOk};
ghost use Rattle.numbered_graph.specs.Listings.{numbers_below};
ghost use Rattle.numbered_graph.specs.Roots.{is_inside, IsRoot, AreEntered};
ghost use Rattle.numbered_graph.specs.Sets.{has};

use crate::components::component_ranks;
use crate::direction::Direction;
use crate::flags::{flags_of, highest, push_if};
use crate::graph::Graph;
use crate::node_set::NodeSet;
use std::alloc::{AllocError, Global};

/// The numbers of the links whose ends are both in the set, ascending.
pub fn links_inside(alloc: Global, graph: &Graph, set: &NodeSet) -> Result<Vec<usize>, AllocError>
    ensures inside { IfOk result (λ js. js.items
        ≡ filter (is_inside graph.now.links set.now) (numbers_below (length graph.now.links))) }
    ensures within { IfOk result (λ js. All (λ j. j < length graph.now.links) js.items) }
{
    let mut inside = Vec::new(alloc);
    for number in 0..graph.links().len() {
        push_if(&mut inside, number, is_inside(graph, set, number))?;
    }
    Ok(inside)
}

fn is_inside(graph: &Graph, set: &NodeSet, number: usize) -> bool
    requires { number < length graph.now.links }
    ensures { result ≡ is_inside graph.now.links set.now number }
{
    set.contains(graph.near(Direction::Forward, number))
        && set.contains(graph.far(Direction::Forward, number))
}

/// The members of a set whose component no link inside the set enters from another component, or in
/// reverse leaves to another, ascending.
pub fn root_nodes(
    alloc: Global,
    graph: &Graph,
    set: &NodeSet,
    direction: Direction,
) -> Result<Vec<usize>, AllocError>
    requires { length set.now ≡ graph.now.nodes }
    ensures ascending { IfOk result (λ xs. AllPairs (λ x y. x < y) xs.items) }
    ensures each { IfOk result (λ xs. (v : ℕ) → Contains xs.items v
        ↔ (IsTrue (has set.now v) × IsRoot direction graph.now.links set.now v)) }
    ensures within { IfOk result (λ xs. All (λ v. v < graph.now.nodes) xs.items) }
{
    let all = flags_of(alloc, true, graph.links().len())?;
    let ranks = component_ranks(alloc, graph, &all)?;
    let entered = entered_ranks(alloc, graph, &ranks, set, direction)?;
    not_entered(alloc, &ranks, set, &entered)
}

// A flag for each rank: whether a link inside the set leads to it from another rank.
fn entered_ranks(
    alloc: Global,
    graph: &Graph,
    ranks: &[usize],
    set: &NodeSet,
    direction: Direction,
) -> Result<Vec<bool>, AllocError>
    requires { length ranks.now ≡ graph.now.nodes }
    ensures entered { IfOk result (λ flags. AreEntered direction graph.now.links ranks.now set.now
        (length graph.now.links) flags.items) }
    ensures sized { IfOk result (λ flags. All (λ r. r < length flags.items) ranks.now) }
{
    let Some(count) = highest(ranks).checked_add(1) else {
        // No list of flags is as long.
        return Err(AllocError);
    };
    let mut entered = flags_of(alloc, false, count)?;
    for number in 0..graph.links().len() {
        let near = ranks[graph.near(direction, number)];
        let far = ranks[graph.far(direction, number)];
        if near != far && is_inside(graph, set, number) {
            entered[far] = true;
        }
    }
    Ok(entered)
}

// The members of the set whose rank is not entered.
fn not_entered(
    alloc: Global,
    ranks: &[usize],
    set: &NodeSet,
    entered: &[bool],
) -> Result<Vec<usize>, AllocError>
    requires { All (λ r. r < length entered.now) ranks.now }
    ensures { IfOk result (λ xs. xs.items
        ≡ filter (λ v. has set.now v && not (has entered.now (slice_index ranks.now v)))
        (numbers_below (length ranks.now))) }
{
    let mut nodes = Vec::new(alloc);
    for node in 0..ranks.len() {
        push_if(
            &mut nodes,
            node,
            set.contains(node) && !entered[ranks[node]],
        )?;
    }
    Ok(nodes)
}
