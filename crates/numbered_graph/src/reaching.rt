//! What links lead to from some nodes.

ghost use Rattle.std.specs.Prelude.{◌≡◌, ℕ, ◌+◌, ◌<◌, ◌≤◌, ◌↔◌, length, All, IsTrue, IfOk};
ghost use Rattle.numbered_graph.specs.Paths.{any_link, IsReached, Reaches};
ghost use Rattle.numbered_graph.specs.Sets.{has};

use crate::direction::Direction;
use crate::flags::flags_of;
use crate::graph::Graph;
use crate::looks::Looks;
use crate::node_set::NodeSet;
use crate::uncounted::take_uncounted;
use crate::walk::Walk;
use std::alloc::{AllocError, Global};
use std::marker::Brand;
use std::sync::ledger::{Blank, Ledger};

/// The nodes to which links lead from the starts, or in reverse from which they lead to a start.
pub fn reach(
    alloc: Global,
    graph: &Graph,
    starts: &[usize],
    direction: Direction,
) -> Result<NodeSet, AllocError>
    requires { All (λ v. v < graph.now.nodes) starts.now }
    ensures sized { IfOk result (λ r. length r ≡ graph.now.nodes) }
    ensures reached { IfOk result (λ r. (v : ℕ) → IsTrue (has r v)
        ↔ IsReached direction graph.now.links any_link starts.now v) }
{
    let passes = flags_of(alloc, true, graph.links().len())?;
    let reached = reach_over(alloc, graph, starts, direction, &passes)?;
    Ok(reached)
}

/// The same, with a count of the looks that it takes.
pub fn reach_counted<L: Ledger>(
    alloc: Global,
    graph: &Graph,
    starts: &[usize],
    direction: Direction,
    looks: &mut Looks<L>,
) -> Result<NodeSet, AllocError>
    requires { All (λ v. v < graph.now.nodes) starts.now }
    ensures sized { IfOk result (λ r. length r ≡ graph.now.nodes) }
    ensures reached { IfOk result (λ r. (v : ℕ) → IsTrue (has r v)
        ↔ IsReached direction graph.now.links any_link starts.now v) }
    ensures looks { looks.new ≤ looks.old + (graph.now.nodes + length graph.now.links) }
{
    let passes = flags_of(alloc, true, graph.links().len())?;
    let reached = reach_over_counted(alloc, graph, starts, direction, &passes, looks)?;
    Ok(reached)
}

/// The same over the links whose flag is set.
pub fn reach_over(
    alloc: Global,
    graph: &Graph,
    starts: &[usize],
    direction: Direction,
    passes: &[bool],
) -> Result<NodeSet, AllocError>
    requires starts { All (λ v. v < graph.now.nodes) starts.now }
    requires passes { length passes.now ≡ length graph.now.links }
    ensures sized { IfOk result (λ r. length r ≡ graph.now.nodes) }
    ensures reached { IfOk result (λ r. (v : ℕ) → IsTrue (has r v)
        ↔ IsReached direction graph.now.links (has passes.now) starts.now v) }
{
    reach_with_blank::<Brand>(alloc, graph, starts, direction, passes, Blank::new(1))
}

fn reach_with_blank<L: Ledger>(
    alloc: Global,
    graph: &Graph,
    starts: &[usize],
    direction: Direction,
    passes: &[bool],
    blank: Blank,
) -> Result<NodeSet, AllocError>
    requires starts { All (λ v. v < graph.now.nodes) starts.now }
    requires passes { length passes.now ≡ length graph.now.links }
    requires name { blank.name ≡ L.name }
    requires parts { blank.parts ≡ L.parts }
    requires some { 0 < blank.parts }
    ensures sized { IfOk result (λ r. length r ≡ graph.now.nodes) }
    ensures reached { IfOk result (λ r. (v : ℕ) → IsTrue (has r v)
        ↔ IsReached direction graph.now.links (has passes.now) starts.now v) }
{
    let mut looks = Looks::<L>::new(blank);
    reach_over_counted(alloc, graph, starts, direction, passes, &mut looks)
}

/// The same, with a count of the looks that it takes.
pub fn reach_over_counted<L: Ledger>(
    alloc: Global,
    graph: &Graph,
    starts: &[usize],
    direction: Direction,
    passes: &[bool],
    looks: &mut Looks<L>,
) -> Result<NodeSet, AllocError>
    requires starts { All (λ v. v < graph.now.nodes) starts.now }
    requires passes { length passes.now ≡ length graph.now.links }
    ensures sized { IfOk result (λ r. length r ≡ graph.now.nodes) }
    ensures reached { IfOk result (λ r. (v : ℕ) → IsTrue (has r v)
        ↔ IsReached direction graph.now.links (has passes.now) starts.now v) }
    ensures looks { looks.new ≤ looks.old + (graph.now.nodes + length graph.now.links) }
{
    let mut walk = Walk::new(alloc, graph, starts, direction)?;
    while let Some(number) = walk.take(looks) {
        walk.answer(number, passes[number]);
    }
    Ok(walk.into_included())
}

/// Whether a path of links, maybe an empty one, leads from the first node to the second. It begins in
/// time and memory in proportion to nodes and links, and looks at no link once the second is reached.
pub fn leads_to(alloc: Global, graph: &Graph, from: usize, to: usize) -> Result<bool, AllocError>
    requires from { from < graph.now.nodes }
    requires to { to < graph.now.nodes }
    ensures leads { IfOk result (λ b. IsTrue b ↔ Reaches graph.now.links any_link from to) }
{
    let starts = [from];
    let mut walk = Walk::new(alloc, graph, &starts, Direction::Forward)?;
    while !walk.includes(to) {
        match take_uncounted(&mut walk) {
            Some(number) => walk.answer(number, true),
            None => return Ok(false),
        }
    }
    Ok(true)
}
