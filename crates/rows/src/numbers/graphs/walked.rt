//! A walk in which some links are refused.

ghost use Rattle.std.specs.Prelude.{◌≡◌, ◌<◌, length, All};

use numbered_graph::{Direction, Graph, Looks, NodeSet, Walk};
use std::alloc::{AllocError, Global};
use std::marker::Brand;
use std::sync::ledger::{Blank, Ledger};

/// Walks from the starts, and accepts the links whose flag is set. Adds the number of each link that is
/// shown, and answers what was included.
pub(crate) fn walk_over(
    alloc: Global,
    graph: &Graph,
    starts: &[usize],
    direction: Direction,
    accepts: &[bool],
    shown: &mut Vec<usize>,
) -> Result<NodeSet, AllocError>
    requires starts { All (λ v. v < graph.now.nodes) starts.now }
    requires accepts { length accepts.now ≡ length graph.now.links }
{
    walk_with_blank::<Brand>(
        alloc,
        graph,
        starts,
        direction,
        accepts,
        shown,
        Blank::new(1),
    )
}

fn walk_with_blank<L: Ledger>(
    alloc: Global,
    graph: &Graph,
    starts: &[usize],
    direction: Direction,
    accepts: &[bool],
    shown: &mut Vec<usize>,
    blank: Blank,
) -> Result<NodeSet, AllocError>
    requires starts { All (λ v. v < graph.now.nodes) starts.now }
    requires accepts { length accepts.now ≡ length graph.now.links }
    requires name { blank.name ≡ L.name }
    requires parts { blank.parts ≡ L.parts }
    requires some { 0 < blank.parts }
{
    let mut looks = Looks::<L>::new(blank);
    let mut walk = Walk::new(alloc, graph, starts, direction)?;
    while let Some(number) = walk.take(&mut looks) {
        shown.push(number)?;
        walk.answer(number, accepts[number]);
    }
    Ok(walk.into_included())
}
