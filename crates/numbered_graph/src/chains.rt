//! The links of each node, one after the other.

ghost use Rattle.std.specs.Prelude.{IfOk};
ghost use Rattle.numbered_graph.specs.Links.{AreWithin};
ghost use Rattle.numbered_graph.specs.Chains.{AreChains};

use crate::direction::Direction;
use crate::link::Link;
use std::alloc::{AllocError, Global};

/// For each node the number of its first link in a direction, and for each link that of the next one
/// of the same node. The number of links stands for none.
#[derive(Drop)]
pub struct Chains {
    pub first: Vec<usize>,
    pub next: Vec<usize>,
}

/// The chains of these links, in a direction. Of one node they come in the order of the links.
pub fn chains_of(
    alloc: Global,
    nodes: usize,
    links: &[Link],
    direction: Direction,
) -> Result<Chains, AllocError>
    requires { AreWithin nodes links.now }
    ensures { IfOk result (AreChains direction nodes links.now) }
{
    let mut first = vec![in alloc; links.len(); nodes]?;
    let mut next = vec![in alloc; links.len(); links.len()]?;
    let mut at = links.len();
    while at > 0 {
        at -= 1;
        let node = links[at].near(direction);
        next[at] = first[node];
        first[node] = at;
    }
    Ok(Chains { first, next })
}
