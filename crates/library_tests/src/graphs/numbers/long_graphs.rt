//! A chain and a ring of many nodes, and a graph of many links.

use numbered_graph::{
    Direction, Graph, Link, NodeSet, are_within, cycles, listing, reach, root_nodes,
};
use std::alloc::Global;
use std::process::Abort;

const COUNT: usize = 100_000;

/// Each node but the first leads to the one before it.
fn chain(rt: &impl Abort, alloc: Global) -> Vec<Link> {
    let mut links = Vec::new(alloc);
    for to in 0..COUNT - 1 {
        assert!(rt; links.push(Link { from: to + 1, to }).is_ok());
    }
    links
}

/// Six links from each node, to nodes spread over all.
fn spread(rt: &impl Abort, alloc: Global) -> Vec<Link> {
    let mut links = Vec::new(alloc);
    for from in 0..COUNT {
        for step in 1..7 {
            let to = (from * 48_271 + step * 7_919) % COUNT;
            assert!(rt; links.push(Link { from, to }).is_ok());
        }
    }
    links
}

/// The nodes as they are listed where all links are firm.
fn listed(rt: &impl Abort, alloc: Global, graph: &Graph) -> Vec<usize> {
    let firm = vec![in alloc; true; graph.links().len()].expect(rt, "memory");
    listing(alloc, graph, &firm).expect(rt, "memory")
}

#[test]
fn long_chain(rt: HostRuntime) {
    let links = chain(&rt, rt.alloc());
    assert!(rt; are_within(COUNT, &links));
    let graph = Graph::new(rt.alloc(), COUNT, links).expect(&rt, "memory");
    for (direction, count) in [(Direction::Forward, COUNT), (Direction::Reverse, 1)] {
        let reached = reach(rt.alloc(), &graph, &[COUNT - 1], direction);
        assert_eq!(rt; reached.expect(&rt, "memory").len(), count);
    }
    let order = listed(&rt, rt.alloc(), &graph);
    assert_eq!(rt; order.len(), COUNT);
    assert_eq!(rt; order.first().copied(), Some(COUNT - 1));
    let rings = cycles(rt.alloc(), &graph, Direction::Forward);
    assert_eq!(rt; rings.expect(&rt, "memory").len(), 0);
}

#[test]
fn long_ring(rt: HostRuntime) {
    let mut links = chain(&rt, rt.alloc());
    let (from, to) = (0, COUNT - 1);
    assert!(rt; links.push(Link { from, to }).is_ok());
    assert!(rt; are_within(COUNT, &links));
    let graph = Graph::new(rt.alloc(), COUNT, links).expect(&rt, "memory");
    let rings = cycles(rt.alloc(), &graph, Direction::Reverse).expect(&rt, "memory");
    assert_eq!(rt; rings.len(), 1);
    assert_eq!(rt; rings.first().map(|ring| ring.len()), Some(COUNT));
    let all = NodeSet::all(rt.alloc(), COUNT).expect(&rt, "memory");
    assert!(rt; all.node_count() == graph.node_count());
    let roots = root_nodes(rt.alloc(), &graph, &all, Direction::Forward);
    assert_eq!(rt; roots.expect(&rt, "memory").len(), COUNT);
}

#[test]
fn many_links(rt: HostRuntime) {
    let links = spread(&rt, rt.alloc());
    assert!(rt; are_within(COUNT, &links));
    let graph = Graph::new(rt.alloc(), COUNT, links).expect(&rt, "memory");
    assert_eq!(rt; listed(&rt, rt.alloc(), &graph).len(), COUNT);
}
