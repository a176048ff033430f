//! Sets of packages of two graphs.

use crate::graphs::packages::graphs::{FEWER, TRIANGLE, TURNED};
use crate::workspace::graph_of;

/// All packages of the one graph and none of the other's make a set of the other's graph.
#[test]
fn sets_of_two_graphs(rt: HostRuntime) {
    let alloc = rt.alloc();
    let graph = graph_of(&rt, alloc, TRIANGLE);
    let other = graph_of(&rt, alloc, TURNED);
    let all = graph.resolve_all(alloc).expect(&rt, "memory");
    let none = other.resolve_none(alloc).expect(&rt, "memory");
    assert!(rt; none.same_packages(&all));
    let both = none.union(alloc, &all).expect(&rt, "memory");
    assert_eq!(rt; both.len(), 3);
}

#[test]
fn sets_of_other_packages(rt: HostRuntime) {
    let alloc = rt.alloc();
    let graph = graph_of(&rt, alloc, TRIANGLE);
    let other = graph_of(&rt, alloc, FEWER);
    let all = graph.resolve_all(alloc).expect(&rt, "memory");
    let none = other.resolve_none(alloc).expect(&rt, "memory");
    assert!(rt; !none.same_packages(&all));
}
