//! Cycles come as the packages of the graph are listed.

use crate::graphs::packages::graphs::TWO_PAIRS;
use crate::graphs::packages::lent::all_ids;
use crate::workspace::graph_of;
use guppy_package_graph::PackageGraph;
use std::alloc::Global;
use std::process::Abort;

/// The ids of all cycles, one cycle after the other.
fn cycle_ids<'g>(rt: &impl Abort, alloc: Global, graph: &'g PackageGraph) -> Vec<&'g str> {
    let cycles = graph.cycles(alloc).expect(rt, "memory");
    let mut ids: Vec<&'g str> = Vec::new(alloc);
    for cycle in cycles.all_cycles() {
        for id in cycle {
            assert!(rt; ids.push(id.repr()).is_ok());
        }
    }
    ids
}

#[test]
fn cycles_come_as_packages_are_listed(rt: HostRuntime) {
    let graph = graph_of(&rt, rt.alloc(), TWO_PAIRS);
    let on_cycles = cycle_ids(&rt, rt.alloc(), &graph);
    assert_eq!(rt; on_cycles.len(), 4);
    assert!(rt; on_cycles == all_ids(&rt, rt.alloc(), &graph));
}
