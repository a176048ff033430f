//! What callbacks keep of the packages and links that they are shown lives as long as the graph.

use crate::graphs::packages::graphs::TRIANGLE;
use crate::workspace::graph_of;
use guppy_package_graph::{DependencyDirection, PackageGraph, PackageLink, PackageLinkContext};
use std::alloc::Global;
use std::process::Abort;

const FORWARD: DependencyDirection = DependencyDirection::Forward;

/// The names that a filter of all packages, a partition and a partition in three are shown, by sets that are
/// gone when the names are looked at.
fn names_kept<'g>(rt: &impl Abort, alloc: Global, graph: &'g PackageGraph) -> [Vec<&'g str>; 3] {
    let all = graph.resolve_all(alloc).expect(rt, "memory");
    let mut filtered: Vec<&'g str> = Vec::new(alloc);
    let kept = all.filter(alloc, FORWARD, |shown| filtered.push(shown.name()).is_ok());
    assert!(rt; kept.is_ok());
    let mut parted: Vec<&'g str> = Vec::new(alloc);
    let parts = all.partition(alloc, FORWARD, |shown| parted.push(shown.name()).is_ok());
    assert!(rt; parts.is_ok());
    let mut in_three: Vec<&'g str> = Vec::new(alloc);
    let parts = all.filter_partition(alloc, FORWARD, |shown| {
        Some(in_three.push(shown.name()).is_ok())
    });
    assert!(rt; parts.is_ok());
    [filtered, parted, in_three]
}

/// The links that a resolve from the members shows.
fn links_kept<'g>(rt: &impl Abort, alloc: Global, graph: &'g PackageGraph) -> Vec<PackageLink<'g>> {
    let all = graph.resolve_all(alloc).expect(rt, "memory");
    let query = all.to_package_query(alloc, FORWARD).expect(rt, "memory");
    let mut links: Vec<PackageLink<'g>> = Vec::new(alloc);
    let reached = query.resolve_with_fn(alloc, |_: &PackageLinkContext<'_>, link| {
        links.push(link).is_ok()
    });
    assert!(rt; reached.is_ok());
    links
}

#[test]
fn names_outlive_callbacks(rt: HostRuntime) {
    let graph = graph_of(&rt, rt.alloc(), TRIANGLE);
    for names in &names_kept(&rt, rt.alloc(), &graph) {
        assert!(rt; names.as_slice() == ["a", "b", "c"].as_slice());
    }
}

#[test]
fn links_outlive_closures(rt: HostRuntime) {
    let graph = graph_of(&rt, rt.alloc(), TRIANGLE);
    let links = links_kept(&rt, rt.alloc(), &graph);
    assert_eq!(rt; links.len(), 3);
    assert!(rt; links.iter().all(|link| link.number() < 3));
}
