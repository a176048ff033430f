//! What sets lend lives as long as their graph; what is copied and printed of them.

use crate::graphs::packages::graphs::TRIANGLE;
use crate::workspace::graph_of;
use guppy_package_graph::{DependencyDirection, PackageGraph, PackageMetadata};
use std::alloc::Global;
use std::process::Abort;

/// The packages of a set that is gone when they are looked at.
fn all_packages<'g>(
    rt: &impl Abort,
    alloc: Global,
    graph: &'g PackageGraph,
) -> Vec<PackageMetadata<'g>> {
    let all = graph.resolve_all(alloc).expect(rt, "memory");
    let mut packages: Vec<PackageMetadata<'g>> = Vec::new(alloc);
    for package in all.packages(DependencyDirection::Forward) {
        assert!(rt; packages.push(package).is_ok());
    }
    packages
}

/// Their ids, of packages that are gone when these are looked at.
pub(crate) fn all_ids<'g>(rt: &impl Abort, alloc: Global, graph: &'g PackageGraph) -> Vec<&'g str> {
    let packages = all_packages(rt, alloc, graph);
    let mut ids: Vec<&'g str> = Vec::new(alloc);
    for package in &packages {
        assert!(rt; ids.push(package.id().repr()).is_ok());
    }
    ids
}

#[test]
fn sets_of_a_copied_graph_are_equal(rt: HostRuntime) {
    let graph = graph_of(&rt, rt.alloc(), TRIANGLE);
    let copy = graph.copy(rt.alloc()).expect(&rt, "memory");
    let all = graph.resolve_all(rt.alloc()).expect(&rt, "memory");
    let others = copy.resolve_all(rt.alloc()).expect(&rt, "memory");
    let none = copy.resolve_none(rt.alloc()).expect(&rt, "memory");
    assert!(rt; [all == others, all != none, none != all] == [true; 3]);
}

#[test]
fn ids_outlive_their_set(rt: HostRuntime) {
    let graph = graph_of(&rt, rt.alloc(), TRIANGLE);
    let ids = all_ids(&rt, rt.alloc(), &graph);
    assert!(rt; ids.as_slice() == ["a", "b", "c"].as_slice());
}

/// The graph's first package equals the first of all, its second one does not, and one is left then.
#[test]
fn packages_are_equal_by_their_ids(rt: HostRuntime) {
    let graph = graph_of(&rt, rt.alloc(), TRIANGLE);
    let packages = all_packages(&rt, rt.alloc(), &graph);
    let mut all = graph.packages();
    assert_eq!(rt; all.len(), 3);
    assert!(rt; all.next() == packages.first().copied());
    assert!(rt; all.next() != packages.first().copied());
    assert_eq!(rt; all.len(), 1);
}

#[test]
fn a_copied_set_is_printed_by_its_ids(rt: HostRuntime) {
    let graph = graph_of(&rt, rt.alloc(), TRIANGLE);
    let all = graph.resolve_all(rt.alloc()).expect(&rt, "memory");
    let copy = all.copy(rt.alloc()).expect(&rt, "memory");
    let text = format!(in rt.alloc(); "{copy:?}").expect(&rt, "memory");
    assert_eq!(rt;
        text.as_str(),
        r#"{PackageId { text: "a" }, PackageId { text: "b" }, PackageId { text: "c" }}"#
    );
}
