//! Resolves of packages by visitors and by closures.

ghost use Rattle.std.specs.Prelude.{◌≡◌, ◌<◌};

use crate::graphs::packages::graphs::{CHAIN, FOR_TESTS, TRIANGLE};
use crate::graphs::packages::visitors::{Alternates, Follows, FollowsFirm};
use crate::workspace::{debugged, graph_of, id_of};
use guppy_package_graph::{
    PackageGraph, PackageLink, PackageLinkContext, PackageLinkVisitor, PackageQuery, PackageSet,
};
use guppy_package_parts::DependencyDirection;
use numbered_graph::Looks;
use std::alloc::{AllocError, Global};
use std::marker::Brand;
use std::process::Abort;
use std::sync::ledger::{Blank, Ledger};

const FORWARD: DependencyDirection = DependencyDirection::Forward;

const REVERSE: DependencyDirection = DependencyDirection::Reverse;

/// A query of the links from a package, or of those to it.
fn query_of<'g>(
    rt: &impl Abort,
    alloc: Global,
    graph: &'g PackageGraph,
    start: &str,
    direction: DependencyDirection,
) -> PackageQuery<'g> {
    let start = id_of(rt, alloc, start);
    let query = graph.query_directed(alloc, &[&start], direction);
    query.expect(rt, "a query")
}

/// What the visitor includes from the start.
fn included_by<'g>(
    rt: &impl Abort,
    alloc: Global,
    graph: &'g PackageGraph,
    start: &str,
    direction: DependencyDirection,
    visitor: &mut dyn PackageLinkVisitor,
) -> PackageSet<'g> {
    let query = query_of(rt, alloc, graph, start, direction);
    let included = query.resolve_with(alloc, visitor);
    included.expect(rt, "memory")
}

#[test]
fn refuses_all(rt: HostRuntime) {
    let graph = graph_of(&rt, rt.alloc(), TRIANGLE);
    let mut visitor = Follows { left: 0, shown: 0 };
    let included = included_by(&rt, rt.alloc(), &graph, "a", FORWARD, &mut visitor);
    assert_eq!(rt; included.len(), 1);
    assert_eq!(rt; visitor.shown, 2);
}

#[test]
fn accepts_once(rt: HostRuntime) {
    let graph = graph_of(&rt, rt.alloc(), TRIANGLE);
    let mut visitor = Follows { left: 1, shown: 0 };
    let included = included_by(&rt, rt.alloc(), &graph, "c", REVERSE, &mut visitor);
    assert_eq!(rt; included.len(), 2);
    assert_eq!(rt; visitor.left, 0);
}

#[test]
fn accepts_all(rt: HostRuntime) {
    let graph = graph_of(&rt, rt.alloc(), TRIANGLE);
    let mut visitor = Follows { left: 3, shown: 0 };
    let included = included_by(&rt, rt.alloc(), &graph, "a", FORWARD, &mut visitor);
    assert_eq!(rt; included.len(), 3);
    assert_eq!(rt; visitor.shown, 3);
}

/// One of the two links that lead to c is followed.
#[test]
fn alternates(rt: HostRuntime) {
    let graph = graph_of(&rt, rt.alloc(), TRIANGLE);
    let mut visitor = Alternates { accepts: false };
    let included = included_by(&rt, rt.alloc(), &graph, "c", REVERSE, &mut visitor);
    assert_eq!(rt; included.len(), 2);
}

/// The first link that is shown is followed, and no other, be they counted or taken in turn.
#[test]
fn follows_the_first_of_a_chain(rt: HostRuntime) {
    let alloc = rt.alloc();
    let graph = graph_of(&rt, alloc, CHAIN);
    let first = r#"{PackageId { text: "a" }, PackageId { text: "b" }}"#;
    let mut once = Follows { left: 1, shown: 0 };
    let included = included_by(&rt, alloc, &graph, "a", FORWARD, &mut once);
    assert_eq!(rt; debugged(&rt, alloc, &included).as_str(), first);
    assert_eq!(rt; once.shown, 2);
    let mut turns = Alternates { accepts: true };
    let included = included_by(&rt, alloc, &graph, "a", FORWARD, &mut turns);
    assert_eq!(rt; debugged(&rt, alloc, &included).as_str(), first);
    let mut turns = Alternates { accepts: false };
    let included = included_by(&rt, alloc, &graph, "a", FORWARD, &mut turns);
    let none = r#"{PackageId { text: "a" }}"#;
    assert_eq!(rt; debugged(&rt, alloc, &included).as_str(), none);
}

#[test]
fn answers_by_the_link(rt: HostRuntime) {
    let graph = graph_of(&rt, rt.alloc(), FOR_TESTS);
    let included = included_by(&rt, rt.alloc(), &graph, "a", FORWARD, &mut FollowsFirm);
    assert_eq!(rt; included.len(), 2);
}

#[test]
fn boxed_visitor(rt: HostRuntime) {
    let graph = graph_of(&rt, rt.alloc(), TRIANGLE);
    let follows = Follows { left: 3, shown: 0 };
    let boxed = Box::new(rt.alloc(), follows).expect(&rt, "memory");
    let mut visitor: Box<dyn PackageLinkVisitor + Drop> = boxed;
    let included = included_by(&rt, rt.alloc(), &graph, "a", FORWARD, &mut *visitor);
    assert_eq!(rt; included.len(), 3);
}

#[test]
fn closure_shown_each_link_once(rt: HostRuntime) {
    let graph = graph_of(&rt, rt.alloc(), TRIANGLE);
    let query = query_of(&rt, rt.alloc(), &graph, "a", FORWARD);
    let mut shown = Vec::new(rt.alloc());
    let included = query.resolve_with_fn(
        rt.alloc(),
        |_cx: &PackageLinkContext<'_>, link: PackageLink<'_>| { shown.push(link.number()).is_ok() },
    );
    assert!(rt; included.is_ok());
    shown.sort_unstable();
    assert!(rt; shown.iter().copied().eq(0..3));
}

/// How many packages a counted resolve reaches.
fn counted<L: Ledger>(
    alloc: Global,
    query: PackageQuery<'_>,
    blank: Blank,
) -> Result<usize, AllocError>
    requires name { blank.name ≡ L.name }
    requires parts { blank.parts ≡ L.parts }
    requires some { 0 < blank.parts }
{
    let mut looks = Looks::<L>::new(blank);
    let reached = query.resolve_counted(alloc, &mut looks)?;
    Ok(reached.len())
}

#[test]
fn counts_looks(rt: HostRuntime) {
    let graph = graph_of(&rt, rt.alloc(), TRIANGLE);
    let query = query_of(&rt, rt.alloc(), &graph, "b", FORWARD);
    let count = counted::<Brand>(rt.alloc(), query, Blank::new(1));
    assert_eq!(rt; count, Ok(2));
}
