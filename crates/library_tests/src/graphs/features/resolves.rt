//! Resolves of features by visitors and by closures.

ghost use Rattle.std.specs.Prelude.{◌≡◌, ◌<◌};

use crate::graphs::features::graphs::WEAK;
use crate::graphs::features::visitors::{Follows, FollowsOptional};
use crate::workspace::{graph_of, id_of};
use guppy_feature_graph::{
    ConditionalLink, FeatureGraph, FeatureGraphData, FeatureId, FeatureLinkContext,
    FeatureLinkVisitor, FeatureQuery, LinkDeclarations,
};
use guppy_package_graph::DependencyDirection;
use numbered_graph::Looks;
use std::alloc::{AllocError, Global};
use std::marker::Brand;
use std::process::Abort;
use std::sync::ledger::{Blank, Ledger};

/// From the feature `weak` of app, and from its dependency foo.
fn query_of<'g>(rt: &impl Abort, alloc: Global, graph: FeatureGraph<'g>) -> FeatureQuery<'g> {
    let app = id_of(rt, alloc, "app");
    let starts = [
        FeatureId::named(&app, "weak"),
        FeatureId::optional_dependency(&app, "foo"),
    ];
    let query = graph.query_directed(alloc, &starts, DependencyDirection::Forward);
    query.expect(rt, "a query")
}

/// How many features of `WEAK` the visitor includes.
fn included_by(rt: &impl Abort, alloc: Global, visitor: &mut dyn FeatureLinkVisitor) -> usize {
    let packages = graph_of(rt, alloc, WEAK);
    let data = FeatureGraphData::build(alloc, &packages).expect(rt, "memory");
    let query = query_of(rt, alloc, FeatureGraph::of(&data));
    let included = query.resolve_with(alloc, visitor).expect(rt, "memory");
    included.len()
}

#[test]
fn refuses_all(rt: HostRuntime) {
    let mut visitor = Follows { left: 0, shown: 0 };
    assert_eq!(rt; included_by(&rt, rt.alloc(), &mut visitor), 3);
    assert_eq!(rt; visitor.shown, 4);
}

#[test]
fn accepts_all(rt: HostRuntime) {
    let mut visitor = Follows { left: 4, shown: 0 };
    assert_eq!(rt; included_by(&rt, rt.alloc(), &mut visitor), 5);
    assert_eq!(rt; visitor.left, 0);
}

#[test]
fn boxed_visitor(rt: HostRuntime) {
    let boxed = Box::new(rt.alloc(), FollowsOptional).expect(&rt, "memory");
    let mut visitor: Box<dyn FeatureLinkVisitor + Drop> = boxed;
    assert_eq!(rt; included_by(&rt, rt.alloc(), &mut *visitor), 5);
}

/// What the closure is shown, of halves alone.
#[test]
fn closure_shown_the_required_half_first(rt: HostRuntime) {
    let packages = graph_of(&rt, rt.alloc(), WEAK);
    let data = FeatureGraphData::build(rt.alloc(), &packages).expect(&rt, "memory");
    let query = query_of(&rt, rt.alloc(), FeatureGraph::of(&data));
    let mut shown = Vec::new(rt.alloc());
    let included = query.resolve_with_fn(
        rt.alloc(),
        |_cx: &FeatureLinkContext<'_>, link: ConditionalLink<'_>| -> bool {
            let declarations = link.declarations();
            declarations == LinkDeclarations::Unsplit || shown.push(declarations).is_ok()
        },
    );
    assert!(rt; included.is_ok());
    let wanted = [LinkDeclarations::Required, LinkDeclarations::Optional];
    assert!(rt; shown.iter().copied().eq(wanted.iter().copied()));
}

/// How many features a counted resolve includes where a closure follows each link.
fn counted<L: Ledger>(
    alloc: Global,
    query: FeatureQuery<'_>,
    blank: Blank,
) -> Result<usize, AllocError>
    requires name { blank.name ≡ L.name }
    requires parts { blank.parts ≡ L.parts }
    requires some { 0 < blank.parts }
{
    let mut looks = Looks::<L>::new(blank);
    let mut follows = |_cx: &FeatureLinkContext<'_>, _link: ConditionalLink<'_>| -> bool { true };
    let included = query.resolve_with_fn_counted(alloc, &mut follows, &mut looks)?;
    Ok(included.len())
}

#[test]
fn counts_looks(rt: HostRuntime) {
    let packages = graph_of(&rt, rt.alloc(), WEAK);
    let data = FeatureGraphData::build(rt.alloc(), &packages).expect(&rt, "memory");
    let query = query_of(&rt, rt.alloc(), FeatureGraph::of(&data));
    let count = counted::<Brand>(rt.alloc(), query, Blank::new(1));
    assert_eq!(rt; count, Ok(5));
}
