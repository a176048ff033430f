//! Filters that stand alone, boxed, lent and round a base, and closures.

use crate::graphs::features::graphs::WEAK;
use crate::workspace::{graph_of, id_of};
use guppy_feature_graph::{
    FeatureFilter, FeatureFilterFn, FeatureGraph, FeatureGraphData, FeatureId, StandardFeatures,
    feature_id_filter, named_feature_filter, query_to_feature_query, set_to_feature_set,
};
use std::alloc::Global;
use std::process::Abort;

/// How many features of all packages of `WEAK` the filter takes.
fn taken_by<R: Abort, F: FeatureFilter>(rt: &R, alloc: Global, mut filter: F) -> usize
where
    F: Drop,
    requires { F.can_accept filter }
{
    let packages = graph_of(rt, alloc, WEAK);
    let data = FeatureGraphData::build(alloc, &packages).expect(rt, "memory");
    let graph = FeatureGraph::of(&data);
    let all = data.package_graph().resolve_all(alloc).expect(rt, "memory");
    let taken = set_to_feature_set(alloc, &graph, &all, &mut filter);
    taken.expect(rt, "memory").len()
}

#[test]
fn standard_features(rt: HostRuntime) {
    assert_eq!(rt; taken_by(&rt, rt.alloc(), StandardFeatures::None), 2);
}

#[test]
fn boxed_filter(rt: HostRuntime) {
    let boxed = Box::new(rt.alloc(), StandardFeatures::All).expect(&rt, "memory");
    let filter: Box<dyn FeatureFilter + Drop> = boxed;
    assert_eq!(rt; taken_by(&rt, rt.alloc(), filter), 5);
}

#[test]
fn lent_filter(rt: HostRuntime) {
    let mut filter = StandardFeatures::All;
    let lent: &mut dyn FeatureFilter = &mut filter;
    assert_eq!(rt; taken_by(&rt, rt.alloc(), lent), 5);
}

#[test]
fn names_beside_a_base(rt: HostRuntime) {
    let filter = named_feature_filter(StandardFeatures::None, &["std"]);
    assert_eq!(rt; taken_by(&rt, rt.alloc(), filter), 3);
}

#[test]
fn ids_beside_a_base(rt: HostRuntime) {
    let app = id_of(&rt, rt.alloc(), "app");
    let ids = [FeatureId::optional_dependency(&app, "foo")];
    let filter = feature_id_filter(StandardFeatures::None, &ids);
    assert_eq!(rt; taken_by(&rt, rt.alloc(), filter), 3);
}

#[test]
fn closure_as_a_filter(rt: HostRuntime) {
    let filter = FeatureFilterFn::new(|_graph: &FeatureGraph<'_>, id: FeatureId<'_>| -> bool {
        id.is_named()
    });
    assert_eq!(rt; taken_by(&rt, rt.alloc(), filter), 2);
}

/// Those of app are taken, from which a query starts.
#[test]
fn features_of_a_query(rt: HostRuntime) {
    let alloc = rt.alloc();
    let packages = graph_of(&rt, alloc, WEAK);
    let data = FeatureGraphData::build(alloc, &packages).expect(&rt, "memory");
    let app = id_of(&rt, alloc, "app");
    let query = data.package_graph().query_forward(alloc, &[&app]);
    let query = query.expect(&rt, "a query");
    let graph = FeatureGraph::of(&data);
    let mut filter = StandardFeatures::All;
    let taken = query_to_feature_query(alloc, &graph, &query, &mut filter);
    assert_eq!(rt; taken.expect(&rt, "memory").initials().len(), 3);
}
