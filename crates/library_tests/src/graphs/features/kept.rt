//! What callbacks keep of the features and links that they are shown lives as long as the graph.

use crate::graphs::features::graphs::WEAK;
use crate::workspace::graph_of;
use guppy_feature_graph::{
    ConditionalLink, FeatureGraph, FeatureGraphData, FeatureId, FeatureLinkContext,
};
use guppy_package_graph::DependencyDirection;
use std::alloc::Global;
use std::process::Abort;

const FORWARD: DependencyDirection = DependencyDirection::Forward;

/// The ids that a filter of all features, a partition and a partition in three are shown, by a set that is
/// gone when the ids are looked at.
fn ids_kept<'g>(
    rt: &impl Abort,
    alloc: Global,
    graph: FeatureGraph<'g>,
) -> [Vec<FeatureId<'g>>; 3] {
    let all = graph.resolve_all(alloc).expect(rt, "memory");
    let mut filtered: Vec<FeatureId<'g>> = Vec::new(alloc);
    let kept = all.filter(
        alloc,
        FORWARD,
        |shown| filtered.push(shown.feature_id()).is_ok(),
    );
    assert!(rt; kept.is_ok());
    let mut parted: Vec<FeatureId<'g>> = Vec::new(alloc);
    let parts = all.partition(
        alloc,
        FORWARD,
        |shown| parted.push(shown.feature_id()).is_ok(),
    );
    assert!(rt; parts.is_ok());
    let mut in_three: Vec<FeatureId<'g>> = Vec::new(alloc);
    let parts = all.filter_partition(alloc, FORWARD, |shown| {
        Some(in_three.push(shown.feature_id()).is_ok())
    });
    assert!(rt; parts.is_ok());
    [filtered, parted, in_three]
}

/// The links that a resolve from all features shows.
fn links_kept<'g>(
    rt: &impl Abort,
    alloc: Global,
    graph: FeatureGraph<'g>,
) -> Vec<ConditionalLink<'g>> {
    let all = graph.resolve_all(alloc).expect(rt, "memory");
    let query = all.to_feature_query(alloc, FORWARD).expect(rt, "memory");
    let mut links: Vec<ConditionalLink<'g>> = Vec::new(alloc);
    let reached = query.resolve_with_fn(alloc, |_: &FeatureLinkContext<'_>, link| {
        links.push(link).is_ok()
    });
    assert!(rt; reached.is_ok());
    links
}

#[test]
fn what_is_shown_outlives_callbacks(rt: HostRuntime) {
    let alloc = rt.alloc();
    let packages = graph_of(&rt, alloc, WEAK);
    let data = FeatureGraphData::build(alloc, &packages).expect(&rt, "memory");
    let ids = ids_kept(&rt, alloc, FeatureGraph::of(&data));
    let links = links_kept(&rt, alloc, FeatureGraph::of(&data));
    let kept = [ids[0].len(), ids[1].len(), ids[2].len(), links.len()];
    assert_eq!(rt; kept, [5, 5, 5, 4]);
}
