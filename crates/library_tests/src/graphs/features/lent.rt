//! What sets, lists and cycles lend lives as long as their graph; what is copied, compared and printed of
//! them.

use crate::graphs::features::graphs::{Question, WEAK, answer_to};
use crate::workspace::{debugged, graph_of, id_of};
use guppy_feature_graph::{
    FeatureGraph, FeatureGraphData, FeatureId, FeatureList, FeatureMetadata, FeatureQuery,
};
use guppy_package_graph::{DependencyDirection, PackageId};
use std::alloc::Global;
use std::process::Abort;

/// The features of a set that is gone when they are looked at.
fn features_of<'g>(
    rt: &impl Abort,
    alloc: Global,
    graph: FeatureGraph<'g>,
) -> Vec<FeatureMetadata<'g>> {
    let all = graph.resolve_all(alloc).expect(rt, "memory");
    let mut features: Vec<FeatureMetadata<'g>> = Vec::new(alloc);
    for feature in all.features(DependencyDirection::Forward) {
        assert!(rt; features.push(feature).is_ok());
    }
    features
}

/// The ids of a list that is gone when they are looked at.
fn ids_of<'g>(rt: &impl Abort, alloc: Global, list: FeatureList<'g>) -> Vec<FeatureId<'g>> {
    let mut ids: Vec<FeatureId<'g>> = Vec::new(alloc);
    for id in &list {
        assert!(rt; ids.push(id).is_ok());
    }
    ids
}

/// Its names, likewise.
fn names_of<'g>(rt: &impl Abort, alloc: Global, list: FeatureList<'g>) -> Vec<&'g str> {
    let mut names: Vec<&'g str> = Vec::new(alloc);
    for name in list.named_features() {
        assert!(rt; names.push(name).is_ok());
    }
    names
}

/// The ids of the features on cycles, of cycles that are gone when they are looked at.
fn cyclic_ids<'g>(rt: &impl Abort, alloc: Global, graph: FeatureGraph<'g>) -> Vec<FeatureId<'g>> {
    let cycles = graph.cycles(alloc).expect(rt, "memory");
    let mut ids: Vec<FeatureId<'g>> = Vec::new(alloc);
    for cycle in cycles.all_cycles() {
        for id in cycle {
            assert!(rt; ids.push(id).is_ok());
        }
    }
    ids
}

/// Asks how many features of app outlive their set, how many ids and names their list, and how many ids
/// their cycles.
#[derive(Drop)]
struct Outliving;

impl Question for Outliving {
    ghost use Rattle.std.specs.Prelude.{⊤};

    type Answer = [usize; 4];

    ghost can_ask = { λ _. ⊤ };

    fn ask<R: Abort>(&mut self, rt: &R, alloc: Global, data: &FeatureGraphData<'_>) -> [usize; 4] {
        let app = id_of(rt, alloc, "app");
        let graph = FeatureGraph::of(data);
        let own = count_of(&features_of(rt, alloc, graph), &app);
        let list = graph.all_features_for(alloc, &app).expect(rt, "a list");
        let ids = ids_of(rt, alloc, list);
        let list = graph.all_features_for(alloc, &app).expect(rt, "a list");
        let names = names_of(rt, alloc, list);
        let cyclic = cyclic_ids(rt, alloc, graph);
        [own, ids.len(), names.len(), cyclic.len()]
    }
}

fn count_of(features: &[FeatureMetadata<'_>], id: &PackageId) -> usize {
    features.iter().filter(|f| f.package_id() == id).count()
}

#[test]
fn features_outlive_what_lends_them(rt: HostRuntime) {
    let counts = answer_to(&rt, rt.alloc(), &mut Outliving);
    assert_eq!(rt; counts, [3, 3, 1, 0]);
}

/// A copied set is equal to its original, and to the set of a graph that was built once more.
#[test]
fn sets_are_equal_by_their_features(rt: HostRuntime) {
    let alloc = rt.alloc();
    let packages = graph_of(&rt, alloc, WEAK);
    let data = FeatureGraphData::build(alloc, &packages).expect(&rt, "memory");
    let again = FeatureGraphData::build(alloc, &packages).expect(&rt, "memory");
    let all = FeatureGraph::of(&data).resolve_all(alloc);
    let all = all.expect(&rt, "memory");
    let others = FeatureGraph::of(&again).resolve_all(alloc);
    let others = others.expect(&rt, "memory");
    let copy = all.copy(alloc).expect(&rt, "memory");
    let none = all.difference(alloc, &copy).expect(&rt, "memory");
    assert!(rt; [copy == all, all == others, none != others, others != none] == [true; 4]);
}

fn query_text(rt: &impl Abort, alloc: Global, query: &FeatureQuery<'_>) -> String {
    let copy = query.copy(alloc).expect(rt, "memory");
    debugged(rt, alloc, &copy)
}

fn list_text(rt: &impl Abort, alloc: Global, list: &FeatureList<'_>) -> String {
    let copy = list.copy(alloc).expect(rt, "memory");
    format!(in alloc; "{}", copy.display_features()).expect(rt, "memory")
}

/// How a copied query from app, and a copied list of its features, print.
fn copied_texts(rt: &impl Abort, alloc: Global, data: &FeatureGraphData<'_>) -> (String, String) {
    let app = id_of(rt, alloc, "app");
    let graph = FeatureGraph::of(data);
    let query = graph.query_forward(alloc, &[FeatureId::base(&app)]);
    let query = query_text(rt, alloc, &query.expect(rt, "a query"));
    let list = graph.all_features_for(alloc, &app);
    let list = list_text(rt, alloc, &list.expect(rt, "a list"));
    (query, list)
}

#[test]
fn copies_are_printed(rt: HostRuntime) {
    let alloc = rt.alloc();
    let packages = graph_of(&rt, alloc, WEAK);
    let data = FeatureGraphData::build(alloc, &packages).expect(&rt, "memory");
    let (query, list) = copied_texts(&rt, alloc, &data);
    assert_eq!(rt;
        query.as_str(),
        r#"FeatureQuery { direction: Forward, initials: {FeatureId { package_id: PackageId { text: "app" }, label: Base }} }"#
    );
    assert_eq!(rt; list.as_str(), "[base], weak, dep:foo");
}
