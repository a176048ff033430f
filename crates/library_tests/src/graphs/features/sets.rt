//! Sets that closures divide, and what is said of unknown features.

use crate::graphs::features::graphs::WEAK;
use crate::workspace::{graph_of, id_of};
use guppy_feature_graph::{FeatureGraph, FeatureGraphData, FeatureId, FeatureMetadata};
use guppy_package_graph::{DependencyDirection, Error};

const FORWARD: DependencyDirection = DependencyDirection::Forward;

/// How many features are kept, refused, and kept and refused where bases are passed over.
#[test]
fn divided_by_closures(rt: HostRuntime) {
    let alloc = rt.alloc();
    let packages = graph_of(&rt, alloc, WEAK);
    let data = FeatureGraphData::build(alloc, &packages).expect(&rt, "memory");
    let all = FeatureGraph::of(&data).resolve_all(alloc);
    let all = all.expect(&rt, "memory");
    let named = all.filter(alloc, FORWARD, |f: FeatureMetadata<'_>| -> bool {
        f.feature_id().is_named()
    });
    let named = named.expect(&rt, "memory").len();
    let parts = all.partition(alloc, FORWARD, |f: FeatureMetadata<'_>| -> bool {
        f.feature_id().is_named()
    });
    let parts = parts.expect(&rt, "memory");
    let some = all.filter_partition(alloc, FORWARD, |f: FeatureMetadata<'_>| -> Option<bool> {
        if f.feature_id().is_base() {
            None
        } else {
            Some(f.feature_id().is_named())
        }
    });
    let some = some.expect(&rt, "memory");
    let counts = [named, parts.1.len(), some.0.len(), some.1.len()];
    assert_eq!(rt; counts, [2, 3, 2, 1]);
}

/// A set is asked for a feature that the graph does not have.
#[test]
fn unknown_feature_is_told(rt: HostRuntime) {
    let alloc = rt.alloc();
    let packages = graph_of(&rt, alloc, WEAK);
    let data = FeatureGraphData::build(alloc, &packages).expect(&rt, "memory");
    let foo = id_of(&rt, alloc, "foo");
    let none = FeatureGraph::of(&data).resolve_none(alloc);
    let none = none.expect(&rt, "memory");
    let found = none.contains(FeatureId::named(&foo, "nope"));
    assert!(rt; found == Err(Error::UnknownFeatureId));
}
