//! Lists of features that are given up.

use crate::graphs::features::graphs::WEAK;
use crate::workspace::{graph_of, id_of};
use guppy_feature_graph::{FeatureGraph, FeatureGraphData, FeatureLabel, FeatureList};
use guppy_package_graph::PackageMetadata;
use std::alloc::Global;
use std::process::Abort;

/// A list of the features of app gives three ids from its end, of which a base counts as eleven, and has
/// three labels.
#[test]
fn given_up_from_the_end(rt: HostRuntime) {
    let alloc = rt.alloc();
    let packages = graph_of(&rt, alloc, WEAK);
    let data = FeatureGraphData::build(alloc, &packages).expect(&rt, "memory");
    let app = &id_of(&rt, alloc, "app");
    let graph = FeatureGraph::of(&data);
    let list = graph.all_features_for(alloc, app).expect(&rt, "a list");
    let other = graph.all_features_for(alloc, app).expect(&rt, "a list");
    let mut count: usize = 0;
    for id in list.into_iter().rev() {
        if id.is_base() {
            count = count.saturating_add(10);
        }
        count = count.saturating_add(1);
    }
    assert_eq!(rt; (count, other.into_labels().len()), (13, 3));
}

/// How a list of the package prints that is made of labels out of order, one of which stands twice.
fn printed_list(rt: &impl Abort, alloc: Global, app: PackageMetadata<'_>) -> String {
    let labels = [
        FeatureLabel::OptionalDependency("foo"),
        FeatureLabel::Named("weak"),
        FeatureLabel::Base,
        FeatureLabel::Named("weak"),
    ];
    let list = FeatureList::new(alloc, app, &labels).expect(rt, "memory");
    format!(in alloc; "{}", list.display_features()).expect(rt, "memory")
}

#[test]
fn made_of_labels_out_of_order(rt: HostRuntime) {
    let alloc = rt.alloc();
    let packages = graph_of(&rt, alloc, WEAK);
    let app = id_of(&rt, alloc, "app");
    let app = packages.metadata(&app).expect(&rt, "a package");
    let printed = printed_list(&rt, alloc, app);
    assert_eq!(rt; printed.as_str(), "[base], weak, dep:foo");
}
