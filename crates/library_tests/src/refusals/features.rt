//! Feature graphs, their resolves and their filters.

use crate::graphs::features::visitors::Follows;
use crate::refusals::turns::{AllocatingCall, Refusal, answered, refuse_in_turn};
use crate::workspace::{RECORD, debugged, graph_of, id_of};
use guppy_feature_graph::{FeatureGraph, FeatureGraphData, FeatureId, FeatureMetadata, FeatureSet};
use guppy_package_graph::{DependencyDirection, Error, PackageGraph, PackageId};
use std::alloc::{AllocError, Global};
use std::process::Abort;

/// The ids of a set, each package's in the order of the graph, with a space after each.
fn ids_text(alloc: Global, set: &FeatureSet<'_>) -> Result<String, AllocError> {
    let mut text = String::new(alloc);
    for id in set.feature_ids(DependencyDirection::Forward) {
        write!(text, "{id} ")?;
    }
    Ok(text)
}

/// Builds the feature graph of the packages.
#[derive(Drop)]
struct Builds<'g> {
    packages: &'g PackageGraph,
}

impl AllocatingCall for Builds<'_> {
    fn answer(&mut self, alloc: Global) -> Result<String, Refusal> {
        let data = FeatureGraphData::build(alloc, self.packages)?;
        Ok(format!(in alloc; "{}", data.feature_count())?)
    }
}

/// The graph of packages is afterwards what it was before.
#[test]
fn build(rt: HostRuntime) {
    let packages = &graph_of(&rt, rt.alloc(), RECORD);
    let before = debugged(&rt, rt.alloc(), packages);
    refuse_in_turn(&rt, rt.alloc(), &mut Builds { packages }, "6");
    assert_eq!(rt;
        debugged(&rt, rt.alloc(), packages).as_str(),
        before.as_str()
    );
}

/// Resolves by a visitor that follows all links from two features of app. Where that is refused, it was shown
/// none.
#[derive(Drop)]
struct Resolves<'g, 's> {
    graph: &'s FeatureGraph<'g>,
    app: &'s PackageId,
}

impl AllocatingCall for Resolves<'_, '_> {
    fn answer(&mut self, alloc: Global) -> Result<String, Refusal> {
        let starts = [
            FeatureId::named(self.app, "fast"),
            FeatureId::named(self.app, "full"),
        ];
        let mut visitor = Follows {
            left: usize::MAX,
            shown: 0,
        };
        let forward = DependencyDirection::Forward;
        let query = answered(
            self.graph.query_directed(alloc, &starts, forward),
            Error::Memory,
        )?;
        match query.resolve_with(alloc, &mut visitor) {
            Ok(set) => Ok(ids_text(alloc, &set)?),
            Err(_) if visitor.shown == 0 => Err(Refusal::Memory),
            Err(_) => Err(Refusal::Other),
        }
    }
}

const ALL: &str = "app/full app/fast app/dep:util app/[base] util/simd util/[base] ";

fn expect_resolved(rt: &impl Abort, alloc: Global, data: &FeatureGraphData<'_>, app: &PackageId) {
    let graph = &FeatureGraph::of(data);
    refuse_in_turn(rt, alloc, &mut Resolves { graph, app }, ALL);
    let all = graph.resolve_all(alloc).expect(rt, "memory");
    let same = ids_text(alloc, &all).expect(rt, "memory");
    assert_eq!(rt; same.as_str(), ALL);
}

/// The graph has afterwards the features that it had before.
#[test]
fn resolve_with(rt: HostRuntime) {
    let packages = graph_of(&rt, rt.alloc(), RECORD);
    let app = id_of(&rt, rt.alloc(), "app");
    let data = FeatureGraphData::build(rt.alloc(), &packages).expect(&rt, "memory");
    expect_resolved(&rt, rt.alloc(), &data, &app);
}

/// Filters all features by what they are called.
#[derive(Drop)]
struct Filters<'g, 's> {
    all: &'s FeatureSet<'g>,
}

impl AllocatingCall for Filters<'_, '_> {
    fn answer(&mut self, alloc: Global) -> Result<String, Refusal> {
        let named = self.all.filter(
            alloc,
            DependencyDirection::Forward,
            |feature: FeatureMetadata<'_>| -> bool { feature.feature_id().is_named() },
        )?;
        Ok(ids_text(alloc, &named)?)
    }
}

fn expect_filtered(rt: &impl Abort, alloc: Global, data: &FeatureGraphData<'_>) {
    let all = &FeatureGraph::of(data)
        .resolve_all(alloc)
        .expect(rt, "memory");
    let named = "app/full app/fast util/simd ";
    refuse_in_turn(rt, alloc, &mut Filters { all }, named);
    let same = ids_text(alloc, all).expect(rt, "memory");
    assert_eq!(rt; same.as_str(), ALL);
}

#[test]
fn filter(rt: HostRuntime) {
    let packages = graph_of(&rt, rt.alloc(), RECORD);
    let data = FeatureGraphData::build(rt.alloc(), &packages).expect(&rt, "memory");
    expect_filtered(&rt, rt.alloc(), &data);
}
