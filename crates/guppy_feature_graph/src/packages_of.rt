//! The packages of features.

ghost use Rattle.std.specs.Prelude.{◌≡◌, ◌<◌, All, IfOk, length, map};
ghost use Rattle.guppy_feature_demands.specs.Nodes.{nodes_of};
ghost use Rattle.guppy_feature_nodes.specs.Graphs.{AreListed, feature_at};
ghost use Rattle.guppy_package_graph.specs.Finding.{IsNamed};
ghost use Rattle.guppy_package_graph.specs.SetValues.{IsSetOf};
ghost use Rattle.guppy_feature_graph.specs.PackageFeatures.{IsOfFeature, IsPackageSetOf};

use crate::feature_set::FeatureSet;
use guppy_feature_nodes::FeatureGraphData;
use guppy_package_graph::{PackageGraph, PackageId, PackageSet};
use std::alloc::{AllocError, Global};

impl<'g> FeatureSet<'g> {
    /// The packages that have a feature in the set.
    pub fn to_package_set(&self, alloc: Global) -> Result<PackageSet<'g>, AllocError>
        ensures packages { IfOk result (IsPackageSetOf self.now.graph (IsOfFeature self.now)) }
    {
        packages_of(alloc, self)
    }
}

/// The same; what the graph's packages list are its features.
pub(crate) fn packages_of<'g>(
    alloc: Global,
    set: &FeatureSet<'g>,
) -> Result<PackageSet<'g>, AllocError>
    ensures packages { IfOk result (IsPackageSetOf set.now.graph (IsOfFeature set.now)) }
    ensures sized { length set.now.included ≡ length set.now.graph.nodes }
    ensures features { IfOk result (λ _. set.now.graph.nodes
        ≡ nodes_of set.now.graph.rows.packages) }
    ensures listed { IfOk result (λ _. AreListed set.now.graph) }
{
    let built = set.graph().built();
    let nodes = set.included().members(alloc)?;
    let ids = package_ids(alloc, built, &nodes)?;
    known_packages(alloc, built.package_graph(), &ids)
}

/// The set of the packages with these ids, which are ids of the graph: so want of memory alone is told.
pub(crate) fn known_packages<'g>(
    alloc: Global,
    graph: &'g PackageGraph,
    package_ids: &[&PackageId],
) -> Result<PackageSet<'g>, AllocError>
    ensures named { IfOk result (IsSetOf graph.entry.now
        (IsNamed graph.entry.now (map (λ id. id.now) package_ids.now))) }
{
    match graph.resolve_ids(alloc, package_ids) {
        Ok(packages) => Ok(packages),
        Err(_) => Err(AllocError),
    }
}

fn package_ids<'g>(
    alloc: Global,
    built: &'g FeatureGraphData<'g>,
    nodes: &[usize],
) -> Result<Vec<&'g PackageId>, AllocError>
    requires { All (λ v. v < length built.now.nodes) nodes.now }
    ensures { IfOk result (λ ids. map (λ id. id.now) ids.items
        ≡ map (λ v. (feature_at built.entry.now v).package_id) nodes.now) }
{
    let mut ids: Vec<&'g PackageId> = Vec::with_capacity(alloc, nodes.len())?;
    for node in nodes {
        ids.push(built.feature_at(*node).package_id())?;
    }
    Ok(ids)
}
